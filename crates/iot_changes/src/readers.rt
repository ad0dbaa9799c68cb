//! Reading changes.
ghost use Rattle.std.specs.Prelude.{◌≡◌, IfOk, Ok};
ghost use Rattle.iot_codec.specs.Outcomes.{IsOutcome};
ghost use Rattle.iot_changes.specs.Decoding.{change_at, held_at, begun_at, fetched_at, acted_at, ended_at, cut_at};
ghost use Rattle.iot_changes.specs.Decoding.{resolved_at, repaired_at, again_at};
ghost use Rattle.iot_changes.specs.Rules.{IsChange};
ghost use Rattle.iot_changes.specs.Spelling.{change_spelling};
ghost use Rattle.iot_wire.specs.Messages.{IsMessage, ReadsMessage, IsOneMessage, whole};

use crate::Change;
use crate::parts::{finished, malformed, tag_of};
use crate::resolutions::read_resolution;
use iot_codec::{
    CodecFault, read_access, read_act, read_name, read_number, read_option, read_tree,
};
use std::alloc::Global;

/// Reads what follows the tag of objects that were brought.
#[tactic(auto, unfolding(crate::specs::Decoding::held_at))]
fn read_held(alloc: Global, bytes: &[u8], at: usize) -> Result<(Change, usize), CodecFault>
    ensures { IsOutcome result (held_at bytes.now at) }
{
    let (tree, end) = read_tree(alloc, bytes, at)?;
    Ok((Change::Held(tree), end))
}

/// Reads what follows the tag of a beginning.
#[tactic(auto, unfolding(crate::specs::Decoding::begun_at))]
fn read_begun(alloc: Global, bytes: &[u8], at: usize) -> Result<(Change, usize), CodecFault>
    ensures { IsOutcome result (begun_at bytes.now at) }
{
    let (number, at) = read_number(alloc, bytes, at)?;
    let (script, at) = read_name(alloc, bytes, at)?;
    let (option, end) = read_option(alloc, bytes, at)?;
    let change = Change::Begun {
        number,
        script,
        option,
    };
    Ok((change, end))
}

/// Reads what follows the tag of objects that were brought for a running transaction.
#[tactic(auto, unfolding(crate::specs::Decoding::fetched_at))]
fn read_fetched(alloc: Global, bytes: &[u8], at: usize) -> Result<(Change, usize), CodecFault>
    ensures { IsOutcome result (fetched_at bytes.now at) }
{
    let (number, at) = read_number(alloc, bytes, at)?;
    let (tree, end) = read_tree(alloc, bytes, at)?;
    Ok((Change::Fetched { number, tree }, end))
}

/// Reads what follows the tag of an act.
#[tactic(auto, unfolding(crate::specs::Decoding::acted_at))]
fn read_acted(alloc: Global, bytes: &[u8], at: usize) -> Result<(Change, usize), CodecFault>
    ensures { IsOutcome result (acted_at bytes.now at) }
{
    let (number, at) = read_number(alloc, bytes, at)?;
    let (act, end) = read_act(alloc, bytes, at)?;
    Ok((Change::Acted { number, act }, end))
}

/// Reads what follows the tag of an end.
#[tactic(auto, unfolding(crate::specs::Decoding::ended_at))]
fn read_ended(alloc: Global, bytes: &[u8], at: usize) -> Result<(Change, usize), CodecFault>
    ensures { IsOutcome result (ended_at bytes.now at) }
{
    let (number, end) = read_number(alloc, bytes, at)?;
    Ok((Change::Ended { number }, end))
}

/// Reads what follows the tag of a cut.
#[tactic(auto, unfolding(crate::specs::Decoding::cut_at))]
fn read_cut(alloc: Global, bytes: &[u8], at: usize) -> Result<(Change, usize), CodecFault>
    ensures { IsOutcome result (cut_at bytes.now at) }
{
    let (number, at) = read_number(alloc, bytes, at)?;
    let (acts, end) = read_number(alloc, bytes, at)?;
    Ok((Change::Cut { number, acts }, end))
}

/// Reads what follows the tag of a resolution.
#[tactic(auto, unfolding(crate::specs::Decoding::resolved_at))]
fn read_resolved(alloc: Global, bytes: &[u8], at: usize) -> Result<(Change, usize), CodecFault>
    ensures { IsOutcome result (resolved_at bytes.now at) }
{
    let (resolution, at) = read_resolution(alloc, bytes, at)?;
    let (access, end) = read_access(alloc, bytes, at)?;
    Ok((Change::Resolved(resolution, access), end))
}

/// Reads what follows the tag of a repair.
#[tactic(auto, unfolding(crate::specs::Decoding::repaired_at))]
fn read_repaired(alloc: Global, bytes: &[u8], at: usize) -> Result<(Change, usize), CodecFault>
    ensures { IsOutcome result (repaired_at bytes.now at) }
{
    let (script, end) = read_name(alloc, bytes, at)?;
    Ok((Change::Repaired(script), end))
}

/// Reads what follows the tag of a transaction that starts again.
#[tactic(auto, unfolding(crate::specs::Decoding::again_at))]
fn read_again(alloc: Global, bytes: &[u8], at: usize) -> Result<(Change, usize), CodecFault>
    ensures { IsOutcome result (again_at bytes.now at) }
{
    let (number, end) = read_number(alloc, bytes, at)?;
    Ok((Change::Again { number }, end))
}

/// Reads a change, and gives the offset after it.
#[tactic(auto, unfolding(crate::specs::Decoding::change_at))]
fn read_tagged(alloc: Global, bytes: &[u8]) -> Result<(Change, usize), CodecFault>
    ensures { IsOutcome result (change_at bytes.now 0) }
{
    match tag_of(bytes) {
        Some(1) => read_held(alloc, bytes, 1),
        Some(2) => read_begun(alloc, bytes, 1),
        Some(3) => read_fetched(alloc, bytes, 1),
        Some(4) => read_acted(alloc, bytes, 1),
        Some(5) => read_ended(alloc, bytes, 1),
        Some(6) => read_cut(alloc, bytes, 1),
        Some(7) => Ok((Change::Conflicted, 1)),
        Some(8) => read_resolved(alloc, bytes, 1),
        Some(9) => read_repaired(alloc, bytes, 1),
        Some(10) => Ok((Change::Left, 1)),
        Some(11) => read_again(alloc, bytes, 1),
        _ => Err(malformed(0)),
    }
}

/// Reads the bytes as a change.
fn read_whole(alloc: Global, bytes: &[u8]) -> Result<Change, CodecFault>
    ensures { IsOutcome result (whole change_at bytes.now) }
{
    let (change, end) = read_tagged(alloc, bytes)?;
    finished(change, end, bytes)
}

/// The change whose spelling the bytes are.
///
/// # Errors
///
/// `Malformed` exactly if they are that of no change: `at` is the first fault from the left, or
/// the offset of the first byte that is left after a change. `NoMemory` if there is none for it.
pub fn read_change(alloc: Global, bytes: &[u8]) -> Result<Change, CodecFault>
    ensures found { IfOk result (IsMessage IsChange change_spelling bytes.now) }
    ensures only { ReadsMessage IsChange change_spelling bytes.now result }
    ensures one { IsOneMessage IsChange change_spelling bytes.now }
    ensures exact { IsOutcome result (whole change_at bytes.now) }
{
    read_whole(alloc, bytes)
}
