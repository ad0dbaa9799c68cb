//! How far transactions are that wait, each with the access of what was run in its place.
ghost use Rattle.std.specs.Prelude.{◌≡◌, ◌++◌, OnOk, OnErr, unwrap_or};
ghost use Rattle.std.specs.Option.{option_copied};
ghost use Rattle.iot_text.specs.Texts.{AppendsPart};
ghost use Rattle.iot_access.specs.Access.{no_access};
ghost use Rattle.iot_codec.specs.Outcomes.{IsOutcome};
ghost use Rattle.iot_codec.specs.Spelling.{access_spelling};
ghost use Rattle.iot_changes.specs.Spelling.{run_spelling, outcome_spelling, resolution_spelling};
ghost use Rattle.iot_bodies.specs.Decoding.{resolved_at, stage_at};
ghost use Rattle.iot_bodies.specs.Spelling.{stage_spelling};

use crate::parts::{malformed, tag_at};
use iot_access::of_nothing;
use iot_changes::read_resolution;
use iot_codec::{CodecFault, Spelled};
use iot_queue::{Resolution, Stage};
use iot_text::{NoMemory, Text};
use iot_tree::Access;
use std::alloc::Global;

/// Appends the script and the budget.
fn put_run(value: &Resolution, out: &mut Text) -> Result<(), NoMemory>
    ensures ok { OnOk result (out.new ≡ out.old ++ run_spelling value.now) }
    ensures err { OnErr result (AppendsPart out.old out.new (run_spelling value.now)) }
{
    value.script.put(out)?;
    value.budget.put(out)
}

/// Appends the kept files and the acts.
fn put_outcome(value: &Resolution, out: &mut Text) -> Result<(), NoMemory>
    ensures ok { OnOk result (out.new ≡ out.old ++ outcome_spelling value.now) }
    ensures err { OnErr result (AppendsPart out.old out.new (outcome_spelling value.now)) }
{
    value.kept.put(out)?;
    value.acts.put(out)
}

/// Appends the resolution: what was run, and what that did. The call of `iot_changes` asks that a resolution has a spelling, but an
/// element of a list is written whatever it is.
#[tactic(auto, unfolding(iot_changes::specs::Spelling::resolution_spelling))]
fn put_resolution(value: &Resolution, out: &mut Text) -> Result<(), NoMemory>
    ensures ok { OnOk result (out.new ≡ out.old ++ resolution_spelling value.now) }
    ensures err { OnErr result (AppendsPart out.old out.new (resolution_spelling value.now)) }
{
    put_run(value, out)?;
    put_outcome(value, out)
}

/// Appends the access of nothing: no base reads, and no updates.
#[tactic(auto, unfolding(iot_codec::specs::Spelling::access_spelling))]
fn put_nothing(out: &mut Text) -> Result<(), NoMemory>
    ensures ok { OnOk result (out.new ≡ out.old ++ access_spelling no_access) }
    ensures err { OnErr result (AppendsPart out.old out.new (access_spelling no_access)) }
{
    0_u64.put(out)?;
    0_u64.put(out)
}

/// Appends the access, or that of nothing.
fn put_asked(access: Option<&Access>, out: &mut Text) -> Result<(), NoMemory>
    ensures ok { OnOk result (out.new ≡ out.old ++ access_spelling (unwrap_or (option_copied access.entry) no_access)) }
    ensures err { OnErr result (AppendsPart out.old out.new (access_spelling (unwrap_or (option_copied access.entry) no_access))) }
{
    match access {
        Some(access) => access.put(out),
        None => put_nothing(out),
    }
}

/// Appends the stage: its tag, and of a resolution what was run and the access, if there is one, or that of nothing.
#[tactic(auto, unfolding(crate::specs::Spelling::stage_spelling))]
pub(crate) fn put_stage(
    stage: &Stage,
    access: Option<&Access>,
    out: &mut Text,
) -> Result<(), NoMemory>
    ensures ok { OnOk result (out.new ≡ out.old ++ stage_spelling stage.now (unwrap_or (option_copied access.entry) no_access)) }
    ensures err { OnErr result (AppendsPart out.old out.new (stage_spelling stage.now (unwrap_or (option_copied access.entry) no_access))) }
{
    match stage {
        Stage::Waiting => out.push(1),
        Stage::Conflict => out.push(2),
        Stage::Manual => out.push(3),
        Stage::Resolved(resolution) => {
            out.push(4)?;
            put_resolution(resolution, out)?;
            put_asked(access, out)
        }
    }
}

/// Reads what follows the tag of a resolution.
#[tactic(auto, unfolding(crate::specs::Decoding::resolved_at))]
fn read_resolved(
    alloc: Global,
    bytes: &[u8],
    at: usize,
) -> Result<((Stage, Access), usize), CodecFault>
    ensures { IsOutcome result (resolved_at bytes.now at) }
{
    let (resolution, at) = read_resolution(alloc, bytes, at)?;
    let (access, end) = Access::read(alloc, bytes, at)?;
    Ok(((Stage::Resolved(resolution), access), end))
}

/// Reads a stage, and the access of what was run, if something was, or that of nothing.
#[tactic(auto, unfolding(crate::specs::Decoding::stage_at))]
pub(crate) fn read_stage(
    alloc: Global,
    bytes: &[u8],
    at: usize,
) -> Result<((Stage, Access), usize), CodecFault>
    ensures { IsOutcome result (stage_at bytes.now at) }
{
    match tag_at(bytes, at) {
        Some(1) => Ok(((Stage::Waiting, of_nothing(alloc)), at + 1)),
        Some(2) => Ok(((Stage::Conflict, of_nothing(alloc)), at + 1)),
        Some(3) => Ok(((Stage::Manual, of_nothing(alloc)), at + 1)),
        Some(4) => read_resolved(alloc, bytes, at + 1),
        _ => Err(malformed(at)),
    }
}
