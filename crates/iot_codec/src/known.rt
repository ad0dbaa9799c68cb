//! What a client knows, decoded beside the rows of a tree that has most of its paths.
ghost use Rattle.std.specs.Prelude.{None, IfOk};
ghost use Rattle.std.specs.Option.{option_copied};
ghost use Rattle.iot_text.specs.Paths.{path_cmp};
ghost use Rattle.iot_tree.specs.Rows.{Rising};
ghost use Rattle.iot_codec.specs.Ahead.{ComesAfter, IsAhead};
ghost use Rattle.iot_codec.specs.Outcomes.{IsOutcome};
ghost use Rattle.iot_views.specs.Decoders.{items_at, number_at, tested};
ghost use Rattle.iot_views.specs.Decoding.{known_at, pair_at, path_at};
ghost use Rattle.iot_views.specs.Rules.{rises};

use crate::CodecFault;
use crate::parts::{malformed, room_for};
use crate::paths::{after_path, read_new};
use crate::tables::rises;
use iot_text::Path;
use iot_tree::{Known, Node, place_of};
use iot_views::number_at;
use std::alloc::Global;

/// Reads what a client knows, as `read_known` does. A path that is one of these rows, which rise, shares its names: that costs a
/// comparison of bytes, and no memory.
///
/// # Errors
///
/// `Malformed` exactly if no paths that rise are spelled there, each with its stamp. `NoMemory` if there is none for them.
#[tactic(auto, unfolding(iot_views::specs::Decoding::known_at))]
pub fn read_known_beside(
    alloc: Global,
    rows: &[(Path, Node)],
    bytes: &[u8],
    at: usize,
) -> Result<(Known, usize), CodecFault>
    requires { Rising rows.now }
    ensures { IsOutcome result (known_at bytes.now at) }
{
    let (count, at) = number_at(bytes, at)?;
    read_stamped(alloc, rows, count, bytes, at)
}

/// Reads so many paths with their stamps.
fn read_stamped(
    alloc: Global,
    rows: &[(Path, Node)],
    count: u64,
    bytes: &[u8],
    at: usize,
) -> Result<(Known, usize), CodecFault>
    requires { Rising rows.now }
    ensures { IsOutcome result (items_at (pair_at path_cmp path_at number_at) count None bytes.now at) }
{
    let mut pairs = Vec::with_capacity(alloc, room_for(count, bytes, at))?;
    let mut end = at;
    let mut place = 0;
    'pairs: for _ in 0..count {
        let (pair, after) = read_pair(alloc, rows, &mut place, pairs.last(), bytes, end)?;
        pairs.push(pair)?;
        end = after;
    }
    Ok((Known::from_vec(pairs), end))
}

/// Reads a path with its stamp, which follow others, or are the first.
#[tactic(auto, unfolding(iot_views::specs::Decoding::pair_at))]
fn read_pair(
    alloc: Global,
    rows: &[(Path, Node)],
    place: &mut usize,
    previous: Option<&(Path, u64)>,
    bytes: &[u8],
    at: usize,
) -> Result<((Path, u64), usize), CodecFault>
    requires rows { Rising rows.now }
    requires ahead { IsAhead rows.now place.old (option_copied previous) }
    ensures pair { IsOutcome result (pair_at path_cmp path_at number_at (option_copied previous.entry) bytes.now at) }
    ensures ahead { IfOk result (λ read. ComesAfter rows.now place.new read.0.0) }
{
    let (path, after) = read_path_after(alloc, rows, place, previous, bytes, at)?;
    let (stamp, end) = number_at(bytes, after)?;
    Ok(((path, stamp), end))
}

/// Reads a path that follows another one, or is the first. It shares its names with the row at the place, if it is that row's: then
/// it rises, since that row comes after the path before. The next place is the one after it.
fn read_path_after(
    alloc: Global,
    rows: &[(Path, Node)],
    place: &mut usize,
    previous: Option<&(Path, u64)>,
    bytes: &[u8],
    at: usize,
) -> Result<(Path, usize), CodecFault>
    requires rows { Rising rows.now }
    requires ahead { IsAhead rows.now place.old (option_copied previous) }
    ensures path { IsOutcome result (tested (rises path_cmp (option_copied previous.entry)) path_at bytes.now at) }
    ensures ahead { IfOk result (λ read. ComesAfter rows.now place.new read.0) }
{
    if let Some(row) = rows.get(*place) {
        if let Some(end) = after_path(&row.0, bytes, at) {
            *place += 1;
            return Ok((row.0.copy(alloc)?, end));
        }
    }
    let (path, end) = read_new(alloc, bytes, at)?;
    if !rises(previous, &path) {
        return Err(malformed(at));
    }
    *place = place_after(rows, &path);
    Ok((path, end))
}

/// The place of the first of the rows that comes after the path.
fn place_after(rows: &[(Path, Node)], path: &Path) -> usize
    requires { Rising rows.now }
    ensures { ComesAfter rows.now result path.now }
{
    match place_of(rows, path.names()) {
        Ok(place) => place + 1,
        Err(place) => place,
    }
}
