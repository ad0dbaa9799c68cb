//! What a client makes of its rows and of those that were sent.
ghost use Rattle.std.specs.Prelude.{◌≡◌, ◌<◌, ◌-◌, ◌++◌, [], ◌&&◌, ◌||◌, not, is_some, IfOk, IfNone, IsTrue, OnOk, OnSome, length};
ghost use Rattle.std.specs.Prelude.{option_to_list, slice_get};
ghost use Rattle.std.specs.FinMap.{is_sorted};
ghost use Rattle.iot_text.specs.Paths.{path_cmp};
ghost use Rattle.iot_tree.specs.Rows.{AreTreeRows};
ghost use Rattle.iot_tree.specs.Snapshots.{ArePathsRising, is_known};
ghost use Rattle.iot_stamp.specs.Refresh.{stays};
ghost use Rattle.iot_stamp.specs.Pairing.{paired};
ghost use Rattle.iot_stamp.specs.Passes.{before_key, from_key, head_at};
ghost use Rattle.iot_held.specs.Weave.{above_or_none, are_ahead, begins_before, woven};

use iot_prune::walking::{begins, from};
use iot_text::{NoMemory, Path};
use iot_tree::{Duplicate, Node, StampedRows};
use std::alloc::Global;
use std::collections::VecDeque;

/// Rows that were sent and are not yet moved.
type Sent = VecDeque<(Path, (Node, u64))>;

/// The rows that were sent, which are moved, and the held rows that stay, in order: one pass over the three lists.
pub(crate) fn joined_rows(
    alloc: Global,
    held: &[(Path, Node)],
    stamps: &[u64],
    rows: StampedRows,
    gone: &[Path],
) -> Result<StampedRows, NoMemory>
    requires tree { AreTreeRows held.now }
    requires count { length stamps.now ≡ length held.now }
    requires rows { IsTrue (is_sorted path_cmp rows) }
    requires gone { ArePathsRising gone.now }
    ensures { IfOk result (λ out. out ≡ woven (stays rows gone.now) (paired held.now stamps.now) rows) }
{
    let mut out = StampedRows::from_vec(Vec::with_capacity(alloc, held.len() + rows.len())?);
    let mut flags: Vec<(bool, bool)> = Vec::new(alloc);
    let mut rest = Sent::from(rows.into_vec());
    let mut left = gone;
    'held: for at in 0..held.len() {
        let row = &held[at];
        let stamp = stamps[at];
        flags.truncate(row.0.names().len());
        let above = above_or_none(flags.as_slice());
        let set = reach(&row.0, &mut rest, &mut out)?;
        left = from(&row.0, left);
        let goes = either(above.1, begins(&row.0, left));
        flags.push((set, goes))?;
        if is_kept(&row.1, above.0, goes, set) {
            out.push((row.0.copy(alloc)?, (row.1.copy(alloc)?, stamp)))?;
        }
    }
    move_all(rest, &mut out)?;
    Ok(out)
}

/// Moves the entries that come before the path out of the queue, behind the others, and says whether the path's is the next one.
/// Costs one comparison if the first of them comes after the path.
fn reach(path: &Path, entries: &mut Sent, out: &mut StampedRows) -> Result<bool, NoMemory>
    ensures rest { OnOk result (entries.new.items ≡ from_key path.now entries.old.items) }
    ensures out { OnOk result (out.new ≡ out.old ++ before_key path.now entries.old.items) }
    ensures here { IfOk result (λ here. here ≡ is_some (head_at path.now entries.new.items)) }
{
    if are_ahead(path, entries) {
        return Ok(false);
    }
    move_before(path, entries, out)?;
    Ok(begins_entry(path, entries))
}

/// Whether all entries come after the path, by the first of them.
fn are_ahead(path: &Path, entries: &Sent) -> bool
    ensures { result ≡ are_ahead path.now entries.now.items }
{
    match entries.front() {
        Some(first) => path.cmp(&first.0).is_lt(),
        None => true,
    }
}

/// Moves the entries up to the first that does not come before the path out of the queue, behind the others.
fn move_before(path: &Path, entries: &mut Sent, out: &mut StampedRows) -> Result<(), NoMemory>
    ensures rest { OnOk result (entries.new.items ≡ from_key path.now entries.old.items) }
    ensures out { OnOk result (out.new ≡ out.old ++ before_key path.now entries.old.items) }
{
    'entries: while let Some(entry) = next_before(path, entries) {
        out.push(entry)?;
    }
    Ok(())
}

/// Takes the first entry out of the queue, if it comes before the path.
fn next_before(path: &Path, entries: &mut Sent) -> Option<(Path, (Node, u64))>
    ensures before { before_key path.now entries.old.items ≡ option_to_list result ++ before_key path.now entries.new.items }
    ensures rest { from_key path.now entries.old.items ≡ from_key path.now entries.new.items }
    ensures shorter { OnSome result (length entries.new.items < length entries.old.items) }
    ensures none { IfNone result (before_key path.now entries.new.items ≡ []) }
    ensures stops { IfNone result (from_key path.now entries.new.items ≡ entries.new.items) }
{
    if begins_before(path, entries) {
        entries.pop_front()
    } else {
        None
    }
}

/// Whether the first entry comes before the path.
fn begins_before(path: &Path, entries: &Sent) -> bool
    ensures { result ≡ begins_before path.now entries.now.items }
{
    match entries.front() {
        Some(first) => first.0.cmp(path).is_lt(),
        None => false,
    }
}

/// Moves the entries behind the others.
fn move_all(entries: Sent, out: &mut StampedRows) -> Result<(), NoMemory>
    ensures { OnOk result (out.new ≡ out.old ++ entries.items) }
{
    let mut left = entries;
    'entries: while let Some(entry) = left.pop_front() {
        out.push(entry)?;
    }
    Ok(())
}

/// Whether the first entry is the path's.
fn begins_entry(path: &Path, entries: &Sent) -> bool
    ensures { result ≡ is_some (head_at path.now entries.now.items) }
{
    match entries.front() {
        Some(first) => path.cmp(&first.0).is_eq(),
        None => false,
    }
}

/// What is kept of the row's parent.
fn above_or_none(flags: &[(bool, bool)]) -> (bool, bool)
    ensures { result ≡ above_or_none (slice_get flags.now (length flags.now - 1)) }
{
    match flags.last() {
        Some(kept) => *kept,
        None => (false, false),
    }
}

/// Whether one of the two holds.
fn either(a: bool, b: bool) -> bool
    ensures { result ≡ (a || b) }
{
    a || b
}

/// Whether a held row is kept: it does not go, is no far child of a row that was sent, and none was sent in its place.
fn is_kept(node: &Node, parent_set: bool, goes: bool, set: bool) -> bool
    ensures { result ≡ ((not goes && (is_known node.now || not parent_set)) && not set) }
{
    if goes || set {
        return false;
    }
    !parent_set || node.is_known()
}
