//! What a server sends of its tree.
ghost use Rattle.std.specs.Prelude.{◌≡◌, ◌++◌, ◌∷◌, ◌&&◌, ◌||◌, [], cond, not, is_some, IfOk, OnOk, IsTrue, length, slice_get, ◌-◌};
ghost use Rattle.std.specs.List.{filter_map, AllByRecursion};
ghost use Rattle.std.specs.FinMap.{is_sorted};
ghost use Rattle.iot_text.specs.Paths.{IsPath, path_cmp};
ghost use Rattle.iot_tree.specs.Rows.{AreTreeRows};
ghost use Rattle.iot_prune.specs.Walks.{begins};
ghost use Rattle.iot_tree.specs.Snapshots.{ArePathsRising, seen};
ghost use Rattle.iot_stamp.specs.Stamps.{stamped_node};
ghost use Rattle.iot_stamp.specs.Refresh.{gone_paths, is_stamp, IsStampedRow};
ghost use Rattle.iot_stamp.specs.Pairing.{stamps_of};
ghost use Rattle.iot_stamp.specs.Passes.{above_of, kept, wanted, sending};

use crate::cursor::{pass_all, pass_to, push_path};
use crate::nodes::stamp_of;
use iot_prune::walking::{begins, from};
use iot_text::{NoMemory, Path};
use iot_tree::{Changes, Duplicate, Node, Paths, StampedRows, Want};
use std::alloc::Global;

/// What changed for a client that sent these paths with their stamps, of the tree cut down to them, to those that are wanted and to
/// the listed ones: one pass over the three lists.
pub(crate) fn changes_in(
    alloc: Global,
    rows: &[(Path, Node)],
    stamps: &[u64],
    sent: &[(Path, u64)],
    want: &Want,
    listed: &[Path],
) -> Result<Changes, NoMemory>
    requires tree { AreTreeRows rows.now }
    requires count { length stamps.now ≡ length rows.now }
    requires rising { IsTrue (is_sorted path_cmp sent.now) }
    requires listed { ArePathsRising listed.now }
    ensures rows { IfOk result
        (λ out. out.rows
        ≡ filter_map (sending (stamps_of rows.now stamps.now) sent.now (kept (stamps_of rows.now stamps.now) sent.now want.now listed.now))
        rows.now) }
    ensures gone { IfOk result
        (λ out. out.gone
        ≡ gone_paths (stamps_of rows.now stamps.now) sent.now (kept (stamps_of rows.now stamps.now) sent.now want.now listed.now)) }
    ensures each { IfOk result (λ out. AllByRecursion IsStampedRow out.rows × AllByRecursion IsPath out.gone) }
{
    let mut out = StampedRows::new(alloc);
    let mut gone = Paths::new(alloc);
    let mut flags: Vec<(bool, bool)> = Vec::new(alloc);
    let mut rest = sent;
    let mut left = listed;
    'rows: for at in 0..rows.len() {
        let row = &rows[at];
        let stamp = stamps[at];
        flags.truncate(row.0.names().len());
        let above = above_of(flags.as_slice());
        let (known, after) = pass_to(alloc, &row.0, rest, &mut gone)?;
        push_if(alloc, is_hidden(known, above), &row.0, &mut gone)?;
        rest = after;
        left = from(&row.0, left);
        let kept = is_kept(&row.0, known, want, left);
        let fresh = !is_stamp(known, stamp);
        flags.push(for_rows_below(above, kept, fresh))?;
        if is_sent(above, kept, fresh) {
            out.push(row_to_send(alloc, row, kept, stamp)?)?;
        }
    }
    pass_all(alloc, rest, &mut gone)?;
    Ok(Changes { rows: out, gone })
}

/// Puts the path after the others, if this holds.
fn push_if(alloc: Global, holds: bool, path: &Path, paths: &mut Paths) -> Result<(), NoMemory>
    ensures pushed { OnOk result (paths.new ≡ paths.old ++ cond holds (path.now ∷ []) []) }
    ensures each { OnOk result (AllByRecursion IsPath paths.old → AllByRecursion IsPath paths.new) }
{
    if holds {
        push_path(alloc, path, paths)?;
    }
    Ok(())
}

/// Whether the row's path was sent, and the client sees no row there.
fn is_hidden(sent: Option<u64>, above: (bool, bool)) -> bool
    ensures { result ≡ (is_some sent && not above.0) }
{
    sent.is_some() && !above.0
}

/// What is kept of the row's parent.
fn above_of(flags: &[(bool, bool)]) -> (bool, bool)
    ensures { result ≡ above_of (slice_get flags.now (length flags.now - 1)) }
{
    match flags.last() {
        Some(kept) => *kept,
        None => (true, false),
    }
}

/// Whether this stamp was sent.
fn is_stamp(sent: Option<u64>, stamp: u64) -> bool
    ensures { result ≡ is_stamp sent stamp }
{
    match sent {
        Some(known) => known == stamp,
        None => false,
    }
}

/// Whether the tree's path is wanted.
fn is_wanted(want: &Want, path: &Path) -> bool
    ensures { result ≡ wanted want.now path.now }
{
    match want {
        Want::Nothing => false,
        Want::Path(wanted) => wanted.names().starts_with(path.names()),
        Want::Below(wanted) => {
            wanted.names().starts_with(path.names()) || path.names().starts_with(wanted.names())
        }
    }
}

/// Whether the path was sent, is wanted or is the next listed one.
fn is_kept(path: &Path, sent: Option<u64>, want: &Want, listed: &[Path]) -> bool
    ensures { result ≡ ((is_some sent || wanted want.now path.now) || begins path.now listed.now) }
{
    sent.is_some() || is_wanted(want, path) || begins(path, listed)
}

/// What is kept for the rows below.
fn for_rows_below(above: (bool, bool), kept: bool, fresh: bool) -> (bool, bool)
    ensures { result ≡ (above.0 && kept, fresh) }
{
    (above.0 && kept, fresh)
}

/// Whether something is sent of the row.
fn is_sent(above: (bool, bool), kept: bool, fresh: bool) -> bool
    ensures { result ≡ (above.0 && cond kept fresh above.1) }
{
    above.0 && if kept { fresh } else { above.1 }
}

/// The row that is sent.
fn row_to_send(
    alloc: Global,
    row: &(Path, Node),
    kept: bool,
    stamp: u64,
) -> Result<(Path, (Node, u64)), NoMemory>
    ensures row { IfOk result (λ sent. sent ≡ (row.now.0, stamped_node (seen kept row.now.1) stamp)) }
    ensures each { IfOk result IsStampedRow }
{
    // That it is a path is known of its names.
    let _names = row.0.names();
    let node = row.1.seen(alloc, kept)?;
    let stamp = stamp_of(&node, stamp);
    Ok((row.0.copy(alloc)?, (node, stamp)))
}
