//! The merge of what changed in a server's tree into a held tree.
ghost use Rattle.std.specs.Prelude.{◌≡◌, ◌≢◌, [], true, IsTrue, IfOk, map, cond, OnOk, OnErr, IfErr};
ghost use Rattle.std.specs.FinMap.{is_sorted, from_sorted, entries};
ghost use Rattle.iot_text.specs.Paths.{path_cmp};
ghost use Rattle.iot_tree.specs.Tree.{IsTree};
ghost use Rattle.iot_tree.specs.Snapshots.{ArePathsRising, is_known};
ghost use Rattle.iot_stamp.specs.Mapped.{mapped};
ghost use Rattle.iot_stamp.specs.Stamps.{nodes_of};
ghost use Rattle.iot_stamp.specs.Refresh.{merged, zeroed};
ghost use Rattle.iot_stamp.specs.Pairing.{paired, AreStamps};
ghost use Rattle.iot_held.specs.declared.merging.MergeFault.TheVariants.{NoMemory as NoRoom};

use crate::joining::joined_rows;
use iot_stamp::{Stamped, stamp_of};
use iot_text::NoMemory;
use iot_tree::{Changes, RowFault, Rows, StampedRows};
use std::alloc::Global;
use thiserror::Error;

/// Why changes are not merged.
#[derive(Clone, Copy, Debug, PartialEq, Eq, Error)]
pub enum MergeFault {
    /// There is no memory for the outcome.
    #[error("out of memory")]
    NoMemory = 1,
    /// The outcome is no tree.
    #[error("what the changes make is no tree")]
    NoTree = 2,
}

impl From<NoMemory> for MergeFault {
    ghost from_gives = { λ _ fault. fault ≡ NoRoom };

    fn from(_failed: NoMemory) -> Self {
        MergeFault::NoMemory
    }
}

/// Drops the rows at or below the paths that are gone and the far children of each path among the new rows, and sets
/// the new rows; a far row gets stamp 0. After an error the tree is as it was.
pub(crate) fn merge_changes(
    alloc: Global,
    held: &mut Stamped,
    changes: Changes,
) -> Result<(), MergeFault>
    requires rows { IsTrue (is_sorted path_cmp changes.rows) }
    requires gone { ArePathsRising changes.gone }
    ensures ok { OnOk result (held.new ≡ merged held.old changes.rows changes.gone) }
    ensures err { OnErr result (held.new ≡ held.old) }
    ensures no_tree { IfErr result
        (λ fault. fault ≢ MergeFault.NoMemory → IsTree (nodes_of (merged held.old changes.rows changes.gone)) → ⊥) }
{
    let tree = held.tree();
    if is_nothing(&changes) {
        return Ok(());
    }
    let Changes { rows, gone } = changes;
    let entries = joined_rows(
        alloc,
        tree.rows().as_slice(),
        held.stamps(),
        rows,
        gone.as_slice(),
    )?;
    match stamped(alloc, entries) {
        Ok(new) => {
            *held = new;
            Ok(())
        }
        Err(fault) => Err(fault),
    }
}

/// Whether there are neither rows nor paths that are gone.
fn is_nothing(changes: &Changes) -> bool
    ensures rows { result ≡ true → changes.now.rows ≡ [] }
    ensures gone { result ≡ true → changes.now.gone ≡ [] }
{
    changes.rows.is_empty() && changes.gone.is_empty()
}

/// The stamped tree of these entries.
fn stamped(alloc: Global, entries: StampedRows) -> Result<Stamped, MergeFault>
    requires { IsTrue (is_sorted path_cmp entries) }
    ensures ok { IfOk result (λ t. t ≡ mapped zeroed (from_sorted entries)) }
    ensures no_tree { IfErr result (λ fault. fault ≢ MergeFault.NoMemory → IsTree (nodes_of (mapped zeroed (from_sorted entries))) → ⊥) }
{
    let (rows, stamps) = split(alloc, entries)?;
    from_parts(rows, stamps)
}

/// The stamped tree of rows and stamps.
fn from_parts(rows: Rows, stamps: Vec<u64>) -> Result<Stamped, MergeFault>
    requires stamps { AreStamps rows stamps.items }
    requires rising { IsTrue (is_sorted path_cmp rows) }
    ensures ok { IfOk result (λ t. entries t ≡ paired rows stamps.items) }
    ensures no_tree { IfErr result (λ fault. fault ≢ MergeFault.NoMemory → IsTree (from_sorted rows) → ⊥) }
{
    match Stamped::from_rows(rows, stamps) {
        Ok(new) => Ok(new),
        Err(RowFault::NoTree { .. }) => Err(MergeFault::NoTree),
        Err(RowFault::NoMemory) => Err(MergeFault::NoMemory),
    }
}

/// The rows of these entries, and their stamps: 0 for a far row.
fn split(alloc: Global, entries: StampedRows) -> Result<(Rows, Vec<u64>), NoMemory>
    ensures { IfOk result
        (λ both. (both.0 ≡ map (λ e. (e.0, e.1.0)) entries) × (both.1.items ≡ map (λ e. cond (is_known e.1.0) e.1.1 0) entries)) }
{
    let mut rows = Rows::from_vec(Vec::with_capacity(alloc, entries.len())?);
    let mut stamps: Vec<u64> = Vec::with_capacity(alloc, entries.len())?;
    'entries: for (path, (node, stamp)) in entries.into_vec() {
        stamps.push(stamp_of(&node, stamp))?;
        rows.push((path, node))?;
    }
    Ok((rows, stamps))
}
