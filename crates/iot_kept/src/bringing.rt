//! The held tree after what a reply brings.
ghost use Rattle.std.specs.Prelude.{◌≡◌, ◌≢◌, [], IfOk, IfErr, OnOk, OnErr, IsErrOf, true};
ghost use Rattle.iot_views.specs.Rules.{AreChanges};
ghost use Rattle.iot_slots.specs.Cells.{next};
ghost use Rattle.iot_tree.specs.Tree.{IsTree, Nodes};
ghost use Rattle.iot_changes.specs.Rules.{IsChange};
ghost use Rattle.iot_changes.specs.Spelling.{change_spelling};
ghost use Rattle.iot_stamp.specs.Stamps.{Stamps, nodes_of};
ghost use Rattle.iot_kept.specs.Bringing.{of_merge, of_note, base_for, brought, brought_for, bringing, CountsBringFault};
ghost use Rattle.iot_kept.specs.Changes.{CanFollow, after};
ghost use Rattle.iot_kept.specs.Kept.{IsHeldRecord};
ghost use Rattle.iot_kept.specs.Standing.{EachStands, EachStandsEither};
ghost use Rattle.iot_kept.specs.declared.bringing.BringFault.TheVariants.{NoMemory as NoRoom};

use crate::kept::Kept;
use iot_changes::{Change, put_change};
use iot_disk::Disk;
use iot_durable::NoteFault;
use iot_held::{Held, MergeFault};
use iot_text::{NoMemory, Text};
use iot_tree::{Changes, Tree};
use std::alloc::Global;
use thiserror::Error;

/// How many bytes each row of a record has room for at first, which are enough for most of them.
const ROOM_FOR_ROW: usize = 80;

/// What a reply's changes are brought for.
#[derive(Clone, Copy, Debug, PartialEq, Eq)]
pub enum Purpose {
    /// To be held.
    Hold,
    /// For the running transaction with this number, which starts again.
    Fetch { number: u64 },
    /// To be held in place of all that was held.
    Walk,
}

/// Why changes are not brought.
#[derive(Clone, Copy, Debug, PartialEq, Eq, Error)]
pub enum BringFault {
    #[error("out of memory")]
    NoMemory,
    #[error("the disk failed")]
    Stopped,
    /// What they make of the tree into which they are merged is no tree.
    #[error("what the changes make is no tree")]
    NoTree,
}

impl From<MergeFault> for BringFault {
    ghost from_gives = { λ merge fault. fault ≡ of_merge merge };

    fn from(fault: MergeFault) -> Self {
        match fault {
            MergeFault::NoMemory => BringFault::NoMemory,
            MergeFault::NoTree => BringFault::NoTree,
        }
    }
}

impl From<NoteFault> for BringFault {
    ghost from_gives = { λ note fault. fault ≡ of_note note };

    fn from(fault: NoteFault) -> Self {
        match fault {
            NoteFault::NoMemory => BringFault::NoMemory,
            NoteFault::StoppedBefore => BringFault::Stopped,
            NoteFault::StoppedInDoubt => BringFault::Stopped,
        }
    }
}

impl From<NoMemory> for BringFault {
    ghost from_gives = { λ _ fault. fault ≡ NoRoom };

    fn from(_failed: NoMemory) -> Self {
        BringFault::NoMemory
    }
}

impl<D: Disk> Kept<D> {
    ghost use Rattle.iot_kept.specs.Kept.{state_of, stamps_of, classes_in, disk_of, records_of, IsSynced};

    /// Merges the changes into the held tree, or for a walk into nothing, and holds the outcome. Appends one record, of the whole tree,
    /// which is on the disk when this answers Ok.
    /// Costs a pass over the tree and a copy of the record's bytes; with a checkpoint as much as the whole state is long.
    ///
    /// # Errors
    ///
    /// `NoTree`, exactly if the outcome is no tree; it changes nothing. `Stopped` if the disk failed in this call: each image of the
    /// disk then stands for the state before or for the one after it. `NoMemory`: each stands for the state before.
    pub fn bring(
        &mut self,
        alloc: Global,
        changes: Changes,
        purpose: Purpose,
    ) -> Result<(), BringFault>
        requires synced { IsSynced D.medium self.old }
        requires changes { AreChanges changes }
        requires follows { CanFollow (state_of self.old) (brought_for purpose (state_of self.old).held) }

        // However this returns, each image stands for the state before, or for the one after with one record more.
        ensures images { EachStandsEither (D.medium.may_leave (disk_of self.new)) (records_of self.old)
            (state_of self.old) (after (state_of self.old) (bringing purpose (stamps_of self.old) changes)) }
        ensures no_memory { IsErrOf result BringFault.NoMemory
            → EachStands (D.medium.may_leave (disk_of self.new)) (records_of self.old) (state_of self.old) }

        ensures no_tree { IsErrOf result BringFault.NoTree
            → IsTree (nodes_of (brought (base_for purpose (stamps_of self.old)) changes)) → ⊥ }
        ensures nothing { IsErrOf result BringFault.NoTree → self.new ≡ self.old }
        ensures stopped { IsErrOf result BringFault.Stopped
            → IsTree (nodes_of (brought (base_for purpose (stamps_of self.old)) changes)) }

        ensures tree { OnOk result (IsTree (nodes_of (brought (base_for purpose (stamps_of self.old)) changes))) }
        ensures stamps { OnOk result (stamps_of self.new ≡ brought (base_for purpose (stamps_of self.old)) changes) }
        ensures state { OnOk result (state_of self.new ≡ after (state_of self.old) (bringing purpose (stamps_of self.old) changes)) }
        ensures class { OnOk result (classes_in self.new ≡ classes_in self.old) }
        ensures records { OnOk result (records_of self.new ≡ next (records_of self.old)) }
        ensures synced { OnOk result (IsSynced D.medium self.new) }

        ensures faults { CountsBringFault result
            (D.medium.faults (disk_of self.old)) (D.medium.faults (disk_of self.new)) }
        ensures arms { D.medium.arms (disk_of self.new) ≡ D.medium.arms (disk_of self.old) }
    {
        let mut held = base_for(&self.checkpointed.state().durable.held, alloc, purpose)?;
        merge(&mut held, &mut self.held_record, alloc, changes, purpose)?;
        let change = brought_for(purpose, held.tree().copy(alloc)?);
        let text = record_for(&change, held.tree(), &mut self.held_record, alloc, purpose)?;
        self.checkpointed
            .note_spelled(alloc, change, text.as_bytes())?;
        keep(&mut self.held_record, text, purpose);
        self.checkpointed.state_mut().set_stamps(held);
        Ok(())
    }
}

/// What the changes are merged into.
fn base_for(held: &Held, alloc: Global, purpose: Purpose) -> Result<Held, NoMemory>
    ensures { IfOk result (λ base. base ≡ base_for purpose held.now) }
{
    match purpose {
        Purpose::Hold | Purpose::Fetch { .. } => held.copy(alloc),
        Purpose::Walk => Held::new(alloc),
    }
}

/// The change that brings the tree for this purpose.
fn brought_for(purpose: Purpose, tree: Tree) -> Change
    ensures { result ≡ brought_for purpose tree }
{
    match purpose {
        Purpose::Hold | Purpose::Walk => Change::Held(tree),
        Purpose::Fetch { number } => Change::Fetched { number, tree },
    }
}

/// Merges the changes into what is held in memory for this purpose. The record of the held tree is forgotten if another tree may come of
/// it. After an error nothing has changed.
fn merge(
    held: &mut Held,
    held_record: &mut Option<Text>,
    alloc: Global,
    changes: Changes,
    purpose: Purpose,
) -> Result<(), MergeFault>
    requires changes { AreChanges changes }
    ensures stamps { OnOk result (held.new ≡ brought held.old changes) }
    ensures tree { OnOk result (IsTree (nodes_of held.new)) }
    ensures spelled { (was : Stamps) → held.old ≡ base_for purpose was → IsHeldRecord held_record.old (nodes_of was)
        → OnOk result (IsHeldRecord held_record.new (nodes_of held.new)) }
    ensures err { OnErr result (held.new ≡ held.old) }
    ensures same { OnErr result (held_record.new ≡ held_record.old) }
    ensures no_tree { IfErr result (λ fault. fault ≢ MergeFault.NoMemory → IsTree (nodes_of (brought held.old changes)) → ⊥) }
{
    let stays = stays_held(&changes, purpose);
    held.merge(alloc, changes)?;
    if !stays {
        *held_record = None;
    }
    Ok(())
}

/// The record of the change that brings the tree: the one that was spelled last, if the held tree is as it was then.
fn record_for(
    change: &Change,
    tree: &Tree,
    held_record: &mut Option<Text>,
    alloc: Global,
    purpose: Purpose,
) -> Result<Text, NoMemory>
    requires change { change.now ≡ brought_for purpose tree.now }
    requires spells { IsChange change.now }
    requires spelled { IsHeldRecord held_record.old tree.now }
    ensures is { IfOk result (λ text. text ≡ change_spelling change.now) }
    ensures spelled { OnOk result (IsHeldRecord held_record.new tree.now) }
{
    match purpose {
        Purpose::Hold | Purpose::Walk => match held_record.take() {
            Some(text) => Ok(text),
            None => spelled(change, room_for(tree), alloc),
        },
        Purpose::Fetch { .. } => spelled(change, room_for(tree), alloc),
    }
}

/// Keeps a record of the held tree for the next one.
fn keep(held_record: &mut Option<Text>, text: Text, purpose: Purpose)
    ensures { (held : Nodes) → text ≡ change_spelling (brought_for purpose held) → IsHeldRecord held_record.old held
        → IsHeldRecord held_record.new held }
{
    match purpose {
        Purpose::Hold | Purpose::Walk => *held_record = Some(text),
        Purpose::Fetch { .. } => (),
    }
}

/// Whether the changes leave what is held as it is.
fn stays_held(changes: &Changes, purpose: Purpose) -> bool
    ensures rows { result ≡ true → changes.now.rows ≡ [] }
    ensures gone { result ≡ true → changes.now.gone ≡ [] }
    ensures base { (held : Stamps) → result ≡ true → base_for purpose held ≡ held }
{
    match purpose {
        Purpose::Hold | Purpose::Fetch { .. } => is_nothing(changes),
        Purpose::Walk => false,
    }
}

/// Whether there are neither rows nor paths that are gone.
fn is_nothing(changes: &Changes) -> bool
    ensures rows { result ≡ true → changes.now.rows ≡ [] }
    ensures gone { result ≡ true → changes.now.gone ≡ [] }
{
    changes.rows.is_empty() && changes.gone.is_empty()
}

/// How many bytes the record of a tree has room for at first.
fn room_for(held: &Tree) -> usize {
    held.rows().len().saturating_mul(ROOM_FOR_ROW)
}

/// The record of the change, in memory of its own, which has room for so many bytes at first.
fn spelled(change: &Change, room: usize, alloc: Global) -> Result<Text, NoMemory>
    requires { IsChange change.now }
    ensures { IfOk result (λ text. text ≡ change_spelling change.now) }
{
    let mut out = Text::with_capacity(alloc, room)?;
    put_change(change, &mut out)?;
    Ok(out)
}
