//! What is kept of a client.
ghost use Rattle.std.specs.Prelude.{◌≡◌, ◌≢◌, ℕ, List, IfOk, IfErr, OnOk, IsErrOf, MatchResult, false, IsTrue};
ghost use Rattle.std.specs.FinMap.{is_sorted};
ghost use Rattle.std.specs.List.{AllByRecursion};
ghost use Rattle.iot_disk.specs.Disk.{armed_with, Only, SameImages};
ghost use Rattle.iot_disk.specs.Faults.{CountsJournalFault};
ghost use Rattle.iot_durable.specs.Causes.{HasCause, SaysDamaged, SaysForeign, TakesBytes};
ghost use Rattle.iot_durable.specs.Damage.{IsDamagedAt};
ghost use Rattle.iot_durable.specs.Standing.{EachOpens, IsFresh, StandWith};
ghost use Rattle.iot_records.specs.Records.{ChangesNothing};
ghost use Rattle.iot_slots.specs.Cells.{next};
ghost use Rattle.iot_slots.specs.Decoding.{Foreign, NotStarted, decoded};
ghost use Rattle.iot_text.specs.Paths.{path_cmp};
ghost use Rattle.iot_stamp.specs.Refresh.{known_with_stamps, IsStampedPath};
ghost use Rattle.iot_stamp.specs.Stamps.{Stamps, nodes_of, unstamped};
ghost use Rattle.iot_queue.specs.declared.items.Item.{Item};
ghost use Rattle.iot_changes.specs.Rules.{IsChange};
ghost use Rattle.iot_kept.specs.States.{State, view, AllHold, AreGuarded};
ghost use Rattle.iot_kept.specs.Changes.{CanFollow, after};
ghost use Rattle.iot_kept.specs.Kept.{IsHeldRecord};
ghost use Rattle.iot_kept.specs.Rules.{header, rules};
ghost use Rattle.iot_kept.specs.Stamps.{restamped};
ghost use Rattle.iot_kept.specs.Memory.{transactions, classes_of, classes_after, with_class, AreSecond, SeesOwn};
ghost use Rattle.iot_kept.specs.Standing.{StandFor, EachStands, EachStandsEither, records_in};
ghost use Rattle.iot_kept.specs.Spelled.{IsSpelledState};

use crate::memory::Memory;
use crate::running::Running;
use iot_changes::Change;
use iot_disk::{Disk, JournalFault, Pick, StartFault};
use iot_durable::Durable;
use iot_queue::Queue;
use iot_slots::Slots;
use iot_text::{NoMemory, Text};
use iot_tree::{Access, Known, Tree};
use std::alloc::Global;

/// What is durable of a client, on a disk to which each change is appended as one record; and in memory besides, with the classes of
/// the running transactions, which no disk keeps. A checkpoint of the whole comes before a change if the records since the last one
/// have grown long.
///
/// After an `Err` of `note`, or of `bring` other than `NoTree`, only `into_disk` says anything more: start again from the disk.
#[derive(Drop)]
pub struct Kept<D: Disk> {
    pub(crate) checkpointed: Durable<Memory, Slots<D>>,

    /// The record that holds the held tree, if it was spelled since that last changed.
    pub(crate) held_record: Option<Text>,
}

impl<D: Disk> Kept<D> {
    ghost use Rattle.iot_kept.specs.Kept.{memory_of, state_of, stamps_of, classes_in, disk_of, records_of, IsSynced};

    /// Starts from a disk, which no one else writes, with the state of its checkpoint after its records; it runs no script. A disk on
    /// which nothing was started becomes that of a client that knows nothing yet. The disk comes back if this gives no client.
    ///
    /// # Errors
    ///
    /// `Foreign` if something else wrote the disk, and `Damaged` with the place of what is cut short, spells nothing, or cannot follow
    /// what comes before it. `Stopped` if the disk failed in this call, and `NoMemory`.
    pub fn start(alloc: Global, disk: D) -> Result<Kept<D>, (D, StartFault)>
        requires { Only (D.medium.reads disk) (D.medium.may_leave disk) }
        ensures stands { IfOk result (λ kept. StandWith rules (D.medium.reads disk) (records_of kept) (state_of kept)) }

        // The disk stands for no other state.
        ensures only { (state : State) → StandFor (D.medium.reads disk) state
            → IfOk result (λ kept. state_of kept ≡ state) }
        ensures synced { IfOk result (λ kept. IsSynced D.medium kept) }

        // No stamp of a server is known.
        ensures stamps { IfOk result (λ kept. stamps_of kept ≡ unstamped (state_of kept).held) }

        // Transactions that run are second class. All acts hold in turn, are guarded by their reads, and have spellings.
        ensures class { IfOk result (λ kept. AreSecond (classes_in kept)) }
        ensures hold { IfOk result (λ kept. AllHold (state_of kept)) }
        ensures guarded { IfOk result (λ kept. AreGuarded (state_of kept)) }
        ensures spelled { IfOk result (λ kept. IsSpelledState (state_of kept)) }

        // However this returns, each image stands for the state for which the disk stood, with as many records; and if it stood for
        // one, its bytes are not refused.
        ensures images { (state : State) → StandFor (D.medium.reads disk) state → MatchResult result
            (λ kept. EachStands (D.medium.may_leave (disk_of kept)) (records_in (D.medium.reads disk)) state)
            (λ refused. EachStands (D.medium.may_leave refused.0) (records_in (D.medium.reads disk)) state) }
        ensures never { (state : State) → StandFor (D.medium.reads disk) state
            → IfErr result (λ refused. TakesBytes refused.1) }

        ensures steady { IfOk result (λ kept. D.medium.faults (disk_of kept) ≡ D.medium.faults disk) }
        ensures cause { IfErr result (λ refused.
            HasCause rules refused.1 (D.medium.reads disk) (D.medium.faults disk) (D.medium.faults refused.0)) }

        // What something else wrote, and what is damaged, is refused for that, unless memory or the disk fails.
        ensures foreign { decoded header (D.medium.reads disk) ≡ Foreign
            → MatchResult result (λ _. ⊥) (λ refused. SaysForeign refused.1) }
        ensures damaged { (at : ℕ) → IsDamagedAt rules (D.medium.reads disk) at
            → MatchResult result (λ _. ⊥) (λ refused. SaysDamaged at refused.1) }

        // A refusal of the bytes changes nothing.
        ensures refused_reads { IfErr result (λ refused.
            ChangesNothing refused.1 (D.medium.reads refused.0 ≡ D.medium.reads disk)) }
        ensures refused_images { IfErr result (λ refused.
            ChangesNothing refused.1 (SameImages (D.medium.may_leave disk) (D.medium.may_leave refused.0))) }

        // A disk that is started is only read, whatever the answer, and so is each whose bytes are refused.
        ensures only_read { decoded header (D.medium.reads disk) ≢ NotStarted → MatchResult result
            (λ kept. D.medium.reads (disk_of kept) ≡ D.medium.reads disk)
            (λ refused. D.medium.reads refused.0 ≡ D.medium.reads disk) }
        ensures only_read_images { decoded header (D.medium.reads disk) ≢ NotStarted → MatchResult result
            (λ kept. SameImages (D.medium.may_leave disk) (D.medium.may_leave (disk_of kept)))
            (λ refused. SameImages (D.medium.may_leave disk) (D.medium.may_leave refused.0)) }

        // However this returns, a disk that was not started is not, or was just started. After Ok it has these bytes.
        ensures opens { decoded header (D.medium.reads disk) ≡ NotStarted → MatchResult result
            (λ kept. EachOpens rules (D.medium.may_leave (disk_of kept)))
            (λ refused. EachOpens rules (D.medium.may_leave refused.0)) }
        ensures fresh { decoded header (D.medium.reads disk) ≡ NotStarted → IfOk result (λ kept.
            IsFresh rules (D.medium.reads disk) (D.medium.reads (disk_of kept))) }

        ensures arms { MatchResult result
            (λ kept. D.medium.arms (disk_of kept) ≡ D.medium.arms disk)
            (λ refused. D.medium.arms refused.0 ≡ D.medium.arms disk) }
    {
        match Durable::start(alloc, disk) {
            Ok(checkpointed) => Ok(Kept {
                checkpointed,
                held_record: None,
            }),
            Err(refused) => Err(refused),
        }
    }

    /// Makes a change that can follow: its record is on the disk when this answers Ok. A transaction that begins is second class.
    /// Costs as much as the record is long, and what the change costs in memory; with a checkpoint as much as the whole is long.
    ///
    /// # Errors
    ///
    /// `Stopped` if the disk failed in this call: each image of the disk then stands for the state before the change or for the one
    /// after it. `NoMemory`: each stands for the state before.
    pub fn note(&mut self, alloc: Global, change: Change) -> Result<(), JournalFault>
        requires synced { IsSynced D.medium self.old }
        requires change { IsChange change }
        requires follows { CanFollow (state_of self.old) change }

        // However this returns, each image stands for the state before, or for the one after with one record more.
        ensures images { EachStandsEither (D.medium.may_leave (disk_of self.new)) (records_of self.old)
            (state_of self.old) (after (state_of self.old) change) }
        ensures no_memory { IsErrOf result JournalFault.NoMemory
            → EachStands (D.medium.may_leave (disk_of self.new)) (records_of self.old) (state_of self.old) }
        ensures noted { OnOk result (EachStands (D.medium.may_leave (disk_of self.new)) (next (records_of self.old))
            (after (state_of self.old) change)) }

        ensures state { OnOk result (state_of self.new ≡ after (state_of self.old) change) }
        ensures class { OnOk result
            (classes_in self.new ≡ classes_after change (state_of self.old).running (classes_in self.old)) }
        ensures stamps { OnOk result (stamps_of self.new ≡ restamped (state_of self.old).items (stamps_of self.old) change) }
        ensures records { OnOk result (records_of self.new ≡ next (records_of self.old)) }
        ensures synced { OnOk result (IsSynced D.medium self.new) }

        ensures faults { CountsJournalFault result
            (D.medium.faults (disk_of self.old)) (D.medium.faults (disk_of self.new)) }
        ensures arms { D.medium.arms (disk_of self.new) ≡ D.medium.arms (disk_of self.old) }
    {
        forget_held(&mut self.held_record, &change);
        self.checkpointed.note(alloc, change)?;
        Ok(())
    }

    /// All that run are second class from now on. Writes nothing.
    pub fn all_second(&mut self)
        ensures class { AreSecond (classes_in self.new) }
        ensures state { state_of self.new ≡ state_of self.old }
        ensures stamps { stamps_of self.new ≡ stamps_of self.old }
        ensures disk { disk_of self.new ≡ disk_of self.old }
        ensures records { records_of self.new ≡ records_of self.old }
        ensures synced { IsSynced D.medium self.old → IsSynced D.medium self.new }
    {
        self.checkpointed.state_mut().all_second();
    }

    /// Puts the running transaction with this number, if it runs, into this class. Writes nothing.
    pub fn set_class(&mut self, number: u64, first: bool)
        ensures class { classes_in self.new ≡ with_class number first (state_of self.old).running (classes_in self.old) }
        ensures state { state_of self.new ≡ state_of self.old }
        ensures stamps { stamps_of self.new ≡ stamps_of self.old }
        ensures disk { disk_of self.new ≡ disk_of self.old }
        ensures records { records_of self.new ≡ records_of self.old }
        ensures synced { IsSynced D.medium self.old → IsSynced D.medium self.new }
    {
        self.checkpointed.state_mut().set_class(number, first);
    }

    /// What is in memory.
    fn memory(&self) -> &Memory
        ensures { result.now ≡ memory_of self.now }
    {
        self.checkpointed.state()
    }

    /// The held tree.
    pub fn held(&self) -> &Tree
        ensures { result.now ≡ (state_of self.now).held }
    {
        self.memory().durable.held.tree()
    }

    /// The paths that are known of the held tree, with their stamps.
    pub fn known_with_stamps(&self, alloc: Global) -> Result<Known, NoMemory>
        ensures known { IfOk result (λ known. known ≡ known_with_stamps (stamps_of self.now)) }
        ensures rising { IfOk result (λ known. IsTrue (is_sorted path_cmp known)) }
        ensures each { IfOk result (AllByRecursion IsStampedPath) }
    {
        self.memory().durable.held.known_with_stamps(alloc)
    }

    /// The held tree after all that waits. A running transaction reads a view of its own.
    pub fn view(&self) -> &Tree
        requires { IsSynced D.medium self.now }
        ensures { result.now ≡ view (state_of self.now) }
    {
        &self.memory().view
    }

    /// The transactions that wait.
    pub fn queue(&self) -> &Queue
        ensures { result.now ≡ (state_of self.now).items }
    {
        &self.memory().durable.queue
    }

    /// What the resolution of the first one that waits asked of the server's tree, if it was resolved; else nothing.
    pub fn access(&self) -> &Access
        ensures { result.now ≡ (state_of self.now).access }
    {
        &self.memory().durable.access
    }

    /// Those that run, by their numbers.
    pub fn running(&self) -> &[Running]
        ensures running { transactions result.now ≡ (state_of self.now).running }
        ensures class { classes_of result.now ≡ classes_in self.now }
        ensures sees { IsSynced D.medium self.now → AllByRecursion SeesOwn result.now }
    {
        self.memory().durable.running.as_slice()
    }

    /// The number of the last transaction, 0 before the first.
    pub fn last(&self) -> u64
        ensures { result ≡ (state_of self.now).last }
    {
        self.memory().durable.last
    }

    /// The number of records ever appended, modulo 2^64.
    pub fn records(&self) -> u64
        ensures { result ≡ records_of self.now }
    {
        self.checkpointed.count()
    }

    /// Makes a later device call of the disk fail, and does nothing else.
    pub fn arm(&mut self, calls: u64, pick: Pick)
        ensures arms { D.medium.arms (disk_of self.new) ≡ armed_with (D.medium.arms (disk_of self.old)) calls pick }
        ensures reads { D.medium.reads (disk_of self.new) ≡ D.medium.reads (disk_of self.old) }
        ensures images { SameImages (D.medium.may_leave (disk_of self.old)) (D.medium.may_leave (disk_of self.new)) }
        ensures faults { D.medium.faults (disk_of self.new) ≡ D.medium.faults (disk_of self.old) }
        ensures state { state_of self.new ≡ state_of self.old }
        ensures stamps { stamps_of self.new ≡ stamps_of self.old }
        ensures class { classes_in self.new ≡ classes_in self.old }
        ensures records { records_of self.new ≡ records_of self.old }
        ensures synced { IsSynced D.medium self.old → IsSynced D.medium self.new }
    {
        self.checkpointed.arm(calls, pick);
    }

    /// Gives the disk back. Unless `note` failed, each image of it stands for the state.
    pub fn into_disk(self) -> D
        ensures disk { result ≡ disk_of self }
        ensures stands { IsSynced D.medium self → EachStands (D.medium.may_leave result) (records_of self) (state_of self) }
    {
        self.checkpointed.into_disk()
    }
}

/// Forgets the record of the held tree, if another tree may be held after the change.
fn forget_held(held_record: &mut Option<Text>, change: &Change)
    ensures { (items : List Item) (held : Stamps) → IsHeldRecord held_record.old (nodes_of held)
        → IsHeldRecord held_record.new (nodes_of (restamped items held change.now)) }
{
    if touches_held(change) {
        *held_record = None;
    }
}

/// Whether another tree may be held after the change.
fn touches_held(change: &Change) -> bool
    ensures { (items : List Item) (held : Stamps) → result ≡ false → restamped items held change.now ≡ held }
{
    match change {
        Change::Held(_) => true,
        Change::Fetched { .. } => true,
        Change::Conflicted => true,
        Change::Left => true,
        Change::Begun { .. } => false,
        Change::Acted { .. } => false,
        Change::Ended { .. } => false,
        Change::Cut { .. } => false,
        Change::Resolved(..) => false,
        Change::Repaired(_) => false,
        Change::Again { .. } => false,
    }
}
