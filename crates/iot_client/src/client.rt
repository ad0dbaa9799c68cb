//! The client itself.
ghost use Rattle.std.specs.Prelude.{◌≡◌, ◌≢◌, ℕ, map, IfOk, IfErr, MatchResult};
ghost use Rattle.std.specs.List.{AllByRecursion};
ghost use Rattle.iot_disk.specs.Disk.{armed_with, Only, SameImages};
ghost use Rattle.iot_durable.specs.Causes.{HasCause, SaysDamaged, SaysForeign, TakesBytes};
ghost use Rattle.iot_durable.specs.Damage.{IsDamagedAt};
ghost use Rattle.iot_durable.specs.Standing.{EachOpens, IsFresh, StandWith};
ghost use Rattle.iot_records.specs.Records.{ChangesNothing};
ghost use Rattle.iot_slots.specs.Decoding.{Foreign, NotStarted, decoded};
ghost use Rattle.iot_stamp.specs.Stamps.{unstamped};
ghost use Rattle.iot_kept.specs.Kept.{IsSynced, classes_in, disk_of as disk_in};
ghost use Rattle.iot_kept.specs.Memory.{transactions, classes_of, AreSecond, SeesOwn};
ghost use Rattle.iot_kept.specs.Rules.{header, rules};
ghost use Rattle.iot_kept.specs.Spelled.{IsSpelledState};
ghost use Rattle.iot_kept.specs.Standing.{StandFor, EachStands, records_in};
ghost use Rattle.iot_kept.specs.States.{State, numbered, view, AllHold, AreGuarded};
ghost use Rattle.iot_client.specs.Calls.{is_over_if_any, live_numbered};

use crate::interpreter::Interpreter;
use iot_disk::{Disk, Pick, StartFault};
use iot_kept::{Kept, Running};
use iot_queue::Queue;
use iot_tree::Tree;
use std::alloc::Global;

/// A client over its disk, to which it appends each of its changes as one record. A checkpoint of the whole comes before a change if the
/// records since the last one have grown long.
///
/// After `NoMemory` or `Stopped` of a call that changes it only `into_disk` says anything more: start again from the disk.
#[derive(Drop)]
pub struct Client<D: Disk> {
    pub(crate) me: u64,
    pub(crate) kept: Kept<D>,

    /// One for each transaction that runs, in their order; none for one that the start found.
    pub(crate) interpreters: Vec<Option<Interpreter>>,
}

impl<D: Disk> Client<D> {
    ghost use Rattle.iot_client.specs.Ties.{state_of, stamps_of, place_of, disk_of, records_of, live_of};
    ghost use Rattle.iot_client.specs.Ties.{IsTied, AreBegun, AreFound, AreOwnRuns};

    /// Starts the client at this place from its disk, which no one else writes; it runs no script. A disk on which nothing was started
    /// becomes that of a client that knows nothing yet. The transactions that run are second class, and are only to be cut. The disk
    /// comes back if this gives no client.
    ///
    /// # Errors
    ///
    /// `Foreign` if something else wrote the disk, and `Damaged` with the place of what is cut short, spells nothing, or cannot follow
    /// what comes before it. `Stopped` if the disk failed in this call, and `NoMemory`.
    pub fn start(alloc: Global, disk: D, me: u64) -> Result<Client<D>, (D, StartFault)>
        requires { Only (D.medium.reads disk) (D.medium.may_leave disk) }
        ensures stands { IfOk result (λ client. StandWith rules (D.medium.reads disk) (records_of client) (state_of client)) }

        // The disk stands for no other state.
        ensures only { (state : State) → StandFor (D.medium.reads disk) state
            → IfOk result (λ client. state_of client ≡ state) }
        ensures tied { IfOk result (λ client. IsTied D.medium client) }
        ensures live { IfOk result (λ client. AreFound (live_of client)) }
        ensures place { IfOk result (λ client. place_of client ≡ me) }

        // No stamp of a server is known.
        ensures stamps { IfOk result (λ client. stamps_of client ≡ unstamped (state_of client).held) }

        // All acts hold in turn, are guarded by their reads, and have spellings.
        ensures hold { IfOk result (λ client. AllHold (state_of client)) }
        ensures guarded { IfOk result (λ client. AreGuarded (state_of client)) }
        ensures spelled { IfOk result (λ client. IsSpelledState (state_of client)) }

        // However this returns, each image stands for the state for which the disk stood, with as many records; and if it stood for
        // one, its bytes are not refused.
        ensures images { (state : State) → StandFor (D.medium.reads disk) state → MatchResult result
            (λ client. EachStands (D.medium.may_leave (disk_of client)) (records_in (D.medium.reads disk)) state)
            (λ refused. EachStands (D.medium.may_leave refused.0) (records_in (D.medium.reads disk)) state) }
        ensures never { (state : State) → StandFor (D.medium.reads disk) state
            → IfErr result (λ refused. TakesBytes refused.1) }

        ensures steady { IfOk result (λ client. D.medium.faults (disk_of client) ≡ D.medium.faults disk) }
        ensures cause { IfErr result (λ refused.
            HasCause rules refused.1 (D.medium.reads disk) (D.medium.faults disk) (D.medium.faults refused.0)) }

        // What something else wrote, and what is damaged, is refused for that, unless memory or the disk fails.
        ensures foreign { decoded header (D.medium.reads disk) ≡ Foreign
            → MatchResult result (λ _. ⊥) (λ refused. SaysForeign refused.1) }
        ensures damaged { (at : ℕ) → IsDamagedAt rules (D.medium.reads disk) at
            → MatchResult result (λ _. ⊥) (λ refused. SaysDamaged at refused.1) }

        // A refusal of the bytes changes nothing.
        ensures refused_reads { IfErr result (λ refused.
            ChangesNothing refused.1 (D.medium.reads refused.0 ≡ D.medium.reads disk)) }
        ensures refused_images { IfErr result (λ refused.
            ChangesNothing refused.1 (SameImages (D.medium.may_leave disk) (D.medium.may_leave refused.0))) }

        // A disk that is started is only read, whatever the answer, and so is each whose bytes are refused.
        ensures only_read { decoded header (D.medium.reads disk) ≢ NotStarted → MatchResult result
            (λ client. D.medium.reads (disk_of client) ≡ D.medium.reads disk)
            (λ refused. D.medium.reads refused.0 ≡ D.medium.reads disk) }
        ensures only_read_images { decoded header (D.medium.reads disk) ≢ NotStarted → MatchResult result
            (λ client. SameImages (D.medium.may_leave disk) (D.medium.may_leave (disk_of client)))
            (λ refused. SameImages (D.medium.may_leave disk) (D.medium.may_leave refused.0)) }

        // However this returns, a disk that was not started is not, or was just started. After Ok it has these bytes.
        ensures opens { decoded header (D.medium.reads disk) ≡ NotStarted → MatchResult result
            (λ client. EachOpens rules (D.medium.may_leave (disk_of client)))
            (λ refused. EachOpens rules (D.medium.may_leave refused.0)) }
        ensures fresh { decoded header (D.medium.reads disk) ≡ NotStarted → IfOk result (λ client.
            IsFresh rules (D.medium.reads disk) (D.medium.reads (disk_of client))) }

        ensures arms { MatchResult result
            (λ client. D.medium.arms (disk_of client) ≡ D.medium.arms disk)
            (λ refused. D.medium.arms refused.0 ≡ D.medium.arms disk) }
    {
        match Kept::start(alloc, disk) {
            Ok(kept) => Client::seated(alloc, kept, me),
            Err(refused) => Err(refused),
        }
    }

    /// The client's place.
    pub fn me(&self) -> u64
        ensures { result ≡ place_of self.now }
    {
        self.me
    }

    /// The view: the held tree after all that waits. A transaction that runs has a view of its own, `Running::view`.
    pub fn view(&self) -> &Tree
        requires { IsTied D.medium self.now }
        ensures { result.now ≡ view (state_of self.now) }
    {
        self.kept.view()
    }

    /// The held tree.
    pub fn held(&self) -> &Tree
        ensures { result.now ≡ (state_of self.now).held }
    {
        self.kept.held()
    }

    /// The transactions that wait.
    pub fn queue(&self) -> &Queue
        ensures { result.now ≡ (state_of self.now).items }
    {
        self.kept.queue()
    }

    /// The transactions that run, in the order of their numbers.
    pub fn running(&self) -> &[Running]
        requires { IsTied D.medium self.now }
        ensures running { transactions result.now ≡ (state_of self.now).running }
        ensures classes { classes_of result.now ≡ map (λ live. live.first) (live_of self.now) }
        ensures sees { AllByRecursion SeesOwn result.now }

        // The acts of each are those of its script on its base, and its own view is that run's tree.
        ensures runs { AreOwnRuns (state_of self.now).running (live_of self.now) }
    {
        self.kept.running()
    }

    /// Whether the transaction with this number runs, and its script has ended.
    pub fn at_end(&self, number: u64) -> bool
        requires { IsTied D.medium self.now }
        ensures { result ≡ is_over_if_any (numbered number (state_of self.now).running)
            (live_numbered number (state_of self.now).running (live_of self.now)) }
    {
        let Some(at) = self.place_of(number) else {
            return false;
        };
        match &self.interpreters[at] {
            Some(interpreter) => interpreter.exec.at_end(),
            None => false,
        }
    }

    /// The number of records ever appended, modulo 2^64.
    pub fn records(&self) -> u64
        ensures { result ≡ records_of self.now }
    {
        self.kept.records()
    }

    /// Makes a later device call of the disk fail, and does nothing else.
    pub fn arm(&mut self, calls: u64, pick: Pick)
        ensures arms { D.medium.arms (disk_of self.new) ≡ armed_with (D.medium.arms (disk_of self.old)) calls pick }
        ensures reads { D.medium.reads (disk_of self.new) ≡ D.medium.reads (disk_of self.old) }
        ensures images { SameImages (D.medium.may_leave (disk_of self.old)) (D.medium.may_leave (disk_of self.new)) }
        ensures faults { D.medium.faults (disk_of self.new) ≡ D.medium.faults (disk_of self.old) }
        ensures state { state_of self.new ≡ state_of self.old }
        ensures stamps { stamps_of self.new ≡ stamps_of self.old }
        ensures place { place_of self.new ≡ place_of self.old }
        ensures live { live_of self.new ≡ live_of self.old }
        ensures records { records_of self.new ≡ records_of self.old }
        ensures tied { IsTied D.medium self.old → IsTied D.medium self.new }
    {
        self.kept.arm(calls, pick);
    }

    /// Gives the disk back. Each image of a tied client's disk stands for its state.
    pub fn into_disk(self) -> D
        ensures disk { result ≡ disk_of self }
        ensures stands { IsTied D.medium self → EachStands (D.medium.may_leave result) (records_of self) (state_of self) }
    {
        self.kept.into_disk()
    }
}

impl<D: Disk> Client<D> {
    ghost use Rattle.iot_client.specs.Ties.{live_of, IsTied, AreFound};

    /// The client at this place that has just started: what runs has no interpreter. The disk comes back if memory runs out.
    fn seated(alloc: Global, kept: Kept<D>, me: u64) -> Result<Client<D>, (D, StartFault)>
        requires synced { IsSynced D.medium kept }
        requires second { AreSecond (classes_in kept) }
        ensures made { IfOk result (λ client. client.kept ≡ kept) }
        ensures place { IfOk result (λ client. client.me ≡ me) }
        ensures tied { IfOk result (λ client. IsTied D.medium client) }
        ensures live { IfOk result (λ client. AreFound (live_of client)) }
        ensures back { IfErr result (λ refused. (refused.1 ≡ StartFault.NoMemory) × (refused.0 ≡ disk_in kept)) }
    {
        let mut interpreters = Vec::new(alloc);
        'interpreters: for _ in 0..kept.running().len() {
            match interpreters.push(None) {
                Ok(()) => (),
                Err(_) => return Err((kept.into_disk(), StartFault::NoMemory)),
            }
        }
        Ok(Client {
            me,
            kept,
            interpreters,
        })
    }
}
