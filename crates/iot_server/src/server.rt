//! The server itself.
ghost use Rattle.std.specs.Prelude.{◌≡◌, ◌≢◌, ◌≤◌, ◌^◌, ℕ, List, length, not, option_map, false, true};
ghost use Rattle.std.specs.Prelude.{IfOk, IfErr, OnOk, IsErrOf, MatchResult};
ghost use Rattle.iot_backup.specs.Pairs.{AreInStep};
ghost use Rattle.iot_backup.specs.Parts.{Changes, If, IsThere};
ghost use Rattle.iot_backup.specs.Start.{ChangesNothing as ChangesNeither, MayBeBehind};
ghost use Rattle.iot_disk.specs.Disk.{Only, SameImages, armed_with};
ghost use Rattle.iot_durable.specs.Causes.{HasCause, SaysDamaged, SaysForeign, TakesBytes};
ghost use Rattle.iot_durable.specs.Causes.{HasPairCause, SaysFirstDamaged, SaysFirstForeign, TakesBoth};
ghost use Rattle.iot_durable.specs.Damage.{IsDamagedAt};
ghost use Rattle.iot_durable.specs.Durable.{images_of};
ghost use Rattle.iot_durable.specs.Standing.{EachIsBroughtUp, EachOpens, IsBroughtUp, IsFresh, StandWith};
ghost use Rattle.iot_records.specs.Records.{ChangesNothing};
ghost use Rattle.iot_slots.specs.Decoding.{Foreign, NotStarted, decoded};
ghost use Rattle.iot_slots.specs.Slots.{disk_of as disk_on, state_on};
ghost use Rattle.iot_slots.specs.declared.version.Version.TheVariants.{Two};
ghost use Rattle.iot_server.specs.Faults.{CountsServerFaults, CutsOff, EndsBy, IsNotMalformed, LacksMemory};
ghost use Rattle.iot_server.specs.Replies.{IsHandled};
ghost use Rattle.iot_server.specs.Traffic.{no_traffic, traffic_after};
ghost use Rattle.iot_server.specs.declared.fault.ServerFault.TheVariants.{NoMemory, Malformed, Stopped};
ghost use Rattle.iot_store.specs.Bodies.{IsBody};
ghost use Rattle.iot_store.specs.Rules.{header, rules};
ghost use Rattle.iot_store.specs.Standing.{EachBrings, EachFollows, EachStands, EachStarts, MayFollow};
ghost use Rattle.iot_store.specs.Standing.{StandFor, StandTogether, records_in};
ghost use Rattle.iot_store.specs.States.{State, opening};
ghost use Rattle.iot_wire.specs.Decoding.{request_at};
ghost use Rattle.iot_wire.specs.Messages.{IsMessage, whole};
ghost use Rattle.iot_wire.specs.Rules.{IsRequest};
ghost use Rattle.iot_wire.specs.Spelling.{request_spelling};
ghost use Rattle.iot_wire.specs.declared.requests.Request.{Request};

use crate::answering::answer;
use crate::{ServerFault, Traffic};
use iot_backup::TwinFault;
use iot_disk::{Disk, Pick, StartFault};
use iot_store::Store;
use iot_wire::lend_request;
use std::alloc::Global;

/// A server: a store, to which it appends what clients commit, and what was received and sent since the start. The store is on one disk, or
/// on two, the second of which is the backup of the first.
///
/// Calls that concern one disk are told by `second` which: the second one if it is true, else the first.
///
/// After `NoMemory` or `Stopped` from `handle` only `into_disks` says anything more: start again from the disks.
#[derive(Drop)]
pub struct Server<D: Disk> {
    pub(crate) store: Store<D>,
    pub(crate) traffic: Traffic,
}

impl<D: Disk> Server<D> {
    ghost use Rattle.iot_server.specs.Servers.{state_of, store_of, traffic_of, second_of, part_of, disk_of, count_of, encoded_on};
    ghost use Rattle.iot_server.specs.Servers.{IsAlone, IsSynced};

    /// Starts a server from its disk, which no one else writes. A disk on which none was started becomes that of a server without
    /// a commit, whose tree has only its root. The disk comes back if this gives no server.
    ///
    /// # Errors
    ///
    /// `Foreign` if something else wrote the disk, and `Damaged` with the place of what is cut short, spells nothing, or cannot follow
    /// what comes before it. `Stopped` if the disk failed in this call, and `NoMemory`.
    pub fn start(alloc: Global, disk: D) -> Result<Server<D>, (D, StartFault)>
        requires { Only (D.medium.reads disk) (D.medium.may_leave disk) }
        ensures stands { IfOk result (λ server. StandWith rules (D.medium.reads disk) (count_of server) (state_of server)) }

        // The disk stands for no other state.
        ensures only { (state : State) → StandFor (D.medium.reads disk) state
            → IfOk result (λ server. state_of server ≡ state) }
        ensures synced { IfOk result (λ server. IsSynced D.medium server) }
        ensures alone { IfOk result (λ server. IsAlone server) }
        ensures traffic { IfOk result (λ server. traffic_of server ≡ no_traffic) }

        // However this returns, each image stands for the state for which the disk stood, with as many commits; and if it stood for
        // one, its bytes are not refused.
        ensures images { (state : State) → StandFor (D.medium.reads disk) state → MatchResult result
            (λ server. EachStands (D.medium.may_leave (disk_of server)) (records_in (D.medium.reads disk)) state)
            (λ refused. EachStands (D.medium.may_leave refused.0) (records_in (D.medium.reads disk)) state) }
        ensures never { (state : State) → StandFor (D.medium.reads disk) state
            → IfErr result (λ refused. TakesBytes refused.1) }

        ensures steady { IfOk result (λ server. D.medium.faults (disk_of server) ≡ D.medium.faults disk) }
        ensures cause { IfErr result (λ refused.
            HasCause rules refused.1 (D.medium.reads disk) (D.medium.faults disk) (D.medium.faults refused.0)) }

        // What something else wrote, and what is damaged, is refused for that, unless memory or the disk fails.
        ensures foreign { decoded header (D.medium.reads disk) ≡ Foreign
            → MatchResult result (λ _. ⊥) (λ refused. SaysForeign refused.1) }
        ensures damaged { (at : ℕ) → IsDamagedAt rules (D.medium.reads disk) at
            → MatchResult result (λ _. ⊥) (λ refused. SaysDamaged at refused.1) }

        // A refusal of the bytes changes nothing.
        ensures refused_reads { IfErr result (λ refused.
            ChangesNothing refused.1 (D.medium.reads refused.0 ≡ D.medium.reads disk)) }
        ensures refused_images { IfErr result (λ refused.
            ChangesNothing refused.1 (SameImages (D.medium.may_leave disk) (D.medium.may_leave refused.0))) }

        // A disk that is started is only read, whatever the answer, and so is each whose bytes are refused.
        ensures only_read { decoded header (D.medium.reads disk) ≢ NotStarted → MatchResult result
            (λ server. D.medium.reads (disk_of server) ≡ D.medium.reads disk)
            (λ refused. D.medium.reads refused.0 ≡ D.medium.reads disk) }
        ensures only_read_images { decoded header (D.medium.reads disk) ≢ NotStarted → MatchResult result
            (λ server. SameImages (D.medium.may_leave disk) (D.medium.may_leave (disk_of server)))
            (λ refused. SameImages (D.medium.may_leave disk) (D.medium.may_leave refused.0)) }

        // However this returns, a disk that was not started is not, or was just started. After Ok it has these bytes.
        ensures opens { decoded header (D.medium.reads disk) ≡ NotStarted → MatchResult result
            (λ server. EachOpens rules (D.medium.may_leave (disk_of server)))
            (λ refused. EachOpens rules (D.medium.may_leave refused.0)) }
        ensures fresh { decoded header (D.medium.reads disk) ≡ NotStarted → IfOk result (λ server.
            IsFresh rules (D.medium.reads disk) (D.medium.reads (disk_of server))) }

        ensures arms { MatchResult result
            (λ server. D.medium.arms (disk_of server) ≡ D.medium.arms disk)
            (λ refused. D.medium.arms refused.0 ≡ D.medium.arms disk) }
    {
        match Store::start(alloc, disk) {
            Ok(store) => Ok(Server {
                store,
                traffic: Traffic::none(),
            }),
            Err(refused) => Err(refused),
        }
    }

    /// Starts a server from its disk and the backup of that, which no one else writes. Either becomes that of a server without a commit if
    /// none was started on it. A second disk that lacks the last commit gets it. The disks come back if this gives no server. Costs as much
    /// as both disks are long, and what the commits in the first one's records cost.
    ///
    /// # Errors
    ///
    /// `Disk` is the refusal of the first disk if it has one, else that of the second, or says that memory ran out or a disk failed.
    /// `Apart` if neither is refused, and the first disk's count of commits is neither the second's nor one more, modulo 2^64.
    pub fn start_pair(alloc: Global, first: D, second: D) -> Result<Server<D>, (D, D, TwinFault)>
        requires first { Only (D.medium.reads first) (D.medium.may_leave first) }
        requires second { Only (D.medium.reads second) (D.medium.may_leave second) }
        requires behind { (body : List ℕ) → IsBody Two body opening
            → MayBeBehind header body (D.medium.reads first) (D.medium.reads second) }
        requires together { length (D.medium.reads first) ≤ 2 ^ 62 → (state : State) → StandFor (D.medium.reads first) state
            → AreInStep (decoded header (D.medium.reads first)) (decoded header (D.medium.reads second))
            → StandTogether (D.medium.reads first) (D.medium.reads second) state }
        ensures stands { IfOk result (λ server. StandWith rules (D.medium.reads first) (count_of server) (state_of server)) }

        // The first disk stands for no other state.
        ensures only { (state : State) → StandFor (D.medium.reads first) state
            → IfOk result (λ server. state_of server ≡ state) }
        ensures synced { IfOk result (λ server. IsSynced D.medium server) }
        ensures traffic { IfOk result (λ server. traffic_of server ≡ no_traffic) }
        ensures pair { IfOk result (λ server. IsThere (second_of server)) }

        // However this returns, each image of the first disk stands for the state for which that disk stood, with as many commits. So does
        // each of the second, or it stands for that disk's own; after Ok for the first one's.
        ensures images { (state : State) → StandFor (D.medium.reads first) state → MatchResult result
            (λ server. EachStands (D.medium.may_leave (disk_of server)) (records_in (D.medium.reads first)) state)
            (λ refused. EachStands (D.medium.may_leave refused.0) (records_in (D.medium.reads first)) state) }
        ensures second_images { (state other : State) → StandFor (D.medium.reads first) state → StandFor (D.medium.reads second) other
            → MatchResult result
            (λ server. If (λ s. EachStands (images_of D.medium s) (records_in (D.medium.reads first)) state) (second_of server))
            (λ refused. EachBrings (D.medium.may_leave refused.1) (D.medium.reads first) (D.medium.reads second) state other) }
        ensures second_encodes { MatchResult result
            (λ server. If (λ s. EachIsBroughtUp rules (images_of D.medium s) (D.medium.reads first) (D.medium.reads second))
            (second_of server))
            (λ refused. EachIsBroughtUp rules (D.medium.may_leave refused.1) (D.medium.reads first) (D.medium.reads second)) }
        ensures second_state { IfOk result (λ server. If (λ s.
            IsBroughtUp rules (D.medium.reads second) (encoded_on D.medium server) (state_on D.medium s)) (second_of server)) }

        // Of disks whose counts follow each other the next start needs no more. If the first one stands for a state, neither is refused.
        ensures follows { MayFollow (D.medium.reads first) (D.medium.reads second) → MatchResult result
            (λ server. If (λ s. EachFollows (D.medium.may_leave (disk_of server)) (images_of D.medium s)) (second_of server))
            (λ refused. EachFollows (D.medium.may_leave refused.0) (D.medium.may_leave refused.1)) }
        ensures never { (state : State) → StandFor (D.medium.reads first) state
            → AreInStep (decoded header (D.medium.reads first)) (decoded header (D.medium.reads second))
            → IfErr result (λ refused. TakesBoth refused.2) }

        ensures steady { IfOk result (λ server. (D.medium.faults (disk_of server) ≡ D.medium.faults first)
            × If (λ s. D.medium.faults (disk_on s) ≡ D.medium.faults second) (second_of server)) }
        ensures cause { IfErr result (λ refused. HasPairCause rules refused.2 (D.medium.reads first) (D.medium.reads second)
            (D.medium.faults first) (D.medium.faults refused.0) (D.medium.faults second) (D.medium.faults refused.1)) }

        // What something else wrote on the first disk, and what is damaged there, is refused for that, unless memory or a disk fails.
        ensures foreign { decoded header (D.medium.reads first) ≡ Foreign
            → MatchResult result (λ _. ⊥) (λ refused. SaysFirstForeign refused.2) }
        ensures damaged { (at : ℕ) → IsDamagedAt rules (D.medium.reads first) at
            → MatchResult result (λ _. ⊥) (λ refused. SaysFirstDamaged at refused.2) }

        // A refusal of the bytes or of the counts changes nothing.
        ensures refused_first { IfErr result (λ refused. ChangesNeither refused.2
            ((D.medium.reads refused.0 ≡ D.medium.reads first) × SameImages (D.medium.may_leave first) (D.medium.may_leave refused.0))) }
        ensures refused_second { IfErr result (λ refused. ChangesNeither refused.2
            ((D.medium.reads refused.1 ≡ D.medium.reads second) × SameImages (D.medium.may_leave second) (D.medium.may_leave refused.1))) }

        // A first disk that is started is only read, whatever the answer. One that was not started is not, or was just started; after Ok it
        // has these bytes.
        ensures only_read { decoded header (D.medium.reads first) ≢ NotStarted → MatchResult result
            (λ server. D.medium.reads (disk_of server) ≡ D.medium.reads first)
            (λ refused. D.medium.reads refused.0 ≡ D.medium.reads first) }
        ensures only_read_images { decoded header (D.medium.reads first) ≢ NotStarted → MatchResult result
            (λ server. SameImages (D.medium.may_leave first) (D.medium.may_leave (disk_of server)))
            (λ refused. SameImages (D.medium.may_leave first) (D.medium.may_leave refused.0)) }
        ensures opens { decoded header (D.medium.reads first) ≡ NotStarted → MatchResult result
            (λ server. EachOpens rules (D.medium.may_leave (disk_of server)))
            (λ refused. EachOpens rules (D.medium.may_leave refused.0)) }
        ensures fresh { decoded header (D.medium.reads first) ≡ NotStarted → IfOk result (λ server.
            IsFresh rules (D.medium.reads first) (D.medium.reads (disk_of server))) }

        ensures first_arms { MatchResult result
            (λ server. D.medium.arms (disk_of server) ≡ D.medium.arms first)
            (λ refused. D.medium.arms refused.0 ≡ D.medium.arms first) }
        ensures second_arms { MatchResult result
            (λ server. If (λ s. D.medium.arms (disk_on s) ≡ D.medium.arms second) (second_of server))
            (λ refused. D.medium.arms refused.1 ≡ D.medium.arms second) }
    {
        match Store::start_pair(alloc, first, second) {
            Ok(store) => Ok(Server {
                store,
                traffic: Traffic::none(),
            }),
            Err(refused) => Err(refused),
        }
    }

    /// Answers the bytes that a client sent. A refresh is answered by what changed for the client: of the tree, cut down to what
    /// the client knows or wants to know, the rows that are new to it, with their stamps, and the paths that it sent and that are
    /// gone. It takes one pass over the tree and the sent paths. A walk is answered by the rows that its profile takes along of the
    /// tree within its limit, with their stamps. It takes one pass over the tree, a search for each path that a wish names or that is
    /// above it, and a pass over the rows below each path of a wish that reaches below. A commit is answered by the number of its
    /// transaction, if that is among the commits or if all that it read still holds, and else by the read that differs; it takes as
    /// much as the request is long, and a search for each read and update. It is judged where it lies in the request, and copied out
    /// of that only if what it read holds. Its record is on both disks when this answers Ok.
    ///
    /// # Errors
    ///
    /// `Malformed` exactly if the bytes are the spelling of no request; it changes nothing. `Stopped` if a disk failed in this call,
    /// which was to append a commit: each image of the first disk then stands for the commits before or for those with the new one, and
    /// so does each of the second, but none has the new one if the first disk lacks it. `NoMemory`: each image of the second disk stands
    /// for the commits before, and so does each of a disk that is alone.
    pub fn handle(&mut self, alloc: Global, request: &[u8]) -> Result<Vec<u8>, ServerFault>
        requires { IsSynced D.medium self.old }

        // The bytes are the spelling of a request, and what is answered is that of its reply. Each disk encodes what it did, or has the
        // record of the commit last if one was made.
        ensures replies { IfOk result (λ bytes. IsHandled (state_of self.old) (encoded_on D.medium self.old) request.now bytes.items
            (state_of self.new) (encoded_on D.medium self.new)) }
        ensures second_replies { IfOk result (λ bytes. Changes (λ old new. IsHandled (state_of self.old) (state_on D.medium old)
            request.now bytes.items (state_of self.new) (state_on D.medium new)) (second_of self.old) (second_of self.new)) }
        ensures synced { OnOk result (IsSynced D.medium self.new) }
        ensures images { OnOk result (EachStands (D.medium.may_leave (disk_of self.new)) (count_of self.new) (state_of self.new)) }
        ensures second_images { OnOk result (If (λ s. EachStands (images_of D.medium s) (count_of self.new) (state_of self.new))
            (second_of self.new)) }

        // However this returns, a start from any two images has what it needs.
        ensures restarts { If (λ s. EachStarts (D.medium.may_leave (disk_of self.new)) (images_of D.medium s)) (second_of self.new) }

        // The bytes are refused exactly if they are the spelling of no request, and at their first fault.
        ensures exact { EndsBy result (whole request_at request.now) }
        ensures never { (it : Request) → IsMessage IsRequest request_spelling request.now it → IfErr result IsNotMalformed }
        ensures malformed { (at : ℕ) → IsErrOf result (Malformed at) → self.new ≡ self.old }

        ensures stopped { IsErrOf result Stopped → CutsOff D.medium (IsMessage IsRequest request_spelling request.now)
            (store_of self.old) (store_of self.new) }
        ensures no_memory { IsErrOf result NoMemory → LacksMemory D.medium (IsMessage IsRequest request_spelling request.now)
            (store_of self.old) (store_of self.new) }

        ensures faults { CountsServerFaults D.medium result (store_of self.old) (store_of self.new) }
        ensures arms { D.medium.arms (disk_of self.new) ≡ D.medium.arms (disk_of self.old) }
        ensures second_arms { Changes (λ old new. D.medium.arms (disk_on new) ≡ D.medium.arms (disk_on old))
            (second_of self.old) (second_of self.new) }

        // A request that has a reply counts, and no other.
        ensures traffic { traffic_of self.new ≡ traffic_after result (length request.now) (traffic_of self.old) }
    {
        let rows = self.store.tree().rows();
        let asked = lend_request(alloc, rows.as_slice(), request)?;
        let reply = answer(alloc, &mut self.store, &asked, request)?;
        self.traffic.count(request.len(), reply.len());
        Ok(reply)
    }

    /// The store.
    pub fn store(&self) -> &Store<D>
        ensures { result.now ≡ store_of self.now }
    {
        &self.store
    }

    /// What was received and sent since the start.
    pub fn traffic(&self) -> Traffic
        ensures { result ≡ traffic_of self.now }
    {
        self.traffic
    }

    /// Makes a later device call of a disk fail, and does nothing else.
    pub fn arm(&mut self, second: bool, calls: u64, pick: Pick)
        requires { IsThere (part_of second self.old) }
        ensures arms { Changes (λ old new. D.medium.arms (disk_on new) ≡ armed_with (D.medium.arms (disk_on old)) calls pick)
            (part_of second self.old) (part_of second self.new) }
        ensures reads { Changes (λ old new. D.medium.reads (disk_on new) ≡ D.medium.reads (disk_on old))
            (part_of second self.old) (part_of second self.new) }
        ensures images { Changes (λ old new. SameImages (images_of D.medium old) (images_of D.medium new))
            (part_of second self.old) (part_of second self.new) }
        ensures faults { Changes (λ old new. D.medium.faults (disk_on new) ≡ D.medium.faults (disk_on old))
            (part_of second self.old) (part_of second self.new) }
        ensures other { part_of (not second) self.new ≡ part_of (not second) self.old }
        ensures state { state_of self.new ≡ state_of self.old }
        ensures count { count_of self.new ≡ count_of self.old }
        ensures synced { IsSynced D.medium self.old → IsSynced D.medium self.new }
        ensures traffic { traffic_of self.new ≡ traffic_of self.old }
    {
        self.store.arm(second, calls, pick);
    }

    /// Gives the disks back: of a disk that is alone there is no second. Unless `handle` failed, each image of both stands for the commits.
    pub fn into_disks(self) -> (D, Option<D>)
        ensures first { result.0 ≡ disk_of self }
        ensures second { result.1 ≡ option_map disk_on (second_of self) }
        ensures stands { IsSynced D.medium self → EachStands (D.medium.may_leave result.0) (count_of self) (state_of self) }
        ensures second_stands { IsSynced D.medium self → If (λ disk. EachStands (D.medium.may_leave disk) (count_of self)
            (state_of self)) result.1 }
        ensures restarts { IsSynced D.medium self → If (λ disk. EachStarts (D.medium.may_leave result.0) (D.medium.may_leave disk))
            result.1 }
    {
        self.store.into_disks()
    }
}
