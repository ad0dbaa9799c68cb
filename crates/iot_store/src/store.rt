//! The store itself.
ghost use Rattle.std.specs.List.{AllByRecursion};
ghost use Rattle.std.specs.Prelude.{◌≡◌, ◌≢◌, ◌↔◌, ◌≤◌, ◌+◌, ◌^◌, ℕ, List, length, not, option_map, false, true};
ghost use Rattle.std.specs.Prelude.{IfOk, IfErr, OnOk, IsErrOf, IsTrue, MatchResult};
ghost use Rattle.iot_access.specs.Access.{FitInTurn};
ghost use Rattle.iot_backup.specs.Pairs.{AreInStep};
ghost use Rattle.iot_backup.specs.Parts.{Changes, CountsBoth, If, IsThere};
ghost use Rattle.iot_backup.specs.Start.{ChangesNothing as ChangesNeither, MayBeBehind};
ghost use Rattle.iot_views.specs.Rules.{AreLines, IsAccess, IsLabel};
ghost use Rattle.iot_disk.specs.Disk.{armed_with, Only, SameImages};
ghost use Rattle.iot_durable.specs.Causes.{HasCause, SaysDamaged, SaysForeign, TakesBytes};
ghost use Rattle.iot_durable.specs.Causes.{HasPairCause, SaysFirstDamaged, SaysFirstForeign, TakesBoth};
ghost use Rattle.iot_durable.specs.Damage.{IsDamagedAt};
ghost use Rattle.iot_durable.specs.Durable.{images_of, IsGrownBy};
ghost use Rattle.iot_durable.specs.Standing.{EachGoes, EachIsBroughtUp, EachOpens, IsBroughtUp, IsFresh, StandWith};
ghost use Rattle.iot_records.specs.Records.{ChangesNothing};
ghost use Rattle.iot_slots.specs.Cells.{next};
ghost use Rattle.iot_slots.specs.Decoding.{Foreign, NotStarted, decoded};
ghost use Rattle.iot_slots.specs.Slots.{disk_of as disk_on, state_on};
ghost use Rattle.iot_slots.specs.declared.version.Version.TheVariants.{Two};
ghost use Rattle.iot_stamp.specs.Stamps.{nodes_of};
ghost use Rattle.iot_store.specs.Bodies.{IsBody};
ghost use Rattle.iot_store.specs.Images.{HasRecorded, IsImageIn, IsImageOf, IsRefusal, IsUpgraded, TakesImage};
ghost use Rattle.iot_store.specs.Images.{SaysDamaged as SaysImageDamaged, SaysForeign as SaysImageForeign};
ghost use Rattle.iot_store.specs.Numbers.{number_in};
ghost use Rattle.iot_store.specs.Records.{IsRecord};
ghost use Rattle.iot_store.specs.Rules.{IsCommit, header, rules};
ghost use Rattle.iot_store.specs.Standing.{EachStands, EachStandsEither, EachStays, StandFor, records_in};
ghost use Rattle.iot_store.specs.Standing.{EachBrings, EachFollows, EachStarts, MayFollow, StandTogether};
ghost use Rattle.iot_store.specs.States.{State, CanFollow, after_commit, opening};

use crate::commits::Commits;
use crate::lines::recorded_lines;
use crate::{Commit, Image, ImageFault};
use iot_backup::{Twin, TwinFault};
use iot_disk::{Disk, JournalFault, Pick, StartFault};
use iot_durable::{Durable, read_image, spell_disk};
use iot_stamp::Stamped;
use iot_text::NoMemory;
use iot_tree::{Access, Duplicate, Label, Labels, Lines, Sequence, Tree, Updates};
use std::alloc::Global;

/// A server's tree and the labels of its commits, on a disk to which each commit is appended as one record, or on two, the second of which
/// is the backup of the first. A checkpoint of the whole comes before a commit if the records since the last one have grown long.
///
/// Calls that concern one disk are told by `second` which: the second one if it is true, else the first.
///
/// After an `Err` of `commit` only `into_disks` says anything more: start again from the disks.
#[derive(Drop)]
pub struct Store<D: Disk> {
    pub(crate) durable: Durable<Commits, Twin<D>>,
}

impl<D: Disk> Store<D> {
    ghost use Rattle.iot_store.specs.Store.{state_of, first_of, second_of, part_of, disk_of, count_of, encoded_on};
    ghost use Rattle.iot_store.specs.Store.{IsAlone, IsRecorded, IsSynced};

    /// Starts a store from its disk, which no one else writes. A disk on which none was started becomes that of a server
    /// without a commit, whose tree has only its root. The disk comes back if this gives no store.
    ///
    /// # Errors
    ///
    /// `Foreign` if something else wrote the disk, and `Damaged` with the place of what is cut short, spells nothing, or cannot follow
    /// what comes before it. `Stopped` if the disk failed in this call, and `NoMemory`.
    pub fn start(alloc: Global, disk: D) -> Result<Store<D>, (D, StartFault)>
        requires { Only (D.medium.reads disk) (D.medium.may_leave disk) }
        ensures stands { IfOk result (λ store. StandWith rules (D.medium.reads disk) (count_of store) (state_of store)) }

        // The disk stands for no other state.
        ensures only { (state : State) → StandFor (D.medium.reads disk) state
            → IfOk result (λ store. state_of store ≡ state) }
        ensures synced { IfOk result (λ store. IsSynced D.medium store) }
        ensures alone { IfOk result (λ store. IsAlone store) }

        // However this returns, each image stands for the state for which the disk stood, with as many commits; and if it stood for
        // one, its bytes are not refused.
        ensures images { (state : State) → StandFor (D.medium.reads disk) state → MatchResult result
            (λ store. EachStands (D.medium.may_leave (disk_of store)) (records_in (D.medium.reads disk)) state)
            (λ refused. EachStands (D.medium.may_leave refused.0) (records_in (D.medium.reads disk)) state) }
        ensures never { (state : State) → StandFor (D.medium.reads disk) state
            → IfErr result (λ refused. TakesBytes refused.1) }

        ensures steady { IfOk result (λ store. D.medium.faults (disk_of store) ≡ D.medium.faults disk) }
        ensures cause { IfErr result (λ refused.
            HasCause rules refused.1 (D.medium.reads disk) (D.medium.faults disk) (D.medium.faults refused.0)) }

        // What something else wrote, and what is damaged, is refused for that, unless memory or the disk fails.
        ensures foreign { decoded header (D.medium.reads disk) ≡ Foreign
            → MatchResult result (λ _. ⊥) (λ refused. SaysForeign refused.1) }
        ensures damaged { (at : ℕ) → IsDamagedAt rules (D.medium.reads disk) at
            → MatchResult result (λ _. ⊥) (λ refused. SaysDamaged at refused.1) }

        // A refusal of the bytes changes nothing.
        ensures refused_reads { IfErr result (λ refused.
            ChangesNothing refused.1 (D.medium.reads refused.0 ≡ D.medium.reads disk)) }
        ensures refused_images { IfErr result (λ refused.
            ChangesNothing refused.1 (SameImages (D.medium.may_leave disk) (D.medium.may_leave refused.0))) }

        // A disk that is started is only read, whatever the answer, and so is each whose bytes are refused.
        ensures only_read { decoded header (D.medium.reads disk) ≢ NotStarted → MatchResult result
            (λ store. D.medium.reads (disk_of store) ≡ D.medium.reads disk)
            (λ refused. D.medium.reads refused.0 ≡ D.medium.reads disk) }
        ensures only_read_images { decoded header (D.medium.reads disk) ≢ NotStarted → MatchResult result
            (λ store. SameImages (D.medium.may_leave disk) (D.medium.may_leave (disk_of store)))
            (λ refused. SameImages (D.medium.may_leave disk) (D.medium.may_leave refused.0)) }

        // However this returns, a disk that was not started is not, or was just started. After Ok it has these bytes.
        ensures opens { decoded header (D.medium.reads disk) ≡ NotStarted → MatchResult result
            (λ store. EachOpens rules (D.medium.may_leave (disk_of store)))
            (λ refused. EachOpens rules (D.medium.may_leave refused.0)) }
        ensures fresh { decoded header (D.medium.reads disk) ≡ NotStarted → IfOk result (λ store.
            IsFresh rules (D.medium.reads disk) (D.medium.reads (disk_of store))) }

        ensures arms { MatchResult result
            (λ store. D.medium.arms (disk_of store) ≡ D.medium.arms disk)
            (λ refused. D.medium.arms refused.0 ≡ D.medium.arms disk) }
    {
        match Durable::start_alone(alloc, disk) {
            Ok(durable) => Ok(Store { durable }),
            Err(refused) => Err(refused),
        }
    }

    /// Starts a store from its disk and the backup of that, which no one else writes. Either becomes that of a server without a commit if
    /// none was started on it. A second disk that lacks the last commit gets it. The disks come back if this gives no store. Costs as much
    /// as both disks are long, and what the commits in the first one's records cost.
    ///
    /// # Errors
    ///
    /// `Disk` is the refusal of the first disk if it has one, else that of the second, or says that memory ran out or a disk failed.
    /// `Apart` if neither is refused, and the first disk's count of commits is neither the second's nor one more, modulo 2^64.
    pub fn start_pair(alloc: Global, first: D, second: D) -> Result<Store<D>, (D, D, TwinFault)>
        requires first { Only (D.medium.reads first) (D.medium.may_leave first) }
        requires second { Only (D.medium.reads second) (D.medium.may_leave second) }
        requires behind { (body : List ℕ) → IsBody Two body opening
            → MayBeBehind header body (D.medium.reads first) (D.medium.reads second) }
        requires together { length (D.medium.reads first) ≤ 2 ^ 62 → (state : State) → StandFor (D.medium.reads first) state
            → AreInStep (decoded header (D.medium.reads first)) (decoded header (D.medium.reads second))
            → StandTogether (D.medium.reads first) (D.medium.reads second) state }
        ensures stands { IfOk result (λ store. StandWith rules (D.medium.reads first) (count_of store) (state_of store)) }

        // The first disk stands for no other state.
        ensures only { (state : State) → StandFor (D.medium.reads first) state
            → IfOk result (λ store. state_of store ≡ state) }
        ensures synced { IfOk result (λ store. IsSynced D.medium store) }
        ensures pair { IfOk result (λ store. IsThere (second_of store)) }

        // However this returns, each image of the first disk stands for the state for which that disk stood, with as many commits. So does
        // each of the second, or it stands for that disk's own; after Ok for the first one's.
        ensures images { (state : State) → StandFor (D.medium.reads first) state → MatchResult result
            (λ store. EachStands (D.medium.may_leave (disk_of store)) (records_in (D.medium.reads first)) state)
            (λ refused. EachStands (D.medium.may_leave refused.0) (records_in (D.medium.reads first)) state) }
        ensures second_images { (state other : State) → StandFor (D.medium.reads first) state → StandFor (D.medium.reads second) other
            → MatchResult result
            (λ store. If (λ s. EachStands (images_of D.medium s) (records_in (D.medium.reads first)) state) (second_of store))
            (λ refused. EachBrings (D.medium.may_leave refused.1) (D.medium.reads first) (D.medium.reads second) state other) }
        ensures second_encodes { MatchResult result
            (λ store. If (λ s. EachIsBroughtUp rules (images_of D.medium s) (D.medium.reads first) (D.medium.reads second))
            (second_of store))
            (λ refused. EachIsBroughtUp rules (D.medium.may_leave refused.1) (D.medium.reads first) (D.medium.reads second)) }
        ensures second_state { IfOk result (λ store. If (λ s.
            IsBroughtUp rules (D.medium.reads second) (encoded_on D.medium store) (state_on D.medium s)) (second_of store)) }

        // Of disks whose counts follow each other the next start needs no more. If the first one stands for a state, neither is refused.
        ensures follows { MayFollow (D.medium.reads first) (D.medium.reads second) → MatchResult result
            (λ store. If (λ s. EachFollows (D.medium.may_leave (disk_of store)) (images_of D.medium s)) (second_of store))
            (λ refused. EachFollows (D.medium.may_leave refused.0) (D.medium.may_leave refused.1)) }
        ensures never { (state : State) → StandFor (D.medium.reads first) state
            → AreInStep (decoded header (D.medium.reads first)) (decoded header (D.medium.reads second))
            → IfErr result (λ refused. TakesBoth refused.2) }

        ensures steady { IfOk result (λ store. (D.medium.faults (disk_of store) ≡ D.medium.faults first)
            × If (λ s. D.medium.faults (disk_on s) ≡ D.medium.faults second) (second_of store)) }
        ensures cause { IfErr result (λ refused. HasPairCause rules refused.2 (D.medium.reads first) (D.medium.reads second)
            (D.medium.faults first) (D.medium.faults refused.0) (D.medium.faults second) (D.medium.faults refused.1)) }

        // What something else wrote on the first disk, and what is damaged there, is refused for that, unless memory or a disk fails.
        ensures foreign { decoded header (D.medium.reads first) ≡ Foreign
            → MatchResult result (λ _. ⊥) (λ refused. SaysFirstForeign refused.2) }
        ensures damaged { (at : ℕ) → IsDamagedAt rules (D.medium.reads first) at
            → MatchResult result (λ _. ⊥) (λ refused. SaysFirstDamaged at refused.2) }

        // A refusal of the bytes or of the counts changes nothing.
        ensures refused_first { IfErr result (λ refused. ChangesNeither refused.2
            ((D.medium.reads refused.0 ≡ D.medium.reads first) × SameImages (D.medium.may_leave first) (D.medium.may_leave refused.0))) }
        ensures refused_second { IfErr result (λ refused. ChangesNeither refused.2
            ((D.medium.reads refused.1 ≡ D.medium.reads second) × SameImages (D.medium.may_leave second) (D.medium.may_leave refused.1))) }

        // A first disk that is started is only read, whatever the answer. One that was not started is not, or was just started; after Ok it
        // has these bytes.
        ensures only_read { decoded header (D.medium.reads first) ≢ NotStarted → MatchResult result
            (λ store. D.medium.reads (disk_of store) ≡ D.medium.reads first)
            (λ refused. D.medium.reads refused.0 ≡ D.medium.reads first) }
        ensures only_read_images { decoded header (D.medium.reads first) ≢ NotStarted → MatchResult result
            (λ store. SameImages (D.medium.may_leave first) (D.medium.may_leave (disk_of store)))
            (λ refused. SameImages (D.medium.may_leave first) (D.medium.may_leave refused.0)) }
        ensures opens { decoded header (D.medium.reads first) ≡ NotStarted → MatchResult result
            (λ store. EachOpens rules (D.medium.may_leave (disk_of store)))
            (λ refused. EachOpens rules (D.medium.may_leave refused.0)) }
        ensures fresh { decoded header (D.medium.reads first) ≡ NotStarted → IfOk result (λ store.
            IsFresh rules (D.medium.reads first) (D.medium.reads (disk_of store))) }

        ensures first_arms { MatchResult result
            (λ store. D.medium.arms (disk_of store) ≡ D.medium.arms first)
            (λ refused. D.medium.arms refused.0 ≡ D.medium.arms first) }
        ensures second_arms { MatchResult result
            (λ store. If (λ s. D.medium.arms (disk_on s) ≡ D.medium.arms second) (second_of store))
            (λ refused. D.medium.arms refused.1 ≡ D.medium.arms second) }
    {
        match Durable::start_pair(alloc, first, second) {
            Ok(durable) => Ok(Store { durable }),
            Err(back) => Err(back),
        }
    }

    /// The tree and the labels that a start from a disk which reads as these bytes would give, and the lines of the last commits, which
    /// still have records. Nothing is written. Costs as much as such a start, and the records are then read a second time, where they
    /// stand, and their lines are copied.
    ///
    /// # Errors
    ///
    /// `Foreign` if something else wrote the bytes, and `Damaged` with the place of what is cut short, spells nothing, or cannot follow
    /// what comes before it. `NoMemory`.
    pub fn image(alloc: Global, bytes: &[u8]) -> Result<Image, ImageFault>
        ensures stands { IfOk result (IsImageIn bytes.now) }

        // The bytes stand for no other state. If they stand for one, they are not refused.
        ensures only { (state : State) → StandFor bytes.now state → IfOk result (λ image. IsImageOf image state) }
        ensures never { (state : State) → StandFor bytes.now state → IfErr result TakesImage }
        ensures state { IfOk result (λ image. AllByRecursion IsLabel image.labels) }

        // They are the last commits' lines, and no others.
        ensures last { IfOk result (λ image. length image.recorded ≤ length image.labels) }
        ensures recorded { (recorded : List (List (List ℕ))) → HasRecorded (decoded header bytes.now) recorded
            → IfOk result (λ image. image.recorded ≡ recorded) }

        // What something else wrote, and what is damaged, is refused for that, unless memory runs out.
        ensures foreign { decoded header bytes.now ≡ Foreign → MatchResult result (λ _. ⊥) SaysImageForeign }
        ensures damaged { (at : ℕ) → IsDamagedAt rules bytes.now at → MatchResult result (λ _. ⊥) (SaysImageDamaged at) }
        ensures cause { IfErr result (IsRefusal bytes.now) }
    {
        match read_image::<Commits>(alloc, bytes) {
            Ok(found) => {
                let recorded = recorded_lines(alloc, bytes)?;
                Ok(Image::of(alloc, found.state, recorded)?)
            }
            Err(fault) => Err(ImageFault::from(fault)),
        }
    }

    /// The bytes of a disk that stands for the same state as these, in version 2: it was just started with a checkpoint of this state
    /// alone, after as many records. Nothing is written to a disk. Costs as much as a start.
    ///
    /// # Errors
    ///
    /// Those of `image`.
    pub fn upgrade(alloc: Global, bytes: &[u8]) -> Result<Vec<u8>, ImageFault>
        ensures upgraded { IfOk result (λ disk. IsUpgraded bytes.now disk.items) }

        // There are no other such bytes, and they are their own: who upgrades them gets them again. If the bytes stand for a state, they
        // are not refused.
        ensures only { (disk : List ℕ) → IsUpgraded bytes.now disk → IfOk result (λ made. made.items ≡ disk) }
        ensures again { IfOk result (λ disk. IsUpgraded disk.items disk.items) }
        ensures never { (state : State) → StandFor bytes.now state → IfErr result TakesImage }

        // What something else wrote, and what is damaged, is refused for that, unless memory runs out.
        ensures foreign { decoded header bytes.now ≡ Foreign → MatchResult result (λ _. ⊥) SaysImageForeign }
        ensures damaged { (at : ℕ) → IsDamagedAt rules bytes.now at → MatchResult result (λ _. ⊥) (SaysImageDamaged at) }
        ensures cause { IfErr result (IsRefusal bytes.now) }
    {
        match read_image::<Commits>(alloc, bytes) {
            Ok(found) => Ok(spell_disk(alloc, &found.state, found.count)?),
            Err(fault) => Err(ImageFault::from(fault)),
        }
    }

    /// Whether each of the updates fits the tree in its turn. Takes no copy of the tree: they are made in place and undone.
    pub fn fit_in_turn(&mut self, alloc: Global, updates: &Updates) -> Result<bool, NoMemory>
        requires { IsSynced D.medium self.old }
        ensures fit { IfOk result (λ fit. IsTrue fit ↔ FitInTurn (state_of self.old).tree updates.now) }
        ensures same { OnOk result (self.new ≡ self.old) }
        ensures first { first_of self.new ≡ first_of self.old }
        ensures second { second_of self.new ≡ second_of self.old }
    {
        self.durable
            .state_mut()
            .fit_in_turn(alloc, updates.as_slice())
    }

    /// Adds a commit, and gives its number: its record is on both disks when this answers Ok, first on the first. The checkpoints that are
    /// due come before. Costs as much as the record is long, and a search of the tree for each update; with a checkpoint as much as the
    /// whole state is long.
    ///
    /// # Errors
    ///
    /// `Stopped` if a disk failed in this call: each image of the first disk then stands for the commits before or for those with the new
    /// one, and so does each of the second, but none has the new one if the first disk lacks it. `NoMemory`: each image of the second disk
    /// stands for the commits before, and so does each of a disk that is alone.
    pub fn commit(
        &mut self,
        alloc: Global,
        label: Label,
        access: &Access,
        lines: &Lines,
    ) -> Result<u64, JournalFault>
        requires synced { IsSynced D.medium self.old }
        requires label { IsLabel label }
        requires access { IsAccess access.now }
        requires lines { AreLines lines.now }
        requires follows { CanFollow (state_of self.old) label access.now }

        // However this returns, each image of the first disk stands for the commits before or for those with the new one. Each encodes
        // what was there, or a checkpoint of the state before alone; or such with the record of this commit.
        ensures images { EachStandsEither (D.medium.may_leave (disk_of self.new)) (count_of self.old)
            (state_of self.old) (after_commit (state_of self.old) label access.now) }
        ensures encodes { EachGoes rules (D.medium.may_leave (disk_of self.new)) (encoded_on D.medium self.old) (state_of self.old)
            (record { label = label; access = access.now; lines = lines.now }) }
        ensures no_memory { IsErrOf result JournalFault.NoMemory → IsAlone self.old → EachStays (D.medium.may_leave (disk_of self.new))
            (count_of self.old) (encoded_on D.medium self.old) (state_of self.old) }
        ensures committed { OnOk result (EachStands (D.medium.may_leave (disk_of self.new)) (next (count_of self.old))
            (after_commit (state_of self.old) label access.now)) }

        // So does each image of the second one; without memory each stands for the commits before.
        ensures second_images { Changes (λ old new. EachStandsEither (images_of D.medium new) (count_of self.old)
            (state_of self.old) (after_commit (state_of self.old) label access.now)) (second_of self.old) (second_of self.new) }
        ensures second_encodes { Changes (λ old new. EachGoes rules (images_of D.medium new) (state_on D.medium old) (state_of self.old)
            (record { label = label; access = access.now; lines = lines.now })) (second_of self.old) (second_of self.new) }
        ensures second_memory { IsErrOf result JournalFault.NoMemory → If (λ s. EachStands (images_of D.medium s)
            (count_of self.old) (state_of self.old)) (second_of self.new) }
        ensures second_committed { OnOk result (If (λ s. EachStands (images_of D.medium s) (next (count_of self.old))
            (after_commit (state_of self.old) label access.now)) (second_of self.new)) }

        // However this returns, a start from any two images has what it needs.
        ensures restarts { If (λ s. EachStarts (D.medium.may_leave (disk_of self.new)) (images_of D.medium s)) (second_of self.new) }

        ensures state { OnOk result (state_of self.new ≡ after_commit (state_of self.old) label access.now) }
        ensures recorded { OnOk result (IsRecorded D.medium self.old self.new
            (record { label = label; access = access.now; lines = lines.now })) }
        ensures second_recorded { OnOk result (Changes (λ old new. IsGrownBy D.medium rules (state_of self.old)
            (record { label = label; access = access.now; lines = lines.now }) old new) (second_of self.old) (second_of self.new)) }
        ensures count { OnOk result (count_of self.new ≡ next (count_of self.old)) }
        ensures synced { OnOk result (IsSynced D.medium self.new) }
        ensures number { IfOk result (λ number. number ≡ length (state_of self.old).labels + 1) }

        ensures faults { CountsBoth D.medium result
            (first_of self.old) (first_of self.new) (second_of self.old) (second_of self.new) }
        ensures arms { D.medium.arms (disk_of self.new) ≡ D.medium.arms (disk_of self.old) }
        ensures second_arms { Changes (λ old new. D.medium.arms (disk_on new) ≡ D.medium.arms (disk_on old))
            (second_of self.old) (second_of self.new) }
    {
        let commit = commit_copied(alloc, label, access, lines)?;
        self.durable.note(alloc, commit)?;
        Ok(self.number())
    }

    /// The same, if its record is at hand, which has the bytes of the request: they are appended, and not made again.
    ///
    /// # Errors
    ///
    /// As of `commit`.
    pub fn commit_recorded(
        &mut self,
        alloc: Global,
        commit: Commit,
        body: &[u8],
    ) -> Result<u64, JournalFault>
        requires synced { IsSynced D.medium self.old }
        requires commit { IsCommit commit }
        requires recorded { IsRecord body.now commit.label commit.access commit.lines }
        requires follows { CanFollow (state_of self.old) commit.label commit.access }

        // However this returns, each image of the first disk stands for the commits before or for those with the new one. Each encodes
        // what was there, or a checkpoint of the state before alone; or such with the record of this commit.
        ensures images { EachStandsEither (D.medium.may_leave (disk_of self.new)) (count_of self.old)
            (state_of self.old) (after_commit (state_of self.old) commit.label commit.access) }
        ensures encodes { EachGoes rules (D.medium.may_leave (disk_of self.new)) (encoded_on D.medium self.old) (state_of self.old)
            commit }
        ensures no_memory { IsErrOf result JournalFault.NoMemory → IsAlone self.old → EachStays (D.medium.may_leave (disk_of self.new))
            (count_of self.old) (encoded_on D.medium self.old) (state_of self.old) }
        ensures committed { OnOk result (EachStands (D.medium.may_leave (disk_of self.new)) (next (count_of self.old))
            (after_commit (state_of self.old) commit.label commit.access)) }

        // So does each image of the second one; without memory each stands for the commits before.
        ensures second_images { Changes (λ old new. EachStandsEither (images_of D.medium new) (count_of self.old)
            (state_of self.old) (after_commit (state_of self.old) commit.label commit.access)) (second_of self.old) (second_of self.new) }
        ensures second_encodes { Changes (λ old new. EachGoes rules (images_of D.medium new) (state_on D.medium old) (state_of self.old)
            commit) (second_of self.old) (second_of self.new) }
        ensures second_memory { IsErrOf result JournalFault.NoMemory → If (λ s. EachStands (images_of D.medium s)
            (count_of self.old) (state_of self.old)) (second_of self.new) }
        ensures second_committed { OnOk result (If (λ s. EachStands (images_of D.medium s) (next (count_of self.old))
            (after_commit (state_of self.old) commit.label commit.access)) (second_of self.new)) }

        // However this returns, a start from any two images has what it needs.
        ensures restarts { If (λ s. EachStarts (D.medium.may_leave (disk_of self.new)) (images_of D.medium s)) (second_of self.new) }

        ensures state { OnOk result (state_of self.new ≡ after_commit (state_of self.old) commit.label commit.access) }
        ensures recorded { OnOk result (IsRecorded D.medium self.old self.new
            commit) }
        ensures second_recorded { OnOk result (Changes (λ old new. IsGrownBy D.medium rules (state_of self.old)
            commit old new) (second_of self.old) (second_of self.new)) }
        ensures count { OnOk result (count_of self.new ≡ next (count_of self.old)) }
        ensures synced { OnOk result (IsSynced D.medium self.new) }
        ensures number { IfOk result (λ number. number ≡ length (state_of self.old).labels + 1) }

        ensures faults { CountsBoth D.medium result
            (first_of self.old) (first_of self.new) (second_of self.old) (second_of self.new) }
        ensures arms { D.medium.arms (disk_of self.new) ≡ D.medium.arms (disk_of self.old) }
        ensures second_arms { Changes (λ old new. D.medium.arms (disk_on new) ≡ D.medium.arms (disk_on old))
            (second_of self.old) (second_of self.new) }
    {
        self.durable.note_spelled(alloc, commit, body)?;
        Ok(self.number())
    }

    /// The tree that the commits make.
    pub fn tree(&self) -> &Tree
        ensures { result.now ≡ (state_of self.now).tree }
    {
        self.durable.state().tree()
    }

    /// That tree with its stamps: its root has 1 before the first commit, and each commit puts the number after its own on what it changes.
    /// They are in each checkpoint, and a start makes those of the records again. Takes no memory.
    pub fn stamped(&self) -> &Stamped
        ensures stamps { result.now ≡ (state_of self.now).stamps }
        ensures tree { nodes_of result.now ≡ (state_of self.now).tree }
    {
        self.durable.state().stamped()
    }

    /// The labels of the commits, in their order.
    pub fn labels(&self) -> &Labels
        ensures { result.now ≡ (state_of self.now).labels }
    {
        self.durable.state().labels()
    }

    /// How many commits there are.
    pub fn number(&self) -> u64
        ensures { result ≡ length (state_of self.now).labels }
    {
        self.labels().len() as u64
    }

    /// The number of a client's transaction, if it is among the commits. Its cost is logarithmic in these.
    pub fn number_of(&self, client: u64, tid: u64) -> Option<u64>
        ensures { result ≡ number_in (state_of self.now).labels client tid }
    {
        self.durable.state().number_of(client, tid)
    }

    /// The number of commits that were ever made on its disks, modulo 2^64.
    pub fn count(&self) -> u64
        ensures { result ≡ count_of self.now }
    {
        self.durable.count()
    }

    /// Makes a later device call of a disk fail, and does nothing else.
    pub fn arm(&mut self, second: bool, calls: u64, pick: Pick)
        requires { IsThere (part_of second self.old) }
        ensures arms { Changes (λ old new. D.medium.arms (disk_on new) ≡ armed_with (D.medium.arms (disk_on old)) calls pick)
            (part_of second self.old) (part_of second self.new) }
        ensures reads { Changes (λ old new. D.medium.reads (disk_on new) ≡ D.medium.reads (disk_on old))
            (part_of second self.old) (part_of second self.new) }
        ensures images { Changes (λ old new. SameImages (images_of D.medium old) (images_of D.medium new))
            (part_of second self.old) (part_of second self.new) }
        ensures faults { Changes (λ old new. D.medium.faults (disk_on new) ≡ D.medium.faults (disk_on old))
            (part_of second self.old) (part_of second self.new) }
        ensures other { part_of (not second) self.new ≡ part_of (not second) self.old }
        ensures state { state_of self.new ≡ state_of self.old }
        ensures count { count_of self.new ≡ count_of self.old }
        ensures synced { IsSynced D.medium self.old → IsSynced D.medium self.new }
    {
        self.durable.arm(second, calls, pick);
    }

    /// Gives the disks back: of a disk that is alone there is no second. Unless `commit` failed, each image of both stands for the commits.
    pub fn into_disks(self) -> (D, Option<D>)
        ensures first { result.0 ≡ disk_of self }
        ensures second { result.1 ≡ option_map disk_on (second_of self) }
        ensures stands { IsSynced D.medium self → EachStands (D.medium.may_leave result.0) (count_of self) (state_of self) }
        ensures second_stands { IsSynced D.medium self → If (λ disk. EachStands (D.medium.may_leave disk) (count_of self)
            (state_of self)) result.1 }
        ensures restarts { IsSynced D.medium self → If (λ disk. EachStarts (D.medium.may_leave result.0) (D.medium.may_leave disk))
            result.1 }
    {
        self.durable.into_disks()
    }
}

/// A commit of these parts, with memory of its own.
fn commit_copied(
    alloc: Global,
    label: Label,
    access: &Access,
    lines: &Lines,
) -> Result<Commit, NoMemory>
    ensures { IfOk result (λ commit. commit ≡ record { label = label; access = access.now; lines = lines.now }) }
{
    let access = copied(alloc, access)?;
    let lines = lines.copy(alloc)?;
    Ok(Commit {
        label,
        access,
        lines,
    })
}

/// An equal access in memory of its own.
fn copied(alloc: Global, access: &Access) -> Result<Access, NoMemory>
    ensures { IfOk result (λ copy. copy ≡ access.now) }
{
    let mut places = Vec::with_capacity(alloc, access.places.len())?;
    places.extend_from_slice(access.places.as_slice())?;
    Ok(Access {
        reads: access.reads.copy(alloc)?,
        updates: access.updates.copy(alloc)?,
        places: Sequence::from_vec(places),
    })
}
