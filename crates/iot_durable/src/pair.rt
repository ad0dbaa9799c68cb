//! A durable state on a disk and a backup of it, or on one disk that may have had a backup.
ghost use Rattle.std.specs.Prelude.{◌≡◌, ◌≢◌, ◌≤◌, ◌^◌, ℕ, List, None, length, not, option_map, IfOk, IfErr, MatchResult};
ghost use Rattle.iot_disk.specs.Disk.{armed_with, Only, SameImages};
ghost use Rattle.iot_records.specs.Records.{ChangesNothing};
ghost use Rattle.iot_slots.specs.Decoding.{Foreign, NotStarted, decoded};
ghost use Rattle.iot_slots.specs.Slots.{disk_of as disk_on, state_on};
ghost use Rattle.iot_slots.specs.declared.version.Version.TheVariants.{Two};
ghost use Rattle.iot_backup.specs.Following.{MayFollow};
ghost use Rattle.iot_backup.specs.Pairs.{AreInStep, EachPair};
ghost use Rattle.iot_backup.specs.Parts.{IsThere, If, Changes};
ghost use Rattle.iot_backup.specs.Start.{MayBeBehind, ChangesNothing as ChangesNeither};
ghost use Rattle.iot_durable.specs.Standing.{StandFor, StandWith, StandTogether, EachStands, EachBrings, EachOpens};
ghost use Rattle.iot_durable.specs.Standing.{EachIsBroughtUp, IsBroughtUp, IsFresh, header_of, records_in};
ghost use Rattle.iot_durable.specs.Causes.{HasCause, HasPairCause, TakesBytes, TakesBoth};
ghost use Rattle.iot_durable.specs.Causes.{SaysForeign, SaysDamaged, SaysFirstForeign, SaysFirstDamaged};
ghost use Rattle.iot_durable.specs.Damage.{IsDamagedAt};
ghost use Rattle.iot_durable.specs.Durable.{images_of};

use crate::alone::spell_opening;
use crate::looking::look;
use crate::{Durable, Recorded};
use iot_backup::{Twin, TwinFault};
use iot_disk::{Disk, Pick, StartFault};
use iot_slots::Slots;
use iot_text::Text;
use std::alloc::Global;

impl<R: Recorded, D: Disk> Durable<R, Twin<D>> {
    ghost use Rattle.iot_durable.specs.Pair.{memory_of, first_of, second_of, part_of, disk_of, count_of, encoded_on, IsSynced};

    /// Starts from one disk alone, as `start` does of slots: it has no backup.
    ///
    /// # Errors
    ///
    /// As of `start`.
    pub fn start_alone(alloc: Global, disk: D) -> Result<Durable<R, Twin<D>>, (D, StartFault)>
        requires { Only (D.medium.reads disk) (D.medium.may_leave disk) }
        ensures alone { IfOk result (λ made. second_of made ≡ None) }
        ensures stands { IfOk result (λ made.
            StandWith R.rules (D.medium.reads disk) (count_of made) (R.kept (memory_of made))) }

        // The disk stands for no other state.
        ensures only { (state : R.Kept) → StandFor R.rules (D.medium.reads disk) state
            → IfOk result (λ made. R.kept (memory_of made) ≡ state) }
        ensures synced { IfOk result (IsSynced D.medium R.rules R.kept R.IsSound) }
        ensures in_memory { IfOk result (λ made. R.IsFresh (memory_of made)) }

        // However this returns, each image stands for the state for which the disk stood, with as many records; and if it stood for
        // one, its bytes are not refused.
        ensures images { (state : R.Kept) → StandFor R.rules (D.medium.reads disk) state → MatchResult result
            (λ made. EachStands R.rules (D.medium.may_leave (disk_of made)) (records_in R.rules (D.medium.reads disk)) state)
            (λ refused. EachStands R.rules (D.medium.may_leave refused.0) (records_in R.rules (D.medium.reads disk)) state) }
        ensures never { (state : R.Kept) → StandFor R.rules (D.medium.reads disk) state
            → IfErr result (λ refused. TakesBytes refused.1) }

        ensures steady { IfOk result (λ made. D.medium.faults (disk_of made) ≡ D.medium.faults disk) }
        ensures cause { IfErr result (λ refused.
            HasCause R.rules refused.1 (D.medium.reads disk) (D.medium.faults disk) (D.medium.faults refused.0)) }

        // What something else wrote, and what is damaged, is refused for that, unless memory or the disk fails.
        ensures foreign { decoded (header_of R.rules) (D.medium.reads disk) ≡ Foreign
            → MatchResult result (λ _. ⊥) (λ refused. SaysForeign refused.1) }
        ensures damaged { (at : ℕ) → IsDamagedAt R.rules (D.medium.reads disk) at
            → MatchResult result (λ _. ⊥) (λ refused. SaysDamaged at refused.1) }

        // A refusal of the bytes changes nothing.
        ensures refused_reads { IfErr result (λ refused.
            ChangesNothing refused.1 (D.medium.reads refused.0 ≡ D.medium.reads disk)) }
        ensures refused_images { IfErr result (λ refused.
            ChangesNothing refused.1 (SameImages (D.medium.may_leave disk) (D.medium.may_leave refused.0))) }

        // A disk that is started is only read, whatever the answer, and so is each whose bytes are refused.
        ensures only_read { decoded (header_of R.rules) (D.medium.reads disk) ≢ NotStarted → MatchResult result
            (λ made. D.medium.reads (disk_of made) ≡ D.medium.reads disk)
            (λ refused. D.medium.reads refused.0 ≡ D.medium.reads disk) }
        ensures only_read_images { decoded (header_of R.rules) (D.medium.reads disk) ≢ NotStarted → MatchResult result
            (λ made. SameImages (D.medium.may_leave disk) (D.medium.may_leave (disk_of made)))
            (λ refused. SameImages (D.medium.may_leave disk) (D.medium.may_leave refused.0)) }

        // However this returns, a disk that was not started is not, or was just started. After Ok it has these bytes.
        ensures opens { decoded (header_of R.rules) (D.medium.reads disk) ≡ NotStarted → MatchResult result
            (λ made. EachOpens R.rules (D.medium.may_leave (disk_of made)))
            (λ refused. EachOpens R.rules (D.medium.may_leave refused.0)) }
        ensures fresh { decoded (header_of R.rules) (D.medium.reads disk) ≡ NotStarted → IfOk result (λ made.
            IsFresh R.rules (D.medium.reads disk) (D.medium.reads (disk_of made))) }

        ensures arms { MatchResult result
            (λ made. D.medium.arms (disk_of made) ≡ D.medium.arms disk)
            (λ refused. D.medium.arms refused.0 ≡ D.medium.arms disk) }
    {
        match Durable::<R, Slots<D>>::start(alloc, disk) {
            Ok(Durable { log, state, buffer }) => Ok(Durable {
                log: Twin::lone(log),
                state,
                buffer,
            }),
            Err(refused) => Err(refused),
        }
    }

    /// Starts from a disk and its backup, which no one else writes, with the state of the first disk. A disk on which nothing was
    /// started is started with a checkpoint of the opening state, and a backup that lacks the last record gets it. The records of the
    /// first disk are read before the backup is, and both disks before either is written. The disks come back if this gives no state.
    /// Costs as much as the disks are long, and what the changes in the records of the first cost.
    ///
    /// # Errors
    ///
    /// `Disk` is the refusal of the first disk if it has one, as of `start`, else that of the second, whose records are not made; or it
    /// says that memory ran out or a disk failed in this call. `Apart` if neither is refused, and the first disk's count of records is
    /// neither the second's nor one more, modulo 2^64.
    pub fn start_pair(
        alloc: Global,
        first: D,
        second: D,
    ) -> Result<Durable<R, Twin<D>>, (D, D, TwinFault)>
        requires first { Only (D.medium.reads first) (D.medium.may_leave first) }
        requires second { Only (D.medium.reads second) (D.medium.may_leave second) }
        requires behind { (body : List ℕ) → (R.rules Two).IsBody body (R.rules Two).opening
            → MayBeBehind (header_of R.rules) body (D.medium.reads first) (D.medium.reads second) }

        // If their counts follow each other, and the first disk stands for a state, the two stand together for it.
        requires together { length (D.medium.reads first) ≤ 2 ^ 62 → (state : R.Kept) → StandFor R.rules (D.medium.reads first) state
            → AreInStep (decoded (header_of R.rules) (D.medium.reads first)) (decoded (header_of R.rules) (D.medium.reads second))
            → StandTogether R.rules (D.medium.reads first) (D.medium.reads second) state }
        ensures stands { IfOk result (λ made.
            StandWith R.rules (D.medium.reads first) (count_of made) (R.kept (memory_of made))) }

        // The first disk stands for no other state.
        ensures only { (state : R.Kept) → StandFor R.rules (D.medium.reads first) state
            → IfOk result (λ made. R.kept (memory_of made) ≡ state) }
        ensures synced { IfOk result (IsSynced D.medium R.rules R.kept R.IsSound) }
        ensures in_memory { IfOk result (λ made. R.IsFresh (memory_of made)) }
        ensures pair { IfOk result (λ made. IsThere (second_of made)) }

        // However this returns, each image of the first disk stands for the state for which it stood, with as many records. Each image
        // of the second stands for that or for what it stood for; after Ok for that.
        ensures images { (state : R.Kept) → StandFor R.rules (D.medium.reads first) state → MatchResult result
            (λ made. EachStands R.rules (D.medium.may_leave (disk_of made)) (records_in R.rules (D.medium.reads first)) state)
            (λ refused. EachStands R.rules (D.medium.may_leave refused.0) (records_in R.rules (D.medium.reads first)) state) }
        ensures second_images { (state other : R.Kept) → StandFor R.rules (D.medium.reads first) state
            → StandFor R.rules (D.medium.reads second) other → MatchResult result
            (λ made. If (λ s. EachStands R.rules (images_of D.medium s) (records_in R.rules (D.medium.reads first)) state)
            (second_of made))
            (λ refused. EachBrings R.rules (D.medium.may_leave refused.1) (D.medium.reads first) (D.medium.reads second) state other) }

        // However this returns, each image of the second disk encodes what it encoded or, if it lacked the last record, that with it;
        // after Ok the latter.
        ensures second_encodes { MatchResult result
            (λ made. If (λ s. EachIsBroughtUp R.rules (images_of D.medium s) (D.medium.reads first) (D.medium.reads second))
            (second_of made))
            (λ refused. EachIsBroughtUp R.rules (D.medium.may_leave refused.1) (D.medium.reads first) (D.medium.reads second)) }
        ensures second_state { IfOk result (λ made. If (λ s.
            IsBroughtUp R.rules (D.medium.reads second) (encoded_on D.medium made) (state_on D.medium s)) (second_of made)) }

        // However this returns, a start can go on from each pair of images, if one could from the disks.
        ensures follows { MayFollow (header_of R.rules) (D.medium.reads first) (D.medium.reads second) → MatchResult result
            (λ made. If (λ s. EachPair (MayFollow (header_of R.rules)) (D.medium.may_leave (disk_of made)) (images_of D.medium s))
            (second_of made))
            (λ refused. EachPair (MayFollow (header_of R.rules)) (D.medium.may_leave refused.0) (D.medium.may_leave refused.1)) }

        // If the first disk stood for a state, and the counts followed each other, neither disk is refused, nor the counts.
        ensures never { (state : R.Kept) → StandFor R.rules (D.medium.reads first) state
            → AreInStep (decoded (header_of R.rules) (D.medium.reads first)) (decoded (header_of R.rules) (D.medium.reads second))
            → IfErr result (λ refused. TakesBoth refused.2) }

        ensures steady { IfOk result (λ made. (D.medium.faults (disk_of made) ≡ D.medium.faults first)
            × If (λ s. D.medium.faults (disk_on s) ≡ D.medium.faults second) (second_of made)) }
        ensures cause { IfErr result (λ refused. HasPairCause R.rules refused.2 (D.medium.reads first) (D.medium.reads second)
            (D.medium.faults first) (D.medium.faults refused.0) (D.medium.faults second) (D.medium.faults refused.1)) }

        // A first disk that something else wrote, or that is damaged, is refused for that, unless memory or a disk fails.
        ensures foreign { decoded (header_of R.rules) (D.medium.reads first) ≡ Foreign
            → MatchResult result (λ _. ⊥) (λ refused. SaysFirstForeign refused.2) }
        ensures damaged { (at : ℕ) → IsDamagedAt R.rules (D.medium.reads first) at
            → MatchResult result (λ _. ⊥) (λ refused. SaysFirstDamaged at refused.2) }

        // A refusal of the bytes or of the counts changes nothing.
        ensures refused_first { IfErr result (λ refused. ChangesNeither refused.2
            ((D.medium.reads refused.0 ≡ D.medium.reads first) × SameImages (D.medium.may_leave first) (D.medium.may_leave refused.0))) }
        ensures refused_second { IfErr result (λ refused. ChangesNeither refused.2
            ((D.medium.reads refused.1 ≡ D.medium.reads second) × SameImages (D.medium.may_leave second) (D.medium.may_leave refused.1))) }

        // A first disk that is started is only read, whatever the answer.
        ensures only_read { decoded (header_of R.rules) (D.medium.reads first) ≢ NotStarted → MatchResult result
            (λ made. D.medium.reads (disk_of made) ≡ D.medium.reads first)
            (λ refused. D.medium.reads refused.0 ≡ D.medium.reads first) }
        ensures only_read_images { decoded (header_of R.rules) (D.medium.reads first) ≢ NotStarted → MatchResult result
            (λ made. SameImages (D.medium.may_leave first) (D.medium.may_leave (disk_of made)))
            (λ refused. SameImages (D.medium.may_leave first) (D.medium.may_leave refused.0)) }

        // However this returns, a first disk that was not started is not, or was just started. After Ok it has these bytes.
        ensures opens { decoded (header_of R.rules) (D.medium.reads first) ≡ NotStarted → MatchResult result
            (λ made. EachOpens R.rules (D.medium.may_leave (disk_of made)))
            (λ refused. EachOpens R.rules (D.medium.may_leave refused.0)) }
        ensures fresh { decoded (header_of R.rules) (D.medium.reads first) ≡ NotStarted → IfOk result (λ made.
            IsFresh R.rules (D.medium.reads first) (D.medium.reads (disk_of made))) }

        ensures first_arms { MatchResult result
            (λ made. D.medium.arms (disk_of made) ≡ D.medium.arms first)
            (λ refused. D.medium.arms refused.0 ≡ D.medium.arms first) }
        ensures second_arms { MatchResult result
            (λ made. If (λ s. D.medium.arms (disk_on s) ≡ D.medium.arms second) (second_of made))
            (λ refused. D.medium.arms refused.1 ≡ D.medium.arms second) }
    {
        let mut body = Text::new(alloc);
        match spell_opening::<R>(alloc, &mut body) {
            Ok(()) => (),
            Err(_) => return Err((first, second, TwinFault::Disk(StartFault::NoMemory))),
        }
        let (first, state) = match look::<R, D>(alloc, first) {
            Ok(found) => found,
            Err((first, fault)) => return Err((first, second, TwinFault::Disk(fault))),
        };
        match Twin::start_looked(alloc, first, second, R::header(), body.as_bytes()) {
            Ok((log, _started)) => Ok(Durable {
                log,
                state,
                buffer: Text::new(alloc),
            }),
            Err(refused) => Err(refused),
        }
    }

    /// Makes a later device call of a disk fail, of the second one if so told, else of the first, and does nothing else.
    pub fn arm(&mut self, second: bool, calls: u64, pick: Pick)
        requires { IsThere (part_of second self.old) }
        ensures arms { Changes (λ old new. D.medium.arms (disk_on new) ≡ armed_with (D.medium.arms (disk_on old)) calls pick)
            (part_of second self.old) (part_of second self.new) }
        ensures reads { Changes (λ old new. D.medium.reads (disk_on new) ≡ D.medium.reads (disk_on old))
            (part_of second self.old) (part_of second self.new) }
        ensures images { Changes (λ old new. SameImages (images_of D.medium old) (images_of D.medium new))
            (part_of second self.old) (part_of second self.new) }
        ensures faults { Changes (λ old new. D.medium.faults (disk_on new) ≡ D.medium.faults (disk_on old))
            (part_of second self.old) (part_of second self.new) }
        ensures other { part_of (not second) self.new ≡ part_of (not second) self.old }
        ensures state { memory_of self.new ≡ memory_of self.old }
        ensures count { count_of self.new ≡ count_of self.old }
        ensures synced { IsSynced D.medium R.rules R.kept R.IsSound self.old
            → IsSynced D.medium R.rules R.kept R.IsSound self.new }
    {
        self.log.arm(second, calls, pick);
    }

    /// Gives the disks back: of a disk alone there is no second. Unless `note` failed, each image of either stands for the state, and a
    /// start can go on from each pair.
    pub fn into_disks(self) -> (D, Option<D>)
        ensures first { result.0 ≡ disk_of self }
        ensures second { result.1 ≡ option_map disk_on (second_of self) }
        ensures stands { IsSynced D.medium R.rules R.kept R.IsSound self
            → EachStands R.rules (D.medium.may_leave result.0) (count_of self) (R.kept (memory_of self)) }
        ensures second_stands { IsSynced D.medium R.rules R.kept R.IsSound self
            → If (λ disk. EachStands R.rules (D.medium.may_leave disk) (count_of self) (R.kept (memory_of self))) result.1 }
        ensures follows { IsSynced D.medium R.rules R.kept R.IsSound self
            → If (λ disk. EachPair (MayFollow (header_of R.rules)) (D.medium.may_leave result.0) (D.medium.may_leave disk)) result.1 }
    {
        self.log.into_disks()
    }
}
