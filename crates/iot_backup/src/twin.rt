//! The twin itself.
ghost use Rattle.std.specs.Prelude.{◌≡◌, ◌≢◌, ◌<◌, ◌+◌, ◌^◌, ℕ, List, false, true, length, not, option_map, None};
ghost use Rattle.std.specs.Prelude.{IfOk, IfErr, OnOk, IsErrOf, MatchResult};
ghost use Rattle.iot_disk.specs.Disk.{armed_with, Only, SameImages};
ghost use Rattle.iot_disk.specs.Faults.{CountsJournalFault};
ghost use Rattle.iot_records.specs.Images.{Each};
ghost use Rattle.iot_records.specs.Records.{ChangesNothing as ChangesNothingAlone, records};
ghost use Rattle.iot_slots.specs.Cells.{next, number_of};
ghost use Rattle.iot_slots.specs.Decoding.{Encodes, NotStarted, State, decoded, opened, state_in};
ghost use Rattle.iot_slots.specs.Due.{EachTakes};
ghost use Rattle.iot_slots.specs.Layouts.{longer_layout, renewed_layout, place_in, MakesRoom};
ghost use Rattle.iot_slots.specs.Looked.{disk_of as disk_in, header_of as header_in, IsLooked};
ghost use Rattle.iot_slots.specs.Slots.{disk_of, header_of, layout_of, version_of, state_on};
ghost use Rattle.iot_slots.specs.Slots.{appended, renewed, EachEncodes, EachEncodesEither};
ghost use Rattle.iot_slots.specs.Slots as slots;
ghost use Rattle.iot_slots.specs.Start.{EachEncodesAs, HasCause as HasCauseAlone, started_over};
ghost use Rattle.iot_backup.specs.Pairs.{AppendsInTurn, AreInStep, EachInStep, EachPair};
ghost use Rattle.iot_backup.specs.Parts.{IsThere, If, Changes, LacksMemory};
ghost use Rattle.iot_backup.specs.Start.{HasCause, ChangesNothing, MayBeBehind, IsBroughtUpFrom, TakesLast, brought_up};

use crate::TwinFault;
use crate::behind::{bring_up, follows};
use iot_disk::{Disk, JournalFault, Pick, StartFault};
use iot_slots::{Layout, Looked, Slots, Started};
use std::alloc::Global;

/// A body and records after it on two disks, or on one alone. A record is written to the first disk and then to the
/// second, so the second lacks at most the last one. Each disk has its own checkpoints.
///
/// Calls that concern one disk are told by `second` which: the second one if it is true, else the first.
///
/// After an `Err` only `into_disks` says anything more: start again from the disks.
#[derive(Drop)]
pub struct Twin<D: Disk> {
    pub(crate) first: Slots<D>,
    pub(crate) second: Option<Slots<D>>,
}

impl<D: Disk> Twin<D> {
    ghost use Rattle.iot_backup.specs.Twin.{first_of, second_of, part_of, due_by, IsSynced, CountsFaults};

    /// Starts a twin from two disks, which no one else writes, and gives the state that the first one encodes. A disk that
    /// is not started encodes this body, and is started with it. A second disk that lacks the last record gets it. Both
    /// disks are read before either is written. If this gives no twin, it gives the disks back.
    ///
    /// # Errors
    ///
    /// `Disk` is the refusal of the first disk if it has one, else that of the second, or says that memory ran out or a disk
    /// failed. `Apart` if neither is refused, and the first disk's count of records is neither the second's nor one more,
    /// modulo 2^64.
    pub fn start(
        alloc: Global,
        first: D,
        second: D,
        header: [u8; 8],
        body: &[u8],
    ) -> Result<(Twin<D>, Started), (D, D, TwinFault)>
        requires first { Only (D.medium.reads first) (D.medium.may_leave first) }
        requires second { Only (D.medium.reads second) (D.medium.may_leave second) }
        requires behind { MayBeBehind header body.now (D.medium.reads first) (D.medium.reads second) }
        ensures state { IfOk result (λ made. opened body.now (decoded header (D.medium.reads first))
            ≡ Encodes (state_in (version_of (first_of made.0)) made.1.body made.1.records (slots.count_of (first_of made.0)))) }
        ensures first_state { IfOk result (λ made. state_on D.medium (first_of made.0)
            ≡ state_in (version_of (first_of made.0)) made.1.body made.1.records (slots.count_of (first_of made.0))) }
        ensures second_state { (other : State) → opened body.now (decoded header (D.medium.reads second)) ≡ Encodes other
            → IfOk result (λ made. If (λ s. state_on D.medium s ≡ brought_up (state_on D.medium (first_of made.0)) other)
            (second_of made.0)) }
        ensures version { IfOk result (λ made. made.1.version ≡ number_of (version_of (first_of made.0))) }
        ensures pair { IfOk result (λ made. IsThere (second_of made.0)) }
        ensures synced { IfOk result (λ made. IsSynced D.medium made.0) }
        ensures header { IfOk result (λ made. header_of (first_of made.0) ≡ header) }

        // However this returns, every image of the first disk encodes what the disk encoded before, and every image of the
        // second that or, if it lacked the last record, the state with it.
        ensures first_images { MatchResult result
            (λ made. EachEncodesAs header body.now (D.medium.reads first) (D.medium.may_leave (disk_of (first_of made.0))))
            (λ refused. EachEncodesAs header body.now (D.medium.reads first) (D.medium.may_leave refused.0)) }
        ensures second_images { MatchResult result
            (λ made. If (λ s. Each (λ image. IsBroughtUpFrom header body.now (D.medium.reads first) (D.medium.reads second) image)
            (D.medium.may_leave (disk_of s))) (second_of made.0))
            (λ refused. Each (λ image. IsBroughtUpFrom header body.now (D.medium.reads first) (D.medium.reads second) image)
            (D.medium.may_leave refused.1)) }

        // However this returns, the next start has what it needs. If the counts follow each other, so they do in each pair of images.
        ensures again { MatchResult result
            (λ made. If (λ s. EachPair (MayBeBehind header body.now) (D.medium.may_leave (disk_of (first_of made.0)))
            (D.medium.may_leave (disk_of s))) (second_of made.0))
            (λ refused. EachPair (MayBeBehind header body.now) (D.medium.may_leave refused.0) (D.medium.may_leave refused.1)) }
        ensures in_step { AreInStep (decoded header (D.medium.reads first)) (decoded header (D.medium.reads second)) → MatchResult result
            (λ made. If (λ s. EachInStep header (D.medium.may_leave (disk_of (first_of made.0))) (D.medium.may_leave (disk_of s)))
            (second_of made.0))
            (λ refused. EachInStep header (D.medium.may_leave refused.0) (D.medium.may_leave refused.1)) }
        ensures takes { IfErr result (λ refused.
            TakesLast header body.now (D.medium.reads first) (D.medium.reads second) (D.medium.may_leave refused.1)) }

        ensures steady { IfOk result (λ made. (D.medium.faults (disk_of (first_of made.0)) ≡ D.medium.faults first)
            × If (λ s. D.medium.faults (disk_of s) ≡ D.medium.faults second) (second_of made.0)) }
        ensures cause { IfErr result (λ refused. HasCause refused.2
            (decoded header (D.medium.reads first)) (decoded header (D.medium.reads second))
            (D.medium.faults first) (D.medium.faults refused.0) (D.medium.faults second) (D.medium.faults refused.1)) }

        // A refusal of the bytes or of the counts changes nothing.
        ensures refused_first { IfErr result (λ refused. ChangesNothing refused.2
            ((D.medium.reads refused.0 ≡ D.medium.reads first) × SameImages (D.medium.may_leave first) (D.medium.may_leave refused.0))) }
        ensures refused_second { IfErr result (λ refused. ChangesNothing refused.2
            ((D.medium.reads refused.1 ≡ D.medium.reads second) × SameImages (D.medium.may_leave second) (D.medium.may_leave refused.1))) }

        // A first disk that is started is only read, whatever the answer. After Ok one that was not started has these bytes.
        ensures only_read { decoded header (D.medium.reads first) ≢ NotStarted → MatchResult result
            (λ made. D.medium.reads (disk_of (first_of made.0)) ≡ D.medium.reads first)
            (λ refused. D.medium.reads refused.0 ≡ D.medium.reads first) }
        ensures only_read_images { decoded header (D.medium.reads first) ≢ NotStarted → MatchResult result
            (λ made. SameImages (D.medium.may_leave first) (D.medium.may_leave (disk_of (first_of made.0))))
            (λ refused. SameImages (D.medium.may_leave first) (D.medium.may_leave refused.0)) }
        ensures fresh { decoded header (D.medium.reads first) ≡ NotStarted → IfOk result (λ made.
            D.medium.reads (disk_of (first_of made.0)) ≡ started_over header body.now (D.medium.reads first)) }

        ensures first_arms { MatchResult result
            (λ made. D.medium.arms (disk_of (first_of made.0)) ≡ D.medium.arms first)
            (λ refused. D.medium.arms refused.0 ≡ D.medium.arms first) }
        ensures second_arms { MatchResult result
            (λ made. If (λ s. D.medium.arms (disk_of s) ≡ D.medium.arms second) (second_of made.0))
            (λ refused. D.medium.arms refused.1 ≡ D.medium.arms second) }
    {
        match Slots::look(alloc, first, header) {
            Ok(first) => Self::start_looked(alloc, first, second, header, body),
            Err((first, fault)) => Err((first, second, TwinFault::Disk(fault))),
        }
    }

    /// The same, if the first disk was looked at, so that its bytes can be read before the second disk is.
    ///
    /// # Errors
    ///
    /// As of `start`, but that a look has refused a first disk that is foreign or damaged.
    pub fn start_looked(
        alloc: Global,
        first: Looked<D>,
        second: D,
        header: [u8; 8],
        body: &[u8],
    ) -> Result<(Twin<D>, Started), (D, D, TwinFault)>
        requires first { IsLooked D.medium first }
        requires header { header_in first ≡ header }
        requires second { Only (D.medium.reads second) (D.medium.may_leave second) }
        requires behind { MayBeBehind header body.now (D.medium.reads (disk_in first)) (D.medium.reads second) }
        ensures state { IfOk result (λ made. opened body.now (decoded header (D.medium.reads (disk_in first)))
            ≡ Encodes (state_in (version_of (first_of made.0)) made.1.body made.1.records (slots.count_of (first_of made.0)))) }
        ensures first_state { IfOk result (λ made. state_on D.medium (first_of made.0)
            ≡ state_in (version_of (first_of made.0)) made.1.body made.1.records (slots.count_of (first_of made.0))) }
        ensures second_state { (other : State) → opened body.now (decoded header (D.medium.reads second)) ≡ Encodes other
            → IfOk result (λ made. If (λ s. state_on D.medium s ≡ brought_up (state_on D.medium (first_of made.0)) other)
            (second_of made.0)) }
        ensures version { IfOk result (λ made. made.1.version ≡ number_of (version_of (first_of made.0))) }
        ensures pair { IfOk result (λ made. IsThere (second_of made.0)) }
        ensures synced { IfOk result (λ made. IsSynced D.medium made.0) }
        ensures header { IfOk result (λ made. header_of (first_of made.0) ≡ header) }

        // However this returns, every image of the first disk encodes what the disk encoded before, and every image of the
        // second that or, if it lacked the last record, the state with it.
        ensures first_images { MatchResult result
            (λ made. EachEncodesAs header body.now (D.medium.reads (disk_in first)) (D.medium.may_leave (disk_of (first_of made.0))))
            (λ refused. EachEncodesAs header body.now (D.medium.reads (disk_in first)) (D.medium.may_leave refused.0)) }
        ensures second_images { MatchResult result
            (λ made. If (λ s. Each (λ image. IsBroughtUpFrom header body.now (D.medium.reads (disk_in first)) (D.medium.reads second) image)
            (D.medium.may_leave (disk_of s))) (second_of made.0))
            (λ refused. Each (λ image. IsBroughtUpFrom header body.now (D.medium.reads (disk_in first)) (D.medium.reads second) image)
            (D.medium.may_leave refused.1)) }

        // A second disk that was started is.
        ensures second_started { decoded header (D.medium.reads second) ≢ NotStarted → MatchResult result
            (λ made. If (λ s. Each (λ image. decoded header image ≢ NotStarted) (D.medium.may_leave (disk_of s))) (second_of made.0))
            (λ refused. Each (λ image. decoded header image ≢ NotStarted) (D.medium.may_leave refused.1)) }

        // However this returns, the next start has what it needs. If the counts follow each other, so they do in each pair of images.
        ensures again { MatchResult result
            (λ made. If (λ s. EachPair (MayBeBehind header body.now) (D.medium.may_leave (disk_of (first_of made.0)))
            (D.medium.may_leave (disk_of s))) (second_of made.0))
            (λ refused. EachPair (MayBeBehind header body.now) (D.medium.may_leave refused.0) (D.medium.may_leave refused.1)) }
        ensures in_step { AreInStep (decoded header (D.medium.reads (disk_in first))) (decoded header (D.medium.reads second))
            → MatchResult result
            (λ made. If (λ s. EachInStep header (D.medium.may_leave (disk_of (first_of made.0))) (D.medium.may_leave (disk_of s)))
            (second_of made.0))
            (λ refused. EachInStep header (D.medium.may_leave refused.0) (D.medium.may_leave refused.1)) }
        ensures takes { IfErr result (λ refused.
            TakesLast header body.now (D.medium.reads (disk_in first)) (D.medium.reads second) (D.medium.may_leave refused.1)) }

        ensures steady { IfOk result (λ made. (D.medium.faults (disk_of (first_of made.0)) ≡ D.medium.faults (disk_in first))
            × If (λ s. D.medium.faults (disk_of s) ≡ D.medium.faults second) (second_of made.0)) }
        ensures cause { IfErr result (λ refused. HasCause refused.2
            (decoded header (D.medium.reads (disk_in first))) (decoded header (D.medium.reads second))
            (D.medium.faults (disk_in first)) (D.medium.faults refused.0) (D.medium.faults second) (D.medium.faults refused.1)) }

        // A refusal of the bytes or of the counts changes nothing.
        ensures refused_first { IfErr result (λ refused. ChangesNothing refused.2
            ((D.medium.reads refused.0 ≡ D.medium.reads (disk_in first))
            × SameImages (D.medium.may_leave (disk_in first)) (D.medium.may_leave refused.0))) }
        ensures refused_second { IfErr result (λ refused. ChangesNothing refused.2
            ((D.medium.reads refused.1 ≡ D.medium.reads second) × SameImages (D.medium.may_leave second) (D.medium.may_leave refused.1))) }

        // A first disk that is started is only read, whatever the answer. After Ok one that was not started has these bytes.
        ensures only_read { decoded header (D.medium.reads (disk_in first)) ≢ NotStarted → MatchResult result
            (λ made. D.medium.reads (disk_of (first_of made.0)) ≡ D.medium.reads (disk_in first))
            (λ refused. D.medium.reads refused.0 ≡ D.medium.reads (disk_in first)) }
        ensures only_read_images { decoded header (D.medium.reads (disk_in first)) ≢ NotStarted → MatchResult result
            (λ made. SameImages (D.medium.may_leave (disk_in first)) (D.medium.may_leave (disk_of (first_of made.0))))
            (λ refused. SameImages (D.medium.may_leave (disk_in first)) (D.medium.may_leave refused.0)) }
        ensures fresh { decoded header (D.medium.reads (disk_in first)) ≡ NotStarted → IfOk result (λ made.
            D.medium.reads (disk_of (first_of made.0)) ≡ started_over header body.now (D.medium.reads (disk_in first))) }

        ensures first_arms { MatchResult result
            (λ made. D.medium.arms (disk_of (first_of made.0)) ≡ D.medium.arms (disk_in first))
            (λ refused. D.medium.arms refused.0 ≡ D.medium.arms (disk_in first)) }
        ensures second_arms { MatchResult result
            (λ made. If (λ s. D.medium.arms (disk_of s) ≡ D.medium.arms second) (second_of made.0))
            (λ refused. D.medium.arms refused.1 ≡ D.medium.arms second) }
    {
        let second = match Slots::look(alloc, second, header) {
            Ok(second) => second,
            Err((second, fault)) => {
                return Err((first.into_disk(), second, TwinFault::Disk(fault)));
            }
        };
        let (one, other) = (first.count(), second.count());
        if !follows(one, other) {
            let apart = TwinFault::Apart {
                first: one,
                second: other,
            };
            return Err((first.into_disk(), second.into_disk(), apart));
        }
        let (first, started) = match first.start(alloc, body) {
            Ok(made) => made,
            Err((first, fault)) => {
                return Err((first, second.into_disk(), TwinFault::Disk(fault)));
            }
        };
        let (mut second, _found) = match second.start(alloc, body) {
            Ok(made) => made,
            Err((second, fault)) => {
                return Err((first.into_disk(), second, TwinFault::Disk(fault)));
            }
        };
        match bring_up(&mut second, one, &started.records) {
            Ok(()) => Ok((
                Twin {
                    first,
                    second: Some(second),
                },
                started,
            )),
            Err(fault) => Err((
                first.into_disk(),
                second.into_disk(),
                TwinFault::from(fault),
            )),
        }
    }

    /// Starts a twin from one disk alone, which no one else writes, and gives the state that it encodes. A disk that is not
    /// started encodes this body, and is started with it. If this gives no twin, it gives the disk back.
    ///
    /// # Errors
    ///
    /// As of `Slots::start_with`.
    pub fn alone(
        alloc: Global,
        disk: D,
        header: [u8; 8],
        body: &[u8],
    ) -> Result<(Twin<D>, Started), (D, StartFault)>
        requires { Only (D.medium.reads disk) (D.medium.may_leave disk) }
        ensures state { IfOk result (λ made. opened body.now (decoded header (D.medium.reads disk))
            ≡ Encodes (state_in (version_of (first_of made.0)) made.1.body made.1.records (slots.count_of (first_of made.0)))) }
        ensures same { IfOk result (λ made. state_on D.medium (first_of made.0)
            ≡ state_in (version_of (first_of made.0)) made.1.body made.1.records (slots.count_of (first_of made.0))) }
        ensures version { IfOk result (λ made. made.1.version ≡ number_of (version_of (first_of made.0))) }
        ensures alone { IfOk result (λ made. second_of made.0 ≡ None) }
        ensures synced { IfOk result (λ made. IsSynced D.medium made.0) }
        ensures header { IfOk result (λ made. header_of (first_of made.0) ≡ header) }

        // However this returns, every image encodes what the disk encoded before.
        ensures images { MatchResult result
            (λ made. EachEncodesAs header body.now (D.medium.reads disk) (D.medium.may_leave (disk_of (first_of made.0))))
            (λ refused. EachEncodesAs header body.now (D.medium.reads disk) (D.medium.may_leave refused.0)) }

        ensures steady { IfOk result (λ made. D.medium.faults (disk_of (first_of made.0)) ≡ D.medium.faults disk) }
        ensures cause { IfErr result (λ refused. HasCauseAlone refused.1
            (decoded header (D.medium.reads disk)) (D.medium.faults disk) (D.medium.faults refused.0)) }

        // A refusal of the bytes changes nothing.
        ensures refused_reads { IfErr result (λ refused.
            ChangesNothingAlone refused.1 (D.medium.reads refused.0 ≡ D.medium.reads disk)) }
        ensures refused_images { IfErr result (λ refused.
            ChangesNothingAlone refused.1 (SameImages (D.medium.may_leave disk) (D.medium.may_leave refused.0))) }

        // A disk that is started is only read, whatever the answer, and so is each whose bytes are refused.
        ensures only_read { decoded header (D.medium.reads disk) ≢ NotStarted → MatchResult result
            (λ made. D.medium.reads (disk_of (first_of made.0)) ≡ D.medium.reads disk)
            (λ refused. D.medium.reads refused.0 ≡ D.medium.reads disk) }
        ensures only_read_images { decoded header (D.medium.reads disk) ≢ NotStarted → MatchResult result
            (λ made. SameImages (D.medium.may_leave disk) (D.medium.may_leave (disk_of (first_of made.0))))
            (λ refused. SameImages (D.medium.may_leave disk) (D.medium.may_leave refused.0)) }

        // After Ok a disk that was not started has these bytes.
        ensures fresh { decoded header (D.medium.reads disk) ≡ NotStarted → IfOk result (λ made.
            D.medium.reads (disk_of (first_of made.0)) ≡ started_over header body.now (D.medium.reads disk)) }

        ensures arms { MatchResult result
            (λ made. D.medium.arms (disk_of (first_of made.0)) ≡ D.medium.arms disk)
            (λ refused. D.medium.arms refused.0 ≡ D.medium.arms disk) }
    {
        match Slots::start_with(alloc, disk, header, body) {
            Ok((slots, started)) => Ok((Twin::lone(slots), started)),
            Err(refused) => Err(refused),
        }
    }

    /// A twin of one disk alone, on which these slots are.
    pub fn lone(slots: Slots<D>) -> Twin<D>
        ensures first { first_of result ≡ slots }
        ensures alone { second_of result ≡ None }
    {
        Twin {
            first: slots,
            second: None,
        }
    }

    /// Appends a record to the first disk, and then to the second: it is on both when this answers Ok. Makes four device
    /// calls of each disk. Costs as much as the body is long.
    ///
    /// # Errors
    ///
    /// `NoMemory`: the second disk does not have the record, and the first may have it. `Stopped` if a disk failed: the
    /// first may have the record, and if it has it, so may the second.
    pub fn append(&mut self, body: &[u8]) -> Result<(), JournalFault>
        requires synced { IsSynced D.medium self.old }
        requires first_not_due { due_by D.medium (length body.now) (part_of false self.old) ≡ false }
        requires second_not_due { due_by D.medium (length body.now) (part_of true self.old) ≡ false }

        // However this returns, every image of each disk encodes the state before or the one with the new record, and no pair
        // of images has it on the second disk alone. After Ok each has it.
        ensures first_images { EachEncodesEither (header_of (first_of self.old)) (D.medium.may_leave (disk_of (first_of self.new)))
            (state_on D.medium (first_of self.old)) (appended (state_on D.medium (first_of self.old)) body.now) }
        ensures second_images { Changes (λ old new. EachEncodesEither (header_of old) (D.medium.may_leave (disk_of new))
            (state_on D.medium old) (appended (state_on D.medium old) body.now)) (second_of self.old) (second_of self.new) }
        ensures pairs { Changes (λ old new. EachPair (λ one other. AppendsInTurn (header_of (first_of self.old))
            (state_on D.medium (first_of self.old)) (state_on D.medium old) body.now one other)
            (D.medium.may_leave (disk_of (first_of self.new))) (D.medium.may_leave (disk_of new)))
            (second_of self.old) (second_of self.new) }
        ensures again { (body : List ℕ) → If (λ s. EachPair (MayBeBehind (header_of (first_of self.old)) body)
            (D.medium.may_leave (disk_of (first_of self.new))) (D.medium.may_leave (disk_of s))) (second_of self.new) }
        ensures in_step { If (λ s. EachInStep (header_of (first_of self.old))
            (D.medium.may_leave (disk_of (first_of self.new))) (D.medium.may_leave (disk_of s))) (second_of self.new) }
        ensures no_memory { IsErrOf result JournalFault.NoMemory → LacksMemory D.medium body.now
            (first_of self.old) (first_of self.new) (second_of self.old) (second_of self.new) }
        ensures first_appended { OnOk result (EachEncodes (header_of (first_of self.old)) (D.medium.may_leave (disk_of (first_of self.new)))
            (appended (state_on D.medium (first_of self.old)) body.now)) }
        ensures second_appended { OnOk result (Changes (λ old new. EachEncodes (header_of old) (D.medium.may_leave (disk_of new))
            (appended (state_on D.medium old) body.now)) (second_of self.old) (second_of self.new)) }

        // Before this record no checkpoint is due on an image of the first disk that encodes the state before.
        ensures takes { EachTakes (header_of (first_of self.old)) (D.medium.may_leave (disk_of (first_of self.new)))
            (state_on D.medium (first_of self.old)) (length body.now) }

        ensures first_state { OnOk result
            (state_on D.medium (first_of self.new) ≡ appended (state_on D.medium (first_of self.old)) body.now) }
        ensures second_state { OnOk result (Changes (λ old new. state_on D.medium new ≡ appended (state_on D.medium old) body.now)
            (second_of self.old) (second_of self.new)) }
        ensures synced { OnOk result (IsSynced D.medium self.new) }
        ensures count { OnOk result (slots.count_of (first_of self.new) ≡ next (slots.count_of (first_of self.old))) }
        ensures first_layout { OnOk result
            (layout_of (first_of self.new) ≡ longer_layout (layout_of (first_of self.old)) (length body.now)) }
        ensures second_layout { OnOk result (Changes (λ old new. layout_of new ≡ longer_layout (layout_of old) (length body.now))
            (second_of self.old) (second_of self.new)) }
        ensures header { header_of (first_of self.new) ≡ header_of (first_of self.old) }

        ensures faults { CountsFaults D.medium result self.old self.new }
        ensures first_arms { D.medium.arms (disk_of (first_of self.new)) ≡ D.medium.arms (disk_of (first_of self.old)) }
        ensures second_arms { Changes (λ old new. D.medium.arms (disk_of new) ≡ D.medium.arms (disk_of old))
            (second_of self.old) (second_of self.new) }
    {
        self.first.append(body)?;
        match &mut self.second {
            Some(second) => second.append(body),
            None => Ok(()),
        }
    }

    /// Whether a checkpoint is to come on a disk before an append of a body of so many bytes: never on a second disk that is
    /// not there.
    pub fn due(&self, second: bool, len: u64) -> bool
        requires { IsSynced D.medium self.now }
        ensures { result ≡ due_by D.medium len (part_of second self.now) }
    {
        if second {
            match &self.second {
                Some(slots) => slots.due(len),
                None => false,
            }
        } else {
            self.first.due(len)
        }
    }

    /// Puts a new body in the place of the old one and its records on a disk: it is there when this answers Ok. Makes seven
    /// device calls of that disk. Costs as much as the body is long.
    ///
    /// # Errors
    ///
    /// `NoMemory`, and `Stopped` if the disk failed.
    pub fn checkpoint(&mut self, second: bool, body: &[u8]) -> Result<(), JournalFault>
        requires synced { IsSynced D.medium self.old }
        requires there { IsThere (part_of second self.old) }

        // However this returns, every image of that disk encodes the old body with its records or the new body with none:
        // without memory the former, and after Ok the latter. The other disk is left alone.
        ensures images { Changes (λ old new. EachEncodesEither (header_of old) (D.medium.may_leave (disk_of new))
            (state_on D.medium old) (renewed (state_on D.medium old) body.now)) (part_of second self.old) (part_of second self.new) }
        ensures other { part_of (not second) self.new ≡ part_of (not second) self.old }
        ensures again { (body : List ℕ) → If (λ s. EachPair (MayBeBehind (header_of (first_of self.old)) body)
            (D.medium.may_leave (disk_of (first_of self.new))) (D.medium.may_leave (disk_of s))) (second_of self.new) }
        ensures in_step { If (λ s. EachInStep (header_of (first_of self.old))
            (D.medium.may_leave (disk_of (first_of self.new))) (D.medium.may_leave (disk_of s))) (second_of self.new) }
        ensures no_memory { IsErrOf result JournalFault.NoMemory → Changes (λ old new.
            EachEncodes (header_of old) (D.medium.may_leave (disk_of new)) (state_on D.medium old))
            (part_of second self.old) (part_of second self.new) }
        ensures renewed { OnOk result (Changes (λ old new. EachEncodes (header_of old) (D.medium.may_leave (disk_of new))
            (renewed (state_on D.medium old) body.now)) (part_of second self.old) (part_of second self.new)) }

        ensures state { OnOk result (Changes (λ old new. state_on D.medium new ≡ renewed (state_on D.medium old) body.now)
            (part_of second self.old) (part_of second self.new)) }
        ensures synced { OnOk result (IsSynced D.medium self.new) }
        ensures count { OnOk result (slots.count_of (first_of self.new) ≡ slots.count_of (first_of self.old)) }
        ensures header { header_of (first_of self.new) ≡ header_of (first_of self.old) }

        // So after at most two checkpoints of a disk none is due on it.
        ensures layout { OnOk result (Changes (λ old new. layout_of new
            ≡ renewed_layout (layout_of old) (length (D.medium.reads (disk_of old))) (length body.now))
            (part_of second self.old) (part_of second self.new)) }
        ensures room { OnOk result (Changes (λ old new. MakesRoom (layout_of old) (layout_of new))
            (part_of second self.old) (part_of second self.new)) }

        ensures faults { Changes (λ old new. CountsJournalFault result (D.medium.faults (disk_of old)) (D.medium.faults (disk_of new)))
            (part_of second self.old) (part_of second self.new) }
        ensures arms { Changes (λ old new. D.medium.arms (disk_of new) ≡ D.medium.arms (disk_of old))
            (part_of second self.old) (part_of second self.new) }
    {
        if second {
            match &mut self.second {
                Some(slots) => slots.checkpoint(body),
                None => Ok(()),
            }
        } else {
            self.first.checkpoint(body)
        }
    }

    /// The number of records ever appended, modulo 2^64.
    pub fn count(&self) -> u64
        ensures { result ≡ slots.count_of (first_of self.now) }
    {
        self.first.count()
    }

    /// Where the parts of the first disk are: the checkpoint in force, its first record, and the gate after the last.
    pub fn layout(&self) -> Layout
        requires { IsSynced D.medium self.now }
        ensures layout { result ≡ layout_of (first_of self.now) }
        ensures place { result.place ≡ place_in (D.medium.reads (disk_of (first_of self.now))) }
        ensures first { result.first ≡ result.place + 16 + length (state_on D.medium (first_of self.now)).body }
        ensures gate { result.gate ≡ result.first + length (records (state_on D.medium (first_of self.now)).bodies) }
        ensures limit { result.gate < 2 ^ 62 }
    {
        self.first.layout()
    }

    /// Makes a later device call of a disk fail, and does nothing else.
    pub fn arm(&mut self, second: bool, calls: u64, pick: Pick)
        requires { IsThere (part_of second self.old) }
        ensures arms { Changes (λ old new. D.medium.arms (disk_of new) ≡ armed_with (D.medium.arms (disk_of old)) calls pick)
            (part_of second self.old) (part_of second self.new) }
        ensures reads { Changes (λ old new. D.medium.reads (disk_of new) ≡ D.medium.reads (disk_of old))
            (part_of second self.old) (part_of second self.new) }
        ensures images { Changes (λ old new. SameImages (D.medium.may_leave (disk_of old)) (D.medium.may_leave (disk_of new)))
            (part_of second self.old) (part_of second self.new) }
        ensures faults { Changes (λ old new. D.medium.faults (disk_of new) ≡ D.medium.faults (disk_of old))
            (part_of second self.old) (part_of second self.new) }
        ensures layout { Changes (λ old new. layout_of new ≡ layout_of old) (part_of second self.old) (part_of second self.new) }
        ensures header { header_of (first_of self.new) ≡ header_of (first_of self.old) }
        ensures part_header { Changes (λ old new. header_of new ≡ header_of old) (part_of second self.old) (part_of second self.new) }
        ensures other { part_of (not second) self.new ≡ part_of (not second) self.old }
        ensures synced { IsSynced D.medium self.old → IsSynced D.medium self.new }
    {
        if second {
            match &mut self.second {
                Some(slots) => slots.arm(calls, pick),
                None => (),
            }
        } else {
            self.first.arm(calls, pick);
        }
    }

    /// Gives the disks back: of a disk alone there is no second.
    pub fn into_disks(self) -> (D, Option<D>)
        ensures first { result.0 ≡ disk_of (first_of self) }
        ensures second { result.1 ≡ option_map disk_of (second_of self) }
    {
        let Twin { first, second } = self;
        match second {
            Some(slots) => (first.into_disk(), Some(slots.into_disk())),
            None => (first.into_disk(), None),
        }
    }
}
