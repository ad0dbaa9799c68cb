//! The durable state itself.
ghost use Rattle.std.specs.Borrow.{sem};
ghost use Rattle.std.specs.Prelude.{◌≡◌, None, OnOk, IsErrOf};
ghost use Rattle.iot_slots.specs.Cells.{next};
ghost use Rattle.iot_slots.specs.Slots.{disk_of as disk_under, state_on};
ghost use Rattle.iot_slots.specs.declared.version.Version.TheVariants.{Two};
ghost use Rattle.iot_backup.specs.Following.{MayFollow};
ghost use Rattle.iot_backup.specs.Pairs.{EachPair};
ghost use Rattle.iot_backup.specs.Parts.{If, Changes};
ghost use Rattle.iot_durable.specs.Standing.{EachStands, EachStandsEither, EachStays, EachGoes, IsInDoubt, header_of};
ghost use Rattle.iot_durable.specs.Faults.{CountsNotes};

use crate::fault::{before, in_doubt};
use crate::room::make_room;
use crate::{Log, NoteFault, Recorded};
use iot_text::Text;
use std::alloc::Global;
use std::mem::replace;

/// A state in memory, and on one disk or two, to each of which each change is appended as one record. A checkpoint of the whole state
/// comes before an append if the records since the last one have grown long, or if there is no room for the record.
///
/// After an `Err` of `note` only `into_disk` or `into_disks` says anything more: start again from there.
#[derive(Drop)]
pub struct Durable<R, L> {
    pub(crate) log: L,
    pub(crate) state: R,

    /// The last record that was spelled, whose memory serves the next one.
    pub(crate) buffer: Text,
}

impl<R: Recorded, L: Log> Durable<R, L> {
    ghost use Rattle.iot_durable.specs.Lending.{lends_state};
    ghost use Rattle.iot_durable.specs.Durable.{memory_of, first_of, second_of, disk_of, count_of, encoded_on, images_of};
    ghost use Rattle.iot_durable.specs.Durable.{IsSynced, IsRecorded, IsGrownBy};

    /// Makes a change that can follow: its record is on the disk, or on both, when this answers Ok. First come the checkpoints that are
    /// due, then memory changes, and the record is appended last, to the first disk and then to the second. Costs as much as the record
    /// is long, and what the change costs in memory; with a checkpoint as much as the whole state is long.
    ///
    /// # Errors
    ///
    /// `NoMemory`: if there are two disks the first may have the record. `StoppedBefore` if a disk failed before the record: each image
    /// of each disk then stands for the state before the change. `StoppedInDoubt` if it failed in the record: each stands for the state
    /// before the change or for the one after it.
    pub fn note(&mut self, alloc: Global, change: R::Change) -> Result<(), NoteFault>
        requires synced { IsSynced L.Disk.medium L.first L.second R.rules R.kept R.IsSound self.old }
        requires change { (R.rules Two).IsChange change }
        requires follows { (R.rules Two).CanFollow (R.kept (memory_of self.old)) change }

        // However this returns, each image of the first disk stands for the state before, or for the one after with one record more: after
        // Ok for the latter, in doubt for either, and else for the former.
        ensures images { EachStandsEither R.rules (L.Disk.medium.may_leave (disk_of L.first self.new)) (count_of L.first self.old)
            (R.kept (memory_of self.old)) ((R.rules Two).after (R.kept (memory_of self.old)) change) }
        ensures no_memory { IsErrOf result NoteFault.NoMemory → second_of L.second self.old ≡ None → EachStays R.rules
            (L.Disk.medium.may_leave (disk_of L.first self.new)) (count_of L.first self.old)
            (encoded_on L.Disk.medium L.first self.old) (R.kept (memory_of self.old)) }
        ensures before { IsErrOf result NoteFault.StoppedBefore → EachStays R.rules
            (L.Disk.medium.may_leave (disk_of L.first self.new)) (count_of L.first self.old)
            (encoded_on L.Disk.medium L.first self.old) (R.kept (memory_of self.old)) }
        ensures in_doubt { IsErrOf result NoteFault.StoppedInDoubt → IsInDoubt R.rules
            (L.Disk.medium.may_leave (disk_of L.first self.new)) (encoded_on L.Disk.medium L.first self.old)
            (R.kept (memory_of self.old)) change }
        ensures noted { OnOk result (EachStands R.rules (L.Disk.medium.may_leave (disk_of L.first self.new))
            (next (count_of L.first self.old)) ((R.rules Two).after (R.kept (memory_of self.old)) change)) }
        ensures goes { EachGoes R.rules (L.Disk.medium.may_leave (disk_of L.first self.new))
            (encoded_on L.Disk.medium L.first self.old) (R.kept (memory_of self.old)) change }

        // The same of a second disk, which has no record without memory.
        ensures second_images { Changes (λ old new. EachStandsEither R.rules (images_of L.Disk.medium new) (count_of L.first self.old)
            (R.kept (memory_of self.old)) ((R.rules Two).after (R.kept (memory_of self.old)) change))
            (second_of L.second self.old) (second_of L.second self.new) }
        ensures second_memory { IsErrOf result NoteFault.NoMemory → If (λ s. EachStands R.rules (images_of L.Disk.medium s)
            (count_of L.first self.old) (R.kept (memory_of self.old))) (second_of L.second self.new) }
        ensures second_before { IsErrOf result NoteFault.StoppedBefore → If (λ s. EachStands R.rules (images_of L.Disk.medium s)
            (count_of L.first self.old) (R.kept (memory_of self.old))) (second_of L.second self.new) }
        ensures second_noted { OnOk result (If (λ s. EachStands R.rules (images_of L.Disk.medium s)
            (next (count_of L.first self.old)) ((R.rules Two).after (R.kept (memory_of self.old)) change))
            (second_of L.second self.new)) }
        ensures second_goes { Changes (λ old new. EachGoes R.rules (images_of L.Disk.medium new) (state_on L.Disk.medium old)
            (R.kept (memory_of self.old)) change) (second_of L.second self.old) (second_of L.second self.new) }

        // However this returns, a start can go on from each pair of images.
        ensures follows { If (λ s. EachPair (MayFollow (header_of R.rules)) (L.Disk.medium.may_leave (disk_of L.first self.new))
            (images_of L.Disk.medium s)) (second_of L.second self.new) }

        ensures state { OnOk result (R.kept (memory_of self.new) ≡ (R.rules Two).after (R.kept (memory_of self.old)) change) }
        ensures makes { OnOk result (R.Makes (memory_of self.old) change (memory_of self.new)) }
        ensures synced { OnOk result (IsSynced L.Disk.medium L.first L.second R.rules R.kept R.IsSound self.new) }

        // A stop before the record leaves what is in memory; in doubt the change is made there.
        ensures before_memory { IsErrOf result NoteFault.StoppedBefore → memory_of self.new ≡ memory_of self.old }
        ensures doubt_memory { IsErrOf result NoteFault.StoppedInDoubt
            → R.kept (memory_of self.new) ≡ (R.rules Two).after (R.kept (memory_of self.old)) change }

        // The last record on each disk is that of the change. Before it is what was there, or a checkpoint alone if one was due.
        ensures recorded { OnOk result (IsRecorded L.Disk.medium L.first R.rules R.kept self.old self.new change) }
        ensures second_recorded { OnOk result (Changes (IsGrownBy L.Disk.medium R.rules (R.kept (memory_of self.old)) change)
            (second_of L.second self.old) (second_of L.second self.new)) }
        ensures count { OnOk result (count_of L.first self.new ≡ next (count_of L.first self.old)) }

        ensures faults { CountsNotes L.Disk.medium result (first_of L.first self.old) (first_of L.first self.new)
            (second_of L.second self.old) (second_of L.second self.new) }
        ensures arms { L.Disk.medium.arms (disk_of L.first self.new) ≡ L.Disk.medium.arms (disk_of L.first self.old) }
        ensures second_arms { Changes (λ old new. L.Disk.medium.arms (disk_under new) ≡ L.Disk.medium.arms (disk_under old))
            (second_of L.second self.old) (second_of L.second self.new) }
    {
        let mut spelled = replace(&mut self.buffer, Text::new(alloc));
        R::spell_change(&change, &mut spelled)?;
        let noted = self.note_spelled(alloc, change, spelled.as_bytes());
        self.buffer = spelled;
        noted
    }

    /// The same, if the record of the change is at hand: its bytes are appended, and not made again.
    ///
    /// # Errors
    ///
    /// As of `note`.
    pub fn note_spelled(
        &mut self,
        alloc: Global,
        change: R::Change,
        body: &[u8],
    ) -> Result<(), NoteFault>
        requires synced { IsSynced L.Disk.medium L.first L.second R.rules R.kept R.IsSound self.old }
        requires change { (R.rules Two).IsChange change }
        requires spelled { (R.rules Two).IsRecord body.now change }
        requires follows { (R.rules Two).CanFollow (R.kept (memory_of self.old)) change }

        // However this returns, each image of the first disk stands for the state before, or for the one after with one record more: after
        // Ok for the latter, in doubt for either, and else for the former.
        ensures images { EachStandsEither R.rules (L.Disk.medium.may_leave (disk_of L.first self.new)) (count_of L.first self.old)
            (R.kept (memory_of self.old)) ((R.rules Two).after (R.kept (memory_of self.old)) change) }
        ensures no_memory { IsErrOf result NoteFault.NoMemory → second_of L.second self.old ≡ None → EachStays R.rules
            (L.Disk.medium.may_leave (disk_of L.first self.new)) (count_of L.first self.old)
            (encoded_on L.Disk.medium L.first self.old) (R.kept (memory_of self.old)) }
        ensures before { IsErrOf result NoteFault.StoppedBefore → EachStays R.rules
            (L.Disk.medium.may_leave (disk_of L.first self.new)) (count_of L.first self.old)
            (encoded_on L.Disk.medium L.first self.old) (R.kept (memory_of self.old)) }
        ensures in_doubt { IsErrOf result NoteFault.StoppedInDoubt → IsInDoubt R.rules
            (L.Disk.medium.may_leave (disk_of L.first self.new)) (encoded_on L.Disk.medium L.first self.old)
            (R.kept (memory_of self.old)) change }
        ensures noted { OnOk result (EachStands R.rules (L.Disk.medium.may_leave (disk_of L.first self.new))
            (next (count_of L.first self.old)) ((R.rules Two).after (R.kept (memory_of self.old)) change)) }
        ensures goes { EachGoes R.rules (L.Disk.medium.may_leave (disk_of L.first self.new))
            (encoded_on L.Disk.medium L.first self.old) (R.kept (memory_of self.old)) change }

        // The same of a second disk, which has no record without memory.
        ensures second_images { Changes (λ old new. EachStandsEither R.rules (images_of L.Disk.medium new) (count_of L.first self.old)
            (R.kept (memory_of self.old)) ((R.rules Two).after (R.kept (memory_of self.old)) change))
            (second_of L.second self.old) (second_of L.second self.new) }
        ensures second_memory { IsErrOf result NoteFault.NoMemory → If (λ s. EachStands R.rules (images_of L.Disk.medium s)
            (count_of L.first self.old) (R.kept (memory_of self.old))) (second_of L.second self.new) }
        ensures second_before { IsErrOf result NoteFault.StoppedBefore → If (λ s. EachStands R.rules (images_of L.Disk.medium s)
            (count_of L.first self.old) (R.kept (memory_of self.old))) (second_of L.second self.new) }
        ensures second_noted { OnOk result (If (λ s. EachStands R.rules (images_of L.Disk.medium s)
            (next (count_of L.first self.old)) ((R.rules Two).after (R.kept (memory_of self.old)) change))
            (second_of L.second self.new)) }
        ensures second_goes { Changes (λ old new. EachGoes R.rules (images_of L.Disk.medium new) (state_on L.Disk.medium old)
            (R.kept (memory_of self.old)) change) (second_of L.second self.old) (second_of L.second self.new) }

        // However this returns, a start can go on from each pair of images.
        ensures follows { If (λ s. EachPair (MayFollow (header_of R.rules)) (L.Disk.medium.may_leave (disk_of L.first self.new))
            (images_of L.Disk.medium s)) (second_of L.second self.new) }

        ensures state { OnOk result (R.kept (memory_of self.new) ≡ (R.rules Two).after (R.kept (memory_of self.old)) change) }
        ensures makes { OnOk result (R.Makes (memory_of self.old) change (memory_of self.new)) }
        ensures synced { OnOk result (IsSynced L.Disk.medium L.first L.second R.rules R.kept R.IsSound self.new) }

        // A stop before the record leaves what is in memory; in doubt the change is made there.
        ensures before_memory { IsErrOf result NoteFault.StoppedBefore → memory_of self.new ≡ memory_of self.old }
        ensures doubt_memory { IsErrOf result NoteFault.StoppedInDoubt
            → R.kept (memory_of self.new) ≡ (R.rules Two).after (R.kept (memory_of self.old)) change }

        // The last record on each disk is that of the change. Before it is what was there, or a checkpoint alone if one was due.
        ensures recorded { OnOk result (IsRecorded L.Disk.medium L.first R.rules R.kept self.old self.new change) }
        ensures second_recorded { OnOk result (Changes (IsGrownBy L.Disk.medium R.rules (R.kept (memory_of self.old)) change)
            (second_of L.second self.old) (second_of L.second self.new)) }
        ensures count { OnOk result (count_of L.first self.new ≡ next (count_of L.first self.old)) }

        ensures faults { CountsNotes L.Disk.medium result (first_of L.first self.old) (first_of L.first self.new)
            (second_of L.second self.old) (second_of L.second self.new) }
        ensures arms { L.Disk.medium.arms (disk_of L.first self.new) ≡ L.Disk.medium.arms (disk_of L.first self.old) }
        ensures second_arms { Changes (λ old new. L.Disk.medium.arms (disk_under new) ≡ L.Disk.medium.arms (disk_under old))
            (second_of L.second self.old) (second_of L.second self.new) }
    {
        match make_room(alloc, &self.state, &mut self.log, body.len() as u64) {
            Ok(()) => (),
            Err(fault) => return Err(before(fault)),
        }
        self.state.apply(alloc, change)?;
        match self.log.append(body) {
            Ok(()) => Ok(()),
            Err(fault) => Err(in_doubt(fault)),
        }
    }

    /// What is in memory.
    pub fn state(&self) -> &R
        ensures { result.now ≡ memory_of self.now }
    {
        &self.state
    }

    /// What is in memory, to change what no disk keeps of it. Whoever changes what is kept of it is out of step with the disk.
    pub fn state_mut(&mut self) -> &mut R
        ensures* writes_back { sem 𝓛 (lends_state R.row L.row self.entry result) }
        ensures value { result.now ≡ memory_of self.old }
    {
        &mut self.state
    }

    /// The number of records ever appended, modulo 2^64.
    pub fn count(&self) -> u64
        ensures { result ≡ count_of L.first self.now }
    {
        self.log.count()
    }
}
