//! The slots themselves.
ghost use Rattle.std.specs.Prelude.{◌≡◌, ◌≢◌, ◌<◌, ℕ, ◌+◌, ◌^◌, List, [], false, length, IfOk, IfErr, OnOk, IsErrOf, MatchResult};
ghost use Rattle.iot_disk.specs.Disk.{armed_with, Only, SameImages};
ghost use Rattle.iot_disk.specs.Faults.{CountsJournalFault};
ghost use Rattle.iot_records.specs.Records.{ChangesNothing, records};
ghost use Rattle.iot_slots.specs.Cells.{next, number_of};
ghost use Rattle.iot_slots.specs.Decoding.{Encodes, NotStarted, decoded, opened, state_in};
ghost use Rattle.iot_slots.specs.Due.{EachTakes};
ghost use Rattle.iot_slots.specs.Looked.{disk_of as disk_in, header_of as header_in, state_with, IsLooked};
ghost use Rattle.iot_slots.specs.Start.{HasCause, EachEncodesAs, started_over};

use crate::layout::MANY;
use crate::spelling::{closing, spell_cell, spell_checkpoint};
use crate::start::see;
use crate::{Layout, Looked, Started};
use iot_disk::{Disk, JournalFault, Pick, StartFault, keep};
use iot_records::{OPEN, spell_record};
use std::alloc::Global;

/// A body on a disk, and records after it. Records are appended, and a checkpoint puts a new body in the place of both.
///
/// After an `Err` only `into_disk` says anything more: start again from the disk.
#[derive(Drop)]
pub struct Slots<D: Disk> {
    pub(crate) disk: D,
    pub(crate) header: [u8; 8],
    pub(crate) layout: Layout,
    /// The spelling of the last record or checkpoint, whose memory serves the next one.
    pub(crate) buffer: Vec<u8>,
}

impl<D: Disk> Slots<D> {
    ghost use Rattle.iot_slots.specs.Layouts.{longer_layout, renewed_layout, place_in, is_due, MakesRoom};
    ghost use Rattle.iot_slots.specs.Slots.{disk_of, header_of, count_of, layout_of, version_of, state_on, IsSynced};
    ghost use Rattle.iot_slots.specs.Slots.{appended, renewed, EachEncodes, EachEncodesEither};

    /// Starts slots from their disk, which no one else writes, and gives the state that it encodes. A disk that is not
    /// started is started with an empty body. If this gives no slots, it gives the disk back.
    pub fn start(
        alloc: Global,
        disk: D,
        header: [u8; 8],
    ) -> Result<(Slots<D>, Started), (D, StartFault)>
        requires { Only (D.medium.reads disk) (D.medium.may_leave disk) }
        ensures state { IfOk result (λ made. opened [] (decoded header (D.medium.reads disk))
            ≡ Encodes (state_in (version_of made.0) made.1.body made.1.records (count_of made.0))) }
        ensures same { IfOk result (λ made. state_on D.medium made.0
            ≡ state_in (version_of made.0) made.1.body made.1.records (count_of made.0)) }
        ensures version { IfOk result (λ made. made.1.version ≡ number_of (version_of made.0)) }
        ensures synced { IfOk result (λ made. IsSynced D.medium made.0) }
        ensures header { IfOk result (λ made. header_of made.0 ≡ header) }

        // However this returns, every image encodes what the disk encoded before.
        ensures images { MatchResult result
            (λ made. EachEncodesAs header [] (D.medium.reads disk) (D.medium.may_leave (disk_of made.0)))
            (λ refused. EachEncodesAs header [] (D.medium.reads disk) (D.medium.may_leave refused.0)) }

        ensures steady { IfOk result (λ made. D.medium.faults (disk_of made.0) ≡ D.medium.faults disk) }
        ensures cause { IfErr result (λ refused.
            HasCause refused.1 (decoded header (D.medium.reads disk)) (D.medium.faults disk) (D.medium.faults refused.0)) }

        // A refusal of the bytes changes nothing.
        ensures refused_reads { IfErr result (λ refused.
            ChangesNothing refused.1 (D.medium.reads refused.0 ≡ D.medium.reads disk)) }
        ensures refused_images { IfErr result (λ refused.
            ChangesNothing refused.1 (SameImages (D.medium.may_leave disk) (D.medium.may_leave refused.0))) }

        // A disk that is started is only read, whatever the answer, and so is each whose bytes are refused.
        ensures only_read { decoded header (D.medium.reads disk) ≢ NotStarted → MatchResult result
            (λ made. D.medium.reads (disk_of made.0) ≡ D.medium.reads disk)
            (λ refused. D.medium.reads refused.0 ≡ D.medium.reads disk) }
        ensures only_read_images { decoded header (D.medium.reads disk) ≢ NotStarted → MatchResult result
            (λ made. SameImages (D.medium.may_leave disk) (D.medium.may_leave (disk_of made.0)))
            (λ refused. SameImages (D.medium.may_leave disk) (D.medium.may_leave refused.0)) }

        // After Ok a disk that was not started has these bytes.
        ensures fresh { decoded header (D.medium.reads disk) ≡ NotStarted → IfOk result (λ made.
            D.medium.reads (disk_of made.0) ≡ started_over header [] (D.medium.reads disk)) }

        ensures arms { MatchResult result
            (λ made. D.medium.arms (disk_of made.0) ≡ D.medium.arms disk)
            (λ refused. D.medium.arms refused.0 ≡ D.medium.arms disk) }
    {
        Self::start_with(alloc, disk, header, &[])
    }

    /// The same, but a disk that is not started is started with this body.
    pub fn start_with(
        alloc: Global,
        disk: D,
        header: [u8; 8],
        body: &[u8],
    ) -> Result<(Slots<D>, Started), (D, StartFault)>
        requires { Only (D.medium.reads disk) (D.medium.may_leave disk) }
        ensures state { IfOk result (λ made. opened body.now (decoded header (D.medium.reads disk))
            ≡ Encodes (state_in (version_of made.0) made.1.body made.1.records (count_of made.0))) }
        ensures same { IfOk result (λ made. state_on D.medium made.0
            ≡ state_in (version_of made.0) made.1.body made.1.records (count_of made.0)) }
        ensures version { IfOk result (λ made. made.1.version ≡ number_of (version_of made.0)) }
        ensures synced { IfOk result (λ made. IsSynced D.medium made.0) }
        ensures header { IfOk result (λ made. header_of made.0 ≡ header) }

        // However this returns, every image encodes what the disk encoded before.
        ensures images { MatchResult result
            (λ made. EachEncodesAs header body.now (D.medium.reads disk) (D.medium.may_leave (disk_of made.0)))
            (λ refused. EachEncodesAs header body.now (D.medium.reads disk) (D.medium.may_leave refused.0)) }

        ensures steady { IfOk result (λ made. D.medium.faults (disk_of made.0) ≡ D.medium.faults disk) }
        ensures cause { IfErr result (λ refused.
            HasCause refused.1 (decoded header (D.medium.reads disk)) (D.medium.faults disk) (D.medium.faults refused.0)) }

        // A refusal of the bytes changes nothing.
        ensures refused_reads { IfErr result (λ refused.
            ChangesNothing refused.1 (D.medium.reads refused.0 ≡ D.medium.reads disk)) }
        ensures refused_images { IfErr result (λ refused.
            ChangesNothing refused.1 (SameImages (D.medium.may_leave disk) (D.medium.may_leave refused.0))) }

        // A disk that is started is only read, whatever the answer, and so is each whose bytes are refused.
        ensures only_read { decoded header (D.medium.reads disk) ≢ NotStarted → MatchResult result
            (λ made. D.medium.reads (disk_of made.0) ≡ D.medium.reads disk)
            (λ refused. D.medium.reads refused.0 ≡ D.medium.reads disk) }
        ensures only_read_images { decoded header (D.medium.reads disk) ≢ NotStarted → MatchResult result
            (λ made. SameImages (D.medium.may_leave disk) (D.medium.may_leave (disk_of made.0)))
            (λ refused. SameImages (D.medium.may_leave disk) (D.medium.may_leave refused.0)) }

        // After Ok a disk that was not started has these bytes.
        ensures fresh { decoded header (D.medium.reads disk) ≡ NotStarted → IfOk result (λ made.
            D.medium.reads (disk_of made.0) ≡ started_over header body.now (D.medium.reads disk)) }

        ensures arms { MatchResult result
            (λ made. D.medium.arms (disk_of made.0) ≡ D.medium.arms disk)
            (λ refused. D.medium.arms refused.0 ≡ D.medium.arms disk) }
    {
        match Self::look(alloc, disk, header) {
            Ok(looked) => looked.start(alloc, body),
            Err(refused) => Err(refused),
        }
    }

    /// Reads the disk, which no one else writes, and starts nothing on it yet. If this refuses the disk, it gives it back.
    ///
    /// # Errors
    ///
    /// `Foreign` if something else wrote the disk, `Damaged` with the place of what is cut short.
    pub fn look(alloc: Global, mut disk: D, header: [u8; 8]) -> Result<Looked<D>, (D, StartFault)>
        requires { Only (D.medium.reads disk) (D.medium.may_leave disk) }
        ensures looked { IfOk result (λ looked. IsLooked D.medium looked) }
        ensures header { IfOk result (λ looked. header_in looked ≡ header) }

        // The bytes encode the state that was found, or nothing was started there.
        ensures state { (body : List ℕ) → IfOk result (λ looked.
            opened body (decoded header (D.medium.reads disk)) ≡ Encodes (state_with body looked)) }

        // However this returns, the disk is only read.
        ensures reads { MatchResult result
            (λ looked. D.medium.reads (disk_in looked) ≡ D.medium.reads disk)
            (λ refused. D.medium.reads refused.0 ≡ D.medium.reads disk) }
        ensures images { MatchResult result
            (λ looked. SameImages (D.medium.may_leave disk) (D.medium.may_leave (disk_in looked)))
            (λ refused. SameImages (D.medium.may_leave disk) (D.medium.may_leave refused.0)) }

        ensures steady { IfOk result (λ looked. D.medium.faults (disk_in looked) ≡ D.medium.faults disk) }
        ensures cause { IfErr result (λ refused.
            HasCause refused.1 (decoded header (D.medium.reads disk)) (D.medium.faults disk) (D.medium.faults refused.0)) }
        ensures arms { MatchResult result
            (λ looked. D.medium.arms (disk_in looked) ≡ D.medium.arms disk)
            (λ refused. D.medium.arms refused.0 ≡ D.medium.arms disk) }
    {
        match see(alloc, &mut disk, &header) {
            Ok(seen) => Ok(Looked { disk, header, seen }),
            Err(fault) => Err((disk, fault)),
        }
    }

    /// Appends a record: it is on the disk when this answers Ok. Makes four device calls, a write and a sync for
    /// the record, and a write and a sync for its gate. Costs as much as the body is long.
    pub fn append(&mut self, body: &[u8]) -> Result<(), JournalFault>
        requires synced { IsSynced D.medium self.old }
        requires not_due { is_due (state_on D.medium self.old).bodies (layout_of self.old)
            (length body.now) ≡ false }

        // However this returns, every image encodes the state before or the one with the new record: without memory the
        // former, and after Ok the latter.
        ensures images { EachEncodesEither (header_of self.old) (D.medium.may_leave (disk_of self.new))
            (state_on D.medium self.old) (appended (state_on D.medium self.old) body.now) }
        ensures no_memory { IsErrOf result JournalFault.NoMemory
            → EachEncodes (header_of self.old) (D.medium.may_leave (disk_of self.new)) (state_on D.medium self.old) }
        ensures appended { OnOk result (EachEncodes (header_of self.old) (D.medium.may_leave (disk_of self.new))
            (appended (state_on D.medium self.old) body.now)) }

        // Before this record no checkpoint is due on an image that encodes the state before.
        ensures takes { EachTakes (header_of self.old) (D.medium.may_leave (disk_of self.new))
            (state_on D.medium self.old) (length body.now) }

        ensures state { OnOk result
            (state_on D.medium self.new ≡ appended (state_on D.medium self.old) body.now) }
        ensures synced { OnOk result (IsSynced D.medium self.new) }
        ensures count { OnOk result (count_of self.new ≡ next (count_of self.old)) }
        ensures layout { OnOk result (layout_of self.new ≡ longer_layout (layout_of self.old) (length body.now)) }
        ensures header { header_of self.new ≡ header_of self.old }

        ensures faults { CountsJournalFault result
            (D.medium.faults (disk_of self.old)) (D.medium.faults (disk_of self.new)) }
        ensures arms { D.medium.arms (disk_of self.new) ≡ D.medium.arms (disk_of self.old) }
    {
        spell_record(&mut self.buffer, body)?;
        keep(&mut self.disk, self.layout.gate + 1, &self.buffer)?;
        keep(&mut self.disk, self.layout.gate, &[OPEN])?;
        self.layout.gate += self.buffer.len() as u64;
        self.layout.count = self.layout.count.wrapping_add(1);
        Ok(())
    }

    /// Whether a checkpoint is to come before an append of a body of so many bytes: always if the one in force is of
    /// version 1, since records are spelled in version 2. Does not allocate.
    pub fn due(&self, size: u64) -> bool
        requires { IsSynced D.medium self.now }
        ensures { result ≡ is_due (state_on D.medium self.now).bodies (layout_of self.now) size }
    {
        self.layout.version.is_old()
            || self.layout.gate - self.layout.first > MANY
            || self.layout.reaches_other(size)
    }

    /// Puts a new body, of version 2, in the place of the old one and its records: it is on the disk when this answers Ok. Makes
    /// seven device calls. Costs as much as the body is long.
    pub fn checkpoint(&mut self, body: &[u8]) -> Result<(), JournalFault>
        requires { IsSynced D.medium self.old }

        // However this returns, every image encodes the old body with its records or the new body with none: without
        // memory the former, and after Ok the latter.
        ensures images { EachEncodesEither (header_of self.old) (D.medium.may_leave (disk_of self.new))
            (state_on D.medium self.old) (renewed (state_on D.medium self.old) body.now) }
        ensures no_memory { IsErrOf result JournalFault.NoMemory
            → EachEncodes (header_of self.old) (D.medium.may_leave (disk_of self.new)) (state_on D.medium self.old) }
        ensures renewed { OnOk result (EachEncodes (header_of self.old) (D.medium.may_leave (disk_of self.new))
            (renewed (state_on D.medium self.old) body.now)) }

        ensures state { OnOk result
            (state_on D.medium self.new ≡ renewed (state_on D.medium self.old) body.now) }
        ensures synced { OnOk result (IsSynced D.medium self.new) }
        ensures count { OnOk result (count_of self.new ≡ count_of self.old) }
        ensures header { header_of self.new ≡ header_of self.old }

        // So after at most two checkpoints none is due.
        ensures layout { OnOk result (layout_of self.new
            ≡ renewed_layout (layout_of self.old) (length (D.medium.reads (disk_of self.old))) (length body.now)) }
        ensures room { OnOk result (MakesRoom (layout_of self.old) (layout_of self.new)) }

        ensures faults { CountsJournalFault result
            (D.medium.faults (disk_of self.old)) (D.medium.faults (disk_of self.new)) }
        ensures arms { D.medium.arms (disk_of self.new) ≡ D.medium.arms (disk_of self.old) }
    {
        spell_checkpoint(&mut self.buffer, body, self.layout.count)?;
        let next = self.layout.renewed(self.disk.len(), body.len() as u64);
        let gate = next.cell.at();
        keep(&mut self.disk, gate, closing(self.layout.other))?;
        self.disk
            .write_at(gate + 1, &spell_cell(next.generation, next.place))?;
        keep(&mut self.disk, next.place, &self.buffer)?;
        keep(&mut self.disk, gate, &[OPEN])?;
        self.layout = next;
        Ok(())
    }

    /// The number of records ever appended, modulo 2^64.
    pub fn count(&self) -> u64
        ensures { result ≡ count_of self.now }
    {
        self.layout.count
    }

    /// Where the parts of the disk are: the checkpoint in force, its first record, and the gate after the last.
    pub fn layout(&self) -> Layout
        requires { IsSynced D.medium self.now }
        ensures layout { result ≡ layout_of self.now }
        ensures place { result.place ≡ place_in (D.medium.reads (disk_of self.now)) }
        ensures first { result.first ≡ result.place + 16 + length (state_on D.medium self.now).body }
        ensures gate { result.gate ≡ result.first + length (records (state_on D.medium self.now).bodies) }
        ensures limit { result.gate < 2 ^ 62 }
    {
        self.layout
    }

    /// Makes a later device call of the disk fail, and does nothing else.
    pub fn arm(&mut self, calls: u64, pick: Pick)
        ensures arms { D.medium.arms (disk_of self.new)
            ≡ armed_with (D.medium.arms (disk_of self.old)) calls pick }
        ensures reads { D.medium.reads (disk_of self.new) ≡ D.medium.reads (disk_of self.old) }
        ensures images { SameImages
            (D.medium.may_leave (disk_of self.old)) (D.medium.may_leave (disk_of self.new)) }
        ensures faults { D.medium.faults (disk_of self.new) ≡ D.medium.faults (disk_of self.old) }
        ensures layout { layout_of self.new ≡ layout_of self.old }
        ensures header { header_of self.new ≡ header_of self.old }
        ensures synced { IsSynced D.medium self.old
            → IsSynced D.medium self.new }
    {
        self.disk.arm(calls, pick);
    }

    /// Gives the disk back.
    pub fn into_disk(self) -> D
        ensures { result ≡ disk_of self }
    {
        self.disk
    }
}
