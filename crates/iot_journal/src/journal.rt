//! The journal itself.
ghost use Rattle.std.specs.Prelude.{◌≡◌, ◌+◌, ◌++◌, [], ◌∷◌, length, IfOk, IfErr, OnOk, IsErrOf, MatchResult, true};
ghost use Rattle.iot_disk.specs.Disk.{armed_with, Only, SameImages};
ghost use Rattle.iot_disk.specs.Faults.{CountsJournalFault};
ghost use Rattle.iot_journal.specs.Decoding.{Encodes, decoded, is_started};
ghost use Rattle.iot_journal.specs.Images.{EachDecodes, EachDecodesEither};
ghost use Rattle.iot_journal.specs.Start.{HasCause, ChangesNothing, after_start};

use crate::start::open;
use iot_disk::{Bodies, Disk, JournalFault, Pick, StartFault, keep};
use iot_records::{OPEN, spell_record};
use std::alloc::Global;

/// A list of bodies on a disk, to which bodies are appended.
///
/// After an `Err` only `into_disk` says anything more: start again from the disk.
#[derive(Drop)]
pub struct Journal<D: Disk> {
    pub(crate) disk: D,
    /// The place of the closed gate after the records.
    pub(crate) gate: u64,
    pub(crate) count: u64,
    /// The spelling of the last record, whose memory serves the next one.
    pub(crate) buffer: Vec<u8>,
}

impl<D: Disk> Journal<D> {
    ghost use Rattle.iot_journal.specs.Journal.{disk_of, count_of, bodies_on, IsSynced, with_record};

    /// Starts a journal from its disk, which no one else writes, and gives the bodies that are on it. A disk on
    /// which none was started becomes a journal with no records. The disk comes back if this gives no journal.
    pub fn start(alloc: Global, mut disk: D) -> Result<(Journal<D>, Bodies), (D, StartFault)>
        requires { Only (D.medium.reads disk) (D.medium.may_leave disk) }
        ensures bodies { IfOk result (λ made. decoded (D.medium.reads disk) ≡ Encodes made.1) }
        ensures same { IfOk result (λ made. bodies_on D.medium made.0 ≡ made.1) }
        ensures synced { IfOk result (λ made. IsSynced D.medium made.0) }
        ensures bytes { IfOk result (λ made. D.medium.reads (disk_of made.0) ≡ after_start (D.medium.reads disk)) }

        // However this returns, every image encodes what the disk encoded before.
        ensures images { MatchResult result
            (λ made. EachDecodes (D.medium.may_leave (disk_of made.0)) (decoded (D.medium.reads disk)))
            (λ refused. EachDecodes (D.medium.may_leave refused.0) (decoded (D.medium.reads disk))) }

        ensures steady { IfOk result (λ made. D.medium.faults (disk_of made.0) ≡ D.medium.faults disk) }
        ensures cause { IfErr result (λ refused.
            HasCause refused.1 (decoded (D.medium.reads disk)) (D.medium.faults disk) (D.medium.faults refused.0)) }

        // A refusal of the bytes changes nothing.
        ensures refused_reads { IfErr result (λ refused.
            ChangesNothing refused.1 (D.medium.reads refused.0 ≡ D.medium.reads disk)) }
        ensures refused_images { IfErr result (λ refused.
            ChangesNothing refused.1 (SameImages (D.medium.may_leave disk) (D.medium.may_leave refused.0))) }

        // A disk on which a journal was started is only read, whatever the answer, and so is each whose bytes are refused.
        ensures only_read { is_started (D.medium.reads disk) ≡ true → MatchResult result
            (λ made. D.medium.reads (disk_of made.0) ≡ D.medium.reads disk)
            (λ refused. D.medium.reads refused.0 ≡ D.medium.reads disk) }
        ensures only_read_images { is_started (D.medium.reads disk) ≡ true → MatchResult result
            (λ made. SameImages (D.medium.may_leave disk) (D.medium.may_leave (disk_of made.0)))
            (λ refused. SameImages (D.medium.may_leave disk) (D.medium.may_leave refused.0)) }

        ensures arms { MatchResult result
            (λ made. D.medium.arms (disk_of made.0) ≡ D.medium.arms disk)
            (λ refused. D.medium.arms refused.0 ≡ D.medium.arms disk) }
    {
        match open(alloc, &mut disk) {
            Ok(found) => {
                let journal = Journal {
                    disk,
                    gate: found.gate,
                    count: found.bodies.len() as u64,
                    buffer: Vec::new(alloc),
                };
                Ok((journal, found.bodies))
            }
            Err(fault) => Err((disk, fault)),
        }
    }

    /// Appends a body: it is on the disk when this answers Ok. Makes four device calls, a write and a sync for the record,
    /// and a write and a sync for its gate. Costs as much as the body is long.
    pub fn append(&mut self, body: &[u8]) -> Result<(), JournalFault>
        requires { IsSynced D.medium self.old }

        // However this returns, every image encodes the bodies before or those with the new one: without memory the
        // former, and after Ok the latter.
        ensures images { EachDecodesEither (D.medium.may_leave (disk_of self.new))
            (Encodes (bodies_on D.medium self.old))
            (Encodes (bodies_on D.medium self.old ++ body.now ∷ [])) }
        ensures no_memory { IsErrOf result JournalFault.NoMemory
            → EachDecodes (D.medium.may_leave (disk_of self.new)) (Encodes (bodies_on D.medium self.old)) }
        ensures appended { OnOk result (EachDecodes (D.medium.may_leave (disk_of self.new))
            (Encodes (bodies_on D.medium self.old ++ body.now ∷ []))) }

        ensures bodies { OnOk result
            (bodies_on D.medium self.new ≡ bodies_on D.medium self.old ++ body.now ∷ []) }
        ensures synced { OnOk result (IsSynced D.medium self.new) }
        ensures bytes { OnOk result (D.medium.reads (disk_of self.new)
            ≡ with_record (bodies_on D.medium self.old) body.now (D.medium.reads (disk_of self.old))) }

        ensures faults { CountsJournalFault result
            (D.medium.faults (disk_of self.old)) (D.medium.faults (disk_of self.new)) }
        ensures arms { D.medium.arms (disk_of self.new) ≡ D.medium.arms (disk_of self.old) }
    {
        spell_record(&mut self.buffer, body)?;
        keep(&mut self.disk, self.gate + 1, &self.buffer)?;
        keep(&mut self.disk, self.gate, &[OPEN])?;
        self.gate += self.buffer.len() as u64;
        self.count += 1;
        Ok(())
    }

    /// The number of records that were read and appended.
    pub fn count(&self) -> u64
        ensures { result ≡ count_of self.now }
    {
        self.count
    }

    /// Makes a later device call of the disk fail, and does nothing else.
    pub fn arm(&mut self, calls: u64, pick: Pick)
        ensures arms { D.medium.arms (disk_of self.new)
            ≡ armed_with (D.medium.arms (disk_of self.old)) calls pick }
        ensures reads { D.medium.reads (disk_of self.new) ≡ D.medium.reads (disk_of self.old) }
        ensures images { SameImages
            (D.medium.may_leave (disk_of self.old)) (D.medium.may_leave (disk_of self.new)) }
        ensures faults { D.medium.faults (disk_of self.new) ≡ D.medium.faults (disk_of self.old) }
        ensures count { count_of self.new ≡ count_of self.old }
        ensures synced { IsSynced D.medium self.old
            → IsSynced D.medium self.new }
    {
        self.disk.arm(calls, pick);
    }

    /// Gives the disk back.
    pub fn into_disk(self) -> D
        ensures { result ≡ disk_of self }
    {
        self.disk
    }
}
