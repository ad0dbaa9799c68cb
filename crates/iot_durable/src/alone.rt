//! A durable state on one disk alone.
ghost use Rattle.std.specs.Prelude.{◌≡◌, ◌≢◌, ℕ, IfOk, IfErr, OnOk, MatchResult};
ghost use Rattle.iot_disk.specs.Disk.{armed_with, Only, SameImages};
ghost use Rattle.iot_records.specs.Records.{ChangesNothing};
ghost use Rattle.iot_slots.specs.Decoding.{Foreign, NotStarted, decoded};
ghost use Rattle.iot_slots.specs.declared.version.Version.TheVariants.{Two};
ghost use Rattle.iot_durable.specs.Standing.{StandFor, StandWith, EachStands, EachOpens};
ghost use Rattle.iot_durable.specs.Standing.{IsFresh, header_of, records_in};
ghost use Rattle.iot_durable.specs.Causes.{HasCause, TakesBytes, SaysForeign, SaysDamaged};
ghost use Rattle.iot_durable.specs.Damage.{IsDamagedAt};

use crate::replay::replay;
use crate::{Durable, Recorded};
use iot_disk::{Disk, Pick, StartFault};
use iot_slots::Slots;
use iot_text::{NoMemory, Text};
use std::alloc::Global;

impl<R: Recorded, D: Disk> Durable<R, Slots<D>> {
    ghost use Rattle.iot_durable.specs.Alone.{memory_of, disk_of, count_of, IsSynced};

    /// Starts from a disk, which no one else writes, with the state of its checkpoint after its records. A disk on which nothing was
    /// started is started with a checkpoint of the opening state. The disk comes back if this gives no state. Costs as much as the
    /// disk is long, and what the changes in its records cost.
    ///
    /// # Errors
    ///
    /// `Foreign` if something else wrote the disk, and `Damaged` with the place of what is cut short, spells nothing, or cannot follow
    /// what comes before it. `Stopped` if the disk failed in this call, and `NoMemory`.
    pub fn start(alloc: Global, disk: D) -> Result<Durable<R, Slots<D>>, (D, StartFault)>
        requires { Only (D.medium.reads disk) (D.medium.may_leave disk) }
        ensures stands { IfOk result (λ made.
            StandWith R.rules (D.medium.reads disk) (count_of made) (R.kept (memory_of made))) }

        // The disk stands for no other state.
        ensures only { (state : R.Kept) → StandFor R.rules (D.medium.reads disk) state
            → IfOk result (λ made. R.kept (memory_of made) ≡ state) }
        ensures synced { IfOk result (IsSynced D.medium R.rules R.kept R.IsSound) }
        ensures in_memory { IfOk result (λ made. R.IsFresh (memory_of made)) }

        // However this returns, each image stands for the state for which the disk stood, with as many records; and if it stood for
        // one, its bytes are not refused.
        ensures images { (state : R.Kept) → StandFor R.rules (D.medium.reads disk) state → MatchResult result
            (λ made. EachStands R.rules (D.medium.may_leave (disk_of made)) (records_in R.rules (D.medium.reads disk)) state)
            (λ refused. EachStands R.rules (D.medium.may_leave refused.0) (records_in R.rules (D.medium.reads disk)) state) }
        ensures never { (state : R.Kept) → StandFor R.rules (D.medium.reads disk) state
            → IfErr result (λ refused. TakesBytes refused.1) }

        ensures steady { IfOk result (λ made. D.medium.faults (disk_of made) ≡ D.medium.faults disk) }
        ensures cause { IfErr result (λ refused.
            HasCause R.rules refused.1 (D.medium.reads disk) (D.medium.faults disk) (D.medium.faults refused.0)) }

        // What something else wrote, and what is damaged, is refused for that, unless memory or the disk fails.
        ensures foreign { decoded (header_of R.rules) (D.medium.reads disk) ≡ Foreign
            → MatchResult result (λ _. ⊥) (λ refused. SaysForeign refused.1) }
        ensures damaged { (at : ℕ) → IsDamagedAt R.rules (D.medium.reads disk) at
            → MatchResult result (λ _. ⊥) (λ refused. SaysDamaged at refused.1) }

        // A refusal of the bytes changes nothing.
        ensures refused_reads { IfErr result (λ refused.
            ChangesNothing refused.1 (D.medium.reads refused.0 ≡ D.medium.reads disk)) }
        ensures refused_images { IfErr result (λ refused.
            ChangesNothing refused.1 (SameImages (D.medium.may_leave disk) (D.medium.may_leave refused.0))) }

        // A disk that is started is only read, whatever the answer, and so is each whose bytes are refused.
        ensures only_read { decoded (header_of R.rules) (D.medium.reads disk) ≢ NotStarted → MatchResult result
            (λ made. D.medium.reads (disk_of made) ≡ D.medium.reads disk)
            (λ refused. D.medium.reads refused.0 ≡ D.medium.reads disk) }
        ensures only_read_images { decoded (header_of R.rules) (D.medium.reads disk) ≢ NotStarted → MatchResult result
            (λ made. SameImages (D.medium.may_leave disk) (D.medium.may_leave (disk_of made)))
            (λ refused. SameImages (D.medium.may_leave disk) (D.medium.may_leave refused.0)) }

        // However this returns, a disk that was not started is not, or was just started. After Ok it has these bytes.
        ensures opens { decoded (header_of R.rules) (D.medium.reads disk) ≡ NotStarted → MatchResult result
            (λ made. EachOpens R.rules (D.medium.may_leave (disk_of made)))
            (λ refused. EachOpens R.rules (D.medium.may_leave refused.0)) }
        ensures fresh { decoded (header_of R.rules) (D.medium.reads disk) ≡ NotStarted → IfOk result (λ made.
            IsFresh R.rules (D.medium.reads disk) (D.medium.reads (disk_of made))) }

        ensures arms { MatchResult result
            (λ made. D.medium.arms (disk_of made) ≡ D.medium.arms disk)
            (λ refused. D.medium.arms refused.0 ≡ D.medium.arms disk) }
    {
        let mut body = Text::new(alloc);
        match spell_opening::<R>(alloc, &mut body) {
            Ok(()) => (),
            Err(_) => return Err((disk, StartFault::NoMemory)),
        }
        let (slots, started) = match Slots::start_with(alloc, disk, R::header(), body.as_bytes()) {
            Ok(started) => started,
            Err(refused) => return Err(refused),
        };
        let layout = slots.layout();
        match replay(
            alloc,
            layout.version,
            started.body.as_slice(),
            started.records.iter(),
            layout.place,
            layout.first,
        ) {
            Ok(state) => Ok(Durable {
                log: slots,
                state,
                buffer: Text::new(alloc),
            }),
            Err(fault) => Err((slots.into_disk(), fault)),
        }
    }

    /// Makes a later device call of the disk fail, and does nothing else.
    pub fn arm(&mut self, calls: u64, pick: Pick)
        ensures arms { D.medium.arms (disk_of self.new) ≡ armed_with (D.medium.arms (disk_of self.old)) calls pick }
        ensures reads { D.medium.reads (disk_of self.new) ≡ D.medium.reads (disk_of self.old) }
        ensures images { SameImages (D.medium.may_leave (disk_of self.old)) (D.medium.may_leave (disk_of self.new)) }
        ensures faults { D.medium.faults (disk_of self.new) ≡ D.medium.faults (disk_of self.old) }
        ensures state { memory_of self.new ≡ memory_of self.old }
        ensures count { count_of self.new ≡ count_of self.old }
        ensures synced { IsSynced D.medium R.rules R.kept R.IsSound self.old
            → IsSynced D.medium R.rules R.kept R.IsSound self.new }
    {
        self.log.arm(calls, pick);
    }

    /// Gives the disk back. Unless `note` failed, each image of it stands for the state.
    pub fn into_disk(self) -> D
        ensures disk { result ≡ disk_of self }
        ensures stands { IsSynced D.medium R.rules R.kept R.IsSound self
            → EachStands R.rules (D.medium.may_leave result) (count_of self) (R.kept (memory_of self)) }
    {
        self.log.into_disk()
    }
}

/// Spells the opening state.
pub(crate) fn spell_opening<R: Recorded>(alloc: Global, out: &mut Text) -> Result<(), NoMemory>
    ensures { OnOk result ((R.rules Two).IsBody out.new (R.rules Two).opening) }
{
    R::opening(alloc)?.spell(out)
}
