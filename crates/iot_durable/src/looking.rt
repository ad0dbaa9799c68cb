//! A disk whose records are read before anything is started on it.
ghost use Rattle.std.specs.Prelude.{◌≡◌, ℕ, IfOk, IfErr, MatchResult};
ghost use Rattle.iot_disk.specs.Disk.{Only, SameImages};
ghost use Rattle.iot_slots.specs.Decoding.{Foreign, decoded};
ghost use Rattle.iot_slots.specs.Looked.{disk_of as disk_in, header_of as header_in, IsLooked};
ghost use Rattle.iot_durable.specs.Standing.{StandFor, header_of};
ghost use Rattle.iot_durable.specs.Causes.{HasCause, TakesBytes, SaysForeign, SaysDamaged};
ghost use Rattle.iot_durable.specs.Damage.{IsDamagedAt};

use crate::Recorded;
use crate::image::read_image;
use iot_disk::{Disk, StartFault};
use iot_slots::{Looked, Slots};
use std::alloc::Global;

/// Reads a disk, which no one else writes, and the state for which it stands. Nothing is started on it yet.
pub(crate) fn look<R: Recorded, D: Disk>(
    alloc: Global,
    disk: D,
) -> Result<(Looked<D>, R), (D, StartFault)>
    requires { Only (D.medium.reads disk) (D.medium.may_leave disk) }
    ensures looked { IfOk result (λ found. IsLooked D.medium found.0) }
    ensures header { IfOk result (λ found. header_in found.0 ≡ header_of R.rules) }
    ensures stands { IfOk result (λ found. StandFor R.rules (D.medium.reads disk) (R.kept found.1)) }

    // The disk stands for no other state. If it stands for one, its bytes are not refused.
    ensures only { (state : R.Kept) → StandFor R.rules (D.medium.reads disk) state → IfOk result (λ found. R.kept found.1 ≡ state) }
    ensures never { (state : R.Kept) → StandFor R.rules (D.medium.reads disk) state → IfErr result (λ refused. TakesBytes refused.1) }
    ensures sound { IfOk result (λ found. R.IsSound found.1) }
    ensures fresh { IfOk result (λ found. R.IsFresh found.1) }

    // What something else wrote, and what is damaged, is refused for that, unless memory or the disk fails.
    ensures foreign { decoded (header_of R.rules) (D.medium.reads disk) ≡ Foreign
        → MatchResult result (λ _. ⊥) (λ refused. SaysForeign refused.1) }
    ensures damaged { (at : ℕ) → IsDamagedAt R.rules (D.medium.reads disk) at
        → MatchResult result (λ _. ⊥) (λ refused. SaysDamaged at refused.1) }

    // However this returns, the disk is only read.
    ensures reads { MatchResult result
        (λ found. D.medium.reads (disk_in found.0) ≡ D.medium.reads disk)
        (λ refused. D.medium.reads refused.0 ≡ D.medium.reads disk) }
    ensures images { MatchResult result
        (λ found. SameImages (D.medium.may_leave disk) (D.medium.may_leave (disk_in found.0)))
        (λ refused. SameImages (D.medium.may_leave disk) (D.medium.may_leave refused.0)) }

    ensures steady { IfOk result (λ found. D.medium.faults (disk_in found.0) ≡ D.medium.faults disk) }
    ensures cause { IfErr result (λ refused.
        HasCause R.rules refused.1 (D.medium.reads disk) (D.medium.faults disk) (D.medium.faults refused.0)) }
    ensures arms { MatchResult result
        (λ found. D.medium.arms (disk_in found.0) ≡ D.medium.arms disk)
        (λ refused. D.medium.arms refused.0 ≡ D.medium.arms disk) }
{
    let looked = match Slots::look(alloc, disk, R::header()) {
        Ok(looked) => looked,
        Err(refused) => return Err(refused),
    };
    match read_image::<R>(alloc, looked.bytes()) {
        Ok(found) => Ok((looked, found.state)),
        Err(fault) => Err((looked.into_disk(), fault)),
    }
}
