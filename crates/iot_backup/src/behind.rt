//! How the second disk is brought up to the first.
ghost use Rattle.std.specs.Prelude.{◌≡◌, ◌≢◌, ◌⊎◌, false, length, OnOk};
ghost use Rattle.iot_disk.specs.Faults.{CountsJournalFault};
ghost use Rattle.iot_records.specs.Images.{Each};
ghost use Rattle.iot_slots.specs.Cells.{next};
ghost use Rattle.iot_slots.specs.Decoding.{Encodes, decoded};
ghost use Rattle.iot_slots.specs.Due.{EachTakes, due_on};
ghost use Rattle.iot_slots.specs.Slots.{disk_of, header_of, count_of, state_on, appended, IsSynced};
ghost use Rattle.iot_backup.specs.Pairs.{follows as follows_is};
ghost use Rattle.iot_backup.specs.Start.{last_of, with_last};

use iot_disk::{Bodies, Disk, JournalFault};
use iot_slots::Slots;

/// Whether the first count is the other one or one more, modulo 2^64.
pub(crate) fn follows(one: u64, other: u64) -> bool
    ensures { result ≡ follows_is one other }
{
    one == other || one == other.wrapping_add(1)
}

/// The last of the bodies, or no bytes if there is none.
fn last_body(bodies: &Bodies) -> &[u8]
    ensures { result.now ≡ last_of bodies.now }
{
    let mut last: &[u8] = &[];
    'bodies: for body in bodies.iter() {
        last = body;
    }
    last
}

/// Appends the last of the first disk's bodies, of whose records there were so many, unless the count is the same.
pub(crate) fn bring_up<D: Disk>(
    slots: &mut Slots<D>,
    count: u64,
    bodies: &Bodies,
) -> Result<(), JournalFault>
    requires synced { IsSynced D.medium slots.old }
    requires more { count ≢ count_of slots.old → count ≡ next (count_of slots.old) }
    requires not_due { count ≢ count_of slots.old
        → due_on (header_of slots.old) (D.medium.reads (disk_of slots.old)) (length (last_of bodies.now)) ≡ false }
    ensures images { Each (λ image. (decoded (header_of slots.old) image ≡ Encodes (state_on D.medium slots.old))
        ⊎ ((count ≢ count_of slots.old)
        × (decoded (header_of slots.old) image ≡ Encodes (appended (state_on D.medium slots.old) (last_of bodies.now)))))
        (D.medium.may_leave (disk_of slots.new)) }
    ensures takes { count ≢ count_of slots.old → EachTakes (header_of slots.old) (D.medium.may_leave (disk_of slots.new))
        (state_on D.medium slots.old) (length (last_of bodies.now)) }
    ensures state { OnOk result (state_on D.medium slots.new
        ≡ with_last count (count_of slots.old) (last_of bodies.now) (state_on D.medium slots.old)) }
    ensures synced { OnOk result (IsSynced D.medium slots.new) }
    ensures count { OnOk result (count_of slots.new ≡ count) }
    ensures header { header_of slots.new ≡ header_of slots.old }
    ensures idle { count ≡ count_of slots.old → slots.new ≡ slots.old }
    ensures faults { CountsJournalFault result
        (D.medium.faults (disk_of slots.old)) (D.medium.faults (disk_of slots.new)) }
    ensures arms { D.medium.arms (disk_of slots.new) ≡ D.medium.arms (disk_of slots.old) }
{
    if slots.count() == count {
        return Ok(());
    }
    slots.append(last_body(bodies))
}
