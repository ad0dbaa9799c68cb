//! A write that is durable when the call is over.
ghost use Rattle.std.specs.Prelude.{◌≡◌, ◌<◌, ◌≤◌, ◌+◌, ◌^◌, length, OnOk, OnErr, IsErrOf};
ghost use Rattle.iot_disk.specs.Disk.{CountsFault, overwritten, IsTornFrom, Only, SameImages};

use crate::{Disk, DiskFault};

/// Writes bytes and syncs. If one of the two fails, a crash may leave any bytes in the range.
pub fn keep<D: Disk>(disk: &mut D, at: u64, bytes: &[u8]) -> Result<(), DiskFault>
    requires { at ≤ length (D.medium.reads disk.old) }
    ensures written { OnOk result (D.medium.reads disk.new ≡ overwritten (D.medium.reads disk.old) at bytes.now) }
    ensures limit { OnOk result (at + length bytes.now ≤ 2 ^ 62) }
    ensures durable { OnOk result (Only (D.medium.reads disk.new) (D.medium.may_leave disk.new)) }
    ensures images { OnErr result (IsTornFrom at (at + length bytes.now)
        (D.medium.may_leave disk.old) (D.medium.may_leave disk.new)) }

    // Only a write that makes the disk longer takes memory, and without memory it changes nothing.
    ensures longer { IsErrOf result DiskFault.NoMemory
        → length (D.medium.reads disk.old) < at + length bytes.now }
    ensures no_memory { IsErrOf result DiskFault.NoMemory
        → SameImages (D.medium.may_leave disk.old) (D.medium.may_leave disk.new) }

    ensures faults { CountsFault result (D.medium.faults disk.old) (D.medium.faults disk.new) }
    ensures arms { D.medium.arms disk.new ≡ D.medium.arms disk.old }
{
    disk.write_at(at, bytes)?;
    disk.sync()
}
