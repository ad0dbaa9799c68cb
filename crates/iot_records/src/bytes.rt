//! The bytes of a disk, and gates and numbers among them.
ghost use Rattle.std.specs.Prelude.{◌≡◌, ◌≤◌, ◌+◌, ◌^◌, length, IfOk, OnOk};
ghost use Rattle.iot_disk.specs.Disk.{CountsFault, SameImages};
ghost use Rattle.iot_records.specs.Bytes.{is_closed, number_at as spelled_at};

use iot_disk::{Disk, DiskFault};
use std::alloc::Global;

/// The gate of what counts. Every other byte is a closed gate.
pub const OPEN: u8 = 165;

/// The closed gate that is written.
pub const CLOSED: u8 = 0;

/// All bytes of a disk, by one device call, or by none if it is empty.
pub fn read_disk<D: Disk>(alloc: Global, disk: &mut D) -> Result<Vec<u8>, DiskFault>
    ensures bytes { IfOk result (λ bytes. bytes.items ≡ D.medium.reads disk.old) }
    ensures limit { OnOk result (length (D.medium.reads disk.old) ≤ 2 ^ 62) }
    ensures reads { OnOk result (D.medium.reads disk.new ≡ D.medium.reads disk.old) }
    ensures images { SameImages (D.medium.may_leave disk.old) (D.medium.may_leave disk.new) }
    ensures faults { CountsFault result (D.medium.faults disk.old) (D.medium.faults disk.new) }
    ensures arms { D.medium.arms disk.new ≡ D.medium.arms disk.old }
{
    let mut bytes = vec![in alloc; 0; disk.len() as usize]?;
    if !bytes.is_empty() {
        disk.read_at(0, &mut bytes)?;
    }
    Ok(bytes)
}

/// Whether a closed gate stands at the start of these bytes.
pub fn has_closed_gate(bytes: &[u8]) -> bool
    ensures { result ≡ is_closed bytes.now }
{
    !bytes.is_empty() && bytes[0] != OPEN
}

/// The number that is spelled at an offset.
pub fn number_at(bytes: &[u8], at: usize) -> u64
    requires { at + 8 ≤ length bytes.now }
    ensures { result ≡ spelled_at bytes.now at }
{
    let mut digits = [0; 8];
    digits.copy_from_slice(&bytes[at..at + 8]);
    u64::from_be_bytes(digits)
}
