//! The start of a journal from its disk.
ghost use Rattle.std.specs.Prelude.{◌≡◌, ◌≤◌, ◌^◌, [], ◌∷◌, true, false, drop, length, IfOk, IfErr, OnOk};
ghost use Rattle.iot_disk.specs.Disk.{CountsFault, Only, SameImages};
ghost use Rattle.iot_journal.specs.Decoding.{Encodes, decoded, is_closed, is_started, started};
ghost use Rattle.iot_journal.specs.Images.{EachDecodes, IsLaidOut};
ghost use Rattle.iot_journal.specs.Start.{HasCause, ChangesNothing, after_start};

use crate::records::{FIRST_GATE, HEADER, has_start, read};
use iot_disk::{Bodies, Disk, DiskFault, StartFault, keep};
use iot_records::{CLOSED, Found, OPEN, has_closed_gate, read_disk};
use std::alloc::Global;

/// Reads the disk, and makes it a journal with no records if none was started on it.
pub fn open<D: Disk>(alloc: Global, disk: &mut D) -> Result<Found, StartFault>
    requires { Only (D.medium.reads disk.old) (D.medium.may_leave disk.old) }
    ensures bodies { IfOk result (λ found. decoded (D.medium.reads disk.old) ≡ Encodes found.bodies) }
    ensures layout { IfOk result (λ found. IsLaidOut (D.medium.reads disk.new) found.bodies found.gate) }
    ensures durable { OnOk result (Only (D.medium.reads disk.new) (D.medium.may_leave disk.new)) }
    ensures limit { OnOk result (length (D.medium.reads disk.new) ≤ 2 ^ 62) }
    ensures bytes { OnOk result (D.medium.reads disk.new ≡ after_start (D.medium.reads disk.old)) }

    // However this returns, every image encodes what the disk encoded before.
    ensures images { EachDecodes (D.medium.may_leave disk.new) (decoded (D.medium.reads disk.old)) }

    ensures steady { OnOk result (D.medium.faults disk.new ≡ D.medium.faults disk.old) }
    ensures cause { IfErr result (λ fault.
        HasCause fault (decoded (D.medium.reads disk.old)) (D.medium.faults disk.old) (D.medium.faults disk.new)) }
    ensures refused_reads { IfErr result (λ fault.
        ChangesNothing fault (D.medium.reads disk.new ≡ D.medium.reads disk.old)) }
    ensures refused_images { IfErr result (λ fault.
        ChangesNothing fault (SameImages (D.medium.may_leave disk.old) (D.medium.may_leave disk.new))) }

    // A disk on which a journal was started is only read, also if this fails.
    ensures only_read { is_started (D.medium.reads disk.old) ≡ true → D.medium.reads disk.new ≡ D.medium.reads disk.old }
    ensures only_read_images { is_started (D.medium.reads disk.old) ≡ true
        → SameImages (D.medium.may_leave disk.old) (D.medium.may_leave disk.new) }
    ensures arms { D.medium.arms disk.new ≡ D.medium.arms disk.old }
{
    let bytes = read_disk(alloc, disk)?;
    if has_start(&bytes) {
        return read(alloc, &bytes);
    }
    begin(disk, &bytes)?;
    Ok(Found {
        gate: FIRST_GATE,
        bodies: Bodies::new(alloc),
    })
}

/// Makes a disk on which no journal was started, and which reads as these bytes, a journal with no records.
fn begin<D: Disk>(disk: &mut D, bytes: &[u8]) -> Result<(), DiskFault>
    requires bytes { bytes.now ≡ D.medium.reads disk.old }
    requires not_started { is_started (D.medium.reads disk.old) ≡ false }
    requires limit { length (D.medium.reads disk.old) ≤ 2 ^ 62 }
    requires only { Only (D.medium.reads disk.old) (D.medium.may_leave disk.old) }
    ensures bytes { OnOk result (D.medium.reads disk.new ≡ started (0 ∷ drop 10 (D.medium.reads disk.old))) }
    ensures limit { OnOk result (length (D.medium.reads disk.new) ≤ 2 ^ 62) }
    ensures durable { OnOk result (Only (D.medium.reads disk.new) (D.medium.may_leave disk.new)) }
    ensures images { EachDecodes (D.medium.may_leave disk.new) (Encodes []) }
    ensures faults { CountsFault result (D.medium.faults disk.old) (D.medium.faults disk.new) }
    ensures arms { D.medium.arms disk.new ≡ D.medium.arms disk.old }
{
    close_first(disk, bytes)?;
    put_header(disk)
}

/// Makes the first byte a closed gate, unless it is one.
fn close_first<D: Disk>(disk: &mut D, bytes: &[u8]) -> Result<(), DiskFault>
    requires bytes { bytes.now ≡ D.medium.reads disk.old }
    requires not_started { is_started (D.medium.reads disk.old) ≡ false }
    requires limit { length (D.medium.reads disk.old) ≤ 2 ^ 62 }
    requires only { Only (D.medium.reads disk.old) (D.medium.may_leave disk.old) }
    ensures closed { OnOk result (is_closed (D.medium.reads disk.new) ≡ true) }
    ensures rest { OnOk result (drop 1 (D.medium.reads disk.new) ≡ drop 1 (D.medium.reads disk.old)) }
    ensures limit { OnOk result (length (D.medium.reads disk.new) ≤ 2 ^ 62) }
    ensures durable { OnOk result (Only (D.medium.reads disk.new) (D.medium.may_leave disk.new)) }
    ensures images { EachDecodes (D.medium.may_leave disk.new) (Encodes []) }
    ensures faults { CountsFault result (D.medium.faults disk.old) (D.medium.faults disk.new) }
    ensures arms { D.medium.arms disk.new ≡ D.medium.arms disk.old }
{
    if has_closed_gate(bytes) {
        return Ok(());
    }
    keep(disk, 0, &[CLOSED])
}

/// Writes the header and the first record's gate after the closed gate, and then opens that.
fn put_header<D: Disk>(disk: &mut D) -> Result<(), DiskFault>
    requires closed { is_closed (D.medium.reads disk.old) ≡ true }
    requires limit { length (D.medium.reads disk.old) ≤ 2 ^ 62 }
    requires only { Only (D.medium.reads disk.old) (D.medium.may_leave disk.old) }
    ensures bytes { OnOk result (D.medium.reads disk.new ≡ started (0 ∷ drop 10 (D.medium.reads disk.old))) }
    ensures limit { OnOk result (length (D.medium.reads disk.new) ≤ 2 ^ 62) }
    ensures durable { OnOk result (Only (D.medium.reads disk.new) (D.medium.may_leave disk.new)) }
    ensures images { EachDecodes (D.medium.may_leave disk.new) (Encodes []) }
    ensures faults { CountsFault result (D.medium.faults disk.old) (D.medium.faults disk.new) }
    ensures arms { D.medium.arms disk.new ≡ D.medium.arms disk.old }
{
    let mut opening = [CLOSED; 9];
    opening[..8].copy_from_slice(&HEADER);
    keep(disk, 1, &opening)?;
    keep(disk, 0, &[OPEN])
}
