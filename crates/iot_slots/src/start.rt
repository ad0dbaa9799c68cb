//! The start of slots from their disk.
ghost use Rattle.std.specs.Prelude.{◌≡◌, ◌≢◌, ◌≤◌, ◌^◌, [], true, drop, length, IfOk, IfErr, OnOk};
ghost use Rattle.iot_disk.specs.Disk.{CountsFault, Only, SameImages};
ghost use Rattle.iot_records.specs.Bytes.{is_closed};
ghost use Rattle.iot_records.specs.Images.{Each};
ghost use Rattle.iot_slots.specs.Decoding.{Encodes, NotStarted, decoded, opened, state_in};
ghost use Rattle.iot_slots.specs.Layouts.{IsLaidOut, fresh_layout};
ghost use Rattle.iot_slots.specs.Start.{HasCause, EachEncodesAs, IsSeen, IsOpening, KeepsRoom, started_over};
ghost use Rattle.iot_slots.specs.declared.version.Version.TheVariants.{Two};

use crate::Layout;
use crate::copying::{Opened, decode};
use crate::spelling::spell_fresh;
use iot_disk::{Bodies, Disk, DiskFault, StartFault, keep};
use iot_records::{CLOSED, OPEN, has_closed_gate, read_disk};
use std::alloc::Global;

/// What was read on a disk.
#[derive(Drop)]
pub struct Seen {
    pub bytes: Vec<u8>,
    /// Nothing if the disk is not started.
    pub found: Option<Opened>,
}

/// Reads the disk.
pub fn see<D: Disk>(alloc: Global, disk: &mut D, header: &[u8; 8]) -> Result<Seen, StartFault>
    requires { Only (D.medium.reads disk.old) (D.medium.may_leave disk.old) }
    ensures seen { IfOk result (λ seen. IsSeen header.now (D.medium.reads disk.old) seen) }
    ensures reads { D.medium.reads disk.new ≡ D.medium.reads disk.old }
    ensures images { SameImages (D.medium.may_leave disk.old) (D.medium.may_leave disk.new) }
    ensures steady { OnOk result (D.medium.faults disk.new ≡ D.medium.faults disk.old) }
    ensures cause { IfErr result (λ fault.
        HasCause fault (decoded header.now (D.medium.reads disk.old)) (D.medium.faults disk.old) (D.medium.faults disk.new)) }
    ensures arms { D.medium.arms disk.new ≡ D.medium.arms disk.old }
{
    let bytes = read_disk(alloc, disk)?;
    let found = decode(alloc, header, &bytes)?;
    Ok(Seen { bytes, found })
}

/// Starts the disk with this body if it is not started.
pub fn open<D: Disk>(
    alloc: Global,
    disk: &mut D,
    header: &[u8; 8],
    seen: Seen,
    body: &[u8],
) -> Result<Opened, DiskFault>
    requires only { Only (D.medium.reads disk.old) (D.medium.may_leave disk.old) }
    requires seen { IsSeen header.now (D.medium.reads disk.old) seen }
    ensures state { IfOk result (λ found. opened body.now (decoded header.now (D.medium.reads disk.old))
        ≡ Encodes (state_in found.layout.version found.body.items found.bodies found.layout.count)) }
    ensures laid_out { IfOk result (λ found. IsLaidOut header.now (D.medium.reads disk.new)
        (state_in found.layout.version found.body.items found.bodies found.layout.count) found.layout) }
    ensures durable { OnOk result (Only (D.medium.reads disk.new) (D.medium.may_leave disk.new)) }

    // However this returns, every image encodes what the disk encoded before, and nothing became due.
    ensures images { EachEncodesAs header.now body.now (D.medium.reads disk.old) (D.medium.may_leave disk.new) }
    ensures room { KeepsRoom header.now (D.medium.reads disk.old) (D.medium.may_leave disk.new) }

    // A disk that is started is only read, also if this fails.
    ensures only_read { decoded header.now (D.medium.reads disk.old) ≢ NotStarted → D.medium.reads disk.new ≡ D.medium.reads disk.old }
    ensures only_read_images { decoded header.now (D.medium.reads disk.old) ≢ NotStarted
        → SameImages (D.medium.may_leave disk.old) (D.medium.may_leave disk.new) }

    // After Ok a disk that was not started has these bytes.
    ensures fresh { decoded header.now (D.medium.reads disk.old) ≡ NotStarted
        → OnOk result (D.medium.reads disk.new ≡ started_over header.now body.now (D.medium.reads disk.old)) }
    ensures faults { CountsFault result (D.medium.faults disk.old) (D.medium.faults disk.new) }
    ensures arms { D.medium.arms disk.new ≡ D.medium.arms disk.old }
{
    let Seen { bytes, found } = seen;
    if let Some(found) = found {
        return Ok(found);
    }
    let copy = body.to_vec(alloc)?;
    begin(alloc, disk, header, body, &bytes)?;
    Ok(Opened {
        layout: Layout::fresh(body.len() as u64),
        body: copy,
        bodies: Bodies::new(alloc),
    })
}

/// Starts a disk that is not started, and which reads as these bytes, with this body.
fn begin<D: Disk>(
    alloc: Global,
    disk: &mut D,
    header: &[u8; 8],
    body: &[u8],
    bytes: &[u8],
) -> Result<(), DiskFault>
    requires bytes { bytes.now ≡ D.medium.reads disk.old }
    requires not_started { decoded header.now (D.medium.reads disk.old) ≡ NotStarted }
    requires limit { length (D.medium.reads disk.old) ≤ 2 ^ 62 }
    requires only { Only (D.medium.reads disk.old) (D.medium.may_leave disk.old) }
    ensures bytes { OnOk result (D.medium.reads disk.new ≡ started_over header.now body.now (D.medium.reads disk.old)) }
    ensures laid_out { OnOk result (IsLaidOut header.now (D.medium.reads disk.new)
        (state_in Two body.now [] 0) (fresh_layout (length body.now))) }
    ensures durable { OnOk result (Only (D.medium.reads disk.new) (D.medium.may_leave disk.new)) }
    ensures images { Each (λ image. IsOpening header.now body.now image) (D.medium.may_leave disk.new) }
    ensures faults { CountsFault result (D.medium.faults disk.old) (D.medium.faults disk.new) }
    ensures arms { D.medium.arms disk.new ≡ D.medium.arms disk.old }
{
    let mut fresh = Vec::new(alloc);
    spell_fresh(&mut fresh, header, body, 0)?;
    close_first(disk, header, bytes)?;
    keep(disk, 1, &fresh)?;
    keep(disk, 9, &[OPEN])?;
    keep(disk, 0, &[OPEN])
}

/// Makes byte 0 a closed gate, unless it is one.
fn close_first<D: Disk>(disk: &mut D, header: &[u8; 8], bytes: &[u8]) -> Result<(), DiskFault>
    requires bytes { bytes.now ≡ D.medium.reads disk.old }
    requires not_started { decoded header.now (D.medium.reads disk.old) ≡ NotStarted }
    requires limit { length (D.medium.reads disk.old) ≤ 2 ^ 62 }
    requires only { Only (D.medium.reads disk.old) (D.medium.may_leave disk.old) }
    ensures closed { OnOk result (is_closed (D.medium.reads disk.new) ≡ true) }
    ensures rest { OnOk result (drop 1 (D.medium.reads disk.new) ≡ drop 1 (D.medium.reads disk.old)) }
    ensures limit { OnOk result (length (D.medium.reads disk.new) ≤ 2 ^ 62) }
    ensures durable { OnOk result (Only (D.medium.reads disk.new) (D.medium.may_leave disk.new)) }
    ensures images { Each (λ image. decoded header.now image ≡ NotStarted) (D.medium.may_leave disk.new) }
    ensures faults { CountsFault result (D.medium.faults disk.old) (D.medium.faults disk.new) }
    ensures arms { D.medium.arms disk.new ≡ D.medium.arms disk.old }
{
    if has_closed_gate(bytes) {
        return Ok(());
    }
    keep(disk, 0, &[CLOSED])
}
