//! Where the records of a journal are, and how they are decoded.
ghost use Rattle.std.specs.Prelude.{◌≡◌, ◌≤◌, ◌^◌, true, length, IfOk, IfErr};
ghost use Rattle.iot_journal.specs.Decoding.{is_started, decoded};
ghost use Rattle.iot_journal.specs.Images.{IsLaidOut};
ghost use Rattle.iot_journal.specs.Start.{IsReason};

use iot_disk::StartFault;
use iot_records::{Found, OPEN, read_records};
use std::alloc::Global;

/// The text after the first gate.
pub const HEADER: [u8; 8] = *b"IOTJRNL1";

/// The place of the first record's gate.
pub const FIRST_GATE: u64 = 9;

/// How many bytes a record has besides its body: its gate, and the number of the body's bytes.
pub const RECORD: u64 = 9;

/// Whether a journal was started on a disk with these bytes.
pub fn has_start(bytes: &[u8]) -> bool
    ensures { result ≡ is_started bytes.now }
{
    bytes.len() >= 10 && bytes[0] == OPEN
}

/// Decodes the records of a started journal.
pub fn read(alloc: Global, bytes: &[u8]) -> Result<Found, StartFault>
    requires started { is_started bytes.now ≡ true }
    requires limit { length bytes.now ≤ 2 ^ 62 }
    ensures ok { IfOk result (λ found. IsLaidOut bytes.now found.bodies found.gate) }
    ensures err { IfErr result (λ fault. IsReason fault (decoded bytes.now)) }
{
    if !bytes[1..].starts_with(&HEADER) {
        return Err(StartFault::Foreign);
    }
    read_records(alloc, &bytes[9..], FIRST_GATE)
}
