//! How records are spelled and read.
ghost use Rattle.std.specs.Prelude.{◌≡◌, ◌≤◌, ◌<◌, ◌+◌, ◌^◌, [], ◌∷◌, ◌++◌, length, IfOk, IfErr, OnOk};
ghost use Rattle.iot_records.specs.Records.{spelled, series_in, IsSeries, IsCutReason};

use crate::{CLOSED, lend_records};
use iot_disk::{Bodies, StartFault};
use std::alloc::{AllocError, Global};

/// Spells what an append writes after the closed gate: the number of bytes of the body, the body, and the next gate,
/// closed.
pub fn spell_record(out: &mut Vec<u8>, body: &[u8]) -> Result<(), AllocError>
    ensures { OnOk result (out.new.items ≡ spelled body.now ++ 0 ∷ []) }
{
    out.clear();
    out.extend_from_slice(&(body.len() as u64).to_be_bytes())?;
    out.extend_from_slice(body)?;
    out.push(CLOSED)?;
    Ok(())
}

/// Records that were read.
#[derive(Drop)]
pub struct Found {
    pub bodies: Bodies,
    /// The offset of the closed gate after them.
    pub gate: u64,
}

/// Reads records up to the first closed gate. The first of these bytes is the gate of the first record, and stands at
/// this offset.
pub fn read_records(alloc: Global, bytes: &[u8], at: u64) -> Result<Found, StartFault>
    requires more { 0 < length bytes.now }
    requires limit { at + length bytes.now ≤ 2 ^ 62 }
    ensures ok { IfOk result (λ found. IsSeries bytes.now at found.bodies found.gate) }
    ensures err { IfErr result (λ fault. IsCutReason fault (series_in at bytes.now)) }
{
    let found = lend_records(bytes, at)?;
    Ok(Found {
        bodies: found.records.copied(alloc)?,
        gate: found.gate,
    })
}
