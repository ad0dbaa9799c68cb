//! How checkpoints and cells are spelled.
ghost use Rattle.std.specs.Prelude.{◌≡◌, ◌≤◌, ◌<◌, ◌^◌, [], ◌∷◌, ◌++◌, length, IfOk, OnOk};
ghost use Rattle.iot_records.specs.Bytes.{number};
ghost use Rattle.iot_records.specs.Records.{spelled};
ghost use Rattle.iot_slots.specs.Cells.{naming};
ghost use Rattle.iot_slots.specs.Decoding.{Encodes, decoded, state_in};
ghost use Rattle.iot_slots.specs.Layouts.{closing_of};
ghost use Rattle.iot_slots.specs.Start.{after_gate, fresh, started};
ghost use Rattle.iot_slots.specs.declared.version.Version.TheVariants.{Two};

use crate::layout::REST;
use crate::version::naming;
use iot_records::{CLOSED, OPEN};
use std::alloc::{AllocError, Global};

/// Spells a checkpoint and the closed gate after it.
pub fn spell_checkpoint(out: &mut Vec<u8>, body: &[u8], count: u64) -> Result<(), AllocError>
    ensures { OnOk result (out.new.items ≡ spelled body.now ++ (number count ++ 0 ∷ [])) }
{
    out.clear();
    out.extend_from_slice(&(body.len() as u64).to_be_bytes())?;
    out.extend_from_slice(body)?;
    out.extend_from_slice(&count.to_be_bytes())?;
    out.push(CLOSED)?;
    Ok(())
}

/// Spells what follows byte 0 of a disk that was just started before its first cell is opened: the header, both cells
/// closed, a checkpoint with this number of records before it, and the closed gate after it.
pub fn spell_fresh(
    out: &mut Vec<u8>,
    header: &[u8; 8],
    body: &[u8],
    count: u64,
) -> Result<(), AllocError>
    ensures { OnOk result (out.new.items ≡ fresh header.now body.now count) }
{
    out.clear();
    out.extend_from_slice(header)?;
    out.push(CLOSED)?;
    spell_after_gate(out, body, count)
}

/// Spells a disk of version 2 that was just started with this body after so many records.
///
/// The body is at most 2^61 bytes, so that the disk is not longer than any disk is.
pub fn spell_started(
    alloc: Global,
    header: &[u8; 8],
    body: &[u8],
    count: u64,
) -> Result<Vec<u8>, AllocError>
    requires { length body.now ≤ 2 ^ 61 }
    ensures spelled { IfOk result (λ bytes. bytes.items ≡ started header.now body.now count) }
    ensures encodes { IfOk result (λ bytes. decoded header.now bytes.items ≡ Encodes (state_in Two body.now [] count)) }
{
    let mut out = Vec::new(alloc);
    out.push(OPEN)?;
    out.extend_from_slice(header)?;
    out.push(OPEN)?;
    spell_after_gate(&mut out, body, count)?;
    Ok(out)
}

/// Spells what follows the gate of the first cell of a disk that was just started.
fn spell_after_gate(out: &mut Vec<u8>, body: &[u8], count: u64) -> Result<(), AllocError>
    ensures { OnOk result (out.new.items ≡ out.old.items ++ after_gate body.now count) }
{
    out.extend_from_slice(&spell_cell(1, REST))?;
    out.extend_from_slice(&[0; 17])?;
    out.extend_from_slice(&(body.len() as u64).to_be_bytes())?;
    out.extend_from_slice(body)?;
    out.extend_from_slice(&count.to_be_bytes())?;
    out.push(CLOSED)?;
    Ok(())
}

/// Spells what follows the gate of a cell: its generation, and the number that names the place of its checkpoint.
pub fn spell_cell(generation: u64, place: u64) -> [u8; 16]
    requires { place < 2 ^ 63 }
    ensures { result ≡ number generation ++ number (naming Two place) }
{
    let mut bytes = [0; 16];
    bytes[..8].copy_from_slice(&generation.to_be_bytes());
    bytes[8..].copy_from_slice(&naming(place).to_be_bytes());
    bytes
}

/// What closes the gate of the other cell: nothing if it is closed.
pub fn closing(other: Option<u64>) -> &'static [u8]
    ensures { result.now ≡ closing_of other }
{
    match other {
        Some(_) => &[CLOSED],
        None => &[],
    }
}
