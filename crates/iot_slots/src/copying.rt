//! What the bytes of a disk encode, in memory of its own.
ghost use Rattle.std.specs.Prelude.{◌≡◌, IfOk, IfErr, IfSome, IfNone};
ghost use Rattle.iot_slots.specs.Decoding.{NotStarted, decoded, state_in};
ghost use Rattle.iot_slots.specs.Layouts.{IsLaidOut};
ghost use Rattle.iot_slots.specs.Start.{IsReason};

use crate::{Layout, SlotsView};
use iot_disk::{Bodies, StartFault};
use std::alloc::Global;

/// The state that bytes encode, and where its parts are.
#[derive(Drop)]
pub struct Opened {
    pub layout: Layout,
    pub body: Vec<u8>,
    pub bodies: Bodies,
}

/// Decodes the bytes of a disk; none if it is not started.
pub fn decode(alloc: Global, header: &[u8; 8], bytes: &[u8]) -> Result<Option<Opened>, StartFault>
    ensures some { IfOk result (λ found. IfSome found (λ found. IsLaidOut header.now bytes.now
        (state_in found.layout.version found.body.items found.bodies found.layout.count) found.layout)) }
    ensures none { IfOk result (λ found. IfNone found (decoded header.now bytes.now ≡ NotStarted)) }
    ensures err { IfErr result (λ fault. IsReason fault (decoded header.now bytes.now)) }
{
    match SlotsView::of(header, bytes)? {
        Some(view) => Ok(Some(Opened {
            layout: view.layout,
            body: view.body.to_vec(alloc)?,
            bodies: view.records.copied(alloc)?,
        })),
        None => Ok(None),
    }
}
