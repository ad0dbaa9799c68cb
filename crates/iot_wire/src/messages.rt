//! What requests and replies have in common.
ghost use Rattle.std.specs.Prelude.{◌≡◌, ◌<◌, length, slice_get, Ok, IfSome};
ghost use Rattle.iot_codec.specs.Outcomes.{IsOutcome};
ghost use Rattle.iot_views.specs.Decoders.{at_most};
ghost use Rattle.iot_wire.specs.Messages.{at_end};

use iot_codec::{CodecFault, read_number};
use std::alloc::Global;

/// How many bytes a message has room for at first, which are enough for most of them.
pub(crate) const ROOM: usize = 512;

/// The tag of a message, if it has one.
#[inline]
pub(crate) fn tag_of(bytes: &[u8]) -> Option<u8>
    ensures tag { result ≡ slice_get bytes.now 0 }
    ensures within { IfSome result (λ _. 0 < length bytes.now) }
{
    bytes.get(0).copied()
}

/// The fault of a part that begins at the offset.
#[inline]
pub(crate) fn malformed(at: usize) -> CodecFault
    ensures { result ≡ CodecFault.Malformed at }
{
    CodecFault::Malformed { at: at as u64 }
}

/// Reads a number up to the limit.
pub(crate) fn read_at_most(
    alloc: Global,
    limit: u64,
    bytes: &[u8],
    at: usize,
) -> Result<(u64, usize), CodecFault>
    ensures { IsOutcome result (at_most limit bytes.now at) }
{
    let (number, end) = read_number(alloc, bytes, at)?;
    if limit < number {
        return Err(malformed(at));
    }
    Ok((number, end))
}

/// The message that was read up to `end`, if no bytes are left after it.
pub(crate) fn finished<T: Drop>(message: T, end: usize, bytes: &[u8]) -> Result<T, CodecFault>
    ensures { IsOutcome result (at_end bytes.now (Ok (message, end))) }
{
    if end != bytes.len() {
        return Err(malformed(end));
    }
    Ok(message)
}
