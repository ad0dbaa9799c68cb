//! What the readers of bodies have in common.
ghost use Rattle.std.specs.Prelude.{◌≡◌, ◌<◌, length, slice_get, Ok, IfSome};
ghost use Rattle.iot_codec.specs.Outcomes.{IsOutcome};
ghost use Rattle.iot_wire.specs.Messages.{at_end};

use iot_codec::CodecFault;

/// The tag at the offset, if one is there.
#[inline]
pub(crate) fn tag_at(bytes: &[u8], at: usize) -> Option<u8>
    ensures tag { result ≡ slice_get bytes.now at }
    ensures within { IfSome result (λ _. at < length bytes.now) }
{
    bytes.get(at).copied()
}

/// The fault of a part that begins at the offset.
#[inline]
pub(crate) fn malformed(at: usize) -> CodecFault
    ensures { result ≡ CodecFault.Malformed at }
{
    CodecFault::Malformed { at: at as u64 }
}

/// The body that was read up to `end`, if no bytes are left after it.
pub(crate) fn finished<T: Drop>(body: T, end: usize, bytes: &[u8]) -> Result<T, CodecFault>
    ensures { IsOutcome result (at_end bytes.now (Ok (body, end))) }
{
    if end != bytes.len() {
        return Err(malformed(end));
    }
    Ok(body)
}
