//! What the readers of changes have in common.
ghost use Rattle.std.specs.Prelude.{◌≡◌, ◌<◌, length, slice_get, Ok, IfSome};
ghost use Rattle.iot_codec.specs.Outcomes.{IsOutcome};
ghost use Rattle.iot_wire.specs.Messages.{at_end};

use iot_codec::CodecFault;

/// The tag of a change, if it has one.
#[inline]
pub(crate) fn tag_of(bytes: &[u8]) -> Option<u8>
    ensures tag { result ≡ slice_get bytes.now 0 }
    ensures within { IfSome result (λ _. 0 < length bytes.now) }
{
    bytes.get(0).copied()
}

/// The fault of a part that begins at the offset.
#[inline]
pub(crate) fn malformed(at: usize) -> CodecFault
    ensures { result ≡ CodecFault.Malformed at }
{
    CodecFault::Malformed { at: at as u64 }
}

/// The value that was read up to `end`, if no bytes are left after it.
pub(crate) fn finished<T: Drop>(value: T, end: usize, bytes: &[u8]) -> Result<T, CodecFault>
    ensures { IsOutcome result (at_end bytes.now (Ok (value, end))) }
{
    if end != bytes.len() {
        return Err(malformed(end));
    }
    Ok(value)
}
