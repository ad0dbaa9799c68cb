//! The parts that spellings are made of.
ghost use Rattle.std.specs.Prelude.{◌≡◌, ◌++◌, OnOk, OnErr};
ghost use Rattle.iot_text.specs.Texts.{AppendsPart};
ghost use Rattle.iot_codec.specs.Spelling.{counted};

use crate::CodecFault;
use crate::spelled::Spelled;
use iot_text::{NoMemory, Text};

/// The fault of a part that begins at the offset.
#[inline]
pub(crate) fn malformed(at: usize) -> CodecFault
    ensures { result ≡ CodecFault.Malformed at }
{
    CodecFault::Malformed { at: at as u64 }
}

/// How many elements are given room before they are read: as many as are said to come, and no more
/// than the bytes that are left can spell, with eight or more to each.
#[inline]
pub(crate) fn room_for(count: u64, bytes: &[u8], at: usize) -> usize {
    let left = bytes.len().saturating_sub(at);
    count.min((left / 8) as u64) as usize
}

/// Appends the number of the bytes, and then the bytes.
pub(crate) fn put_counted(bytes: &[u8], out: &mut Text) -> Result<(), NoMemory>
    ensures ok { OnOk result (out.new ≡ out.old ++ counted bytes.now) }
    ensures err { OnErr result (AppendsPart out.old out.new (counted bytes.now)) }
{
    (bytes.len() as u64).put(out)?;
    out.append(bytes)
}
