//! The parts that spellings are made of.
ghost use Rattle.std.specs.Prelude.{◌≡◌, ◌<◌, length, slice_get, IfSome};
ghost use Rattle.std.specs.List.{list_all};
ghost use Rattle.iot_views.specs.Outcomes.{IsLent};
ghost use Rattle.iot_views.specs.Decoders.{bytes_at, number_at, at_most, from_to};
ghost use Rattle.iot_views.specs.Listed.{counted_at};
ghost use Rattle.iot_views.specs.Decoding.{name_at, contents_at, line_at};
ghost use Rattle.iot_views.specs.Rules.{is_content_byte, is_printable};

use iot_text::Name;
use iot_tree::CONTENTS_LIMIT;

/// Bytes that spell no value of the type. `at` is the offset of the first part, from the left, that is missing, cut short or breaks
/// its rule; of a path or name that breaks the order of its list, it is where that path or name begins.
#[derive(Clone, Copy, Debug, PartialEq, Eq)]
pub struct Malformed {
    pub at: u64,
}

/// The fault of a part that begins at the offset.
#[inline]
pub fn fault_at(at: usize) -> Malformed
    ensures { result.at ≡ at }
{
    Malformed { at: at as u64 }
}

/// The tag at the offset, if one is there.
#[inline]
pub fn tag_at(bytes: &[u8], at: usize) -> Option<u8>
    ensures tag { result ≡ slice_get bytes.now at }
    ensures within { IfSome result (λ _. at < length bytes.now) }
{
    bytes.get(at).copied()
}

/// The next `len` bytes, and the offset after them.
#[inline]
pub fn bytes_at(bytes: &[u8], at: usize, len: u64) -> Result<(&[u8], usize), Malformed>
    ensures { IsLent (λ part. part.now) result (bytes_at len bytes.now at) }
{
    let Some(rest) = bytes.get(at..) else {
        return Err(fault_at(at));
    };
    if (rest.len() as u64) < len {
        return Err(fault_at(at));
    }
    let len = len as usize;
    let (part, _) = rest.split_at(len);
    Ok((part, at + len))
}

/// The number at the offset, and the offset after it.
#[inline]
#[tactic(auto, unfolding(crate::specs::Decoders::number_at))]
pub fn number_at(bytes: &[u8], at: usize) -> Result<(u64, usize), Malformed>
    ensures { IsLent (λ number. number) result (number_at bytes.now at) }
{
    let (d, end) = bytes_at(bytes, at, 8)?;
    let number = u64::from_be_bytes([d[0], d[1], d[2], d[3], d[4], d[5], d[6], d[7]]);
    Ok((number, end))
}

/// A number up to the limit at the offset, and the offset after it.
#[inline]
pub fn at_most(limit: u64, bytes: &[u8], at: usize) -> Result<(u64, usize), Malformed>
    ensures { IsLent (λ number. number) result (at_most limit bytes.now at) }
{
    let (number, end) = number_at(bytes, at)?;
    if limit < number {
        return Err(fault_at(at));
    }
    Ok((number, end))
}

/// A number from the least to the greatest at the offset, and the offset after it.
#[inline]
pub fn from_to(
    least: u64,
    greatest: u64,
    bytes: &[u8],
    at: usize,
) -> Result<(u64, usize), Malformed>
    ensures { IsLent (λ number. number) result (from_to least greatest bytes.now at) }
{
    let (number, end) = number_at(bytes, at)?;
    if number < least {
        return Err(fault_at(at));
    }
    if greatest < number {
        return Err(fault_at(at));
    }
    Ok((number, end))
}

/// Bytes behind their number.
#[inline]
pub(crate) fn counted_at(bytes: &[u8], at: usize) -> Result<(&[u8], usize), Malformed>
    ensures { IsLent (λ text. text.now) result (counted_at bytes.now at) }
{
    let (len, at) = number_at(bytes, at)?;
    bytes_at(bytes, at, len)
}

/// A name.
#[tactic(auto, unfolding(crate::specs::Decoding::name_at))]
pub(crate) fn name_at(bytes: &[u8], at: usize) -> Result<(&[u8], usize), Malformed>
    ensures { IsLent (λ name. name.now) result (name_at bytes.now at) }
{
    let (len, at) = number_at(bytes, at)?;
    let (text, end) = bytes_at(bytes, at, len)?;
    match Name::parse(text) {
        Ok(_) => Ok((text, end)),
        Err(_) => Err(fault_at(at)),
    }
}

/// Whether contents may have this byte.
#[inline]
fn is_content_byte(byte: u8) -> bool
    ensures { result ≡ is_content_byte byte }
{
    (32 <= byte && byte <= 126) || byte == b'\n'
}

/// Whether contents may have each of these bytes. It looks at all of them, since a loop with no
/// way out takes many bytes at a time.
fn are_content_bytes(bytes: &[u8]) -> bool
    ensures { result ≡ list_all is_content_byte bytes.now }
{
    let mut all = true;
    'bytes: for byte in bytes {
        all &= is_content_byte(*byte);
    }
    all
}

/// The contents of a file at the offset, and the offset after them.
#[tactic(auto, unfolding(crate::specs::Decoding::contents_at))]
pub fn contents_at(bytes: &[u8], at: usize) -> Result<(&[u8], usize), Malformed>
    ensures { IsLent (λ contents. contents.now) result (contents_at bytes.now at) }
{
    let (len, at) = at_most(CONTENTS_LIMIT as u64, bytes, at)?;
    let (contents, end) = bytes_at(bytes, at, len)?;
    if !are_content_bytes(contents) {
        return Err(fault_at(at));
    }
    Ok((contents, end))
}

/// Whether a line may have each of these bytes.
fn are_printable(bytes: &[u8]) -> bool
    ensures { result ≡ list_all is_printable bytes.now }
{
    bytes.iter().all(|byte| 32 <= *byte && *byte <= 126)
}

/// The line at the offset, and the offset after it.
#[tactic(auto, unfolding(crate::specs::Decoding::line_at))]
pub fn line_at(bytes: &[u8], at: usize) -> Result<(&[u8], usize), Malformed>
    ensures { IsLent (λ line. line.now) result (line_at bytes.now at) }
{
    let (len, at) = number_at(bytes, at)?;
    let (line, end) = bytes_at(bytes, at, len)?;
    if !are_printable(line) {
        return Err(fault_at(at));
    }
    Ok((line, end))
}
