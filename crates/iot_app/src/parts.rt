//! The parts of an audit's input.
ghost use Rattle.std.specs.Prelude.{IfOk, IfErr};
ghost use Rattle.iot_app.specs.Parts.{HasParts, IsNoParts};

use crate::image::IMAGE_LIMIT;
use crate::input::INPUT_LIMIT;

/// The parts of an audit's input.
#[derive(Clone, Copy)]
pub(crate) struct Parts<'a> {
    /// The event script.
    pub(crate) script: &'a [u8],

    /// The image of a server's disk.
    pub(crate) image: &'a [u8],
}

/// Why an input has no such parts.
#[derive(Clone, Copy, Debug, PartialEq, Eq)]
pub(crate) enum PartsFault {
    /// A part is over its limit.
    TooLong,

    /// The input ends in the number or in the script.
    Short,
}

/// The parts of this input: the script, as many bytes as the number says that the first 8 spell, and the image, which is the rest.
pub(crate) fn parts_of(input: &[u8]) -> Result<Parts<'_>, PartsFault>
    ensures parts { IfOk result (λ parts. HasParts input.now parts.script.now parts.image.now) }
    ensures none { IfErr result (IsNoParts input.now) }
{
    let Some((digits, rest)) = input.split_first_chunk::<8>() else {
        return Err(PartsFault::Short);
    };
    let size = u64::from_be_bytes(*digits);
    if size > INPUT_LIMIT as u64 {
        return Err(PartsFault::TooLong);
    }
    let size = size as usize;
    if rest.len() < size {
        return Err(PartsFault::Short);
    }
    let (script, image) = rest.split_at(size);
    if image.len() > IMAGE_LIMIT {
        return Err(PartsFault::TooLong);
    }
    Ok(Parts { script, image })
}
