//! Values that are spelled as bytes.
ghost use Rattle.std.specs.Prelude.{ℕ, List, ◌≡◌, ◌++◌, length, OnOk, OnErr, IfOk, Result};
ghost use Rattle.iot_text.specs.Texts.{AppendsPart};
ghost use Rattle.iot_codec.specs.Outcomes.{IsOutcome, DecodesWhatIsSpelled};
ghost use Rattle.iot_codec.specs.Places.{IsSpelledAt, IsAlone, IsSpelling};
ghost use Rattle.iot_views.specs.Decoders.{Decoder};

use crate::CodecFault;
use iot_text::{NoMemory, Text};
use std::alloc::Global;

/// Values of one type, each with its one spelling. A crate above spells types of its own by it, and lists of them.
pub trait Spelled: Drop {
    ghost has_spelling: { Self → Type 0 };

    ghost spelling: { Self → List ℕ };

    ghost decoding: { Decoder Self };

    /// Appends the spelling.
    fn put(&self, out: &mut Text) -> Result<(), NoMemory>
        ensures ok { OnOk result (out.new ≡ out.old ++ spelling self.now) }
        ensures err { OnErr result (AppendsPart out.old out.new (spelling self.now)) };

    /// The value that is spelled at the offset, and the offset after its spelling.
    fn read(alloc: Global, bytes: &[u8], at: usize) -> Result<(Self, usize), CodecFault>
        ensures { IsOutcome result (decoding bytes.now at) };

    ghost laws: { IsSpelling has_spelling spelling decoding };
}

/// Reads a value of any type that is spelled at the offset, and gives the offset after it.
///
/// # Errors
///
/// `Malformed` exactly if no such value is spelled there. `NoMemory` if there is none for it.
pub fn read<T: Spelled>(alloc: Global, bytes: &[u8], at: usize) -> Result<(T, usize), CodecFault>
    ensures found { IfOk result (IsSpelledAt T.has_spelling T.spelling bytes.now at) }
    ensures only { DecodesWhatIsSpelled T.has_spelling T.spelling bytes.now at result }
    ensures one { IsAlone T.has_spelling T.spelling bytes.now at }
    ensures exact { IsOutcome result (T.decoding bytes.now at) }
{
    T::read(alloc, bytes, at)
}
