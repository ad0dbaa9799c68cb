//! Numbers.
ghost use Rattle.std.specs.Prelude.{◌≡◌, ◌++◌, length, OnOk, OnErr, IfOk};
ghost use Rattle.iot_text.specs.Texts.{AppendsPart};
ghost use Rattle.iot_codec.specs.Outcomes.{IsOutcome, DecodesWhatIsSpelled};
ghost use Rattle.iot_codec.specs.Places.{IsSpelledAt, IsAlone};
ghost use Rattle.iot_views.specs.Decoders.{number_at};
ghost use Rattle.iot_views.specs.Rules.{IsNumber};
ghost use Rattle.iot_codec.specs.Spelling.{number_spelling};
ghost use Rattle.iot_codec.specs.Laws.Parts.{number_laws};

use crate::CodecFault;
use crate::spelled::{Spelled, read};
use iot_text::{NoMemory, Text};
use iot_views::number_at;
use std::alloc::Global;

impl Spelled for u64 {
    ghost has_spelling = { IsNumber };

    ghost spelling = { number_spelling };

    ghost decoding = { number_at };

    #[tactic(auto, unfolding(crate::specs::Spelling::number_spelling))]
    fn put(&self, out: &mut Text) -> Result<(), NoMemory> {
        out.append(&self.to_be_bytes())
    }

    fn read(_alloc: Global, bytes: &[u8], at: usize) -> Result<(u64, usize), CodecFault> {
        Ok(number_at(bytes, at)?)
    }

    ghost laws = { number_laws };
}

/// Appends the number: 8 bytes, most significant first.
pub fn put_number(value: &u64, out: &mut Text) -> Result<(), NoMemory>
    ensures ok { OnOk result (out.new ≡ out.old ++ number_spelling value.now) }
    ensures err { OnErr result (AppendsPart out.old out.new (number_spelling value.now)) }
{
    value.put(out)
}

/// Reads the number that is spelled at the offset, and gives the offset after it.
///
/// # Errors
///
/// `Malformed` exactly if no number is spelled there.
pub fn read_number(alloc: Global, bytes: &[u8], at: usize) -> Result<(u64, usize), CodecFault>
    ensures found { IfOk result (IsSpelledAt IsNumber number_spelling bytes.now at) }
    ensures only { DecodesWhatIsSpelled IsNumber number_spelling bytes.now at result }
    ensures one { IsAlone IsNumber number_spelling bytes.now at }
    ensures exact { IsOutcome result (number_at bytes.now at) }
{
    read(alloc, bytes, at)
}
