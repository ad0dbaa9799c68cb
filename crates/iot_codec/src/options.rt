//! What is done with transactions that conflict.
ghost use Rattle.std.specs.Prelude.{◌≡◌, ◌++◌, length, OnOk, OnErr, IfOk};
ghost use Rattle.iot_text.specs.Texts.{AppendsPart};
ghost use Rattle.iot_codec.specs.Outcomes.{IsOutcome, DecodesWhatIsSpelled};
ghost use Rattle.iot_codec.specs.Places.{IsSpelledAt, IsAlone};
ghost use Rattle.iot_views.specs.Decoding.{option_at};
ghost use Rattle.iot_views.specs.Rules.{IsOption};
ghost use Rattle.iot_codec.specs.Spelling.{option_spelling};
ghost use Rattle.iot_codec.specs.Laws.Options.{option_laws};

use crate::CodecFault;
use crate::parts::malformed;
use crate::spelled::{Spelled, read};
use iot_text::{Name, NoMemory, Text};
use iot_tree::OnConflict;
use iot_views::tag_at;
use std::alloc::Global;

impl Spelled for OnConflict {
    ghost has_spelling = { IsOption };

    ghost spelling = { option_spelling };

    ghost decoding = { option_at };

    #[tactic(auto, unfolding(crate::specs::Spelling::option_spelling))]
    fn put(&self, out: &mut Text) -> Result<(), NoMemory> {
        match self {
            OnConflict::Reexec => out.push(1),
            OnConflict::Resolver(script) => {
                out.push(2)?;
                script.put(out)
            }
            OnConflict::Abort => out.push(3),
            OnConflict::Manual => out.push(4),
        }
    }

    #[tactic(auto, unfolding(iot_views::specs::Decoding::option_at))]
    fn read(alloc: Global, bytes: &[u8], at: usize) -> Result<(OnConflict, usize), CodecFault> {
        match tag_at(bytes, at) {
            Some(1) => Ok((OnConflict::Reexec, at + 1)),
            Some(2) => {
                let (script, end) = Name::read(alloc, bytes, at + 1)?;
                Ok((OnConflict::Resolver(script), end))
            }
            Some(3) => Ok((OnConflict::Abort, at + 1)),
            Some(4) => Ok((OnConflict::Manual, at + 1)),
            _ => Err(malformed(at)),
        }
    }

    ghost laws = { option_laws };
}

/// Appends the spelling of the option: its tag, and then the name of a resolver.
pub fn put_option(value: &OnConflict, out: &mut Text) -> Result<(), NoMemory>
    ensures ok { OnOk result (out.new ≡ out.old ++ option_spelling value.now) }
    ensures err { OnErr result (AppendsPart out.old out.new (option_spelling value.now)) }
{
    value.put(out)
}

/// Reads the option that is spelled at the offset, and gives the offset after it.
///
/// # Errors
///
/// `Malformed` exactly if no option is spelled there.
pub fn read_option(
    alloc: Global,
    bytes: &[u8],
    at: usize,
) -> Result<(OnConflict, usize), CodecFault>
    ensures found { IfOk result (IsSpelledAt IsOption option_spelling bytes.now at) }
    ensures only { DecodesWhatIsSpelled IsOption option_spelling bytes.now at result }
    ensures one { IsAlone IsOption option_spelling bytes.now at }
    ensures exact { IsOutcome result (option_at bytes.now at) }
{
    read(alloc, bytes, at)
}
