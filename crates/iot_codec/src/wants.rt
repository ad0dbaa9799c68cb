//! Wants: what a client wants to know besides what it knows.
ghost use Rattle.std.specs.Prelude.{◌≡◌, ◌++◌, length, OnOk, OnErr, IfOk};
ghost use Rattle.iot_text.specs.Texts.{AppendsPart};
ghost use Rattle.iot_codec.specs.Outcomes.{IsOutcome, DecodesWhatIsSpelled};
ghost use Rattle.iot_codec.specs.Places.{IsSpelledAt, IsAlone};
ghost use Rattle.iot_views.specs.Decoding.{want_at};
ghost use Rattle.iot_views.specs.Rules.{IsWant};
ghost use Rattle.iot_codec.specs.Spelling.{want_spelling};
ghost use Rattle.iot_codec.specs.Laws.Wants.{want_laws};

use crate::CodecFault;
use crate::parts::malformed;
use crate::spelled::{Spelled, read};
use iot_text::{NoMemory, Path, Text};
use iot_tree::Want;
use iot_views::tag_at;
use std::alloc::Global;

impl Spelled for Want {
    ghost has_spelling = { IsWant };

    ghost spelling = { want_spelling };

    ghost decoding = { want_at };

    #[tactic(auto, unfolding(crate::specs::Spelling::want_spelling))]
    fn put(&self, out: &mut Text) -> Result<(), NoMemory> {
        match self {
            Want::Nothing => out.push(1),
            Want::Path(path) => {
                out.push(2)?;
                path.put(out)
            }
            Want::Below(path) => {
                out.push(3)?;
                path.put(out)
            }
        }
    }

    #[tactic(auto, unfolding(iot_views::specs::Decoding::want_at))]
    fn read(alloc: Global, bytes: &[u8], at: usize) -> Result<(Want, usize), CodecFault> {
        match tag_at(bytes, at) {
            Some(1) => Ok((Want::Nothing, at + 1)),
            Some(2) => {
                let (path, end) = Path::read(alloc, bytes, at + 1)?;
                Ok((Want::Path(path), end))
            }
            Some(3) => {
                let (path, end) = Path::read(alloc, bytes, at + 1)?;
                Ok((Want::Below(path), end))
            }
            _ => Err(malformed(at)),
        }
    }

    ghost laws = { want_laws };
}

/// Appends the spelling of the want: its tag, and then the path.
pub fn put_want(value: &Want, out: &mut Text) -> Result<(), NoMemory>
    ensures ok { OnOk result (out.new ≡ out.old ++ want_spelling value.now) }
    ensures err { OnErr result (AppendsPart out.old out.new (want_spelling value.now)) }
{
    value.put(out)
}

/// Reads the want that is spelled at the offset, and gives the offset after it.
///
/// # Errors
///
/// `Malformed` exactly if no want is spelled there. `NoMemory` if there is none for it.
pub fn read_want(alloc: Global, bytes: &[u8], at: usize) -> Result<(Want, usize), CodecFault>
    ensures found { IfOk result (IsSpelledAt IsWant want_spelling bytes.now at) }
    ensures only { DecodesWhatIsSpelled IsWant want_spelling bytes.now at result }
    ensures one { IsAlone IsWant want_spelling bytes.now at }
    ensures exact { IsOutcome result (want_at bytes.now at) }
{
    read(alloc, bytes, at)
}
