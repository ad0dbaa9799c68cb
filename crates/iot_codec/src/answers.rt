//! Answers of a tree.
ghost use Rattle.std.specs.Prelude.{◌≡◌, ◌++◌, length, OnOk, OnErr, IfOk};
ghost use Rattle.iot_text.specs.Texts.{AppendsPart};
ghost use Rattle.iot_codec.specs.Outcomes.{IsOutcome, DecodesWhatIsSpelled};
ghost use Rattle.iot_codec.specs.Places.{IsSpelledAt, IsAlone};
ghost use Rattle.iot_views.specs.Decoding.{answer_at};
ghost use Rattle.iot_views.specs.Rules.{IsAnswer};
ghost use Rattle.iot_codec.specs.Spelling.{answer_spelling};
ghost use Rattle.iot_codec.specs.Laws.Questions.{answer_laws};

use crate::CodecFault;
use crate::parts::malformed;
use crate::spelled::{Spelled, read};
use iot_text::{NoMemory, Text};
use iot_tree::{Answer, Blob, Children};
use iot_views::tag_at;
use std::alloc::Global;

impl Spelled for Answer {
    ghost has_spelling = { IsAnswer };

    ghost spelling = { answer_spelling };

    ghost decoding = { answer_at };

    #[tactic(auto, unfolding(crate::specs::Spelling::answer_spelling))]
    fn put(&self, out: &mut Text) -> Result<(), NoMemory> {
        match self {
            Answer::Away => out.push(1),
            Answer::Absent => out.push(2),
            Answer::IsDir => out.push(3),
            Answer::IsFile => out.push(4),
            Answer::Bytes(contents) => {
                out.push(5)?;
                contents.put(out)
            }
            Answer::Names(children) => {
                out.push(6)?;
                children.put(out)
            }
            Answer::On => out.push(7),
            Answer::Off => out.push(8),
        }
    }

    #[tactic(auto, unfolding(iot_views::specs::Decoding::answer_at))]
    fn read(alloc: Global, bytes: &[u8], at: usize) -> Result<(Answer, usize), CodecFault> {
        match tag_at(bytes, at) {
            Some(1) => Ok((Answer::Away, at + 1)),
            Some(2) => Ok((Answer::Absent, at + 1)),
            Some(3) => Ok((Answer::IsDir, at + 1)),
            Some(4) => Ok((Answer::IsFile, at + 1)),
            Some(5) => {
                let (contents, end) = Blob::read(alloc, bytes, at + 1)?;
                Ok((Answer::Bytes(contents), end))
            }
            Some(6) => {
                let (children, end) = Children::read(alloc, bytes, at + 1)?;
                Ok((Answer::Names(children), end))
            }
            Some(7) => Ok((Answer::On, at + 1)),
            Some(8) => Ok((Answer::Off, at + 1)),
            _ => Err(malformed(at)),
        }
    }

    ghost laws = { answer_laws };
}

/// Appends the spelling of the answer: its tag, and then what it holds.
pub fn put_answer(value: &Answer, out: &mut Text) -> Result<(), NoMemory>
    requires { IsAnswer value.now }
    ensures ok { OnOk result (out.new ≡ out.old ++ answer_spelling value.now) }
    ensures err { OnErr result (AppendsPart out.old out.new (answer_spelling value.now)) }
{
    value.put(out)
}

/// Reads the answer that is spelled at the offset, and gives the offset after it.
///
/// # Errors
///
/// `Malformed` exactly if no answer is spelled there. `NoMemory` if there is none for it.
pub fn read_answer(alloc: Global, bytes: &[u8], at: usize) -> Result<(Answer, usize), CodecFault>
    ensures found { IfOk result (IsSpelledAt IsAnswer answer_spelling bytes.now at) }
    ensures only { DecodesWhatIsSpelled IsAnswer answer_spelling bytes.now at result }
    ensures one { IsAlone IsAnswer answer_spelling bytes.now at }
    ensures exact { IsOutcome result (answer_at bytes.now at) }
{
    read(alloc, bytes, at)
}
