//! Questions to a tree.
ghost use Rattle.std.specs.Prelude.{◌≡◌, ◌++◌, length, OnOk, OnErr, IfOk};
ghost use Rattle.iot_text.specs.Texts.{AppendsPart};
ghost use Rattle.iot_codec.specs.Outcomes.{IsOutcome, DecodesWhatIsSpelled};
ghost use Rattle.iot_codec.specs.Places.{IsSpelledAt, IsAlone};
ghost use Rattle.iot_views.specs.Decoding.{question_at};
ghost use Rattle.iot_views.specs.Rules.{IsQuestion};
ghost use Rattle.iot_codec.specs.Spelling.{question_spelling};
ghost use Rattle.iot_codec.specs.Laws.Questions.{question_laws};

use crate::CodecFault;
use crate::parts::malformed;
use crate::spelled::{Spelled, read};
use iot_text::{NoMemory, Path, Text};
use iot_tree::Question;
use iot_views::tag_at;
use std::alloc::Global;

impl Spelled for Question {
    ghost has_spelling = { IsQuestion };

    ghost spelling = { question_spelling };

    ghost decoding = { question_at };

    #[tactic(auto, unfolding(crate::specs::Spelling::question_spelling))]
    fn put(&self, out: &mut Text) -> Result<(), NoMemory> {
        let (tag, path) = match self {
            Question::Kind(path) => (1, path),
            Question::Content(path) => (2, path),
            Question::Names(path) => (3, path),
            Question::Mode(path) => (4, path),
        };
        out.push(tag)?;
        path.put(out)
    }

    #[tactic(auto, unfolding(iot_views::specs::Decoding::question_at))]
    fn read(alloc: Global, bytes: &[u8], at: usize) -> Result<(Question, usize), CodecFault> {
        match tag_at(bytes, at) {
            Some(1) => {
                let (path, end) = Path::read(alloc, bytes, at + 1)?;
                Ok((Question::Kind(path), end))
            }
            Some(2) => {
                let (path, end) = Path::read(alloc, bytes, at + 1)?;
                Ok((Question::Content(path), end))
            }
            Some(3) => {
                let (path, end) = Path::read(alloc, bytes, at + 1)?;
                Ok((Question::Names(path), end))
            }
            Some(4) => {
                let (path, end) = Path::read(alloc, bytes, at + 1)?;
                Ok((Question::Mode(path), end))
            }
            _ => Err(malformed(at)),
        }
    }

    ghost laws = { question_laws };
}

/// Appends the spelling of the question: its tag, and then its path.
pub fn put_question(value: &Question, out: &mut Text) -> Result<(), NoMemory>
    ensures ok { OnOk result (out.new ≡ out.old ++ question_spelling value.now) }
    ensures err { OnErr result (AppendsPart out.old out.new (question_spelling value.now)) }
{
    value.put(out)
}

/// Reads the question that is spelled at the offset, and gives the offset after it.
///
/// # Errors
///
/// `Malformed` exactly if no question is spelled there. `NoMemory` if there is none for it.
pub fn read_question(
    alloc: Global,
    bytes: &[u8],
    at: usize,
) -> Result<(Question, usize), CodecFault>
    ensures found { IfOk result (IsSpelledAt IsQuestion question_spelling bytes.now at) }
    ensures only { DecodesWhatIsSpelled IsQuestion question_spelling bytes.now at result }
    ensures one { IsAlone IsQuestion question_spelling bytes.now at }
    ensures exact { IsOutcome result (question_at bytes.now at) }
{
    read(alloc, bytes, at)
}
