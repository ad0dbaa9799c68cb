//! Reads: questions with their answers.
ghost use Rattle.std.specs.Prelude.{◌≡◌, ◌++◌, length, OnOk, OnErr, IfOk};
ghost use Rattle.iot_text.specs.Texts.{AppendsPart};
ghost use Rattle.iot_codec.specs.Outcomes.{IsOutcome, DecodesWhatIsSpelled};
ghost use Rattle.iot_codec.specs.Places.{IsSpelledAt, IsAlone};
ghost use Rattle.iot_views.specs.Decoding.{read_at, reads_at};
ghost use Rattle.iot_views.specs.Rules.{AreReads, IsRead};
ghost use Rattle.iot_codec.specs.Spelling.{read_spelling, reads_spelling};
ghost use Rattle.iot_codec.specs.Laws.Questions.{read_laws, reads_laws};

use crate::CodecFault;
use crate::lists::{put_list, read_list};
use crate::spelled::{Spelled, read};
use iot_text::{NoMemory, Text};
use iot_tree::{Answer, Question, Read, Reads};
use std::alloc::Global;

impl Spelled for Read {
    ghost has_spelling = { IsRead };

    ghost spelling = { read_spelling };

    ghost decoding = { read_at };

    #[tactic(auto, unfolding(crate::specs::Spelling::read_spelling))]
    fn put(&self, out: &mut Text) -> Result<(), NoMemory> {
        self.question.put(out)?;
        self.answer.put(out)
    }

    #[tactic(auto, unfolding(iot_views::specs::Decoding::read_at))]
    fn read(alloc: Global, bytes: &[u8], at: usize) -> Result<(Read, usize), CodecFault> {
        let (question, at) = Question::read(alloc, bytes, at)?;
        let (answer, end) = Answer::read(alloc, bytes, at)?;
        Ok((Read { question, answer }, end))
    }

    ghost laws = { read_laws };
}

impl Spelled for Reads {
    ghost has_spelling = { AreReads };

    ghost spelling = { reads_spelling };

    ghost decoding = { reads_at };

    fn put(&self, out: &mut Text) -> Result<(), NoMemory> {
        put_list(self.as_slice(), out)
    }

    #[tactic(auto, unfolding(iot_views::specs::Decoding::reads_at))]
    fn read(alloc: Global, bytes: &[u8], at: usize) -> Result<(Reads, usize), CodecFault> {
        read_list(alloc, bytes, at)
    }

    ghost laws = { reads_laws };
}

/// Appends the spelling of the reads: their number, and then of each its question and its answer.
pub fn put_reads(value: &Reads, out: &mut Text) -> Result<(), NoMemory>
    requires { AreReads value.now }
    ensures ok { OnOk result (out.new ≡ out.old ++ reads_spelling value.now) }
    ensures err { OnErr result (AppendsPart out.old out.new (reads_spelling value.now)) }
{
    value.put(out)
}

/// Reads the reads that are spelled at the offset, and gives the offset after them.
///
/// # Errors
///
/// `Malformed` exactly if no reads are spelled there. `NoMemory` if there is none for them.
pub fn read_reads(alloc: Global, bytes: &[u8], at: usize) -> Result<(Reads, usize), CodecFault>
    ensures found { IfOk result (IsSpelledAt AreReads reads_spelling bytes.now at) }
    ensures only { DecodesWhatIsSpelled AreReads reads_spelling bytes.now at result }
    ensures one { IsAlone AreReads reads_spelling bytes.now at }
    ensures exact { IsOutcome result (reads_at bytes.now at) }
{
    read(alloc, bytes, at)
}
