//! Acts.
ghost use Rattle.std.specs.Prelude.{◌≡◌, ◌++◌, length, OnOk, OnErr, IfOk};
ghost use Rattle.iot_text.specs.Texts.{AppendsPart};
ghost use Rattle.iot_codec.specs.Outcomes.{IsOutcome, DecodesWhatIsSpelled};
ghost use Rattle.iot_codec.specs.Places.{IsSpelledAt, IsAlone};
ghost use Rattle.iot_views.specs.Decoding.{act_at, acts_at};
ghost use Rattle.iot_views.specs.Rules.{IsAct, AreActs};
ghost use Rattle.iot_codec.specs.Spelling.{act_spelling, acts_spelling};
ghost use Rattle.iot_codec.specs.Laws.Updates.{act_laws, acts_laws};

use crate::CodecFault;
use crate::lists::{put_list, read_items};
use crate::spelled::{Spelled, read};
use crate::updates::read_optional_update_on;
use iot_text::{NoMemory, Path, Text};
use iot_tree::{ACT_LIMIT, Act, Acts, Lines, Question, Read, Reads};
use iot_views::at_most;
use std::alloc::Global;

impl Spelled for Act {
    ghost has_spelling = { IsAct };

    ghost spelling = { act_spelling };

    ghost decoding = { act_at };

    #[tactic(auto, unfolding(crate::specs::Spelling::act_spelling))]
    fn put(&self, out: &mut Text) -> Result<(), NoMemory> {
        self.reads.put(out)?;
        self.update.put(out)?;
        self.lines.put(out)
    }

    #[tactic(auto, unfolding(iot_views::specs::Decoding::act_at))]
    fn read(alloc: Global, bytes: &[u8], at: usize) -> Result<(Act, usize), CodecFault> {
        let (reads, at) = Reads::read(alloc, bytes, at)?;
        let known = last_path(reads.as_slice());
        let (update, at) = read_optional_update_on(alloc, known, bytes, at)?;
        let (lines, end) = Lines::read(alloc, bytes, at)?;
        let act = Act {
            reads,
            update,
            lines,
        };
        Ok((act, end))
    }

    ghost laws = { act_laws };
}

/// The path of the last read, which the update most often has, too.
fn last_path(reads: &[Read]) -> Option<&Path> {
    match &reads.last()?.question {
        Question::Kind(path) => Some(path),
        Question::Content(path) => Some(path),
        Question::Names(path) => Some(path),
        Question::Mode(path) => Some(path),
    }
}

impl Spelled for Acts {
    ghost has_spelling = { AreActs };

    ghost spelling = { acts_spelling };

    ghost decoding = { acts_at };

    fn put(&self, out: &mut Text) -> Result<(), NoMemory> {
        put_list(self.as_slice(), out)
    }

    #[tactic(auto, unfolding(iot_views::specs::Decoding::acts_at))]
    fn read(alloc: Global, bytes: &[u8], at: usize) -> Result<(Acts, usize), CodecFault> {
        let (count, at) = at_most(ACT_LIMIT, bytes, at)?;
        read_items(alloc, count, bytes, at)
    }

    ghost laws = { acts_laws };
}

/// Appends the spelling of the act: its reads, its update and its lines.
pub fn put_act(value: &Act, out: &mut Text) -> Result<(), NoMemory>
    requires { IsAct value.now }
    ensures ok { OnOk result (out.new ≡ out.old ++ act_spelling value.now) }
    ensures err { OnErr result (AppendsPart out.old out.new (act_spelling value.now)) }
{
    value.put(out)
}

/// Reads the act that is spelled at the offset, and gives the offset after it.
///
/// # Errors
///
/// `Malformed` exactly if no act is spelled there. `NoMemory` if there is none for it.
pub fn read_act(alloc: Global, bytes: &[u8], at: usize) -> Result<(Act, usize), CodecFault>
    ensures found { IfOk result (IsSpelledAt IsAct act_spelling bytes.now at) }
    ensures only { DecodesWhatIsSpelled IsAct act_spelling bytes.now at result }
    ensures one { IsAlone IsAct act_spelling bytes.now at }
    ensures exact { IsOutcome result (act_at bytes.now at) }
{
    read(alloc, bytes, at)
}

/// Appends the spelling of the acts: their number, and then each act's spelling.
pub fn put_acts(value: &Acts, out: &mut Text) -> Result<(), NoMemory>
    requires { AreActs value.now }
    ensures ok { OnOk result (out.new ≡ out.old ++ acts_spelling value.now) }
    ensures err { OnErr result (AppendsPart out.old out.new (acts_spelling value.now)) }
{
    value.put(out)
}

/// Reads the acts that are spelled at the offset, and gives the offset after them.
///
/// # Errors
///
/// `Malformed` exactly if no acts are spelled there. `NoMemory` if there is none for them.
pub fn read_acts(alloc: Global, bytes: &[u8], at: usize) -> Result<(Acts, usize), CodecFault>
    ensures found { IfOk result (IsSpelledAt AreActs acts_spelling bytes.now at) }
    ensures only { DecodesWhatIsSpelled AreActs acts_spelling bytes.now at result }
    ensures one { IsAlone AreActs acts_spelling bytes.now at }
    ensures exact { IsOutcome result (acts_at bytes.now at) }
{
    read(alloc, bytes, at)
}
