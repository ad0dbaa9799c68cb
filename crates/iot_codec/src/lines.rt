//! Lines.
ghost use Rattle.std.specs.Prelude.{◌≡◌, ◌++◌, length, OnOk, OnErr, IfOk};
ghost use Rattle.iot_text.specs.Texts.{AppendsPart};
ghost use Rattle.iot_codec.specs.Outcomes.{IsOutcome, DecodesWhatIsSpelled};
ghost use Rattle.iot_codec.specs.Places.{IsSpelledAt, IsAlone};
ghost use Rattle.iot_views.specs.Decoding.{line_at, lines_at};
ghost use Rattle.iot_views.specs.Rules.{IsLine, AreLines};
ghost use Rattle.iot_codec.specs.Spelling.{line_spelling, lines_spelling};
ghost use Rattle.iot_codec.specs.Laws.Values.{line_laws, lines_laws};

use crate::CodecFault;
use crate::lists::{put_list, read_list};
use crate::parts::put_counted;
use crate::spelled::{Spelled, read};
use iot_text::{NoMemory, Text};
use iot_tree::Lines;
use iot_views::line_at;
use std::alloc::Global;

impl Spelled for Text {
    ghost has_spelling = { IsLine };

    ghost spelling = { line_spelling };

    ghost decoding = { line_at };

    fn put(&self, out: &mut Text) -> Result<(), NoMemory> {
        put_counted(self.as_bytes(), out)
    }

    fn read(alloc: Global, bytes: &[u8], at: usize) -> Result<(Text, usize), CodecFault> {
        let (line, end) = line_at(bytes, at)?;
        Ok((Text::from(Vec::from_slice(alloc, line)?), end))
    }

    ghost laws = { line_laws };
}

impl Spelled for Lines {
    ghost has_spelling = { AreLines };

    ghost spelling = { lines_spelling };

    ghost decoding = { lines_at };

    fn put(&self, out: &mut Text) -> Result<(), NoMemory> {
        put_list(self.as_slice(), out)
    }

    #[tactic(auto, unfolding(iot_views::specs::Decoding::lines_at))]
    fn read(alloc: Global, bytes: &[u8], at: usize) -> Result<(Lines, usize), CodecFault> {
        read_list(alloc, bytes, at)
    }

    ghost laws = { lines_laws };
}

/// Appends the spelling of the line: the number of its bytes, and then the bytes.
pub fn put_line(value: &Text, out: &mut Text) -> Result<(), NoMemory>
    requires { IsLine value.now }
    ensures ok { OnOk result (out.new ≡ out.old ++ line_spelling value.now) }
    ensures err { OnErr result (AppendsPart out.old out.new (line_spelling value.now)) }
{
    value.put(out)
}

/// Reads the line that is spelled at the offset, and gives the offset after it.
///
/// # Errors
///
/// `Malformed` exactly if no line is spelled there. `NoMemory` if there is none for it.
pub fn read_line(alloc: Global, bytes: &[u8], at: usize) -> Result<(Text, usize), CodecFault>
    ensures found { IfOk result (IsSpelledAt IsLine line_spelling bytes.now at) }
    ensures only { DecodesWhatIsSpelled IsLine line_spelling bytes.now at result }
    ensures one { IsAlone IsLine line_spelling bytes.now at }
    ensures exact { IsOutcome result (line_at bytes.now at) }
{
    read(alloc, bytes, at)
}

/// Appends the spelling of the lines: their number, and then each line's spelling.
pub fn put_lines(value: &Lines, out: &mut Text) -> Result<(), NoMemory>
    requires { AreLines value.now }
    ensures ok { OnOk result (out.new ≡ out.old ++ lines_spelling value.now) }
    ensures err { OnErr result (AppendsPart out.old out.new (lines_spelling value.now)) }
{
    value.put(out)
}

/// Reads the lines that are spelled at the offset, and gives the offset after them.
///
/// # Errors
///
/// `Malformed` exactly if no lines are spelled there. `NoMemory` if there is none for them.
pub fn read_lines(alloc: Global, bytes: &[u8], at: usize) -> Result<(Lines, usize), CodecFault>
    ensures found { IfOk result (IsSpelledAt AreLines lines_spelling bytes.now at) }
    ensures only { DecodesWhatIsSpelled AreLines lines_spelling bytes.now at result }
    ensures one { IsAlone AreLines lines_spelling bytes.now at }
    ensures exact { IsOutcome result (lines_at bytes.now at) }
{
    read(alloc, bytes, at)
}
