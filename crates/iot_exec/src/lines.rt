//! The lines that commands print.
ghost use Rattle.std.specs.Prelude.{◌≡◌, ◌++◌, IfOk, codes, map};
ghost use Rattle.iot_lines.specs.Lines.{lines};
ghost use Rattle.iot_exec.specs.Commands.{name_line};

use iot_lines::split_line;
use iot_text::{Name, NoMemory, Text};
use iot_tree::{Kind, Lines};
use std::alloc::Global;

/// A text of these bytes.
pub(crate) fn text_of(alloc: Global, bytes: &[u8]) -> Result<Text, NoMemory>
    ensures { IfOk result (λ text. text ≡ bytes.now) }
{
    Ok(Text::from(Vec::from_slice(alloc, bytes)?))
}

/// The pieces between newlines.
pub(crate) fn lines_of(alloc: Global, bytes: &[u8]) -> Result<Lines, NoMemory>
    ensures { IfOk result (λ all. all ≡ lines bytes.now) }
{
    let mut all = Lines::new(alloc);
    let mut rest = bytes;
    'lines: while let Some((line, later)) = split_line(rest) {
        all.push(text_of(alloc, line)?)?;
        rest = later;
    }
    Ok(all)
}

/// A name as it is listed: followed by `/` if it is a directory's.
fn name_line(alloc: Global, name: &Name, kind: Kind) -> Result<Text, NoMemory>
    ensures { IfOk result (λ line. line ≡ name_line (name.now, kind)) }
{
    let mut line = text_of(alloc, name.as_bytes())?;
    if kind == Kind::IsDir {
        line.push(b'/')?;
    }
    Ok(line)
}

/// A line for each name.
pub(crate) fn name_lines(alloc: Global, names: &[(Name, Kind)]) -> Result<Lines, NoMemory>
    ensures { IfOk result (λ lines. lines ≡ map name_line names.now) }
{
    let mut lines = Vec::with_capacity(alloc, names.len())?;
    'names: for (name, kind) in names {
        lines.push(name_line(alloc, name, *kind)?)?;
    }
    Ok(Lines::from_vec(lines))
}
