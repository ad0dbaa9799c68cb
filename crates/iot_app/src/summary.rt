//! The four lines that sum up a run.
ghost use Rattle.std.specs.Prelude.{◌≡◌, ◌++◌, IfOk, OnOk};
ghost use Rattle.iot_app.specs.Summary.{counted_line, summary_text};

use crate::tally::Tally;
use iot_text::{NoMemory, Text};
use std::alloc::Global;

/// Appends a line with a word and a number.
fn put_count(what: &[u8], count: u64, out: &mut Text) -> Result<(), NoMemory>
    ensures { OnOk result (out.new ≡ out.old ++ counted_line what.now count) }
{
    out.append(what)?;
    out.push(b' ')?;
    out.append_number(count)?;
    out.push(b'\n')
}

/// What was counted in a transcript, and how many rows the server's tree has.
pub(crate) fn sum_up(alloc: Global, counts: &Tally, rows: u64) -> Result<Text, NoMemory>
    ensures { IfOk result (λ text. text ≡ summary_text counts.now rows) }
{
    let mut out = Text::new(alloc);
    put_count(b"commits", counts.commits, &mut out)?;
    put_count(b"conflicts", counts.conflicts, &mut out)?;
    put_count(b"pending", counts.pending, &mut out)?;
    put_count(b"rows", rows, &mut out)?;
    Ok(out)
}
