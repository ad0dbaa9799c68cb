//! What is counted in a transcript.
ghost use Rattle.std.specs.Prelude.{◌≡◌, ◌+◌, [], true, IfOk, OnOk};
ghost use Rattle.iot_app.specs.Counting.{plus, Carries, EndsLine};
ghost use Rattle.iot_app.specs.Summary.{count_lines, tally_of};

use iot_lines::split_lines;
use iot_text::{NoMemory, Text};

/// How many lines of a transcript say that there was a commit, that there was a conflict, and that a transaction waits.
#[derive(Clone, Copy)]
pub(crate) struct Tally {
    pub(crate) commits: u64,
    pub(crate) conflicts: u64,
    pub(crate) pending: u64,
}

/// How many lines of a text begin so.
fn count_lines(front: &[u8], text: &[u8]) -> u64
    ensures { result ≡ count_lines front.now text.now }
{
    let mut count = 0;
    'lines: for line in split_lines(text) {
        if line.starts_with(front) {
            count += 1;
        }
    }
    count
}

/// Whether a text ends with a newline.
fn ends_line(text: &[u8]) -> bool
    ensures { result ≡ true → EndsLine text.now }
{
    text.last() == Some(&b'\n')
}

/// The sum. One that is too great for a count is refused as want of memory: no memory holds as many lines.
fn total(count: u64, more: u64) -> Result<u64, NoMemory>
    ensures { IfOk result (λ total. total ≡ count + more) }
{
    count.checked_add(more).ok_or(NoMemory)
}

impl Tally {
    /// Those of an empty transcript.
    pub(crate) fn new() -> Tally
        ensures { result ≡ tally_of [] }
    {
        Tally {
            commits: 0,
            conflicts: 0,
            pending: 0,
        }
    }

    /// With the lines of one more text.
    pub(crate) fn with_text(&self, text: &[u8]) -> Result<Tally, NoMemory>
        ensures { IfOk result (λ counts. counts ≡ plus self.now (tally_of text.now)) }
    {
        Ok(Tally {
            commits: total(self.commits, count_lines(b"commit ", text))?,
            conflicts: total(self.conflicts, count_lines(b"conflict ", text))?,
            pending: total(self.pending, count_lines(b"pending ", text))?,
        })
    }

    /// Tally what was said, and forgets it. What does not end a line is kept for later; no event says such a text.
    pub(crate) fn take_lines(&mut self, text: &mut Text) -> Result<(), NoMemory>
        ensures { OnOk result (Carries self.old text.old self.new text.new) }
    {
        if ends_line(text.as_bytes()) {
            *self = self.with_text(text.as_bytes())?;
            text.clear();
        }
        Ok(())
    }
}
