//! Acts.
ghost use Rattle.iot_views.specs.Outcomes.{IsLent};
ghost use Rattle.iot_views.specs.Decoding.{lines_at};

use crate::lists::{Lent, Views, lend_items};
use crate::parts::{Malformed, counted_at, line_at, number_at};
use crate::questions::{ReadView, ReadViews};
use crate::updates::{UpdateView, optional_update_at};
use iot_text::Text;
use iot_tree::Read;
use std::marker::Model;

/// Lines of text.
pub type LineViews<'a> = Views<&'a [u8], Text>;

impl<'a> Lent<Text> for &'a [u8] {
    ghost use Rattle.iot_views.specs.Decoding.{line_at};
    ghost use Rattle.iot_views.specs.Listed.{counted_at};
    ghost use Rattle.iot_views.specs.Laws.{each, line_looser};

    type Source = &'a [u8];

    ghost source = { λ bytes. bytes.now };

    ghost seen = { λ line. line.now };

    ghost item = { λ _. line_at };

    ghost again = { counted_at };

    ghost looser = { each line_at counted_at line_looser };

    fn lend(
        _previous: &Option<&'a [u8]>,
        bytes: &'a [u8],
        at: usize,
    ) -> Result<(&'a [u8], usize), Malformed> {
        line_at(bytes, at)
    }

    fn lend_again(bytes: &'a [u8], at: usize) -> Result<(&'a [u8], usize), Malformed> {
        counted_at(bytes, at)
    }
}

/// The lines that are spelled at the offset, and the offset after them.
///
/// # Errors
///
/// `Malformed` exactly if no lines are spelled there.
#[tactic(auto, unfolding(crate::specs::Decoding::lines_at))]
pub fn lines_at(bytes: &[u8], at: usize) -> Result<(LineViews<'_>, usize), Malformed>
    ensures { IsLent (λ lines. lines) result (lines_at bytes.now at) }
{
    let (count, at) = number_at(bytes, at)?;
    lend_items(count, bytes, at)
}

/// An act. Contracts see it as one.
#[derive(Drop)]
pub struct ActView<'a> {
    reads: ReadViews<'a>,
    update: Option<UpdateView<'a>>,
    lines: LineViews<'a>,
}

impl<'a> Model for ActView<'a> {
    ghost use Rattle.iot_tree.specs.declared.acts.Act.{Act};

    ghost Value = { Act };

    ghost use Rattle.std.specs.Prelude.{option_map};
    ghost use Rattle.iot_views.specs.Seen.{update_seen};

    ghost view = { λ act. record { reads = act.reads; update = option_map update_seen act.update; lines = act.lines } };
}

impl<'a> ActView<'a> {
    ghost use Rattle.std.specs.Prelude.{◌≡◌, option_map};
    ghost use Rattle.iot_views.specs.Outcomes.{IsLent};
    ghost use Rattle.iot_views.specs.Decoding.{act_at};
    ghost use Rattle.iot_views.specs.Seen.{update_seen};

    /// The act that is spelled at the offset, and the offset after it.
    ///
    /// # Errors
    ///
    /// `Malformed` exactly if no act is spelled there.
    #[tactic(auto, unfolding(crate::specs::Decoding::act_at, crate::specs::Decoding::reads_at))]
    pub fn at(bytes: &'a [u8], at: usize) -> Result<(ActView<'a>, usize), Malformed>
        ensures { IsLent (λ act. act) result (act_at bytes.now at) }
    {
        let (count, at) = number_at(bytes, at)?;
        let (reads, at) = lend_items::<ReadView<'a>, Read>(count, bytes, at)?;
        let (update, at) = optional_update_at(bytes, at)?;
        let (lines, end) = lines_at(bytes, at)?;
        let act = ActView {
            reads,
            update,
            lines,
        };
        Ok((act, end))
    }

    /// The reads.
    pub fn reads(&self) -> ReadViews<'a>
        ensures { result ≡ self.now.reads }
    {
        self.reads.again()
    }

    /// The update, if there is one.
    pub fn update(&self) -> Option<UpdateView<'a>>
        ensures { option_map update_seen result ≡ self.now.update }
    {
        match &self.update {
            Some(update) => Some(update.again()),
            None => None,
        }
    }

    /// The lines.
    pub fn lines(&self) -> LineViews<'a>
        ensures { result ≡ self.now.lines }
    {
        self.lines.again()
    }
}
