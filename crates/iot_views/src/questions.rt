//! Questions, answers and reads.
ghost use Rattle.std.specs.Prelude.{◌≡◌};
ghost use Rattle.iot_views.specs.Outcomes.{IsLent};
ghost use Rattle.iot_views.specs.Decoding.{question_at, answer_at, read_at};
ghost use Rattle.iot_views.specs.Loose.{question_again, answer_again, read_again};
ghost use Rattle.iot_views.specs.Laws.{each, read_looser};
ghost use Rattle.iot_views.specs.Seen.{question_seen, answer_seen, read_seen};

use crate::children::{ChildViews, children_again, children_at};
use crate::lists::{Lent, Views};
use crate::names::{PathView, path_again, path_at};
use crate::parts::{Malformed, contents_at, counted_at, fault_at, tag_at};
use iot_tree::Read;

/// A question to a tree.
#[derive(Drop)]
pub enum QuestionView<'a> {
    Kind(PathView<'a>),
    Content(PathView<'a>),
    Names(PathView<'a>),
    Mode(PathView<'a>),
}

/// A question.
#[tactic(auto, unfolding(crate::specs::Decoding::question_at))]
fn question_at(bytes: &[u8], at: usize) -> Result<(QuestionView<'_>, usize), Malformed>
    ensures { IsLent question_seen result (question_at bytes.now at) }
{
    match tag_at(bytes, at) {
        Some(1) => {
            let (path, end) = path_at(bytes, at + 1)?;
            Ok((QuestionView::Kind(path), end))
        }
        Some(2) => {
            let (path, end) = path_at(bytes, at + 1)?;
            Ok((QuestionView::Content(path), end))
        }
        Some(3) => {
            let (path, end) = path_at(bytes, at + 1)?;
            Ok((QuestionView::Names(path), end))
        }
        Some(4) => {
            let (path, end) = path_at(bytes, at + 1)?;
            Ok((QuestionView::Mode(path), end))
        }
        _ => Err(fault_at(at)),
    }
}

/// A question that was looked at before.
#[tactic(auto, unfolding(crate::specs::Loose::question_again))]
fn question_again(bytes: &[u8], at: usize) -> Result<(QuestionView<'_>, usize), Malformed>
    ensures { IsLent question_seen result (question_again bytes.now at) }
{
    match tag_at(bytes, at) {
        Some(1) => {
            let (path, end) = path_again(bytes, at + 1)?;
            Ok((QuestionView::Kind(path), end))
        }
        Some(2) => {
            let (path, end) = path_again(bytes, at + 1)?;
            Ok((QuestionView::Content(path), end))
        }
        Some(3) => {
            let (path, end) = path_again(bytes, at + 1)?;
            Ok((QuestionView::Names(path), end))
        }
        Some(4) => {
            let (path, end) = path_again(bytes, at + 1)?;
            Ok((QuestionView::Mode(path), end))
        }
        _ => Err(fault_at(at)),
    }
}

/// An answer of a tree.
#[derive(Drop)]
pub enum AnswerView<'a> {
    Away,
    Absent,
    IsDir,
    IsFile,
    Bytes(&'a [u8]),
    Names(ChildViews<'a>),
    On,
    Off,
}

/// An answer.
#[tactic(auto, unfolding(crate::specs::Decoding::answer_at))]
fn answer_at(bytes: &[u8], at: usize) -> Result<(AnswerView<'_>, usize), Malformed>
    ensures { IsLent answer_seen result (answer_at bytes.now at) }
{
    match tag_at(bytes, at) {
        Some(1) => Ok((AnswerView::Away, at + 1)),
        Some(2) => Ok((AnswerView::Absent, at + 1)),
        Some(3) => Ok((AnswerView::IsDir, at + 1)),
        Some(4) => Ok((AnswerView::IsFile, at + 1)),
        Some(5) => {
            let (contents, end) = contents_at(bytes, at + 1)?;
            Ok((AnswerView::Bytes(contents), end))
        }
        Some(6) => {
            let (children, end) = children_at(bytes, at + 1)?;
            Ok((AnswerView::Names(children), end))
        }
        Some(7) => Ok((AnswerView::On, at + 1)),
        Some(8) => Ok((AnswerView::Off, at + 1)),
        _ => Err(fault_at(at)),
    }
}

/// An answer that was looked at before.
#[tactic(auto, unfolding(crate::specs::Loose::answer_again))]
fn answer_again(bytes: &[u8], at: usize) -> Result<(AnswerView<'_>, usize), Malformed>
    ensures { IsLent answer_seen result (answer_again bytes.now at) }
{
    match tag_at(bytes, at) {
        Some(1) => Ok((AnswerView::Away, at + 1)),
        Some(2) => Ok((AnswerView::Absent, at + 1)),
        Some(3) => Ok((AnswerView::IsDir, at + 1)),
        Some(4) => Ok((AnswerView::IsFile, at + 1)),
        Some(5) => {
            let (contents, end) = counted_at(bytes, at + 1)?;
            Ok((AnswerView::Bytes(contents), end))
        }
        Some(6) => {
            let (children, end) = children_again(bytes, at + 1)?;
            Ok((AnswerView::Names(children), end))
        }
        Some(7) => Ok((AnswerView::On, at + 1)),
        Some(8) => Ok((AnswerView::Off, at + 1)),
        _ => Err(fault_at(at)),
    }
}

/// A question with the answer that it got.
#[derive(Drop)]
pub struct ReadView<'a> {
    pub question: QuestionView<'a>,
    pub answer: AnswerView<'a>,
}

/// A list of reads.
pub type ReadViews<'a> = Views<ReadView<'a>, Read>;

/// A read.
#[tactic(auto, unfolding(crate::specs::Decoding::read_at))]
pub(crate) fn read_at(bytes: &[u8], at: usize) -> Result<(ReadView<'_>, usize), Malformed>
    ensures { IsLent read_seen result (read_at bytes.now at) }
{
    let (question, at) = question_at(bytes, at)?;
    let (answer, end) = answer_at(bytes, at)?;
    Ok((ReadView { question, answer }, end))
}

/// A read that was looked at before.
#[tactic(auto, unfolding(crate::specs::Loose::read_again))]
pub(crate) fn read_again(bytes: &[u8], at: usize) -> Result<(ReadView<'_>, usize), Malformed>
    ensures { IsLent read_seen result (read_again bytes.now at) }
{
    let (question, at) = question_again(bytes, at)?;
    let (answer, end) = answer_again(bytes, at)?;
    Ok((ReadView { question, answer }, end))
}

impl<'a> Lent<Read> for ReadView<'a> {
    type Source = &'a [u8];

    ghost source = { λ bytes. bytes.now };

    ghost seen = { read_seen };

    ghost item = { λ _. read_at };

    ghost again = { read_again };

    ghost looser = { each read_at read_again read_looser };

    fn lend(
        _previous: &Option<ReadView<'a>>,
        bytes: &'a [u8],
        at: usize,
    ) -> Result<(ReadView<'a>, usize), Malformed> {
        read_at(bytes, at)
    }

    fn lend_again(bytes: &'a [u8], at: usize) -> Result<(ReadView<'a>, usize), Malformed> {
        read_again(bytes, at)
    }
}
