//! Questions that are lent, asked of trees.
ghost use Rattle.std.specs.Prelude.{◌≡◌, ◌↔◌, IsTrue, Some, IfOk, false};
ghost use Rattle.std.specs.FinMap.{is_sorted};
ghost use Rattle.std.specs.List.{filter_map};
ghost use Rattle.iot_text.specs.Paths.{path_cmp};
ghost use Rattle.iot_tree.specs.Place.{IsRowAt};
ghost use Rattle.iot_tree.specs.Questions.{answer_of, kind_answer, content_answer, mode_answer, mode_told, child_of};
ghost use Rattle.iot_tree.specs.Rows.{AreTreeRows, map_of};
ghost use Rattle.iot_views.specs.Seen.{question_seen, answer_seen};
ghost use Rattle.iot_certify.specs.Asked.{path_asked, about};

use crate::children::are_children;
use crate::places::{kind_in_gap, place_of};
use iot_text::{Name, NoMemory, Path};
use iot_tree::{Answer, Kind, Mode, Node, Question, Tree, count_within};
use iot_views::{AnswerView, PathView, QuestionView};
use std::alloc::Global;

/// The path that the question is about.
fn path_of<'q, 'a>(question: &'q QuestionView<'a>) -> &'q PathView<'a>
    ensures { result.now ≡ path_asked question.now }
{
    match question {
        QuestionView::Kind(path) => path,
        QuestionView::Content(path) => path,
        QuestionView::Names(path) => path,
        QuestionView::Mode(path) => path,
    }
}

/// The same question about this path.
fn about(question: &QuestionView<'_>, path: Path) -> Question
    ensures { result ≡ about (question_seen question.now) path }
{
    match question {
        QuestionView::Kind(_) => Question::Kind(path),
        QuestionView::Content(_) => Question::Content(path),
        QuestionView::Names(_) => Question::Names(path),
        QuestionView::Mode(_) => Question::Mode(path),
    }
}

/// Whether the kind as an answer is this one.
fn is_kind(kind: Kind, answer: &AnswerView<'_>) -> bool
    ensures { IsTrue result ↔ (kind_answer kind ≡ answer_seen answer.now) }
{
    match answer {
        AnswerView::Away => matches!(kind, Kind::Away),
        AnswerView::Absent => matches!(kind, Kind::Absent),
        AnswerView::IsDir => matches!(kind, Kind::IsDir),
        AnswerView::IsFile => matches!(kind, Kind::IsFile),
        AnswerView::Bytes(_) | AnswerView::Names(_) | AnswerView::On | AnswerView::Off => false,
    }
}

/// Whether this is the object's answer to the question for a file's contents.
fn is_content(node: &Node, answer: &AnswerView<'_>) -> bool
    ensures { IsTrue result ↔ (content_answer (Some node.now) false ≡ answer_seen answer.now) }
{
    match node {
        Node::File(bytes, _) => match answer {
            AnswerView::Bytes(others) => bytes.as_slice() == *others,
            _ => false,
        },
        Node::FarFile(_) => matches!(answer, AnswerView::Away),
        Node::Dir | Node::FarDir => matches!(answer, AnswerView::Absent),
    }
}

/// Whether this is the object's answer to the question for a file's mode.
fn is_mode(node: &Node, answer: &AnswerView<'_>) -> bool
    ensures { IsTrue result ↔ (mode_answer (Some node.now) false ≡ answer_seen answer.now) }
{
    match node {
        Node::File(_, mode) | Node::FarFile(mode) => is_told(*mode, answer),
        Node::Dir | Node::FarDir => matches!(answer, AnswerView::Absent),
    }
}

/// Whether the mode as an answer is this one.
fn is_told(mode: Mode, answer: &AnswerView<'_>) -> bool
    ensures { IsTrue result ↔ (mode_told mode ≡ answer_seen answer.now) }
{
    match mode {
        Mode::On => matches!(answer, AnswerView::On),
        Mode::Off => matches!(answer, AnswerView::Off),
    }
}

/// Whether the answer to the question for the names in the directory of this row is this one.
fn is_names(rows: &[(Path, Node)], at: usize, path: &PathView<'_>, answer: &AnswerView<'_>) -> bool
    requires tree { AreTreeRows rows.now }
    requires row { IsRowAt rows.now path.now at }
    ensures { IsTrue result ↔ (answer_of (map_of rows.now) (Question.Names path.now) ≡ answer_seen answer.now) }
{
    match &rows[at].1 {
        Node::Dir => {
            let names = rows[at].0.names();
            let count = count_within(rows, at, names);
            is_listed(&rows[at..at + count], names, answer)
        }
        Node::FarDir => is_kind(Kind::Away, answer),
        Node::File(..) | Node::FarFile(_) => is_kind(Kind::Absent, answer),
    }
}

/// Whether the names in the directory among these rows, with their kinds, are this answer.
fn is_listed(rows: &[(Path, Node)], names: &[Name], answer: &AnswerView<'_>) -> bool
    requires { IsTrue (is_sorted path_cmp rows.now) }
    ensures { IsTrue result ↔ (Answer.Names (filter_map (child_of names.now) rows.now) ≡ answer_seen answer.now) }
{
    match answer {
        AnswerView::Names(children) => are_children(rows, names, children.again()),
        _ => false,
    }
}

/// Whether the row at this place gives this answer to the question about its path.
fn row_answers(
    rows: &[(Path, Node)],
    at: usize,
    question: &QuestionView<'_>,
    answer: &AnswerView<'_>,
) -> bool
    requires tree { AreTreeRows rows.now }
    requires row { IsRowAt rows.now (path_asked question.now) at }
    ensures { IsTrue result ↔ (answer_of (map_of rows.now) (question_seen question.now) ≡ answer_seen answer.now) }
{
    match question {
        QuestionView::Kind(_) => is_kind(rows[at].1.kind(), answer),
        QuestionView::Content(_) => is_content(&rows[at].1, answer),
        QuestionView::Names(path) => is_names(rows, at, path, answer),
        QuestionView::Mode(_) => is_mode(&rows[at].1, answer),
    }
}

/// Whether the tree gives this answer to the question. Does not allocate. The question for names makes a search for each name in the
/// directory.
pub(crate) fn answers(t: &Tree, question: &QuestionView<'_>, answer: &AnswerView<'_>) -> bool
    ensures { IsTrue result ↔ (answer_of t.now (question_seen question.now) ≡ answer_seen answer.now) }
{
    let rows = t.rows().as_slice();
    let path = path_of(question);
    match place_of(rows, path) {
        Ok(at) => row_answers(rows, at, question, answer),
        Err(gap) => is_kind(kind_in_gap(rows, gap, path), answer),
    }
}

/// The tree's answer to the question. A path that has a row is that row's.
pub(crate) fn answer(
    alloc: Global,
    t: &Tree,
    question: &QuestionView<'_>,
) -> Result<Answer, NoMemory>
    ensures { IfOk result (λ answer. answer ≡ answer_of t.now (question_seen question.now)) }
{
    let rows = t.rows().as_slice();
    let path = path_of(question);
    match place_of(rows, path) {
        Ok(at) => {
            let asked = about(question, rows[at].0.copy(alloc)?);
            t.answer(alloc, &asked)
        }
        Err(gap) => Ok(kind_in_gap(rows, gap, path).into_answer()),
    }
}
