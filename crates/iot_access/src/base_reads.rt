//! What the tree before must answer.
ghost use Rattle.std.specs.Prelude.{◌≡◌, List, IfOk};
ghost use Rattle.iot_tree.specs.Tree.{Path as TreePath};
ghost use Rattle.iot_tree.specs.declared.updates.Update.{Update as TreeUpdate};
ghost use Rattle.iot_access.specs.BaseReads.{base_names, base_mode, base_at, settled, base_of};
ghost use Rattle.iot_access.specs.Origins.{TellAfter};

use crate::origins::Origins;
use iot_text::{NoMemory, Path};
use iot_tree::{Answer, Duplicate, Question, Read, Tree};
use std::alloc::Global;

/// The answer to a question for names at the base: names are the tree's own, any other answer is the one that was read.
fn base_names(
    alloc: Global,
    before: &Tree,
    question: &Question,
    answer: &Answer,
) -> Result<Answer, NoMemory>
    ensures { (o : TreePath) → question.now ≡ Question.Names o → IfOk result (λ base. base ≡ base_names before.now o answer.now) }
{
    match answer {
        Answer::Names(_) => before.answer(alloc, question),
        _ => answer.copy(alloc),
    }
}

/// The answer to a question for a mode at the base: the tree's own, unless the answer that was read is that it is away.
fn base_mode(
    alloc: Global,
    before: &Tree,
    question: &Question,
    answer: &Answer,
) -> Result<Answer, NoMemory>
    ensures { (o : TreePath) → question.now ≡ Question.Mode o → IfOk result (λ base. base ≡ base_mode before.now o answer.now) }
{
    match answer {
        Answer::Away => Ok(Answer::Away),
        _ => before.answer(alloc, question),
    }
}

/// The base read of a question, if what it asks for comes from the path.
fn base_at(
    alloc: Global,
    before: &Tree,
    question: &Question,
    path: Path,
    answer: &Answer,
) -> Result<Read, NoMemory>
    ensures { IfOk result (λ base. base ≡ base_at before.now question.now path answer.now) }
{
    match question {
        Question::Kind(_) => Ok(Read {
            question: Question::Kind(path),
            answer: answer.copy(alloc)?,
        }),
        Question::Content(_) => Ok(Read {
            question: Question::Content(path),
            answer: answer.copy(alloc)?,
        }),
        Question::Names(_) => {
            let question = Question::Names(path);
            let answer = base_names(alloc, before, &question, answer)?;
            Ok(Read { question, answer })
        }
        Question::Mode(_) => {
            let question = Question::Mode(path);
            let answer = base_mode(alloc, before, &question, answer)?;
            Ok(Read { question, answer })
        }
    }
}

/// The base read if the run itself made what the question asks for: none, unless the answer was that it is away.
fn settled(alloc: Global, question: &Question, answer: &Answer) -> Result<Option<Read>, NoMemory>
    ensures { IfOk result (λ base. base ≡ settled question.now answer.now) }
{
    match answer {
        Answer::Away => Ok(Some(Read {
            question: question.copy(alloc)?,
            answer: Answer::Away,
        })),
        _ => Ok(None),
    }
}

/// The base read of a read, if it has one, given where rows and modes come from as it is made.
pub(crate) fn base_of(
    alloc: Global,
    before: &Tree,
    origins: &Origins,
    read: &Read,
) -> Result<Option<Read>, NoMemory>
    ensures { IfOk result
        (λ base. (done : List TreeUpdate) → TellAfter origins.now done → base ≡ base_of before.now done read.now) }
{
    match origins.of(alloc, &read.question)? {
        Some(path) => Ok(Some(base_at(alloc, before, &read.question, path, &read.answer)?)),
        None => settled(alloc, &read.question, &read.answer),
    }
}
