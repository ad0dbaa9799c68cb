//! The contents of files, and the names in directories.
ghost use Rattle.std.specs.Prelude.{◌≡◌, Some, None, Err, OnOk, IfOk};
ghost use Rattle.std.specs.Option.{option_copied};
ghost use Rattle.iot_tree.specs.Questions.{content_at, content_of, answer_of};
ghost use Rattle.iot_exec.specs.Asking.{Answered, Finds, Passes, asked, lent, names_in, last_names, with_names};
ghost use Rattle.iot_exec.specs.Commands.{contents, contents_or, no_contents_reason, names_or, empty_dir};
ghost use Rattle.iot_exec.specs.declared.endings.Refusal.TheVariants.{At};

use crate::asking::Asking;
use crate::endings::{Reason, Stop};
use iot_text::{Name, NoMemory, Path};
use iot_tree::{Answer, Blob, Duplicate, Kind, Node, Question};

/// Why an answer without contents has none.
fn reason_of(answer: &Answer) -> Reason
    ensures { result ≡ no_contents_reason answer.now }
{
    match answer {
        Answer::Absent => Reason::NoFile,
        _ => Reason::NotCached,
    }
}

/// The contents of the object, if it is a file whose contents are known.
fn contents_in(node: &Node) -> Option<&Blob>
    ensures { option_copied result ≡ content_at (Some node.now) }
{
    match node {
        Node::File(bytes, _) => Some(bytes),
        _ => None,
    }
}

/// The names of an answer, which has none if it answers another question.
fn names_in(answer: &Answer) -> &[(Name, Kind)]
    ensures { result.now ≡ names_in answer.now }
{
    match answer {
        Answer::Names(names) => names.as_slice(),
        _ => &[],
    }
}

impl<'t> Asking<'t> {
    /// Wants the contents of a file, which are lent out of the tree.
    pub(crate) fn contents(&mut self, path: &Path) -> Result<&'t [u8], Stop>
        ensures { Finds self.old (contents path.now) self.new (lent result) }
    {
        match self.file(path) {
            Some(bytes) => {
                self.record_contents(path, bytes)?;
                Ok(bytes.as_slice())
            }
            None => {
                let reason = self.no_contents(path)?;
                Err(self.fail(path, reason))
            }
        }
    }

    /// The contents of a file, if they are known, lent out of the tree. Does not allocate.
    pub(crate) fn file(&self, path: &Path) -> Option<&'t Blob>
        ensures { option_copied result ≡ content_of self.now.tree.now path.now }
    {
        match self.tree.node(path.names()) {
            Some(node) => contents_in(node),
            None => None,
        }
    }

    /// Keeps the question for the contents of a file, which are these: the read shares them.
    pub(crate) fn record_contents(&mut self, path: &Path, bytes: &Blob) -> Result<(), NoMemory>
        requires { content_of self.old.tree.now path.now ≡ Some bytes.now }
        ensures { OnOk result (self.new ≡ asked self.old (Question.Content path.now)) }
    {
        let question = Question::Content(path.copy(self.alloc)?);
        self.record(question, Answer::Bytes(bytes.copy(self.alloc)?))
    }

    /// Asks for the contents of a file that the tree does not have: why there are none.
    pub(crate) fn no_contents(&mut self, path: &Path) -> Result<Reason, NoMemory>
        requires { content_of self.old.tree.now path.now ≡ None }
        ensures asked { OnOk result (self.new ≡ asked self.old (Question.Content path.now)) }
        ensures reason { IfOk result
            (λ reason. contents_or path.now (answer_of self.old.tree.now (Question.Content path.now)) ≡ Err (At path.now reason)) }
    {
        let question = Question::Content(path.copy(self.alloc)?);
        let answer = self.tree.answer(self.alloc, &question)?;
        let reason = reason_of(&answer);
        self.record(question, answer)?;
        Ok(reason)
    }

    /// Wants the names in a directory, with their kinds: `listed` lends them.
    pub(crate) fn names(&mut self, path: &Path) -> Result<(), Stop>
        ensures { Answered self.old (Question.Names path.now) self.new (with_names self.new.reads result) (names_or path.now) }
    {
        let question = Question::Names(path.copy(self.alloc)?);
        let answer = self.tree.answer(self.alloc, &question)?;
        let found = match &answer {
            Answer::Names(_) => Ok(()),
            Answer::Absent => Err(Reason::NoDirectory),
            _ => Err(Reason::NotCached),
        };
        self.record(question, answer)?;
        match found {
            Ok(()) => Ok(()),
            Err(reason) => Err(self.fail(path, reason)),
        }
    }

    /// The names that were answered last, lent out of the read. Does not allocate.
    pub(crate) fn listed(&self) -> &[(Name, Kind)]
        ensures { result.now ≡ last_names self.now.reads }
    {
        match self.reads.as_slice().last() {
            Some(read) => names_in(&read.answer),
            None => &[],
        }
    }

    /// Wants a directory without a name in it.
    pub(crate) fn empty_directory(&mut self, path: &Path) -> Result<(), Stop>
        ensures { Passes self.old (empty_dir path.now) self.new result }
    {
        self.names(path)?;
        if self.listed().is_empty() {
            Ok(())
        } else {
            Err(self.fail(path, Reason::NotEmpty))
        }
    }
}
