//! Asking the tree, and keeping the reads.
ghost use Rattle.std.specs.Prelude.{◌≡◌, [], OnOk, IfOk};
ghost use Rattle.iot_tree.specs.Questions.{kind_of, kind_answer, answer_of};
ghost use Rattle.iot_exec.specs.Asking.{asked, Passes};
ghost use Rattle.iot_exec.specs.Operands.{IsStopAt};
ghost use Rattle.iot_acts.specs.Paths.{parent_path};
ghost use Rattle.iot_exec.specs.Commands.{target, ask_parent};

use crate::endings::{Reason, Refusal, Stop};
use iot_text::{NoMemory, Path};
use iot_tree::{Answer, Kind, Question, Read, Reads, Tree};
use std::alloc::Global;

/// A tree that is asked, and the reads so far.
#[derive(Drop)]
pub(crate) struct Asking<'t> {
    pub(crate) alloc: Global,
    pub(crate) tree: &'t Tree,
    pub(crate) reads: Reads,
}

impl<'t> Asking<'t> {
    /// No question is asked yet. Does not allocate.
    pub(crate) fn new(alloc: Global, tree: &'t Tree) -> Asking<'t>
        ensures none { result.reads ≡ [] }
        ensures tree { result.tree.now ≡ tree.now }
    {
        Asking {
            alloc,
            tree,
            reads: Reads::new(alloc),
        }
    }

    /// Keeps a question with the tree's answer.
    pub(crate) fn record(&mut self, question: Question, answer: Answer) -> Result<(), NoMemory>
        requires { answer ≡ answer_of self.old.tree.now question }
        ensures { OnOk result (self.new ≡ asked self.old question) }
    {
        self.reads.push(Read { question, answer })
    }

    /// What is at the path?
    pub(crate) fn kind(&mut self, path: &Path) -> Result<Kind, NoMemory>
        ensures kind { IfOk result (λ kind. kind ≡ kind_of self.old.tree.now path.now) }
        ensures asked { OnOk result (self.new ≡ asked self.old (Question.Kind path.now)) }
    {
        let kind = self.tree.kind(path);
        self.record(Question::Kind(path.copy(self.alloc)?), kind.into_answer())?;
        Ok(kind)
    }

    /// The refusal of a path for a reason.
    pub(crate) fn fail(&self, path: &Path, reason: Reason) -> Stop
        ensures { IsStopAt result path.now reason }
    {
        match path.copy(self.alloc) {
            Ok(path) => Stop::Refused(Refusal::At(path, reason)),
            Err(_) => Stop::NoMemory,
        }
    }

    /// Wants a directory as the path's parent.
    pub(crate) fn in_directory(&mut self, path: &Path) -> Result<(), Stop>
        ensures { Passes self.old (ask_parent path.now) self.new result }
    {
        let parent = self.parent(path)?;
        match self.kind(&parent)? {
            Kind::IsDir => Ok(()),
            Kind::Away => Err(self.fail(path, Reason::NotCached)),
            Kind::Absent | Kind::IsFile => Err(self.fail(path, Reason::NoDirectory)),
        }
    }

    /// The path's parent; the root is its own.
    fn parent(&self, path: &Path) -> Result<Path, NoMemory>
        ensures { IfOk result (λ parent. parent ≡ parent_path path.now) }
    {
        match path.parent(self.alloc)? {
            Some(parent) => Ok(parent),
            None => Ok(Path::root(self.alloc)),
        }
    }

    /// Wants a path that a file can be put at.
    pub(crate) fn target(&mut self, path: &Path) -> Result<(), Stop>
        ensures { Passes self.old (target path.now) self.new result }
    {
        match self.kind(path)? {
            Kind::IsFile => Ok(()),
            Kind::IsDir => Err(self.fail(path, Reason::IsDirectory)),
            Kind::Away => Err(self.fail(path, Reason::NotCached)),
            Kind::Absent => self.in_directory(path),
        }
    }
}
