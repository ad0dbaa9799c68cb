//! Nodes: what a tree has at its paths.
ghost use Rattle.std.specs.Prelude.{◌≡◌, ◌↔◌, Some, IfOk, IsTrue, false};
ghost use Rattle.std.specs.Option.{option_copied};

use crate::{Answer, Blob, Duplicate, Kind, Sequence};
use iot_text::{NoMemory, Path};
use std::alloc::Global;

/// Whether a file may be executed. It is known wherever the file's name is.
#[derive(Clone, Copy, Debug, PartialEq, Eq)]
pub enum Mode {
    Off,
    On,
}

impl Mode {
    ghost use Rattle.iot_tree.specs.Questions.{mode_told};

    /// The mode as an answer.
    fn into_answer(self) -> Answer
        ensures { result ≡ mode_told self }
    {
        match self {
            Mode::On => Answer::On,
            Mode::Off => Answer::Off,
        }
    }

    /// Whether the mode as an answer is this one.
    fn is_answer(self, answer: &Answer) -> bool
        ensures { IsTrue result ↔ (mode_told self ≡ answer.now) }
    {
        match self {
            Mode::On => matches!(answer, Answer::On),
            Mode::Off => matches!(answer, Answer::Off),
        }
    }
}

/// An object at a path. A far one is there, and its inside is not known.
#[derive(Drop)]
pub enum Node {
    /// A directory whose names are all known.
    Dir,
    /// A file with its contents.
    File(Blob, Mode),
    /// A directory whose names are not known.
    FarDir,
    /// A file whose contents are not known.
    FarFile(Mode),
}

impl Node {
    ghost use Rattle.iot_tree.specs.Questions.{is_dir, is_known_dir, node_kind, is_far_dir, content_at, content_answer, mode_answer};
    ghost use Rattle.iot_tree.specs.Snapshots.{is_known, far, seen};
    ghost use Rattle.iot_tree.specs.Updates.{mode_in, with_mode};

    /// The kind of the object.
    pub fn kind(&self) -> Kind
        ensures { result ≡ node_kind self.now }
    {
        match self {
            Node::Dir | Node::FarDir => Kind::IsDir,
            Node::File(..) | Node::FarFile(_) => Kind::IsFile,
        }
    }

    /// The mode of a file; off for a directory.
    pub fn mode(&self) -> Mode
        ensures { result ≡ mode_in (Some self.now) }
    {
        match self {
            Node::File(_, mode) | Node::FarFile(mode) => *mode,
            Node::Dir | Node::FarDir => Mode::Off,
        }
    }

    /// The object with this mode, if it is a file. Does not allocate: the contents are shared.
    pub(crate) fn with_mode(&self, mode: Mode) -> Result<Node, NoMemory>
        ensures { IfOk result (λ node. node ≡ with_mode mode self.now) }
    {
        Ok(match self {
            Node::Dir => Node::Dir,
            Node::File(bytes, _) => Node::File(bytes.share()?, mode),
            Node::FarDir => Node::FarDir,
            Node::FarFile(_) => Node::FarFile(mode),
        })
    }

    /// Whether this is a directory, whose names may be known or not.
    pub fn is_dir(&self) -> bool
        ensures { result ≡ is_dir self.now }
    {
        matches!(self, Node::Dir | Node::FarDir)
    }

    /// Whether this is a directory whose names are known.
    pub fn is_known_dir(&self) -> bool
        ensures { result ≡ is_known_dir self.now }
    {
        matches!(self, Node::Dir)
    }

    /// Whether the inside of the object is known: a directory's names, a file's contents.
    pub fn is_known(&self) -> bool
        ensures { result ≡ is_known self.now }
    {
        matches!(self, Node::Dir | Node::File(..))
    }

    /// The object without its inside.
    pub fn far(&self) -> Node
        ensures { result ≡ far self.now }
    {
        match self {
            Node::Dir | Node::FarDir => Node::FarDir,
            Node::File(_, mode) | Node::FarFile(mode) => Node::FarFile(*mode),
        }
    }

    /// The object in memory of its own, with its inside if that is to be seen.
    pub fn seen(&self, alloc: Global, inside: bool) -> Result<Node, NoMemory>
        ensures { IfOk result (λ node. node ≡ seen inside self.now) }
    {
        if inside {
            self.copy(alloc)
        } else {
            Ok(self.far())
        }
    }

    /// The contents, if this is a file whose contents are known.
    pub fn content(&self) -> Option<&[u8]>
        ensures { option_copied result ≡ content_at (Some self.now) }
    {
        match self {
            Node::File(bytes, _) => Some(bytes.as_slice()),
            _ => None,
        }
    }

    /// The answer of the object at a path to the question for a file's contents.
    pub(crate) fn content_answer(&self, alloc: Global) -> Result<Answer, NoMemory>
        ensures { IfOk result (λ answer. answer ≡ content_answer (Some self.now) false) }
    {
        Ok(match self {
            Node::File(bytes, _) => Answer::Bytes(bytes.copy(alloc)?),
            Node::FarFile(_) => Answer::Away,
            Node::Dir | Node::FarDir => Answer::Absent,
        })
    }

    /// Whether this is the object's answer to the question for a file's contents.
    pub(crate) fn has_content(&self, answer: &Answer) -> bool
        ensures { IsTrue result ↔ (content_answer (Some self.now) false ≡ answer.now) }
    {
        match self {
            Node::File(bytes, _) => match answer {
                Answer::Bytes(others) => bytes == others,
                _ => false,
            },
            Node::FarFile(_) => matches!(answer, Answer::Away),
            Node::Dir | Node::FarDir => matches!(answer, Answer::Absent),
        }
    }

    /// The answer of the object at a path to the question for a file's mode.
    pub(crate) fn mode_answer(&self) -> Answer
        ensures { result ≡ mode_answer (Some self.now) false }
    {
        match self {
            Node::File(_, mode) | Node::FarFile(mode) => mode.into_answer(),
            Node::Dir | Node::FarDir => Answer::Absent,
        }
    }

    /// Whether this is the object's answer to the question for a file's mode.
    pub(crate) fn has_mode(&self, answer: &Answer) -> bool
        ensures { IsTrue result ↔ (mode_answer (Some self.now) false ≡ answer.now) }
    {
        match self {
            Node::File(_, mode) | Node::FarFile(mode) => mode.is_answer(answer),
            Node::Dir | Node::FarDir => matches!(answer, Answer::Absent),
        }
    }

    /// Whether this is a directory whose names are not known.
    pub(crate) fn is_far_dir(&self) -> bool
        ensures { result ≡ is_far_dir (Some self.now) }
    {
        matches!(self, Node::FarDir)
    }
}

/// A list of paths.
pub type Paths = Sequence<Path>;

/// Rows of a tree: each a path with its node.
pub type Rows = Sequence<(Path, Node)>;
