//! Copies in memory of their own.
ghost use Rattle.std.specs.Prelude.{◌≡◌, ◌∷◌, [], ◌++◌, IfOk};

use crate::{Act, Answer, Blob, Kind, Label, Node, Question, Read, Sequence, Update};
use iot_text::{Name, NoMemory, Path, Text};
use std::alloc::Global;

/// Values of which an equal one can be made in memory of its own.
pub trait Duplicate: Drop {
    /// An equal value in memory of its own.
    fn copy(&self, alloc: Global) -> Result<Self, NoMemory>
        ensures { IfOk result (λ copy. copy ≡ self.now) };
}

impl Duplicate for Name {
    fn copy(&self, _alloc: Global) -> Result<Name, NoMemory> {
        Ok(*self)
    }
}

impl Duplicate for Kind {
    fn copy(&self, _alloc: Global) -> Result<Kind, NoMemory> {
        Ok(*self)
    }
}

impl Duplicate for Path {
    fn copy(&self, alloc: Global) -> Result<Path, NoMemory> {
        Path::copy(self, alloc)
    }
}

impl Duplicate for Text {
    fn copy(&self, alloc: Global) -> Result<Text, NoMemory> {
        Text::copy(self, alloc)
    }
}

impl Duplicate for Blob {
    fn copy(&self, _alloc: Global) -> Result<Blob, NoMemory> {
        self.share()
    }
}

impl Duplicate for Node {
    fn copy(&self, alloc: Global) -> Result<Node, NoMemory> {
        Ok(match self {
            Node::Dir => Node::Dir,
            Node::File(bytes, mode) => Node::File(bytes.copy(alloc)?, *mode),
            Node::FarDir => Node::FarDir,
            Node::FarFile(mode) => Node::FarFile(*mode),
        })
    }
}

impl Duplicate for Question {
    fn copy(&self, alloc: Global) -> Result<Question, NoMemory> {
        Ok(match self {
            Question::Kind(path) => Question::Kind(path.copy(alloc)?),
            Question::Content(path) => Question::Content(path.copy(alloc)?),
            Question::Names(path) => Question::Names(path.copy(alloc)?),
            Question::Mode(path) => Question::Mode(path.copy(alloc)?),
        })
    }
}

impl Duplicate for Answer {
    fn copy(&self, alloc: Global) -> Result<Answer, NoMemory> {
        Ok(match self {
            Answer::Away => Answer::Away,
            Answer::Absent => Answer::Absent,
            Answer::IsDir => Answer::IsDir,
            Answer::IsFile => Answer::IsFile,
            Answer::Bytes(bytes) => Answer::Bytes(bytes.copy(alloc)?),
            Answer::Names(children) => Answer::Names(children.copy(alloc)?),
            Answer::On => Answer::On,
            Answer::Off => Answer::Off,
        })
    }
}

impl Duplicate for Update {
    fn copy(&self, alloc: Global) -> Result<Update, NoMemory> {
        Ok(match self {
            Update::Put(path, bytes) => Update::Put(path.copy(alloc)?, bytes.copy(alloc)?),
            Update::MakeDir(path) => Update::MakeDir(path.copy(alloc)?),
            Update::Remove(path) => Update::Remove(path.copy(alloc)?),
            Update::Move(from, to) => Update::Move(from.copy(alloc)?, to.copy(alloc)?),
            Update::SetMode(path, mode) => Update::SetMode(path.copy(alloc)?, *mode),
        })
    }
}

impl Duplicate for Read {
    fn copy(&self, alloc: Global) -> Result<Read, NoMemory> {
        Ok(Read {
            question: self.question.copy(alloc)?,
            answer: self.answer.copy(alloc)?,
        })
    }
}

impl Duplicate for Act {
    fn copy(&self, alloc: Global) -> Result<Act, NoMemory> {
        Ok(Act {
            reads: self.reads.copy(alloc)?,
            update: self.update.copy(alloc)?,
            lines: self.lines.copy(alloc)?,
        })
    }
}

impl Duplicate for Label {
    fn copy(&self, alloc: Global) -> Result<Label, NoMemory> {
        Ok(Label {
            client: self.client,
            tid: self.tid,
            script: self.script,
            budget: self.budget,
            way: self.way,
            kept: self.kept.copy(alloc)?,
        })
    }
}

impl<T: Duplicate> Duplicate for Option<T> {
    fn copy(&self, alloc: Global) -> Result<Option<T>, NoMemory> {
        Ok(match self {
            Some(value) => Some(value.copy(alloc)?),
            None => None,
        })
    }
}

impl<A: Duplicate, B: Duplicate> Duplicate for (A, B) {
    fn copy(&self, alloc: Global) -> Result<(A, B), NoMemory> {
        Ok((self.0.copy(alloc)?, self.1.copy(alloc)?))
    }
}

impl<T: Duplicate> Duplicate for Sequence<T> {
    fn copy(&self, alloc: Global) -> Result<Sequence<T>, NoMemory> {
        let mut copies = Vec::with_capacity(alloc, self.len())?;
        for item in self.as_slice() {
            copies.push(item.copy(alloc)?)?;
        }
        Ok(Sequence::from_vec(copies))
    }
}
