//! Kinds of objects.
ghost use Rattle.std.specs.Prelude.{◌≡◌, ◌↔◌, IsTrue};

use crate::Answer;

/// What is at a path, as far as the tree knows.
#[derive(Clone, Copy, Debug, PartialEq, Eq)]
pub enum Kind {
    /// The tree does not know: a directory above the path is far.
    Away,
    /// Nothing is there.
    Absent,
    /// A directory, whether its inside is known or not.
    IsDir,
    /// A file, whether its contents are known or not.
    IsFile,
}

impl Kind {
    ghost use Rattle.iot_tree.specs.Questions.{kind_answer};

    /// The kind as an answer.
    pub fn into_answer(self) -> Answer
        ensures { result ≡ kind_answer self }
    {
        match self {
            Kind::Away => Answer::Away,
            Kind::Absent => Answer::Absent,
            Kind::IsDir => Answer::IsDir,
            Kind::IsFile => Answer::IsFile,
        }
    }

    /// Whether the kind as an answer is this one.
    pub(crate) fn is_answer(self, answer: &Answer) -> bool
        ensures { IsTrue result ↔ (kind_answer self ≡ answer.now) }
    {
        match answer {
            Answer::Away => matches!(self, Kind::Away),
            Answer::Absent => matches!(self, Kind::Absent),
            Answer::IsDir => matches!(self, Kind::IsDir),
            Answer::IsFile => matches!(self, Kind::IsFile),
            Answer::Bytes(_) | Answer::Names(_) | Answer::On | Answer::Off => false,
        }
    }
}
