//! Questions to a tree, and its answers.
use crate::{Blob, Kind, Sequence};
use iot_text::{Name, Path};

/// What can be asked of a tree.
#[derive(Drop)]
pub enum Question {
    /// What is at the path?
    Kind(Path),
    /// What are the contents of the file at the path?
    Content(Path),
    /// What are the names in the directory at the path?
    Names(Path),
    /// Is the file at the path executable?
    Mode(Path),
}

/// The names in a directory, rising, each with the kind of what is there.
pub type Children = Sequence<(Name, Kind)>;

/// What a tree answers.
#[derive(Drop)]
pub enum Answer {
    /// The tree does not know.
    Away,
    /// There is no such thing.
    Absent,
    /// A directory is there.
    IsDir,
    /// A file is there.
    IsFile,
    /// The contents of the file.
    Bytes(Blob),
    /// The names in the directory.
    Names(Children),
    /// The file is executable.
    On,
    /// The file is not executable.
    Off,
}
