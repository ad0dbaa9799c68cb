//! Updates of a tree.
use crate::{Blob, Mode, Sequence};
use iot_text::Path;

/// A change of a tree. Each fits a tree under conditions of its own, which [`crate::Tree::fits`] tests.
#[derive(Drop)]
pub enum Update {
    /// The path gets a file with these contents, in place of one that is there.
    Put(Path, Blob),
    /// The path gets a directory with nothing in it.
    MakeDir(Path),
    /// What is at the path goes: a file, or a directory with nothing in it.
    Remove(Path),
    /// What is at the first path, with all below it, comes to the second, in place of what is there.
    Move(Path, Path),
    /// The file at the path gets this mode.
    SetMode(Path, Mode),
}

/// A list of updates.
pub type Updates = Sequence<Update>;
