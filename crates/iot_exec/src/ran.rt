//! What a script did.
use iot_tree::{Acts, Files, Tree};

/// What a script did on a tree.
#[derive(Drop)]
pub struct Ran {
    /// Its acts, in order.
    pub acts: Acts,

    /// The tree after them.
    pub tree: Tree,

    /// Whether no statement was left, or `stop` was done.
    pub ended: bool,
}

/// What a script did on a tree that was lent to it.
#[derive(Drop)]
pub struct Acted {
    /// Its acts, in order.
    pub acts: Acts,

    /// Whether no statement was left, or `stop` was done.
    pub ended: bool,
}

/// What a script did on a tree that was lent to it, and which kept files it found.
#[derive(Drop)]
pub struct Found {
    /// What it did.
    pub acted: Acted,

    /// The kept files that its `keep` commands found.
    pub files: Files,
}
