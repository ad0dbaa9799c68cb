//! A commit.
use iot_tree::{Access, Label, Lines};

/// What a server keeps of a transaction that was committed.
#[derive(Drop)]
pub struct Commit {
    pub label: Label,

    /// What it asked of the tree before it, and its updates.
    pub access: Access,

    /// What it printed.
    pub lines: Lines,
}
