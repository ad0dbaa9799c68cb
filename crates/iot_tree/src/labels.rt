//! How a committed transaction is remembered, and what becomes of one that conflicts.
use crate::{Blob, Sequence};
use iot_text::{Name, Path};

/// How a transaction was committed.
#[derive(Clone, Copy, Debug, PartialEq, Eq)]
pub enum Way {
    /// With the acts of its first run.
    Certified,
    /// After its script was run again on the server's tree.
    Reexecuted,
    /// After another script, its resolver, was run on the server's tree.
    Resolved,
}

/// What is done with a transaction that conflicts.
#[derive(Clone, Copy, Debug)]
pub enum OnConflict {
    /// Its script is run again.
    Reexec,
    /// The script of this name is run in its place.
    Resolver(Name),
    /// It is given up.
    Abort,
    /// It waits for a decision by hand.
    Manual,
}

/// Files with their contents, by their paths.
pub type Files = Sequence<(Path, Blob)>;

/// A committed transaction: whose it is, and the run that made it.
#[derive(Drop)]
pub struct Label {
    /// The place of the client, from 0.
    pub client: u64,
    /// The number of the transaction at its client, from 1.
    pub tid: u64,
    /// The script that was run.
    pub script: Name,
    /// How many acts were allowed.
    pub budget: u64,
    pub way: Way,
    /// What the script's `keep` commands found.
    pub kept: Files,
}

/// A list of labels.
pub type Labels = Sequence<Label>;
