//! Transactions that wait.
use iot_text::Name;
use iot_tree::{Acts, Files, OnConflict};

/// What was run in the place of a transaction that conflicted, and what it did.
#[derive(Drop)]
pub struct Resolution {
    /// The script that was run.
    pub script: Name,
    /// How many acts were allowed.
    pub budget: u64,
    /// What its `keep` commands found.
    pub kept: Files,
    pub acts: Acts,
}

/// How far a transaction is that waits.
#[derive(Drop)]
pub enum Stage {
    /// It is to be certified with the acts of its first run.
    Waiting,
    /// It conflicts, and is to be resolved.
    Conflict,
    /// It conflicts, and waits for a decision by hand.
    Manual,
    /// It was resolved, and is to be certified with the acts of its resolution.
    Resolved(Resolution),
}

/// A transaction that waits for the server.
#[derive(Drop)]
pub struct Item {
    /// The number of the transaction at its client, from 1.
    pub tid: u64,
    /// The script that was run.
    pub script: Name,
    /// How many acts were allowed.
    pub budget: u64,
    /// What it did in its first run, which no resolution changes.
    pub acts: Acts,
    /// What is done if it conflicts.
    pub option: OnConflict,
    pub stage: Stage,
}
