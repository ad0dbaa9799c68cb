//! An append-only journal: a list of bodies, of which the disk keeps each whole or not at all, whenever it fails.
#![tactic(auto)]

mod journal;
mod records;
mod start;

pub use journal::Journal;
pub use records::{FIRST_GATE, RECORD};
