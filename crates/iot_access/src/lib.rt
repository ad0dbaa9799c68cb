//! What a transaction asks of the tree before it: its base reads, each with the place of the read of the run from which it comes.
#![tactic(auto)]

mod asked;
mod base_reads;
mod collect;
mod origins;

pub use collect::{of, of_nothing};
