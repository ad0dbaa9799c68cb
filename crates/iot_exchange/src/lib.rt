//! What a client does with the server, as long as it is alive: it brings objects, and begins, steps and ends transactions.
#![tactic(auto)]

mod decisions;
mod declared;
mod exchange;
mod objects;
mod queues;
mod runs;
mod tasks;
mod texts;
mod transactions;

pub use declared::DeclaredScript;
pub use tasks::perform;
