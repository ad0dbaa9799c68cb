//! Trees cut down to what is known of them, and what a client wants to know.
#![tactic(auto)]

mod absence;
mod cutting;
mod joining;
mod knowledge;
pub mod walking;
mod wishes;

pub use absence::away;
pub use cutting::prune;
pub use knowledge::known;
pub use wishes::widen;
