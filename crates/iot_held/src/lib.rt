//! What a client has of the server's tree.
#![tactic(auto)]

mod held;
mod joining;
mod merging;
mod passing;

pub use held::Held;
pub use merging::MergeFault;
pub use passing::pass;
