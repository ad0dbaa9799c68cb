//! Trees whose known rows carry stamps, and what changed in them for a client.
#![tactic(auto)]

mod acting;
mod cursor;
mod knowledge;
mod nodes;
mod refreshes;
mod sending;
mod stamped;
mod stamping;

pub use nodes::stamp_of;
pub use stamped::Stamped;
