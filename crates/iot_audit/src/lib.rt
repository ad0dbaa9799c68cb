//! Auditing an image of a server's disk: whether its state is what the scripts of an event script make of an empty server.
#![tactic(auto)]

mod auditing;
mod difference;
mod fault;
mod lines;
mod scripts;
mod serving;

pub use auditing::audit;
pub use fault::AuditFault;
