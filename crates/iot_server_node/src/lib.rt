//! The server as a node: it answers requests, and what it commits is on its disk and on the backup of that. Alive or down, it starts,
//! stops, crashes and comes back, from its disk or, once that is given up, from its backup.
#![tactic(auto)]

mod disks;
mod keeper;
mod message;
mod server;
mod texts;

pub use disks::Disks;
pub use keeper::ServerKeeper;
pub use message::{Handed, Message};
pub use server::{Served, ServerNode};
