//! A node over its disks, alive or down, whatever it keeps: it starts, stops, crashes and comes back. Here alone a disk that fails becomes
//! a stop.
#![tactic(auto)]

mod comeback;
mod halt;
mod keeper;
mod lines;
mod post;

pub use comeback::Comeback;
pub use halt::Halt;
pub use keeper::Keeper;
pub use lines::{Printed, Transaction, say};
pub use post::{Doubt, Fallen, Post, say_stop};
