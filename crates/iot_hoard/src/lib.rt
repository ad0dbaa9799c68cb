//! Hoard profiles: which paths of a server's tree a client takes along within a limit.
#![tactic(auto)]

mod choosing;
mod picking;
mod sizes;

pub use picking::pick;
pub use sizes::size_of;
