//! The world: a server and its clients, on the disks that were handed in. What it does is what the plain machine does.
#![tactic(auto)]

mod clients;
mod disks;
mod looking;
mod nodes;
mod world;

pub use world::World;
