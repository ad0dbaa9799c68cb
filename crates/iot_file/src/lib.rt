//! A disk over a real file.
#![tactic(auto)]

mod opening;
mod own;
#[cfg(test)]
mod tests;

pub use opening::{FileDisk, OpenFault, open};
