//! Days that go on tomorrow: the events of all inputs so far are in a journal on a disk that outlives the process, and so is how much of
//! their transcript was said. A run does those of the earlier inputs again, on disks in memory, and writes only what was not said before.
#![tactic(auto)]

mod going;
mod input;
mod past;
mod playing;
mod refusing;
mod status;
#[cfg(test)]
mod tests;
mod writing;

pub use going::{Outcome, go_on};
