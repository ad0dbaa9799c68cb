//! The words of the command line: which job they name, or that they are refused.
#![tactic(auto)]

mod command;
mod faults;
mod jobs;
mod numbers;

pub use command::read_words;
pub use faults::WordsFault;
pub use jobs::{Job, Run};
