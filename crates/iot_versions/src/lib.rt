//! What a server's disk holds, read in either version of the format: bodies of checkpoints, and commits.
//!
//! Version 1 is only read. It is version 2 without modes: no file has one, no run asks for one or changes one, and contents are
//! of at most 8,192 bytes. What is spelled otherwise are trees alone, whose files have no byte for the mode. They are spelled
//! anew, and then read as all others.
#![tactic(auto)]

mod bodies;
mod commits;
mod respell;
mod rows;
mod servers;
mod values;

pub use bodies::read_server;
pub use commits::is_old_commit;
