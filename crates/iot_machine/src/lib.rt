//! The plain machine: what the service does, without disks, messages or records. Its only code are laws, each the contract of a function
//! that does nothing; all else are the definitions that the crates above cite.
#![tactic(auto)]

pub mod laws;
