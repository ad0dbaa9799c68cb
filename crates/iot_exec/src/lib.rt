//! The interpreter of scripts.
#![tactic(auto)]

mod asking;
mod commands;
mod conditions;
mod contents;
mod endings;
mod env;
mod exec;
mod finding;
mod finding_job;
mod going;
mod job;
mod kept;
mod lines;
mod performing;
mod position;
mod ran;
mod refusals;
mod table;
mod turns;
mod variables;

pub use exec::{Exec, Tried};
pub use finding_job::run_finding;
pub use job::{run, run_on};
pub use ran::{Acted, Found, Ran};
