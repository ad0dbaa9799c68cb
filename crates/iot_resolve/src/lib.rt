//! Another run in the place of a transaction that conflicts.
#![tactic(auto)]

mod files;
mod job;
mod plan;

pub use job::resolve;
pub use plan::{Plan, plan_of};
