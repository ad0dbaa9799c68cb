//! Looking at nodes: the lines that say what a tree, a queue, a transaction and a list of commits hold.
#![tactic(auto)]

mod commits;
mod pieces;
mod reading;
mod rows;
mod snapshot;
mod values;
mod waiting;

pub use commits::log;
pub use pieces::put_question;
pub use reading::reads;
pub use rows::show;
pub use snapshot::Json;
pub use waiting::{RunLine, queue};
