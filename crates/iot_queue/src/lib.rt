//! The transactions of a client that wait for the server, first in first out.
#![tactic(auto)]

mod items;
mod waiting;

pub use items::{Item, Resolution, Stage};
pub use waiting::Queue;
