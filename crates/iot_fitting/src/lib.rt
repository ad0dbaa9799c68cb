//! Whether updates fit a tree in turn, told without a copy of the tree: they are made in place, and undone.
#![tactic(auto)]

mod fitting;
mod undoing;

pub use fitting::fit_in_turn;
