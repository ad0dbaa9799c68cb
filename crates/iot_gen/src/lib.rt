//! The generator: a long event script, made of a number.
#![tactic(auto)]

mod draws;
mod generating;
mod lines;
mod turns;

pub use generating::generate;
pub use iot_text::NoMemory;
