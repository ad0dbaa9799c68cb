//! The changes of what is durable of a client, as bytes: one spelling each.
//!
//! A change is its tag, which is one byte, and then its parts, spelled as everywhere. It takes up
//! the whole input: bytes that are left after it are a fault at the first of them.
#![tactic(auto)]

mod changes;
mod parts;
mod readers;
mod resolutions;
mod writers;

pub use changes::Change;
pub use readers::read_change;
pub use resolutions::{put_resolution, read_resolution};
pub use writers::{put_change, write_change};
