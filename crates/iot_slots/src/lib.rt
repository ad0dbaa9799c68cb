//! A checkpoint and records after it on a disk. Records are appended, and a new checkpoint takes the place of both. A
//! crash leaves the state before or the state after, whenever it comes.
#![tactic(auto)]

mod cell;
mod copying;
mod decoding;
mod layout;
mod looked;
mod slots;
mod spelling;
mod start;
mod started;
mod version;

pub use cell::{Cell, Force};
pub use decoding::SlotsView;
pub use layout::Layout;
pub use looked::Looked;
pub use slots::Slots;
pub use spelling::spell_started;
pub use started::{Body, Started};
pub use version::Version;
