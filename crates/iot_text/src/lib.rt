//! Names, paths and texts.
#![tactic(auto)]

mod faults;
mod names;
mod paths;
mod quoting;
mod shared;
mod texts;

pub use faults::TextFault;
pub use names::{NAME_LIMIT, Name};
pub use paths::Path;
pub use quoting::quote;
pub use std::alloc::AllocError as NoMemory;
pub use texts::Text;
