//! Reading input and writing output, in which each fault has a cause that can be seen.
//!
//! A [`Source`] and a [`Sink`] count their faults. A call answers `Failed` only if the count rose, so a program that says
//! "the input could not be read" can be held to it. [`read_all`] and [`write_all`] are the two loops over them.
//! `MemSource` and `MemSink` are in memory and fail at chosen calls; `StdSource` and `StdSink` are standard input and
//! output.
#![tactic(auto)]

mod faults;
mod mem_sink;
mod mem_source;
mod numbers;
mod reading;
mod standard;
mod traits;
mod writing;

pub use faults::{Failed, ReadFault, SinkFault};
pub use mem_sink::MemSink;
pub use mem_source::MemSource;
pub use reading::{read_all, read_front, zeros};
pub use standard::{StdSink, StdSource};
pub use traits::{Sink, Source};
pub use writing::write_all;
