//! A server over a disk that answers framed requests from a source on a sink: one call, `serve`.
//!
//! A frame is the number of its bytes, as eight bytes, most significant first, and these bytes. Each frame that is read is answered by one:
//! a request by its reply, and bytes that are the spelling of no request by an empty frame.
#![tactic(auto)]

mod fault;
mod frames;
mod job;
mod serving;
#[cfg(test)]
mod tests;

pub use fault::ServeFault;
pub use frames::FRAME_LIMIT;
pub use job::{Outcome, serve};
