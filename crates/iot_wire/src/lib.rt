//! Messages between a client and the server, as bytes: one spelling each.
//!
//! A message is its tag, which is one byte, and then its parts, spelled as everywhere. It takes up
//! the whole input: bytes that are left after it are a fault at the first of them.
#![tactic(auto)]

mod commits;
mod effects;
mod lent;
mod messages;
mod replies;
mod requests;

pub use commits::CommitView;
pub use effects::Effects;
pub use lent::{RequestView, lend_request};
pub use replies::{Reply, read_reply, write_reply};
pub use requests::{Request, put_commit, put_walk, read_request, write_request};
