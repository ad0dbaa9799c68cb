//! A client's link with the server: whether it is up, and which message it loses next.
//!
//! An exchange is one request and its reply. The link alone decides how far it gets, and a message that was lost leaves
//! the link down.
#![tactic(auto)]

mod connection;
mod passages;

pub use connection::Link;
pub use passages::{Loss, Passage};
