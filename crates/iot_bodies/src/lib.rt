//! The bodies of checkpoints: the whole of what a server keeps, and of what a client keeps, as bytes. Each has one spelling.
//!
//! A body is its parts, spelled as everywhere. It takes up the whole input: bytes that are left after it are a fault at the
//! first of them.
#![tactic(auto)]

mod client;
mod parts;
mod queued;
mod running;
mod server;
mod stages;
mod waiting;

pub use client::{ClientBody, Running, Waiting, put_client, read_client};
pub use running::{RUN_LIMIT, Runs, put_running};
pub use server::{ServerBody, put_server, read_server};
