//! A client over its disk: what it holds of the server's tree, its transactions that wait, and those that run. Each of its changes is
//! one record on the disk.
#![tactic(auto)]

mod asks;
mod client;
mod ended;
mod fault;
mod interpreter;
mod noted;
mod noting;
mod objects;
mod questions;
mod refusals;
mod replies;
mod requests;
mod running;
mod steps;
mod waiting;

pub use asks::Ask;
pub use client::Client;
pub use ended::Ended;
pub use fault::ClientFault;
pub use iot_disk::StartFault;
pub use iot_kept::Running;
pub use noted::Noted;
pub use questions::question_at;
pub use steps::Step;
