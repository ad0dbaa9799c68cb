//! The server: a client's request in bytes, and its reply.
#![tactic(auto)]

mod answering;
mod fault;
mod server;
mod traffic;

pub use fault::ServerFault;
pub use iot_disk::StartFault;
pub use server::Server;
pub use traffic::Traffic;
