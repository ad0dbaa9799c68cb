//! Event scripts: what an input asks for, line by line.
#![tactic(auto)]

mod bytes;
mod closing;
mod declared;
mod event;
mod fault;
mod form;
mod number;
mod parsing;
mod profiles;
mod script;
mod shared;

pub use bytes::LINE_LIMIT;
pub use declared::{CLIENT_LIMIT, PROFILE_LIMIT, SCRIPT_LIMIT};
pub use event::{Choice, ClientEvent, Event, LinkEvent, NodeEvent, Task};
pub use fault::EventFault;
pub use form::{READS_LIMIT, STEP_LIMIT, STOP_LIMIT, TRANSACTION_LIMIT};
pub use iot_disk::Pick;
pub use iot_text::NoMemory;
pub use parsing::parse;
pub use shared::{SharedProfile, SharedScript};
