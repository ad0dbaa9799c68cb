//! A state that is in memory and on a disk, whatever it is. Each change of it is a record on the disk, and a checkpoint of the
//! whole state takes the place of many records. However a call ends, the disk stands for the state before it or for the one after.
#![tactic(auto)]

mod alone;
mod durable;
mod fault;
mod image;
mod log;
mod looking;
mod pair;
mod recorded;
mod replay;
mod room;

pub use durable::Durable;
pub use fault::NoteFault;
pub use image::{Found, read_image, spell_disk};
pub use log::Log;
pub use recorded::Recorded;
