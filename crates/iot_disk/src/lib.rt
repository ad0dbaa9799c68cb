//! A disk whose calls may fail, what a crash may leave of it, and a disk in memory for programs and tests.
#![tactic(auto)]

mod bodies;
mod bytes;
mod disk;
mod durable;
mod failures;
mod faults;
mod memory;
mod unsynced;

pub use bodies::{Bodies, BodyIterator};
pub use disk::{Arm, Disk, DiskFault, LIMIT, Pick};
pub use durable::keep;
pub use faults::{JournalFault, StartFault};
pub use memory::MemDisk;
