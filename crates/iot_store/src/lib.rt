//! The server's list of commits, kept on a disk behind checkpoints: after each crash it is the list before a commit, or the one with it.
#![tactic(auto)]

mod body;
mod commit;
mod commits;
mod image;
mod lines;
mod recorded;
mod records;
mod store;

pub use commit::Commit;
pub use image::{Image, ImageFault};
pub use iot_disk::{JournalFault, StartFault};
pub use store::Store;
