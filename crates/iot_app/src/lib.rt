//! The program as a function: the words of the command line name a job. For most jobs an event script is read, its events are done one by
//! one, and what the job asks for is written; for others an image of a server's disk is read, and what it shows is written.
#![tactic(auto)]

mod audit;
mod audit_lines;
mod disks;
mod doing;
mod events;
mod image;
mod input;
mod job;
mod parts;
mod play;
mod refusing;
mod running;
mod saving;
mod status;
mod summary;
mod tally;
mod writing;

pub use disks::empty_disks;
pub use image::IMAGE_LIMIT;
pub use input::INPUT_LIMIT;
pub use job::{Outcome, run};
pub use refusing::refusal_line;
