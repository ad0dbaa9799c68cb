//! The same records on two disks, the second of which is the backup of the first. A record is written to the first disk and then to
//! the second, so after a crash the second lacks at most the last record, and the next start appends it there. Either disk alone is
//! enough to go on from.
#![tactic(auto)]

mod behind;
mod faults;
mod twin;

pub use faults::TwinFault;
pub use twin::Twin;
