//! What is durable of a client, kept on a disk as a checkpoint and the changes after it: after each crash it is what it was before a
//! change, or what it was after it.
#![tactic(auto)]

mod body;
mod bringing;
mod checks;
mod durable;
mod following;
mod guards;
mod kept;
mod laws;
mod memory;
mod recorded;
mod running;
mod versions;

pub use bringing::{BringFault, Purpose};
pub use iot_bodies::RUN_LIMIT;
pub use iot_changes::Change;
pub use iot_disk::{JournalFault, StartFault};
pub use kept::Kept;
pub use laws::{a_cut_is_its_prefix, a_disk_stands_for_one, pending_reads_stay};
pub use running::Running;
