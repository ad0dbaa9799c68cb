//! Records on a disk, of which each has a gate of its own. A record counts once its gate is open, so a crash leaves it
//! whole or not at all.
#![tactic(auto)]

mod bytes;
mod records;
mod views;

pub use bytes::{CLOSED, OPEN, has_closed_gate, number_at, read_disk};
pub use records::{Found, read_records, spell_record};
pub use views::{LentRecords, RecordViews, lend_records};
