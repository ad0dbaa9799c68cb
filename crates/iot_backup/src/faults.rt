//! How the start of a twin ends if it does not succeed.
ghost use Rattle.std.specs.Prelude.{◌≡◌};
ghost use Rattle.iot_backup.specs.Faults.{twin_fault_of};

use iot_disk::{JournalFault, StartFault};
use thiserror::Error;

/// Why a start gives no twin.
#[derive(Clone, Copy, Debug, PartialEq, Eq, Error)]
pub enum TwinFault {
    /// The refusal of the first disk if it has one, else that of the second; or memory ran out, or a disk failed.
    #[error("{0}")]
    Disk(StartFault),
    /// The first disk's count of records is neither the second's nor one more.
    #[error("{first} records on one disk and {second} on the other")]
    Apart { first: u64, second: u64 },
}

impl From<JournalFault> for TwinFault {
    ghost from_gives = { λ fault twin. twin ≡ twin_fault_of fault };

    fn from(fault: JournalFault) -> Self {
        match fault {
            JournalFault::NoMemory => TwinFault::Disk(StartFault::NoMemory),
            JournalFault::Stopped => TwinFault::Disk(StartFault::Stopped),
        }
    }
}
