//! How a start and an append end if they do not succeed.
ghost use Rattle.std.specs.Prelude.{◌≡◌};
ghost use Rattle.iot_disk.specs.Faults.{start_fault_of, journal_fault_of};
ghost use Rattle.iot_disk.specs.declared.faults.StartFault.TheVariants.{NoMemory as StartNoMemory};
ghost use Rattle.iot_disk.specs.declared.faults.JournalFault.TheVariants.{NoMemory as JournalNoMemory};

use crate::DiskFault;
use std::alloc::AllocError;
use thiserror::Error;

/// Why a start gives nothing.
#[derive(Clone, Copy, Debug, PartialEq, Eq, Error)]
pub enum StartFault {
    #[error("out of memory")]
    NoMemory,
    /// The disk failed in this call.
    #[error("the disk failed")]
    Stopped,
    /// Something else wrote the disk.
    #[error("no disk of this program")]
    Foreign,
    /// A cell, a checkpoint or a record is cut short, spells nothing, or cannot follow what comes before it. `at` is where.
    #[error("damaged at {at}")]
    Damaged { at: u64 },
}

/// Why a record or a checkpoint may not be on the disk.
#[derive(Clone, Copy, Debug, PartialEq, Eq, Error)]
pub enum JournalFault {
    #[error("out of memory")]
    NoMemory = 1,
    /// The disk failed in this call.
    #[error("the disk failed")]
    Stopped = 2,
}

impl From<DiskFault> for StartFault {
    ghost from_gives = { λ fault start. start ≡ start_fault_of fault };

    fn from(fault: DiskFault) -> Self {
        match fault {
            DiskFault::NoMemory => StartFault::NoMemory,
            DiskFault::Failed => StartFault::Stopped,
        }
    }
}

impl From<AllocError> for StartFault {
    ghost from_gives = { λ _ start. start ≡ StartNoMemory };

    fn from(_: AllocError) -> Self {
        StartFault::NoMemory
    }
}

impl From<DiskFault> for JournalFault {
    ghost from_gives = { λ fault journal. journal ≡ journal_fault_of fault };

    fn from(fault: DiskFault) -> Self {
        match fault {
            DiskFault::NoMemory => JournalFault::NoMemory,
            DiskFault::Failed => JournalFault::Stopped,
        }
    }
}

impl From<AllocError> for JournalFault {
    ghost from_gives = { λ _ journal. journal ≡ JournalNoMemory };

    fn from(_: AllocError) -> Self {
        JournalFault::NoMemory
    }
}
