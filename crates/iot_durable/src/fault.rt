//! How the note of a change ends if it does not succeed.
ghost use Rattle.std.specs.Prelude.{◌≡◌};
ghost use Rattle.iot_durable.specs.Faults.{before_of, in_doubt_of, journal_of};
ghost use Rattle.iot_durable.specs.declared.fault.NoteFault.TheVariants.{NoMemory as OfMemory};

use iot_disk::JournalFault;
use iot_text::NoMemory;
use thiserror::Error;

/// Why a change was not noted.
#[derive(Clone, Copy, Debug, PartialEq, Eq, Error)]
pub enum NoteFault {
    /// There was no memory: the change is not on the disk. If there are two, it may be on the first.
    #[error("out of memory")]
    NoMemory,

    /// A disk failed in a checkpoint that came before the record: the change is on no disk.
    #[error("the disk failed before the record")]
    StoppedBefore,

    /// A disk failed in the append of the record: the change may be on a disk or not.
    #[error("the disk failed in the record")]
    StoppedInDoubt,
}

/// What a fault of a checkpoint is, which comes before the record.
pub(crate) fn before(fault: JournalFault) -> NoteFault
    ensures { result ≡ before_of fault }
{
    match fault {
        JournalFault::NoMemory => NoteFault::NoMemory,
        JournalFault::Stopped => NoteFault::StoppedBefore,
    }
}

/// What a fault of the append of the record is.
pub(crate) fn in_doubt(fault: JournalFault) -> NoteFault
    ensures { result ≡ in_doubt_of fault }
{
    match fault {
        JournalFault::NoMemory => NoteFault::NoMemory,
        JournalFault::Stopped => NoteFault::StoppedInDoubt,
    }
}

impl From<NoMemory> for NoteFault {
    ghost from_gives = { λ _ fault. fault ≡ OfMemory };

    fn from(_: NoMemory) -> Self {
        NoteFault::NoMemory
    }
}

impl From<NoteFault> for JournalFault {
    ghost from_gives = { λ note fault. fault ≡ journal_of note };

    fn from(fault: NoteFault) -> Self {
        match fault {
            NoteFault::NoMemory => JournalFault::NoMemory,
            NoteFault::StoppedBefore => JournalFault::Stopped,
            NoteFault::StoppedInDoubt => JournalFault::Stopped,
        }
    }
}
