//! How a run ends.
ghost use Rattle.std.specs.Prelude.{◌≡◌};
ghost use Rattle.iot_history.specs.Status.{code_of, ended_by_start, ended_by_append};
ghost use Rattle.iot_history.specs.declared.status.Status.TheVariants.{WriteFailed};

use iot_disk::{JournalFault, StartFault};
use iot_io::SinkFault;

/// How a run ends.
#[derive(Clone, Copy, Debug, PartialEq, Eq)]
pub(crate) enum Status {
    /// All that is new was written.
    Done,

    /// The input is refused, and the line that says so was written.
    Refused,

    /// A read failed.
    ReadFailed,

    /// A write failed, or took nothing.
    WriteFailed,

    /// There was no memory.
    NoMemory,

    /// The journal's disk failed.
    Stopped,

    /// The journal's disk is damaged, or something else wrote it.
    NoJournal,

    /// What is recorded is no event script.
    NoHistory,
}

impl Status {
    /// The number that the process ends with.
    pub(crate) fn code(self) -> u8
        ensures { result ≡ code_of self }
    {
        match self {
            Status::Done => 0,
            Status::Refused => 1,
            Status::ReadFailed => 3,
            Status::WriteFailed => 4,
            Status::NoMemory => 5,
            Status::Stopped => 6,
            Status::NoJournal => 7,
            Status::NoHistory => 8,
        }
    }
}

/// That of a run whose journal does not start.
impl From<StartFault> for Status {
    ghost from_gives = { λ fault status. status ≡ ended_by_start fault };

    fn from(fault: StartFault) -> Self {
        match fault {
            StartFault::NoMemory => Status::NoMemory,
            StartFault::Stopped => Status::Stopped,
            StartFault::Foreign => Status::NoJournal,
            StartFault::Damaged { .. } => Status::NoJournal,
        }
    }
}

/// That of a run that could not append to its journal.
impl From<JournalFault> for Status {
    ghost from_gives = { λ fault status. status ≡ ended_by_append fault };

    fn from(fault: JournalFault) -> Self {
        match fault {
            JournalFault::NoMemory => Status::NoMemory,
            JournalFault::Stopped => Status::Stopped,
        }
    }
}

impl From<SinkFault> for Status {
    ghost from_gives = { λ _ status. status ≡ WriteFailed };

    fn from(_fault: SinkFault) -> Self {
        Status::WriteFailed
    }
}
