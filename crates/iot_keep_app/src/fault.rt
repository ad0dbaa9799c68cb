//! Why serving ends before the input does.
ghost use Rattle.std.specs.Prelude.{◌≡◌};
ghost use Rattle.iot_keep_app.specs.Status.{code_of, of_start};
ghost use Rattle.iot_keep_app.specs.declared.fault.ServeFault.TheVariants.{NoMemory, ReadFailed, WriteFailed};

use iot_disk::StartFault;
use iot_io::{Failed, SinkFault};
use std::alloc::AllocError;
use thiserror::Error;

/// Why serving ends before the input does.
#[derive(Clone, Copy, Debug, PartialEq, Eq, Error)]
pub enum ServeFault {
    /// Something else wrote the disk.
    #[error("the file is no disk of a server")]
    Foreign,
    /// What stands at this place of the disk is cut short, spells nothing, or cannot follow what comes before it.
    #[error("the file is damaged at {at}")]
    Damaged { at: u64 },
    #[error("out of memory")]
    NoMemory,
    /// The disk failed. One that was to append a commit has the commits before it, or these and the new one.
    #[error("the disk failed")]
    Stopped,
    /// A read of the input failed.
    #[error("the input could not be read")]
    ReadFailed,
    /// The input ends inside a frame.
    #[error("the input ends in a frame")]
    Cut,
    /// A frame has more than `FRAME_LIMIT` bytes.
    #[error("a frame is too long")]
    TooLong,
    /// A write failed, or took nothing.
    #[error("the output could not be written")]
    WriteFailed,
    /// 2^64 - 1 requests were answered, and no more are.
    #[error("no more requests are answered")]
    TooMany,
}

impl ServeFault {
    /// The status with which a process ends that serves. 0 is that of the end of the input, and 1 and 2 stand for faulty words, and for a
    /// file that gives no disk.
    pub fn code(self) -> u8
        ensures { result ≡ code_of self }
    {
        match self {
            ServeFault::Foreign => 3,
            ServeFault::Damaged { .. } => 4,
            ServeFault::NoMemory => 5,
            ServeFault::Stopped => 6,
            ServeFault::ReadFailed => 7,
            ServeFault::Cut => 8,
            ServeFault::TooLong => 9,
            ServeFault::WriteFailed => 10,
            ServeFault::TooMany => 11,
        }
    }
}

impl From<AllocError> for ServeFault {
    ghost from_gives = { λ _ fault. fault ≡ NoMemory };

    fn from(_error: AllocError) -> Self {
        ServeFault::NoMemory
    }
}

impl From<Failed> for ServeFault {
    ghost from_gives = { λ _ fault. fault ≡ ReadFailed };

    fn from(_failed: Failed) -> Self {
        ServeFault::ReadFailed
    }
}

impl From<SinkFault> for ServeFault {
    ghost from_gives = { λ _ fault. fault ≡ WriteFailed };

    fn from(_fault: SinkFault) -> Self {
        ServeFault::WriteFailed
    }
}

impl From<StartFault> for ServeFault {
    ghost from_gives = { λ start fault. fault ≡ of_start start };

    fn from(fault: StartFault) -> Self {
        match fault {
            StartFault::NoMemory => ServeFault::NoMemory,
            StartFault::Stopped => ServeFault::Stopped,
            StartFault::Foreign => ServeFault::Foreign,
            StartFault::Damaged { at } => ServeFault::Damaged { at },
        }
    }
}
