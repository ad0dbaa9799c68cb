//! Why a request has no reply.
ghost use Rattle.std.specs.Prelude.{◌≡◌};
ghost use Rattle.iot_server.specs.Faults.{of_codec, of_journal};
ghost use Rattle.iot_server.specs.declared.fault.ServerFault.TheVariants.{NoMemory as ServerNoMemory};

use iot_codec::CodecFault;
use iot_disk::JournalFault;
use iot_text::NoMemory;
use thiserror::Error;

/// Why a request has no reply.
#[derive(Clone, Copy, Debug, PartialEq, Eq, Error)]
pub enum ServerFault {
    #[error("out of memory")]
    NoMemory,
    /// The bytes are no request. `at` is the offset of the first fault from the left.
    #[error("no request, from offset {at} on")]
    Malformed { at: u64 },
    /// A disk failed in this call, which was to append a commit.
    #[error("the disk failed")]
    Stopped,
}

impl From<CodecFault> for ServerFault {
    ghost from_gives = { λ codec fault. fault ≡ of_codec codec };

    fn from(fault: CodecFault) -> Self {
        match fault {
            CodecFault::NoMemory => ServerFault::NoMemory,
            CodecFault::Malformed { at } => ServerFault::Malformed { at },
        }
    }
}

impl From<JournalFault> for ServerFault {
    ghost from_gives = { λ journal fault. fault ≡ of_journal journal };

    fn from(fault: JournalFault) -> Self {
        match fault {
            JournalFault::NoMemory => ServerFault::NoMemory,
            JournalFault::Stopped => ServerFault::Stopped,
        }
    }
}

impl From<NoMemory> for ServerFault {
    ghost from_gives = { λ _ fault. fault ≡ ServerNoMemory };

    fn from(_failed: NoMemory) -> Self {
        ServerFault::NoMemory
    }
}
