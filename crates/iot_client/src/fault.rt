//! Why a client refuses a call.
ghost use Rattle.std.specs.Prelude.{◌≡◌};
ghost use Rattle.iot_client.specs.declared.fault.ClientFault.TheVariants.{NoMemory as no_memory};
ghost use Rattle.iot_client.specs.Faults.{of_codec, of_journal};

use iot_codec::CodecFault;
use iot_disk::JournalFault;
use iot_text::NoMemory;
use thiserror::Error;

/// Why a client refuses a call. After `NoMemory` and `Stopped` of a call that changes it only `into_disk` says anything more: start again
/// from the disk. Every other refusal leaves it as it was.
#[derive(Debug, Drop, Error)]
pub enum ClientFault {
    /// Memory ran out, which is always allowed.
    #[error("out of memory")]
    NoMemory,

    /// The disk failed in this call, which was to append a record.
    #[error("the disk failed")]
    Stopped,

    /// As many transactions run as may.
    #[error("too many transactions run")]
    Busy,

    /// Transactions wait.
    #[error("transactions wait")]
    Pending,

    /// The transaction does not run.
    #[error("the transaction does not run")]
    Idle,

    /// The script has not ended, and may do more acts.
    #[error("the script has not ended")]
    NotAtEnd,

    /// No transaction waits.
    #[error("no transaction waits")]
    Nothing,

    /// The first transaction that waits is not to be decided by hand.
    #[error("the first transaction is not in manual repair")]
    NotManual,

    /// The bytes are no reply of the kind that the call takes. `at` is the offset of their first fault, 0 if they are another reply, and
    /// their length if what they bring makes no tree.
    #[error("no such reply, from offset {at} on")]
    BadReply { at: u64 },
}

impl From<NoMemory> for ClientFault {
    ghost from_gives = { λ _ fault. fault ≡ no_memory };

    fn from(_failed: NoMemory) -> ClientFault {
        ClientFault::NoMemory
    }
}

impl From<CodecFault> for ClientFault {
    ghost from_gives = { λ codec fault. fault ≡ of_codec codec };

    fn from(fault: CodecFault) -> ClientFault {
        match fault {
            CodecFault::NoMemory => ClientFault::NoMemory,
            CodecFault::Malformed { at } => ClientFault::BadReply { at },
        }
    }
}

impl From<JournalFault> for ClientFault {
    ghost from_gives = { λ journal fault. fault ≡ of_journal journal };

    fn from(fault: JournalFault) -> ClientFault {
        match fault {
            JournalFault::NoMemory => ClientFault::NoMemory,
            JournalFault::Stopped => ClientFault::Stopped,
        }
    }
}
