//! Why an input is no event script.
ghost use Rattle.std.specs.Prelude.{◌≡◌};
ghost use Rattle.iot_event.specs.declared.fault.EventFault.TheVariants.{NoMemory as no_memory};

use iot_text::NoMemory;
use std::alloc::AllocFailed;
use thiserror::Error;

/// Why an input is no event script: the fault of its first bad line. Lines count from 1.
///
/// If a line has several faults, it is the first of them in the order below.
#[derive(Debug, Drop, Error)]
pub enum EventFault {
    /// Memory ran out, which is always allowed.
    #[error("out of memory")]
    NoMemory,

    /// The line breaks the rule on bytes and length, has none of the forms, opens a script or a profile that is not closed, or is no wish
    /// inside a profile.
    #[error("line {line}: bad line")]
    BadLine { line: u64 },

    /// The line names a client, a script or a profile that no earlier line declares.
    #[error("line {line}: unknown name")]
    UnknownName { line: u64 },

    /// The line declares a client, a script or a profile of a name that is taken.
    #[error("line {line}: named twice")]
    Twice { line: u64 },

    /// The line declares a client, a script or a profile more than there may be, or is a wish more than a profile may have.
    #[error("line {line}: too many")]
    TooMany { line: u64 },

    /// The line inside a script is no statement, or none that can stand there.
    #[error("line {line}: bad statement")]
    BadStatement { line: u64 },

    /// The line inside a script opens a 17th block: blocks nest at most 16 deep.
    #[error("line {line}: nested too deep")]
    TooDeep { line: u64 },
}

impl From<NoMemory> for EventFault {
    ghost from_gives = { λ _ fault. fault ≡ no_memory };

    fn from(_failed: NoMemory) -> EventFault {
        EventFault::NoMemory
    }
}

impl<T: Drop> From<AllocFailed<T>> for EventFault {
    ghost from_gives = { λ _ fault. fault ≡ no_memory };

    fn from(_failed: AllocFailed<T>) -> EventFault {
        EventFault::NoMemory
    }
}
