//! What reading and writing may answer other than Ok.
use std::alloc::AllocError;
use thiserror::Error;

/// The call failed, took nothing, and the count of faults rose.
#[derive(Clone, Copy, Debug, PartialEq, Eq, Error)]
#[error("the call failed")]
pub struct Failed;

/// Why the input was not read to its end.
#[derive(Clone, Copy, Debug, PartialEq, Eq, Error)]
pub enum ReadFault {
    /// Memory ran out.
    #[error("out of memory")]
    NoMemory = 1,
    /// A read failed.
    #[error("the input could not be read")]
    Failed = 2,
    /// More bytes were given than the limit allows.
    #[error("the input is too long")]
    TooLong = 3,
}

/// Why the output was not written to its end.
#[derive(Clone, Copy, Debug, PartialEq, Eq, Error)]
pub enum SinkFault {
    /// A write failed.
    #[error("the output could not be written")]
    Failed = 1,
    /// A write took nothing of a piece that is not empty.
    #[error("the output takes nothing more")]
    TookNothing = 2,
}

impl From<Failed> for ReadFault {
    ghost use Rattle.std.specs.Prelude.{◌≡◌};
    ghost use Rattle.iot_io.specs.declared.faults.ReadFault.TheVariants as faults;

    ghost from_gives = { λ _ fault. fault ≡ faults.Failed };

    fn from(_failed: Failed) -> ReadFault {
        ReadFault::Failed
    }
}

impl From<AllocError> for ReadFault {
    ghost use Rattle.std.specs.Prelude.{◌≡◌};
    ghost use Rattle.iot_io.specs.declared.faults.ReadFault.TheVariants as faults;

    ghost from_gives = { λ _ fault. fault ≡ faults.NoMemory };

    fn from(_error: AllocError) -> ReadFault {
        ReadFault::NoMemory
    }
}

impl From<Failed> for SinkFault {
    ghost use Rattle.std.specs.Prelude.{◌≡◌};
    ghost use Rattle.iot_io.specs.declared.faults.SinkFault.TheVariants as faults;

    ghost from_gives = { λ _ fault. fault ≡ faults.Failed };

    fn from(_failed: Failed) -> SinkFault {
        SinkFault::Failed
    }
}
