//! Why words name no job.
ghost use Rattle.std.specs.Prelude.{◌≡◌};

use std::alloc::AllocError;
use thiserror::Error;

/// Why words name no job.
#[derive(Clone, Copy, Debug, PartialEq, Eq, Error)]
pub enum WordsFault {
    /// Memory ran out. No clause says when this comes.
    #[error("out of memory")]
    NoMemory,

    /// The words are no flag or option of the command, or name two jobs.
    #[error("faulty command line")]
    Refused,
}

impl From<AllocError> for WordsFault {
    ghost use Rattle.iot_words.specs.declared.faults.WordsFault.TheVariants.{NoMemory};

    ghost from_gives = { λ _ fault. fault ≡ NoMemory };

    fn from(_error: AllocError) -> WordsFault {
        WordsFault::NoMemory
    }
}
