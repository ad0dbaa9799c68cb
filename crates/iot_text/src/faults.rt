//! Why a text is refused.
ghost use Rattle.std.specs.Prelude.{◌≡◌};

use std::alloc::{AllocError, AllocFailed};
use thiserror::Error;

/// Why a text was not parsed.
#[derive(Debug, Drop, Error)]
pub enum TextFault {
    /// There was no memory for the value. Running out of memory is always allowed.
    #[error("out of memory")]
    NoMemory,

    /// The text is no name.
    #[error("not a name")]
    BadName,

    /// The text is no path. Its first `at` bytes are its longest beginning that begins some path's text.
    #[error("not a path, from byte {at} on")]
    BadPath { at: u64 },
}

impl From<AllocError> for TextFault {
    ghost use Rattle.iot_text.specs.declared.faults.TextFault.TheVariants.{NoMemory};

    ghost from_gives = { λ _ fault. fault ≡ NoMemory };

    fn from(_error: AllocError) -> TextFault {
        TextFault::NoMemory
    }
}

impl<T: Drop> From<AllocFailed<T>> for TextFault {
    ghost use Rattle.iot_text.specs.declared.faults.TextFault.TheVariants.{NoMemory};

    ghost from_gives = { λ _ fault. fault ≡ NoMemory };

    fn from(_failed: AllocFailed<T>) -> TextFault {
        TextFault::NoMemory
    }
}
