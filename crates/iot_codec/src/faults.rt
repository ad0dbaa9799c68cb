//! Why bytes are refused.
ghost use Rattle.std.specs.Prelude.{◌≡◌};

use iot_text::NoMemory;
use iot_views::Malformed;
use std::alloc::AllocFailed;
use thiserror::Error;

/// Why no value was read.
#[derive(Debug, Drop, Error)]
pub enum CodecFault {
    /// There was no memory for the value. No clause says when this comes.
    #[error("out of memory")]
    NoMemory,

    /// No value of the type is spelled there. `at` is the offset of the first part, from the left,
    /// that is missing, cut short or breaks its rule; of a path, name or node that breaks the order
    /// of its list or the rules of a tree, it is where that path, name or node begins.
    #[error("malformed bytes, from offset {at} on")]
    Malformed { at: u64 },
}

impl From<NoMemory> for CodecFault {
    ghost use Rattle.iot_codec.specs.declared.faults.CodecFault.TheVariants.{NoMemory};

    ghost from_gives = { λ _ fault. fault ≡ NoMemory };

    fn from(_error: NoMemory) -> CodecFault {
        CodecFault::NoMemory
    }
}

impl<T: Drop> From<AllocFailed<T>> for CodecFault {
    ghost use Rattle.iot_codec.specs.declared.faults.CodecFault.TheVariants.{NoMemory};

    ghost from_gives = { λ _ fault. fault ≡ NoMemory };

    fn from(_failed: AllocFailed<T>) -> CodecFault {
        CodecFault::NoMemory
    }
}

impl From<Malformed> for CodecFault {
    ghost use Rattle.iot_codec.specs.declared.faults.CodecFault.TheVariants as faults;

    ghost from_gives = { λ malformed fault. fault ≡ faults.Malformed malformed.at };

    fn from(malformed: Malformed) -> CodecFault {
        CodecFault::Malformed { at: malformed.at }
    }
}
