//! Why a text is no script.
use crate::NoMemory;
use std::alloc::AllocFailed;
use thiserror::Error;

/// Why a text was not parsed as a script. Lines count from 0.
///
/// `line` is the first one such that the lines up to and with it begin no script. If each line is
/// good, but a block is open after the last one, it is the number of lines.
#[derive(Debug, Drop, Error)]
pub enum LangFault {
    /// There was no memory for the script. Running out of memory is always allowed.
    #[error("out of memory")]
    NoMemory,

    /// The line is no statement, or none that is allowed there.
    #[error("line {line} is no statement")]
    BadStatement { line: u64 },

    /// The line opens a block inside 16 others.
    #[error("line {line} opens a block too many")]
    TooDeep { line: u64 },
}

/// Why a part of a line was not parsed.
#[derive(Drop)]
pub(crate) enum PartFault {
    NoMemory,
    Malformed,
}

impl From<NoMemory> for PartFault {
    ghost use Rattle.std.specs.Prelude.{◌≡◌};
    ghost use Rattle.iot_lang.specs.declared.faults.PartFault.TheVariants.{NoMemory};

    ghost from_gives = { λ _ e. e ≡ NoMemory };

    fn from(_error: NoMemory) -> PartFault {
        PartFault::NoMemory
    }
}

impl<T: Drop> From<AllocFailed<T>> for PartFault {
    ghost use Rattle.std.specs.Prelude.{◌≡◌};
    ghost use Rattle.iot_lang.specs.declared.faults.PartFault.TheVariants.{NoMemory};

    ghost from_gives = { λ _ e. e ≡ NoMemory };

    fn from(_failed: AllocFailed<T>) -> PartFault {
        PartFault::NoMemory
    }
}

/// Why the next line was not taken.
#[derive(Drop)]
pub(crate) enum LineFault {
    NoMemory,
    BadStatement,
    TooDeep,
}

impl From<NoMemory> for LineFault {
    ghost use Rattle.std.specs.Prelude.{◌≡◌};
    ghost use Rattle.iot_lang.specs.declared.faults.LineFault.TheVariants.{NoMemory};

    ghost from_gives = { λ _ e. e ≡ NoMemory };

    fn from(_error: NoMemory) -> LineFault {
        LineFault::NoMemory
    }
}

impl<T: Drop> From<AllocFailed<T>> for LineFault {
    ghost use Rattle.std.specs.Prelude.{◌≡◌};
    ghost use Rattle.iot_lang.specs.declared.faults.LineFault.TheVariants.{NoMemory};

    ghost from_gives = { λ _ e. e ≡ NoMemory };

    fn from(_failed: AllocFailed<T>) -> LineFault {
        LineFault::NoMemory
    }
}

impl From<PartFault> for LineFault {
    ghost use Rattle.std.specs.Prelude.{◌≡◌};
    ghost use Rattle.iot_lang.specs.Faults.{line_fault};

    ghost from_gives = { λ r e. e ≡ line_fault r };

    fn from(fault: PartFault) -> LineFault {
        match fault {
            PartFault::NoMemory => LineFault::NoMemory,
            PartFault::Malformed => LineFault::BadStatement,
        }
    }
}

impl LineFault {
    ghost use Rattle.std.specs.Prelude.{◌≡◌};
    ghost use Rattle.iot_lang.specs.Faults.{fault_at};

    /// The fault of the script whose line with this number was refused.
    pub(crate) fn at(self, line: u64) -> LangFault
        ensures { result ≡ fault_at self line }
    {
        match self {
            LineFault::NoMemory => LangFault::NoMemory,
            LineFault::BadStatement => LangFault::BadStatement { line },
            LineFault::TooDeep => LangFault::TooDeep { line },
        }
    }
}
