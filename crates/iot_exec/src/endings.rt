//! How commands end.
ghost use Rattle.std.specs.Prelude.{◌≡◌};

use iot_text::{NoMemory, Path, Text};
use iot_tree::{Lines, Update};
use std::alloc::AllocFailed;

/// What a command does that is not refused.
#[derive(Drop)]
pub(crate) enum Success {
    /// Makes this update.
    Makes(Update),

    /// Prints these lines.
    Prints(Lines),

    /// Sets this variable to this value.
    Sets(Text, Text),
}

/// Why a command is refused.
#[derive(Drop)]
pub(crate) enum Refusal {
    /// An operand's value has too many bytes.
    TooLarge,

    /// An operand's value is no path's text.
    BadPath,

    /// A reason at a path.
    At(Path, Reason),
}

/// What is wrong at a path.
#[derive(Clone, Copy)]
pub(crate) enum Reason {
    NotCached,
    Exists,
    NoFile,
    NoDirectory,
    NoSuchPath,
    IsDirectory,
    IsNoDirectory,
    IsRoot,
    NotEmpty,
    IntoItself,
    TooLarge,
    NothingKept,
}

/// Why a command did not come to its end.
#[derive(Drop)]
pub(crate) enum Stop {
    /// There was no memory for it.
    NoMemory,

    /// It is refused.
    Refused(Refusal),
}

impl From<NoMemory> for Stop {
    ghost use Rattle.iot_exec.specs.declared.endings.Stop.TheVariants.{NoMemory};

    ghost from_gives = { λ _ stop. stop ≡ NoMemory };

    fn from(_error: NoMemory) -> Stop {
        Stop::NoMemory
    }
}

impl<T: Drop> From<AllocFailed<T>> for Stop {
    ghost use Rattle.iot_exec.specs.declared.endings.Stop.TheVariants.{NoMemory};

    ghost from_gives = { λ _ stop. stop ≡ NoMemory };

    fn from(_failed: AllocFailed<T>) -> Stop {
        Stop::NoMemory
    }
}
