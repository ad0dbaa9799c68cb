//! Why a call of a node does not go on.
ghost use Rattle.std.specs.Prelude.{◌≡◌};
ghost use Rattle.iot_node.specs.declared.halt.Halt.TheVariants.{NoMemory as OfMemory};

use iot_text::NoMemory;

/// Why a call does not go on.
#[derive(Clone, Copy, Drop)]
pub enum Halt {
    /// There is no memory.
    NoMemory,

    /// The event is over: the node has stopped, or has refused. That was said, and nothing more is done in this event.
    Over,
}

impl From<NoMemory> for Halt {
    ghost from_gives = { λ _ halt. halt ≡ OfMemory };

    fn from(_: NoMemory) -> Self {
        Halt::NoMemory
    }
}
