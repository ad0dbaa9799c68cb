//! What a client wants to take along.
use crate::Sequence;
use iot_text::Path;

/// How far a wish reaches.
#[derive(Clone, Copy, Debug, PartialEq, Eq)]
pub enum Reach {
    /// The path, and those above it.
    Path,

    /// All paths below it, too.
    Below,
}

/// A line of a profile.
#[derive(Drop)]
pub struct Wish {
    /// The greater, the sooner it is taken; from 1 to 1,000.
    pub priority: u64,

    pub path: Path,

    pub reach: Reach,
}

/// The wishes of a client, in the order of their lines.
pub type Profile = Sequence<Wish>;
