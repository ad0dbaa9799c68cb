//! What a single step comes to.
use iot_text::{Path, Text};

/// What a single step came to.
#[derive(Drop)]
pub enum Step {
    /// An act was done.
    Acted {
        /// How many acts are done now.
        acts: u64,
        /// Whether the script has ended now.
        ended: bool,
    },

    /// Nothing was done: the next act asks about a path that the view does not know.
    Fetch {
        /// The request for it.
        request: Text,
        /// The path.
        path: Path,
    },

    /// Nothing was done: the script has ended.
    AtEnd {
        /// How many acts are done.
        acts: u64,
    },

    /// Nothing was done: the script has not ended, but may do no more acts.
    AtLimit {
        /// How many acts are done.
        acts: u64,
    },
}
