//! What a client sends of its tree, and what a server answers: paths and rows with stamps.
use crate::{Node, Paths, Sequence};
use iot_text::Path;

/// Paths with their stamps.
pub type Known = Sequence<(Path, u64)>;

/// Rows with their stamps.
pub type StampedRows = Sequence<(Path, (Node, u64))>;

/// What changed in a server's tree for a client.
#[derive(Drop)]
pub struct Changes {
    /// The rows that are new to the client, with their stamps.
    pub rows: StampedRows,
    /// The paths that are gone.
    pub gone: Paths,
}
