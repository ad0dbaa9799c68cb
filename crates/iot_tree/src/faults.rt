//! Why rows are refused.
use thiserror::Error;

/// Why rows were not taken as a tree.
#[derive(Debug, Drop, Error)]
pub enum RowFault {
    /// There was no memory for the tree.
    #[error("out of memory")]
    NoMemory,

    /// The rows are no tree, or not in the order of their paths. `at` is the place, counted from 0,
    /// of the first row that does not go with the rows before it; 0 if there is no row at all.
    #[error("not a tree, from row {at} on")]
    NoTree { at: u64 },
}
