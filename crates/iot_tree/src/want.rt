//! What a client wants to know besides what it knows.
use crate::Duplicate;
use iot_text::{NoMemory, Path};
use std::alloc::Global;

/// What a client wants to know besides what it knows.
#[derive(Drop)]
pub enum Want {
    /// No more than it knows.
    Nothing,
    /// A path and those above it.
    Path(Path),
    /// A path, those above it, and all paths below it.
    Below(Path),
}

impl Duplicate for Want {
    fn copy(&self, alloc: Global) -> Result<Want, NoMemory> {
        Ok(match self {
            Want::Nothing => Want::Nothing,
            Want::Path(path) => Want::Path(path.copy(alloc)?),
            Want::Below(path) => Want::Below(path.copy(alloc)?),
        })
    }
}
