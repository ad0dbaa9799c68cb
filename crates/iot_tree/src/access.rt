//! What a transaction asks of the tree before it, and what it does to it.
use crate::{Reads, Sequence, Updates};

/// Places of reads.
pub type Places = Sequence<u64>;

/// What a transaction asks of the tree before it, each read with the place of the read of the run
/// from which it comes, and the updates in turn.
#[derive(Drop)]
pub struct Access {
    pub reads: Reads,
    pub updates: Updates,
    pub places: Places,
}
