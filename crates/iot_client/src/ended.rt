//! What became of a transaction that was to end.
use iot_tree::Question;

/// What became of a transaction that was to end.
#[derive(Drop)]
pub enum Ended {
    /// It waits from now on.
    Joined {
        /// Its number at its client, from 1.
        tid: u64,

        /// Whether it is first class.
        first: bool,
    },

    /// A read of it has another answer on the view by now, and it starts again there, with no acts.
    Again {
        /// The place of the first such read among all of its reads, from 1.
        read: u64,

        /// What that read asked.
        question: Question,
    },
}
