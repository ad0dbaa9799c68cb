//! What a client is told of a transaction that it submitted.

/// What a client is told of a transaction that it submitted.
#[derive(Drop)]
pub enum Noted {
    /// It is committed, under this number.
    Settled { number: u64 },

    /// A read of it, counted from 1, has another answer now.
    Conflict { read: u64 },
}
