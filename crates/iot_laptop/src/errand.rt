//! What a client asks the server.
use iot_text::Path;
use iot_tree::{Profile, Want};

/// For what a client asks the server, to hold it.
#[derive(Clone, Copy)]
pub enum Errand<'a> {
    /// What it knows, and this besides.
    Refresh(&'a Want),

    /// What it knows, and this path besides, which the transaction with this number misses; then that begins anew.
    Fetch { number: u64, path: &'a Path },

    /// What the profile wishes, as much as fits into the limit.
    Walk { profile: &'a Profile, limit: u64 },
}
