//! What a transaction that waits needs of the server.
use iot_text::Text;

/// What the first transaction that waits needs of the server.
#[derive(Drop)]
pub enum Ask {
    /// That it be committed: this is the request.
    Commit(Text),

    /// The whole tree, on which it is to be resolved: this is the request.
    Whole(Text),

    /// Nothing: it waits for a decision by hand.
    Manual,
}
