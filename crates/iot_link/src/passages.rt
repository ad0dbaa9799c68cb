//! What may be lost in an exchange, and how far it got.

/// Which message of the next exchange is lost.
#[derive(Clone, Copy, Debug, PartialEq, Eq)]
pub enum Loss {
    /// The request: the server never sees it.
    Request,

    /// The reply: the server has answered, and the client never knows.
    Reply,
}

/// How far an exchange got.
#[derive(Clone, Copy, Debug, PartialEq, Eq)]
pub enum Passage {
    /// Nothing was sent, since the link is not up.
    Away,

    /// The request did not reach a live server.
    RequestLost,

    /// The server has answered, and the reply was lost.
    ReplyLost,

    /// Request and reply arrived.
    Both,
}
