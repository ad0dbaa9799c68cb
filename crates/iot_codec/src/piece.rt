//! Short spellings, put together before they are appended.
ghost use Rattle.std.specs.Prelude.{◌≡◌, ◌≤◌, ◌+◌, ◌++◌, [], length};

use std::marker::Model;

/// How many bytes a piece has room for.
pub(crate) const PIECE: usize = 128;

/// Up to `PIECE` bytes in no memory of their own. Contracts see them as their list.
#[derive(Drop)]
pub(crate) struct Piece {
    len: usize,
    room: [u8; PIECE],
}

impl Model for Piece {
    ghost use Rattle.std.specs.Prelude.{ℕ, List, ◌≤◌, take};
    ghost use Rattle.iot_codec.specs.declared.piece.TheConstants.{PIECE};

    ghost Value = { List ℕ };

    ghost view = { λ piece. take piece.len piece.room };

    ghost invariant = { λ piece. piece.len ≤ PIECE };
}

impl Piece {
    /// No bytes.
    pub fn new() -> Piece
        ensures { result ≡ [] }
    {
        Piece {
            len: 0,
            room: [0; PIECE],
        }
    }

    /// Puts the bytes after those that are there.
    pub fn put(&mut self, bytes: &[u8])
        requires { length self.old + length bytes.now ≤ 128 }
        ensures { self.new ≡ self.old ++ bytes.now }
    {
        let end = self.len + bytes.len();
        self.room[self.len..end].copy_from_slice(bytes);
        self.len = end;
    }

    /// The bytes.
    pub fn as_slice(&self) -> &[u8]
        ensures { result.now ≡ self.now }
    {
        &self.room[..self.len]
    }
}
