//! What a start gives.
ghost use Rattle.std.specs.Prelude.{◌≡◌};

use iot_disk::Bodies;
use std::marker::Model;

/// The body of a checkpoint.
#[derive(Debug, Drop)]
pub struct Body {
    bytes: Vec<u8>,
}

impl Model for Body {
    ghost use Rattle.std.specs.Prelude.{List, ℕ};

    ghost Value = { List ℕ };

    ghost view = { λ body. body.bytes.items };
}

impl Body {
    /// The bytes as a slice.
    pub fn as_slice(&self) -> &[u8]
        ensures { result.now ≡ self.now }
    {
        &self.bytes
    }

    /// Gives the bytes back. Does not allocate.
    pub fn into_vec(self) -> Vec<u8>
        ensures { result.items ≡ self }
    {
        self.bytes
    }
}

impl From<Vec<u8>> for Body {
    ghost use Rattle.std.specs.Prelude.{◌≡◌};

    ghost from_gives = { λ bytes body. body ≡ bytes.items };

    fn from(bytes: Vec<u8>) -> Self {
        Body { bytes }
    }
}

/// The state that a disk encoded when slots were started from it.
#[derive(Debug, Drop)]
pub struct Started {
    /// The version in which the body and the records are spelled: 1 or 2.
    pub version: u8,
    pub body: Body,
    pub records: Bodies,
}
