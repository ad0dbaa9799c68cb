//! The bodies of records.
ghost use Rattle.std.specs.Prelude.{◌≡◌, ◌++◌, ◌∷◌, [], List, ℕ, length, IsTrue, ◌↔◌, IfOk, OnOk, OnErr};
ghost use Rattle.std.specs.Iterator.{YieldsFirstRef, item_count};

use std::alloc::{AllocError, Global};
use std::marker::Model;

/// The bodies of the records that a start found, the oldest first. They stand one after another in one block of memory.
#[derive(Debug, Drop)]
pub struct Bodies {
    bytes: Vec<u8>,
    lengths: Vec<usize>,
}

impl Model for Bodies {
    ghost use Rattle.std.specs.Prelude.{◌≡◌, List, ℕ, length, sum};

    ghost Value = { List (List ℕ) };

    ghost use Rattle.iot_disk.specs.Bodies.{pieces};

    ghost view = { λ bodies. pieces bodies.lengths.items bodies.bytes.items };

    ghost invariant = { λ bodies. sum bodies.lengths.items ≡ length bodies.bytes.items };
}

impl Bodies {
    /// No bodies. Does not allocate.
    pub fn new(alloc: Global) -> Self
        ensures { result ≡ [] }
    {
        Bodies {
            bytes: Vec::new(alloc),
            lengths: Vec::new(alloc),
        }
    }

    /// No bodies, and room for bodies of as many bytes.
    pub fn with_capacity(alloc: Global, bytes: usize) -> Result<Self, AllocError>
        ensures { IfOk result (λ bodies. bodies ≡ []) }
    {
        Ok(Bodies {
            bytes: Vec::with_capacity(alloc, bytes)?,
            lengths: Vec::new(alloc),
        })
    }

    /// How many there are.
    pub fn len(&self) -> usize
        ensures { result ≡ length self.now }
    {
        self.lengths.len()
    }

    /// Whether there is none.
    pub fn is_empty(&self) -> bool
        ensures { IsTrue result ↔ (length self.now ≡ 0) }
    {
        self.len() == 0
    }

    /// Adds a body after the others.
    pub fn push(&mut self, body: &[u8]) -> Result<(), AllocError>
        ensures ok { OnOk result (self.new ≡ self.old ++ body.now ∷ []) }
        ensures err { OnErr result (self.new ≡ self.old) }
    {
        self.lengths.push(body.len())?;
        match self.bytes.extend_from_slice(body) {
            Ok(()) => Ok(()),
            Err(error) => {
                self.lengths.pop();
                Err(error)
            }
        }
    }

    /// The bodies, one after another. Does not allocate.
    pub fn iter(&self) -> BodyIterator<'_>
        ensures { result ≡ self.now }
    {
        BodyIterator {
            bytes: &self.bytes,
            lengths: &self.lengths,
        }
    }
}

/// The bodies of records, one after another. Contracts see it as the list of those that are left.
#[derive(Drop)]
pub struct BodyIterator<'a> {
    bytes: &'a [u8],
    lengths: &'a [usize],
}

impl<'a> Model for BodyIterator<'a> {
    ghost use Rattle.std.specs.Prelude.{◌≡◌, List, ℕ, length, sum};

    ghost Value = { List (List ℕ) };

    ghost use Rattle.iot_disk.specs.Bodies.{pieces};

    ghost view = { λ left. pieces left.lengths.now left.bytes.now };

    ghost invariant = { λ left. sum left.lengths.now ≡ length left.bytes.now };
}

impl<'a> Iterator for BodyIterator<'a> {
    type Item = &'a [u8];

    ghost next_gives = { YieldsFirstRef (λ left. left) };

    ghost remaining = { item_count (λ left. left) };

    fn next(&mut self) -> Option<&'a [u8]> {
        let (length, lengths) = self.lengths.split_first()?;
        let (body, bytes) = self.bytes.split_at(*length);
        self.lengths = lengths;
        self.bytes = bytes;
        Some(body)
    }
}
