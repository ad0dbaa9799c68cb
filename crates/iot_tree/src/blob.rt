//! The contents of files.
ghost use Rattle.std.specs.Prelude.{ℕ, List, ◌≡◌, ◌≤◌, ◌==◌, ◌↔◌, IsTrue, IfOk, length, nat_eq};
ghost use Rattle.std.specs.Cmp.{partial_equiv_from_equiv};
ghost use Rattle.std.specs.Cmp.Lexicographic.{pointwise, nat_list_eq_equiv};

use iot_text::NoMemory;
use std::alloc::Global;
use std::marker::Model;
use std::rc::Rc;

/// How many bytes lie in the value itself: as many as there is room for beside their number, where else an address is.
const FEW: usize = 14;

/// The contents of a file: any bytes. Contracts see it as their list. Copies share them, but a few are copied.
#[derive(Drop)]
pub struct Blob {
    bytes: Bytes,
}

/// Where the bytes lie.
#[derive(Drop)]
enum Bytes {
    Few { len: u8, room: [u8; FEW] },
    Many(Rc<Vec<u8>>),
}

impl Model for Blob {
    ghost use Rattle.std.specs.Prelude.{ℕ, List};
    ghost use Rattle.iot_tree.specs.Blob.{bytes_in, AreIn};

    ghost Value = { List ℕ };

    ghost view = { λ blob. bytes_in blob.bytes };

    ghost invariant = { λ blob. AreIn blob.bytes };
}

/// Bytes that lie in the value itself.
#[inline]
fn few(bytes: &[u8]) -> Blob
    requires { length bytes.now ≤ 14 }
    ensures { result ≡ bytes.now }
{
    let mut room = [0; FEW];
    room[..bytes.len()].copy_from_slice(bytes);
    Blob {
        bytes: Bytes::Few {
            len: bytes.len() as u8,
            room,
        },
    }
}

impl Blob {
    /// Takes these bytes, which its copies share.
    pub fn from_vec(bytes: Vec<u8>) -> Result<Blob, NoMemory>
        ensures { IfOk result (λ blob. blob ≡ bytes.items) }
    {
        if bytes.len() <= FEW {
            return Ok(few(&bytes));
        }
        let alloc = *bytes.allocator();
        Ok(Blob {
            bytes: Bytes::Many(Rc::new(alloc, bytes)?),
        })
    }

    /// Copies these bytes.
    pub fn from_slice(alloc: Global, bytes: &[u8]) -> Result<Blob, NoMemory>
        ensures { IfOk result (λ blob. blob ≡ bytes.now) }
    {
        if bytes.len() <= FEW {
            return Ok(few(bytes));
        }
        Blob::from_vec(Vec::from_slice(alloc, bytes)?)
    }

    /// The same contents: they share their bytes. Does not allocate.
    ///
    /// # Errors
    ///
    /// Only if they are shared more often than can be counted.
    #[inline]
    pub(crate) fn share(&self) -> Result<Blob, NoMemory>
        ensures { IfOk result (λ blob. blob ≡ self.now) }
    {
        let bytes = match &self.bytes {
            Bytes::Few { len, room } => Bytes::Few {
                len: *len,
                room: *room,
            },
            Bytes::Many(bytes) => Bytes::Many(Rc::clone(bytes)?),
        };
        Ok(Blob { bytes })
    }

    /// The bytes.
    #[inline]
    pub fn as_slice(&self) -> &[u8]
        ensures { result.now ≡ self.now }
    {
        match &self.bytes {
            Bytes::Few { len, room } => &room[..usize::from(*len)],
            Bytes::Many(bytes) => bytes.as_slice(),
        }
    }

    /// How many bytes there are.
    #[inline]
    pub fn len(&self) -> usize
        ensures { result ≡ length self.now }
    {
        self.as_slice().len()
    }

    /// Whether there is no byte.
    #[inline]
    pub fn is_empty(&self) -> bool
        ensures { result ≡ (length self.now == 0) }
    {
        self.as_slice().is_empty()
    }
}

impl PartialEq for Blob {
    ghost eq = { pointwise nat_eq };

    ghost laws = { partial_equiv_from_equiv nat_list_eq_equiv };

    fn eq(&self, other: &Blob) -> bool
        ensures value { result ≡ pointwise nat_eq self.now other.now }
        ensures same { IsTrue result ↔ (self.now ≡ other.now) }
    {
        self.as_slice() == other.as_slice()
    }
}
