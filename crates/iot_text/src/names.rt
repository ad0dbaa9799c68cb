//! Names: the short labels that paths are made of.
ghost use Rattle.std.specs.Prelude.{ℕ, List, ◌≡◌, ◌≤◌, ◌+◌, ◌↔◌, IsTrue, IfOk, IfErr, Some, refl, nat_eq, take, drop};
ghost use Rattle.std.specs.Int.{w64, from_be_bytes};
ghost use Rattle.std.specs.List.{list_all, prefix_len};
ghost use Rattle.std.specs.Result.{OkIff};
ghost use Rattle.std.specs.Ordering.{nat_cmp};
ghost use Rattle.std.specs.Cmp.{partial_equiv_from_equiv};
ghost use Rattle.std.specs.Cmp.Rules.{hashing};
ghost use Rattle.std.specs.Hash as fed;
ghost use Rattle.std.proofs.Common.{rules};
ghost use Rattle.std.specs.Cmp.Lexicographic.{pointwise, slice_cmp, nat_list_eq_equiv, nat_list_cmp_total, texts_po, texts_ties};
ghost use Rattle.iot_text.specs.Names.{is_name_byte, beginning_len, is_dots, is_name, IsName};

use crate::TextFault;
use std::cmp::Ordering;
use std::hash::{Hash, Hasher};
use std::marker::Model;

/// How many bytes a name has at most.
pub const NAME_LIMIT: usize = 32;

/// A name: 1 to 32 letters, digits, `_`, `-` and `.`, but neither `.` nor `..`.
/// Contracts see it as the list of its bytes.
#[derive(Clone, Copy, Debug)]
pub struct Name {
    len: u8,
    bytes: [u8; NAME_LIMIT],
}

impl Model for Name {
    ghost use Rattle.std.specs.Prelude.{ℕ, List, ◌-◌, ◌++◌, length, take, replicate};
    ghost use Rattle.iot_text.specs.NameArrays.{IsStored, unpadded};
    ghost use Rattle.iot_text.specs.declared.names.TheConstants.{NAME_LIMIT};

    ghost Value = { List ℕ };

    ghost view = { λ n. take n.len n.bytes };

    ghost invariant = { λ n. IsStored n.len n.bytes };

    ghost inverse = { λ name. record { len = length name; bytes = name ++ replicate (NAME_LIMIT - length name) 0 } };

    ghost inverse_ok = { λ n stored i. record { len = stored.len_is i; bytes = unpadded n.len n.bytes stored i } };
}

/// 1 at each byte that a name may have: a letter, a digit, `_`, `-` and `.`.
#[rattlefmt::skip]
static NAME_BYTES: [u8; 256] = [
    0, 0, 0, 0, 0, 0, 0, 0, 0, 0, 0, 0, 0, 0, 0, 0,
    0, 0, 0, 0, 0, 0, 0, 0, 0, 0, 0, 0, 0, 0, 0, 0,
    0, 0, 0, 0, 0, 0, 0, 0, 0, 0, 0, 0, 0, 1, 1, 0,
    1, 1, 1, 1, 1, 1, 1, 1, 1, 1, 0, 0, 0, 0, 0, 0,
    0, 1, 1, 1, 1, 1, 1, 1, 1, 1, 1, 1, 1, 1, 1, 1,
    1, 1, 1, 1, 1, 1, 1, 1, 1, 1, 1, 0, 0, 0, 0, 1,
    0, 1, 1, 1, 1, 1, 1, 1, 1, 1, 1, 1, 1, 1, 1, 1,
    1, 1, 1, 1, 1, 1, 1, 1, 1, 1, 1, 0, 0, 0, 0, 0,
    0, 0, 0, 0, 0, 0, 0, 0, 0, 0, 0, 0, 0, 0, 0, 0,
    0, 0, 0, 0, 0, 0, 0, 0, 0, 0, 0, 0, 0, 0, 0, 0,
    0, 0, 0, 0, 0, 0, 0, 0, 0, 0, 0, 0, 0, 0, 0, 0,
    0, 0, 0, 0, 0, 0, 0, 0, 0, 0, 0, 0, 0, 0, 0, 0,
    0, 0, 0, 0, 0, 0, 0, 0, 0, 0, 0, 0, 0, 0, 0, 0,
    0, 0, 0, 0, 0, 0, 0, 0, 0, 0, 0, 0, 0, 0, 0, 0,
    0, 0, 0, 0, 0, 0, 0, 0, 0, 0, 0, 0, 0, 0, 0, 0,
    0, 0, 0, 0, 0, 0, 0, 0, 0, 0, 0, 0, 0, 0, 0, 0,
];

/// Whether a name may have this byte.
#[inline]
fn is_name_byte(byte: u8) -> bool
    ensures { result ≡ is_name_byte byte }
{
    NAME_BYTES[usize::from(byte)] == 1
}

/// Whether a name may have each of these bytes.
fn are_name_bytes(text: &[u8]) -> bool
    ensures { result ≡ list_all is_name_byte text.now }
{
    text.iter().all(|byte| is_name_byte(*byte))
}

/// How many bytes of the text, from its first on, are such as a name may have.
fn name_bytes_len(text: &[u8]) -> usize
    ensures { result ≡ prefix_len is_name_byte text.now }
{
    'bytes: for (len, byte) in text.iter().enumerate() {
        if !is_name_byte(*byte) {
            return len;
        }
    }
    text.len()
}

/// How many bytes of the text, from its first on, begin some name.
pub(crate) fn beginning_len(text: &[u8]) -> usize
    ensures { result ≡ beginning_len text.now }
{
    name_bytes_len(text).min(NAME_LIMIT)
}

/// Whether the text is `.` or `..`, which other systems give a meaning of their own.
fn is_dots(text: &[u8]) -> bool
    ensures { result ≡ is_dots text.now }
{
    text == b".".as_slice() || text == b"..".as_slice()
}

/// Whether the text is a name.
#[tactic(auto, unfolding(crate::specs::Names::is_name))]
fn is_name(text: &[u8]) -> bool
    ensures { result ≡ is_name text.now }
{
    !text.is_empty() && text.len() <= NAME_LIMIT && !is_dots(text) && are_name_bytes(text)
}

/// The number that eight bytes of the array spell, most significant first.
#[inline]
fn word_at(bytes: &[u8; NAME_LIMIT], at: usize) -> u64
    requires { at + 8 ≤ 32 }
    ensures { result ≡ from_be_bytes w64 (take 8 (drop at bytes.now)) }
{
    u64::from_be_bytes([
        bytes[at],
        bytes[at + 1],
        bytes[at + 2],
        bytes[at + 3],
        bytes[at + 4],
        bytes[at + 5],
        bytes[at + 6],
        bytes[at + 7],
    ])
}

impl Name {
    /// Parses a name. Does not allocate.
    ///
    /// # Errors
    ///
    /// `BadName`, exactly if the text is no name.
    pub fn parse(text: &[u8]) -> Result<Name, TextFault>
        ensures ok { OkIff result (IsName text.now) text.now }
        ensures bad { IfErr result (λ fault. fault ≡ TextFault.BadName) }
    {
        if !is_name(text) {
            return Err(TextFault::BadName);
        }
        let mut bytes = [0; NAME_LIMIT];
        bytes[..text.len()].copy_from_slice(text);
        Ok(Name {
            len: text.len() as u8,
            bytes,
        })
    }

    /// The bytes of the name.
    #[inline]
    pub fn as_bytes(&self) -> &[u8]
        ensures value { result.now ≡ self.now }
        ensures valid { IsName result.now }
    {
        &self.bytes[..usize::from(self.len)]
    }
}

impl PartialEq for Name {
    ghost eq = { pointwise nat_eq };

    ghost laws = { partial_equiv_from_equiv nat_list_eq_equiv };

    fn eq(&self, other: &Name) -> bool
        ensures value { result ≡ pointwise nat_eq self.now other.now }
        ensures same { IsTrue result ↔ (self.now ≡ other.now) }
    {
        self.cmp(other).is_eq()
    }
}

impl Eq for Name {
    ghost laws = { nat_list_eq_equiv };
}

impl Hash for Name {
    ghost hash_input = { fed.str };

    ghost respects_eq = { Prim.search (hashing, rules) };

    fn hash<H: Hasher>(&self, state: &mut H) {
        state.write(self.as_bytes());
        state.write_u8(0xff);
    }
}

impl PartialOrd for Name {
    ghost partial_cmp = { λ a b. Some (slice_cmp nat_cmp a b) };

    ghost laws = { texts_po };

    fn partial_cmp(&self, other: &Name) -> Option<Ordering> {
        Some(self.cmp(other))
    }
}

impl Ord for Name {
    ghost cmp = { slice_cmp nat_cmp };

    ghost total = { nat_list_cmp_total };

    ghost matches_partial_cmp = { λ a b. refl };

    ghost matches_eq = { texts_ties };

    /// By words of the arrays, since the zeros after a name are less than each of its bytes.
    #[inline(always)]
    fn cmp(&self, other: &Name) -> Ordering {
        'words: for word in 0..NAME_LIMIT / 8 {
            let mine = word_at(&self.bytes, 8 * word);
            let theirs = word_at(&other.bytes, 8 * word);
            if mine != theirs {
                return mine.cmp(&theirs);
            }
            // Where a word ends in a zero, both names have ended.
            if mine % 256 == 0 {
                return Ordering::Equal;
            }
        }
        Ordering::Equal
    }
}
