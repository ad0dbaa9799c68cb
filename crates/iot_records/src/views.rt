//! Records that are lent out of bytes.
ghost use Rattle.std.specs.Prelude.{◌≡◌, ◌≤◌, ◌<◌, ◌+◌, ◌^◌, List, ℕ, [], ◌∷◌, ◌++◌, length, drop, IfOk, IfErr, IfSome, IfNone, IsErrOf};
ghost use Rattle.std.specs.Iterator.{YieldsFirstRef, item_count};
ghost use Rattle.iot_records.specs.Bytes.{number_in};
ghost use Rattle.iot_records.specs.Records.{spelled, front_bodies, series_in, IsSeries, IsCutReason};

use crate::OPEN;
use iot_disk::{Bodies, StartFault};
use std::alloc::{AllocError, Global};
use std::marker::Model;

/// Records that are lent out of bytes, one after another, up to the first closed gate. Contracts see them as the list of
/// the bodies that are left.
#[derive(Drop)]
pub struct RecordViews<'a> {
    /// The bytes from the next gate on.
    bytes: &'a [u8],
}

impl<'a> Model for RecordViews<'a> {
    ghost use Rattle.std.specs.Prelude.{List, ℕ};

    ghost Value = { List (List ℕ) };

    ghost use Rattle.iot_records.specs.Records.{front_bodies};

    ghost view = { λ left. front_bodies left.bytes.now };
}

impl<'a> Iterator for RecordViews<'a> {
    type Item = &'a [u8];

    ghost next_gives = { YieldsFirstRef (λ left. left) };

    ghost remaining = { item_count (λ left. left) };

    fn next(&mut self) -> Option<&'a [u8]> {
        let (body, bytes) = first_record(self.bytes)?;
        self.bytes = bytes;
        Some(body)
    }
}

impl<'a> RecordViews<'a> {
    /// The bodies in memory of their own, in one block.
    pub fn copied(self, alloc: Global) -> Result<Bodies, AllocError>
        ensures { IfOk result (λ bodies. bodies ≡ self.entry) }
    {
        let mut bodies = Bodies::with_capacity(alloc, self.bytes.len())?;
        for body in self {
            bodies.push(body)?;
        }
        Ok(bodies)
    }
}

/// Records that were found in bytes.
#[derive(Drop)]
pub struct LentRecords<'a> {
    pub records: RecordViews<'a>,
    /// How many they are.
    pub count: u64,
    /// The offset of the closed gate after them.
    pub gate: u64,
}

/// Looks at the records up to the first closed gate, and lends them. The first of these bytes is the gate of the first
/// record, and stands at this offset. Takes no memory.
pub fn lend_records(bytes: &[u8], at: u64) -> Result<LentRecords<'_>, StartFault>
    requires more { 0 < length bytes.now }
    requires limit { at + length bytes.now ≤ 2 ^ 62 }
    ensures ok { IfOk result (λ found. IsSeries bytes.now at found.records found.gate) }
    ensures count { IfOk result (λ found. found.count ≡ length found.records) }
    ensures err { IfErr result (λ fault. IsCutReason fault (series_in at bytes.now)) }
    ensures no_memory { IsErrOf result StartFault.NoMemory → ⊥ }
{
    let mut rest = bytes;
    let mut count = 0;
    while let Some((_, after)) = first_record(rest) {
        rest = after;
        count += 1;
    }
    let gate = at + (bytes.len() - rest.len()) as u64;
    if rest[0] == OPEN {
        return Err(StartFault::Damaged { at: gate });
    }
    Ok(LentRecords {
        records: RecordViews { bytes },
        count,
        gate,
    })
}

/// The body of the first record and what comes after it, if its gate is open and the record is whole.
fn first_record(bytes: &[u8]) -> Option<(&[u8], &[u8])>
    ensures some { IfSome result (λ found. bytes.now ≡ 165 ∷ (spelled found.0.now ++ found.1.now)) }
    ensures more { IfSome result (λ found. 0 < length found.1.now) }
    ensures front { IfSome result (λ found. front_bodies bytes.now ≡ found.0.now ∷ front_bodies found.1.now) }
    ensures none { IfNone result (front_bodies bytes.now ≡ []) }
{
    let (gate, after) = bytes.split_first()?;
    if *gate != OPEN {
        return None;
    }
    let body = whole_body(after)?;
    Some((body, &after[8 + body.len()..]))
}

/// The body whose number of bytes stands at the start of these, if it and the next gate are there.
fn whole_body(bytes: &[u8]) -> Option<&[u8]>
    ensures body { IfSome result (λ body.
        bytes.now ≡ spelled body.now ++ drop (8 + length body.now) bytes.now) }
    ensures gate { IfSome result (λ body. 8 + length body.now < length bytes.now) }
    ensures fits { IfSome result (λ body. length body.now < 2 ^ 64) }
    ensures none { IfNone result (length bytes.now ≤ 8 + number_in bytes.now) }
{
    let (number, rest) = bytes.split_first_chunk::<8>()?;
    let size = u64::from_be_bytes(*number) as usize;
    if size < rest.len() {
        Some(&rest[..size])
    } else {
        None
    }
}
