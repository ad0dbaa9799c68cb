//! A disk in memory.
ghost use Rattle.std.specs.Prelude.{◌≡◌, ◌≤◌, ◌<◌, ◌⊎◌, ◌+◌, ◌^◌, [], false, length, replicate};
ghost use Rattle.std.specs.Prelude.{slice_range, vec_capacity, IfOk, OnOk, OnErr, IsErrOf};
ghost use Rattle.iot_disk.specs.Disk.{Only};
ghost use Rattle.iot_disk.specs.Unsynced.{AreAlike};

use crate::bytes::{append, copy_over, leave, overwrite};
use crate::failures::Failures;
use crate::unsynced::{Span, Unsynced};
use crate::{Disk, DiskFault, LIMIT, Pick};
use std::alloc::{AllocError, Global};
use std::marker::Model;

/// A disk in memory, whose device calls fail when it was armed.
///
/// It fails at its armed call and at all later ones until the restart; the bytes of a write that fails count as
/// written. An armed call that has not come stays armed over a restart, and a later `arm` takes its place. A disk that
/// has failed counts the calls of an `arm` from its restart on. A write that would end past `LIMIT` fails alone, and a
/// call that finds no memory counts as none.
#[derive(Debug, Drop)]
pub struct MemDisk {
    written: Vec<u8>,
    /// It has room for as many bytes as `written` has, so that a sync takes no memory.
    synced: Vec<u8>,
    /// It has marks for the bytes of `synced`, and room for as many as `written` has.
    unsynced: Unsynced,
    failures: Failures,
}

impl Model for MemDisk {
    ghost use Rattle.std.specs.Prelude.{length, vec_capacity};
    ghost use Rattle.iot_disk.specs.Memory.{Memory, IsSound, IsReady};
    ghost use Rattle.iot_disk.specs.Unsynced.{all_marks};

    ghost Value = { Memory };

    ghost view = { λ d. record {
      written = d.written.items;
      synced = d.synced.items;
      unsynced = all_marks d.unsynced.known (length d.written.items);
      failures = d.failures;
    } };

    ghost invariant = { λ d. IsSound d.written.items d.synced.items (all_marks d.unsynced.known (length d.written.items))
        × IsReady d.written.items d.synced.items (vec_capacity d.synced) d.unsynced };
}

impl MemDisk {
    ghost use Rattle.iot_disk.specs.Memory.{all_synced, after_read, after_write, after_refusal, after_sync, restarted, images_of};
    ghost use Rattle.iot_disk.specs.Failures.{answer, after_arm, no_failures};

    /// An empty disk. Does not allocate.
    pub fn new(alloc: Global) -> Self
        ensures state { result ≡ all_synced [] no_failures }
        ensures only { Only [] (images_of result) }
    {
        MemDisk {
            written: Vec::new(alloc),
            synced: Vec::new(alloc),
            unsynced: Unsynced::new(alloc),
            failures: Failures::NONE,
        }
    }

    /// A disk that reads as these bytes, which are its only image. There is no memory for more than `LIMIT` bytes.
    pub fn of(alloc: Global, bytes: Vec<u8>) -> Result<Self, AllocError>
        ensures state { IfOk result (λ disk. disk ≡ all_synced bytes.items no_failures) }
        ensures only { IfOk result (λ disk. Only bytes.items (images_of disk)) }
    {
        if bytes.len() as u64 > LIMIT {
            return Err(AllocError);
        }
        let synced = bytes.as_slice().to_vec(alloc)?;
        let mut unsynced = Unsynced::new(alloc);
        unsynced.reserve(bytes.len())?;
        unsynced.clear(bytes.len());
        Ok(MemDisk {
            written: bytes,
            synced,
            unsynced,
            failures: Failures::NONE,
        })
    }

    /// The bytes as they were written.
    pub fn bytes(&self) -> &[u8]
        ensures { result.now ≡ self.now.written }
    {
        &self.written
    }

    /// The number of bytes.
    pub fn len(&self) -> u64
        ensures length { result ≡ length self.now.written }
        ensures limit { result ≤ 2 ^ 62 }
    {
        self.written.len() as u64
    }

    /// Reads as many bytes as `buf` has. A call that fails leaves `buf` as it was.
    pub fn read_at(&mut self, at: u64, buf: &mut [u8]) -> Result<(), DiskFault>
        requires { at + length buf.old ≤ length self.old.written }
        ensures answer { result ≡ answer self.old.failures }
        ensures state { self.new ≡ after_read self.old }
        ensures ok { OnOk result (buf.new ≡ slice_range self.old.written at (at + length buf.old)) }
        ensures err { OnErr result (buf.new ≡ buf.old) }
    {
        self.failures.call()?;
        let start = at as usize;
        let end = start + buf.len();
        buf.copy_from_slice(&self.written[start..end]);
        Ok(())
    }

    /// Writes bytes over those that are there, and past the end. Costs as much as it writes.
    pub fn write_at(&mut self, at: u64, bytes: &[u8]) -> Result<(), DiskFault>
        requires { at ≤ length self.old.written }
        ensures limit { 2 ^ 62 < at + length bytes.now
            → (result ≡ Err DiskFault.Failed) × (self.new ≡ after_refusal self.old) }
        ensures no_memory { IsErrOf result DiskFault.NoMemory
            → (self.new ≡ self.old) × (length self.old.written < at + length bytes.now) }

        // Otherwise it is written, whether the call fails or not.
        ensures written { at + length bytes.now ≤ 2 ^ 62
            → (result ≡ Err DiskFault.NoMemory)
            ⊎ ((result ≡ answer self.old.failures) × (self.new ≡ after_write at bytes.now self.old)) }
    {
        if at.saturating_add(bytes.len() as u64) > LIMIT {
            self.failures.fault();
            return Err(DiskFault::Failed);
        }
        let start = at as usize;
        let span = Span {
            start,
            end: start + bytes.len(),
        };
        make_room(
            &mut self.written,
            &mut self.synced,
            &mut self.unsynced,
            span.end,
        )?;
        overwrite(&mut self.written, start, bytes);
        self.unsynced.cover(span);
        self.failures.call()
    }

    /// Makes the bytes that were written those of the last sync. Costs as much as was written since the one before.
    pub fn sync(&mut self) -> Result<(), DiskFault>
        ensures answer { result ≡ answer self.old.failures }
        ensures state { self.new ≡ after_sync self.old }
    {
        let answer = self.failures.call();
        if answer.is_ok() {
            sync_all(&self.written, &mut self.synced, &mut self.unsynced);
        }
        answer
    }

    /// Makes a later device call fail: the one with this number, counted from 1.
    pub fn arm(&mut self, calls: u64, pick: Pick)
        ensures { self.new ≡ record self.old { failures = after_arm calls pick self.old.failures } }
    {
        self.failures.arm(calls, pick);
    }

    /// Ends a failure, and leaves what the pick of the armed call that came says: the bytes of the last sync, those that
    /// were written, or the written length with one byte wherever a write since the last sync went. If none came, it
    /// leaves what was written.
    pub fn restart(&mut self)
        ensures state { self.new ≡ restarted self.old }
        ensures only { Only self.new.written (images_of self.new) }
    {
        let pick = self.failures.restart();
        leave(pick, &mut self.written, &self.synced, self.unsynced.marks());
        copy_over(&mut self.synced, &self.written);
        self.unsynced.clear(self.written.len());
    }
}

/// Makes the bytes of the last sync those that were written, within the room that there is.
fn sync_all(written: &[u8], synced: &mut Vec<u8>, unsynced: &mut Unsynced)
    requires known { length unsynced.old.known ≡ length synced.old.items }
    requires grown { length synced.old.items ≤ length written.now }
    requires alike { AreAlike unsynced.old.known synced.old.items written.now }
    requires room { length written.now ≤ vec_capacity synced.old }
    requires room_marks { length written.now ≤ unsynced.old.room }
    ensures synced { synced.new.items ≡ written.now }
    ensures marks { unsynced.new.known ≡ replicate (length written.now) false }
    ensures room { vec_capacity synced.old ≤ vec_capacity synced.new }
    ensures room_marks { unsynced.old.room ≤ unsynced.new.room }
{
    let known = synced.len();
    unsynced.sync(&written[..known], synced);
    append(synced, &written[known..]);
    unsynced.lengthen(written.len());
}

/// Makes room for a write up to this end, or leaves everything as it was.
fn make_room(
    written: &mut Vec<u8>,
    synced: &mut Vec<u8>,
    unsynced: &mut Unsynced,
    end: usize,
) -> Result<(), AllocError>
    requires known { length unsynced.old.known ≤ length written.old.items }
    requires grown { length synced.old.items ≤ length written.old.items }
    requires room { length written.old.items ≤ vec_capacity synced.old }
    requires room_marks { length written.old.items ≤ unsynced.old.room }
    ensures written { written.new.items ≡ written.old.items }
    ensures synced { synced.new.items ≡ synced.old.items }
    ensures known { unsynced.new.known ≡ unsynced.old.known }
    ensures room_written { OnOk result (end ≤ vec_capacity written.new) }
    ensures room_synced { OnOk result (end ≤ vec_capacity synced.new) }
    ensures room_marks { OnOk result (end ≤ unsynced.new.room) }
    ensures same_room { vec_capacity synced.old ≤ vec_capacity synced.new }
    ensures same_room_marks { unsynced.old.room ≤ unsynced.new.room }
    ensures longer { OnErr result (length written.old.items < end) }
{
    if end > written.len() {
        written.reserve(end - written.len())?;
        synced.reserve(end - synced.len())?;
        unsynced.reserve(end)?;
    }
    Ok(())
}

impl Disk for MemDisk {
    ghost use Rattle.iot_disk.specs.Memory.{in_memory, images_of, reads_is_image};
    ghost use Rattle.iot_disk.specs.Failures.{arms_of};

    ghost medium = { in_memory };

    ghost reads_is_image = { λ d. reads_is_image d.written d.synced d.unsynced };

    fn len(&self) -> u64 {
        MemDisk::len(self)
    }

    fn read_at(&mut self, at: u64, buf: &mut [u8]) -> Result<(), DiskFault> {
        MemDisk::read_at(self, at, buf)
    }

    fn write_at(&mut self, at: u64, bytes: &[u8]) -> Result<(), DiskFault> {
        let _ = &self.written;
        MemDisk::write_at(self, at, bytes)
    }

    fn sync(&mut self) -> Result<(), DiskFault> {
        MemDisk::sync(self)
    }

    fn arm(&mut self, calls: u64, pick: Pick) {
        MemDisk::arm(self, calls, pick);
    }

    fn restart(&mut self) {
        let _ = &self.written;
        MemDisk::restart(self);
    }
}
