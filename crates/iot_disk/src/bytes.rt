//! Vectors that change within the room that they have.
ghost use Rattle.std.specs.Prelude.{◌≡◌, ◌≤◌, ◌+◌, ◌++◌, true, length, slice_index_or, vec_len, vec_capacity};
ghost use Rattle.iot_disk.specs.Disk.{overwritten};
ghost use Rattle.iot_disk.specs.Memory.{picked, filled};
ghost use Rattle.iot_disk.specs.Unsynced.{all_marks};

use crate::Pick;

/// Appends bytes.
pub fn append(to: &mut Vec<u8>, bytes: &[u8])
    requires { vec_len to.old + length bytes.now ≤ vec_capacity to.old }
    ensures items { to.new.items ≡ to.old.items ++ bytes.now }
    ensures room { vec_capacity to.old ≤ vec_capacity to.new }
{
    to.extend_from_slice(bytes).unwrap();
}

/// Makes the one the other.
pub fn copy_over(to: &mut Vec<u8>, from: &[u8])
    requires { length from.now ≤ vec_capacity to.old }
    ensures items { to.new.items ≡ from.now }
    ensures room { vec_capacity to.old ≤ vec_capacity to.new }
{
    to.clear();
    append(to, from);
}

/// Writes bytes over those from a place on, and past the end.
pub fn overwrite(to: &mut Vec<u8>, at: usize, bytes: &[u8])
    requires inside { at ≤ length to.old.items }
    requires room { at + length bytes.now ≤ vec_capacity to.old }
    ensures { to.new.items ≡ overwritten to.old.items at bytes.now }
{
    let inside = bytes.len().min(to.len() - at);
    to[at..at + inside].copy_from_slice(&bytes[..inside]);
    append(to, &bytes[inside..]);
}

/// Turns a disk's bytes into what a restart leaves. The marks are those of the bytes that were there at the last sync.
pub fn leave(pick: Option<Pick>, written: &mut Vec<u8>, synced: &[u8], marks: &[bool])
    requires marks { length marks.now ≤ length written.old.items }
    requires grown { length synced.now ≤ length written.old.items }
    ensures picked { written.new.items
        ≡ picked pick written.old.items synced.now (all_marks marks.now (length written.old.items)) }
    ensures length { length written.new.items ≤ length written.old.items }
{
    match pick {
        None | Some(Pick::New) => (),
        Some(Pick::Old) => copy_over(written, synced),
        Some(Pick::Fill(byte)) => fill(byte, marks, written),
    }
}

fn fill(byte: u8, marks: &[bool], bytes: &mut [u8])
    requires { length marks.now ≤ length bytes.old }
    ensures { bytes.new ≡ filled byte (all_marks marks.now (length bytes.old)) bytes.old }
{
    for i in 0..bytes.len() {
        if is_marked(marks, i) {
            bytes[i] = byte;
        }
    }
}

/// A byte that was not there at the last sync is marked.
fn is_marked(marks: &[bool], i: usize) -> bool
    ensures { result ≡ slice_index_or marks.now i true }
{
    i >= marks.len() || marks[i]
}
