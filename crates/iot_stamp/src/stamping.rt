//! Which stamps an update leaves.
ghost use Rattle.std.specs.Prelude.{◌≡◌, ◌≤◌, ◌+◌, ◌++◌, ℕ, List, Some, cond, not, take, drop, length, IfOk};
ghost use Rattle.std.specs.Option.{option_copied};
ghost use Rattle.iot_stamp.specs.Carried.{IsCarried};
ghost use Rattle.iot_stamp.specs.Lining.{stamps_by};
ghost use Rattle.iot_stamp.specs.Stamping.{shown_same};
ghost use Rattle.iot_tree.specs.Updates.{with_mode};

use crate::nodes::stamp_of;
use iot_text::{NoMemory, Path};
use iot_tree::{Mode, Node};
use std::alloc::Global;

/// The stamp for each row that is known, and 0 for each far one.
pub(crate) fn all_stamps(
    alloc: Global,
    rows: &[(Path, Node)],
    stamp: u64,
) -> Result<Vec<u64>, NoMemory>
    ensures { IfOk result (λ stamps. stamps.items ≡ stamps_by (λ k. stamp) rows.now) }
{
    let mut stamps = Vec::with_capacity(alloc, rows.len())?;
    'rows: for row in rows {
        stamps.push(stamp_of(&row.1, stamp))?;
    }
    Ok(stamps)
}

/// Takes as many stamps out at `at` as there are rows, and the one at `to` among the others if it goes. Then the rows
/// stand at `to`, the known ones with the stamp. Does not allocate.
pub(crate) fn carry(
    stamps: &mut Vec<u64>,
    at: usize,
    to: usize,
    goes: bool,
    rows: &[(Path, Node)],
    stamp: u64,
)
    requires taken { at + length rows.now ≤ length stamps.old.items }
    requires others { (to + cond goes 1 0) + length rows.now ≤ length stamps.old.items }
    ensures { IsCarried stamps.old.items at to goes (stamps_by (λ k. stamp) rows.now) stamps.new.items }
{
    let count = rows.len();
    rotate(stamps, at, count);
    take_out(stamps, to, goes);
    let others = stamps.len() - count;
    rotate(stamps, to, others - to);
    put(stamps, to, rows, stamp);
}

/// Puts the `count` stamps from a place on after all others.
fn rotate(stamps: &mut Vec<u64>, at: usize, count: usize)
    requires { at + count ≤ length stamps.old.items }
    ensures rotated { (a b c : List ℕ) → stamps.old.items ≡ a ++ (b ++ c) → length a ≡ at → length b ≡ count
        → stamps.new.items ≡ a ++ (c ++ b) }
    ensures len { length stamps.new.items ≡ length stamps.old.items }
{
    stamps[at..].rotate_left(count);
}

/// Takes the stamp at a place out, if it goes.
fn take_out(stamps: &mut Vec<u64>, at: usize, goes: bool)
    requires { at + cond goes 1 0 ≤ length stamps.old.items }
    ensures taken { (front own back : List ℕ) → stamps.old.items ≡ front ++ (own ++ back) → length front ≡ at → length own ≡ cond goes 1 0
        → stamps.new.items ≡ front ++ back }
    ensures len { length stamps.new.items + cond goes 1 0 ≡ length stamps.old.items }
{
    if goes {
        stamps.remove(at);
    }
}

/// Puts the stamp in place of those from a place on, as many as there are rows: 0 for a far row.
fn put(stamps: &mut Vec<u64>, at: usize, rows: &[(Path, Node)], stamp: u64)
    requires { at + length rows.now ≤ length stamps.old.items }
    ensures { stamps.new.items ≡ take at stamps.old.items
        ++ (stamps_by (λ k. stamp) rows.now ++ drop (at + length rows.now) stamps.old.items) }
{
    'rows: for place in 0..rows.len() {
        stamps[at + place] = stamp_of(&rows[place].1, stamp);
    }
}

/// Whether both are directories, both files of one mode, or both nothing: a directory shows them as the same.
pub(crate) fn shown_same(one: Option<&Node>, other: Option<&Node>) -> bool
    ensures { result ≡ shown_same (option_copied one.entry) (option_copied other.entry) }
{
    match one {
        None => other.is_none(),
        Some(one) => match other {
            None => false,
            Some(other) => one.is_dir() == other.is_dir() && one.mode() == other.mode(),
        },
    }
}

/// Whether the object is a file of another mode, which a directory then shows otherwise.
pub(crate) fn has_other_mode(node: &Node, mode: Mode) -> bool
    ensures { result ≡ not (shown_same (Some node.now) (Some (with_mode mode node.now))) }
{
    match node {
        Node::Dir => false,
        Node::File(_, old) => *old != mode,
        Node::FarDir => false,
        Node::FarFile(old) => *old != mode,
    }
}
