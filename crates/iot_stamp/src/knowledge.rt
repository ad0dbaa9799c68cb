//! What a tree knows, with its stamps.
ghost use Rattle.std.specs.Prelude.{◌≡◌, IfOk, IsTrue, length};
ghost use Rattle.std.specs.List.{filter_map, AllByRecursion};
ghost use Rattle.std.specs.FinMap.{is_sorted};
ghost use Rattle.iot_text.specs.Paths.{path_cmp};
ghost use Rattle.iot_stamp.specs.Refresh.{known_stamp, known_with_stamps, IsStampedPath};
ghost use Rattle.iot_stamp.specs.Pairing.{paired};

use crate::Stamped;
use iot_text::{NoMemory, Path};
use iot_tree::{Duplicate, Known, Node};
use std::alloc::Global;

impl Stamped {
    /// The paths that the tree knows, with their stamps.
    pub fn known_with_stamps(&self, alloc: Global) -> Result<Known, NoMemory>
        ensures value { IfOk result (λ known. known ≡ known_with_stamps self.now) }
        ensures rising { IfOk result (λ known. IsTrue (is_sorted path_cmp known)) }
        ensures each { IfOk result (AllByRecursion IsStampedPath) }
    {
        known_entries(alloc, self.tree().rows().as_slice(), self.stamps())
    }
}

/// The paths of the rows whose insides are known, with the stamps beside them.
fn known_entries(alloc: Global, rows: &[(Path, Node)], stamps: &[u64]) -> Result<Known, NoMemory>
    requires { length stamps.now ≡ length rows.now }
    ensures value { IfOk result (λ known. known ≡ filter_map known_stamp (paired rows.now stamps.now)) }
    ensures each { IfOk result (AllByRecursion IsStampedPath) }
{
    let mut known = Known::from_vec(Vec::with_capacity(alloc, rows.len())?);
    'rows: for at in 0..rows.len() {
        let row = &rows[at];
        if row.1.is_known() {
            known.push(stamped_path(alloc, &row.0, stamps[at])?)?;
        }
    }
    Ok(known)
}

/// The path with the stamp.
fn stamped_path(alloc: Global, path: &Path, stamp: u64) -> Result<(Path, u64), NoMemory>
    ensures value { IfOk result (λ entry. entry ≡ (path.now, stamp)) }
    ensures each { IfOk result IsStampedPath }
{
    // That it is a path is known of its names.
    let _names = path.names();
    Ok((path.copy(alloc)?, stamp))
}
