//! The places of paths among the rows of a tree.
ghost use Rattle.std.specs.Prelude.{◌≡◌, IsTrue, None};
ghost use Rattle.std.specs.Option.{option_copied};
ghost use Rattle.std.specs.FinMap.{find, is_sorted, from_sorted};
ghost use Rattle.iot_text.specs.Paths.{path_cmp};
ghost use Rattle.iot_tree.specs.Place.{IsPlace, IsGap};
ghost use Rattle.iot_tree.specs.Rows.{AreTreeRows};
ghost use Rattle.iot_tree.specs.Questions.{is_far_above, kind_at};

use crate::{Kind, Node};
use iot_text::{Name, Path};
use std::cmp::Ordering;

/// The place of the path's row among rows that rise, or the place where it would go. A binary search.
pub fn place_of(rows: &[(Path, Node)], names: &[Name]) -> Result<usize, usize>
    requires { IsTrue (is_sorted path_cmp rows.now) }
    ensures { IsPlace rows.now names.now result }
{
    rows.binary_search_by(
        |row| -> Ordering
            ensures { result ≡ path_cmp row.now.0 names.entry.now }
        { row.0.names().cmp(names) },
    )
}

/// Whether a far directory is above a path that has no row. It can only be the last row before the gap.
pub(crate) fn is_far_before(rows: &[(Path, Node)], gap: usize, names: &[Name]) -> bool
    requires tree { AreTreeRows rows.now }
    requires gap { IsGap rows.now names.now gap }
    ensures { result ≡ is_far_above (from_sorted rows.now) names.now }
{
    if gap == 0 {
        return false;
    }
    let (above, node) = &rows[gap - 1];
    if !node.is_far_dir() {
        return false;
    }
    names.starts_with(above.names())
}

/// The kind of a path that has no row.
pub(crate) fn kind_in_gap(rows: &[(Path, Node)], gap: usize, names: &[Name]) -> Kind
    requires tree { AreTreeRows rows.now }
    requires gap { IsGap rows.now names.now gap }
    ensures { result ≡ kind_at None (is_far_above (from_sorted rows.now) names.now) }
{
    if is_far_before(rows, gap, names) {
        Kind::Away
    } else {
        Kind::Absent
    }
}

/// The node that the rows have at the path.
pub(crate) fn node_at<'a>(rows: &'a [(Path, Node)], names: &[Name]) -> Option<&'a Node>
    requires { IsTrue (is_sorted path_cmp rows.now) }
    ensures { option_copied result ≡ find path_cmp names.now rows.now }
{
    match place_of(rows, names) {
        Ok(at) => Some(&rows[at].1),
        Err(_) => None,
    }
}
