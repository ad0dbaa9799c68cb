//! Which rows make a tree.
ghost use Rattle.std.specs.Prelude.{◌≡◌, ◌↔◌, IsTrue, MatchOption, [], ◌∷◌};
ghost use Rattle.iot_tree.specs.Rows.{AreTreeRows, IsFirstBadRow};
ghost use Rattle.iot_tree.specs.Follows.{HasDir, Follows};

use crate::Node;
use iot_text::{Name, Path};

/// The place of the first row that does not go with the rows before it, or 0 if there is no row.
/// One pass: a row's parent can only be the row before it, or above that row.
pub(crate) fn first_bad_row(rows: &[(Path, Node)]) -> Option<usize>
    ensures { MatchOption result (AreTreeRows rows.now) (IsFirstBadRow rows.now) }
{
    let Some(first) = rows.first() else {
        return Some(0);
    };
    if !begins_tree(first) {
        return Some(0);
    }
    'rows: for at in 1..rows.len() {
        if !follows(&rows[at - 1], &rows[at]) {
            return Some(at);
        }
    }
    None
}

/// Whether the row alone makes a tree.
fn begins_tree(row: &(Path, Node)) -> bool
    ensures { IsTrue result ↔ AreTreeRows (row.now ∷ []) }
{
    if !row.0.names().is_empty() {
        return false;
    }
    row.1.is_dir()
}

/// Whether the row may follow rows of a tree that end in `last`.
fn follows(last: &(Path, Node), row: &(Path, Node)) -> bool
    ensures { IsTrue result ↔ Follows last.now row.now }
{
    let Some(parent) = row.0.parent_names() else {
        return false;
    };
    if !last.0.cmp(&row.0).is_lt() {
        return false;
    }
    has_dir(last, parent)
}

/// Whether rows of a tree that end in `last` have a known directory at the path.
fn has_dir(last: &(Path, Node), path: &[Name]) -> bool
    ensures { IsTrue result ↔ HasDir last.now path.now }
{
    let names = last.0.names();
    if !names.starts_with(path) {
        return false;
    }
    if names.len() > path.len() {
        return true;
    }
    last.1.is_known_dir()
}
