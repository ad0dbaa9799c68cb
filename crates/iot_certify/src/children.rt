//! The names in a directory, compared with lent ones.
ghost use Rattle.std.specs.Prelude.{◌≡◌, ◌↔◌, ◌<◌, [], ◌∷◌, length, IfSome, IsTrue, MatchOption};
ghost use Rattle.std.specs.FinMap.{is_sorted};
ghost use Rattle.std.specs.List.{filter_map};
ghost use Rattle.iot_text.specs.Paths.{path_cmp};
ghost use Rattle.iot_tree.specs.Questions.{is_child, child_of};

use iot_text::{Name, Path};
use iot_tree::{Kind, Node, count_within};
use iot_views::ChildViews;

/// Whether the path has these names and one more.
fn is_child(path: &Path, names: &[Name]) -> bool
    ensures { result ≡ is_child names.now path.now }
{
    path.names().len() == names.len() + 1 && path.names().starts_with(names)
}

/// The name of a row in the directory, with its kind; `None` of any other row.
fn child_of(row: &(Path, Node), names: &[Name]) -> Option<(Name, Kind)>
    ensures { result ≡ child_of names.now row.now }
{
    if !is_child(&row.0, names) {
        return None;
    }
    match row.0.last() {
        Some(name) => Some((*name, row.1.kind())),
        None => None,
    }
}

/// The first name in the directory among these rows, with its kind, and the rows after those at or below it.
fn split_child<'a>(
    rows: &'a [(Path, Node)],
    names: &[Name],
) -> Option<((Name, Kind), &'a [(Path, Node)])>
    requires { IsTrue (is_sorted path_cmp rows.now) }
    ensures children { MatchOption result (filter_map (child_of names.now) rows.now ≡ [])
        (λ parts. filter_map (child_of names.now) rows.now ≡ parts.0 ∷ filter_map (child_of names.now) parts.1.now) }
    ensures rising { IfSome result (λ parts. IsTrue (is_sorted path_cmp parts.1.now)) }
    ensures fewer { IfSome result (λ parts. length parts.1.now < length rows.now) }
{
    'rows: for (at, row) in rows.iter().enumerate() {
        if let Some(child) = child_of(row, names) {
            let count = count_within(rows, at, row.0.names());
            return Some((child, &rows[at + count..]));
        }
    }
    None
}

/// Whether the lent child is this one.
fn is_same_child(lent: &(&[u8], Kind), child: &(Name, Kind)) -> bool
    ensures { IsTrue result ↔ ((lent.now.0.now, lent.now.1) ≡ child.now) }
{
    lent.0 == child.0.as_bytes() && lent.1 == child.1
}

/// Whether the names in the directory among these rows, with their kinds, are the lent ones. Makes a search for each name.
pub(crate) fn are_children(rows: &[(Path, Node)], names: &[Name], children: ChildViews<'_>) -> bool
    requires { IsTrue (is_sorted path_cmp rows.now) }
    ensures { IsTrue result ↔ (filter_map (child_of names.now) rows.now ≡ children.entry) }
{
    let mut left = rows;
    let mut expected = children;
    'names: while let Some((child, rest)) = split_child(left, names) {
        match expected.next() {
            Some(lent) => {
                if !is_same_child(&lent, &child) {
                    return false;
                }
            }
            None => return false,
        }
        left = rest;
    }
    expected.next().is_none()
}
