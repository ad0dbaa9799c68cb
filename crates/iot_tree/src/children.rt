//! The names in a directory, and the rows at or below a path.
ghost use Rattle.std.specs.Prelude.{◌≡◌, ◌↔◌, ◌+◌, ◌<◌, ◌≤◌, ◌*◌, nat_lt, [], ◌∷◌, length, drop, IfOk, IfSome, IsTrue, MatchOption};
ghost use Rattle.std.specs.FinMap.{is_sorted};
ghost use Rattle.std.specs.List.{filter_map, prefix_len};
ghost use Rattle.std.specs.List.Sorted.{IsPartitionedBy};
ghost use Rattle.iot_text.specs.Paths.{path_cmp};
ghost use Rattle.iot_tree.specs.Place.{IsRowAt};
ghost use Rattle.iot_tree.specs.Questions.{is_within, is_child, child_of};

use crate::{Answer, Children, Kind, Node};
use iot_text::{Name, NoMemory, Path};
use std::alloc::Global;

/// Whether the row is at or below the path.
fn is_within(row: &(Path, Node), names: &[Name]) -> bool
    ensures { result ≡ is_within names.now row.now }
{
    row.0.names().starts_with(names)
}

/// Whether the first of the rows is at or below the path.
pub(crate) fn begins_within(rows: &[(Path, Node)], names: &[Name]) -> bool
    ensures { result ≡ nat_lt 0 (prefix_len (is_within names.now) rows.now) }
{
    match rows.first() {
        Some(row) => is_within(row, names),
        None => false,
    }
}

/// How many rows, from this place on, are at or below the path, whose row is at the place. Takes time
/// logarithmic in their number.
pub fn count_within(rows: &[(Path, Node)], at: usize, names: &[Name]) -> usize
    requires rising { IsTrue (is_sorted path_cmp rows.now) }
    requires row { IsRowAt rows.now names.now at }
    ensures count { result ≡ prefix_len (is_within names.now) (drop at rows.now) }
    ensures fits { at + result ≤ length rows.now }
{
    1 + front_within(&rows[at + 1..], names)
}

/// How many rows are at or below the path, of rows that begin with those. Looks at one row if there are none.
fn front_within(rows: &[(Path, Node)], names: &[Name]) -> usize
    requires { IsPartitionedBy (is_within names.now) rows.now }
    ensures { result ≡ prefix_len (is_within names.now) rows.now }
{
    let known = half_within(rows, names);
    let end = rows.len().min(2 * known);
    let between = &rows[known..end];
    known
        + between.partition_point(
            |row| -> bool
                ensures { result ≡ is_within names.entry.now row.now }
            { is_within(row, names) },
        )
}

/// At least half of the number of rows that are at or below the path, of rows that begin with those.
fn half_within(rows: &[(Path, Node)], names: &[Name]) -> usize
    requires { IsPartitionedBy (is_within names.now) rows.now }
    ensures within { result ≤ prefix_len (is_within names.now) rows.now }
    ensures half { prefix_len (is_within names.now) rows.now ≤ 2 * result }
{
    let mut known = 0;
    'doubling: while 2 * known < rows.len() && is_within(&rows[2 * known], names) {
        known = 2 * known + 1;
    }
    known
}

/// Whether the path has these names and one more.
fn is_child(path: &Path, names: &[Name]) -> bool
    ensures { result ≡ is_child names.now path.now }
{
    path.names().len() == names.len() + 1 && path.names().starts_with(names)
}

/// The name of a row in the directory, with its kind; `None` of any other row.
fn child_of(row: &(Path, Node), names: &[Name]) -> Option<(Name, Kind)>
    ensures { result ≡ child_of names.now row.now }
{
    if !is_child(&row.0, names) {
        return None;
    }
    match row.0.last() {
        Some(name) => Some((*name, row.1.kind())),
        None => None,
    }
}

/// The first name in the directory among these rows, with its kind, and the rows after those at or below it.
fn split_child<'a>(
    rows: &'a [(Path, Node)],
    names: &[Name],
) -> Option<((Name, Kind), &'a [(Path, Node)])>
    requires { IsTrue (is_sorted path_cmp rows.now) }
    ensures children { MatchOption result (filter_map (child_of names.now) rows.now ≡ [])
        (λ parts. filter_map (child_of names.now) rows.now ≡ parts.0 ∷ filter_map (child_of names.now) parts.1.now) }
    ensures rising { IfSome result (λ parts. IsTrue (is_sorted path_cmp parts.1.now)) }
    ensures fewer { IfSome result (λ parts. length parts.1.now < length rows.now) }
{
    'rows: for (at, row) in rows.iter().enumerate() {
        if let Some(child) = child_of(row, names) {
            let count = count_within(rows, at, row.0.names());
            return Some((child, &rows[at + count..]));
        }
    }
    None
}

/// The names in the directory among these rows, with their kinds. Makes a search for each name.
pub(crate) fn children_of(
    alloc: Global,
    rows: &[(Path, Node)],
    names: &[Name],
) -> Result<Children, NoMemory>
    requires { IsTrue (is_sorted path_cmp rows.now) }
    ensures { IfOk result (λ children. children ≡ filter_map (child_of names.now) rows.now) }
{
    let mut children = Children::new(alloc);
    let mut left = rows;
    'names: while let Some((child, rest)) = split_child(left, names) {
        children.push(child)?;
        left = rest;
    }
    Ok(children)
}

/// Whether the names in the directory among these rows, with their kinds, are these. Does not allocate.
pub(crate) fn are_children(rows: &[(Path, Node)], names: &[Name], children: &[(Name, Kind)]) -> bool
    requires { IsTrue (is_sorted path_cmp rows.now) }
    ensures { IsTrue result ↔ (filter_map (child_of names.now) rows.now ≡ children.now) }
{
    let mut left = rows;
    let mut expected = children;
    'names: while let Some((child, rest)) = split_child(left, names) {
        let Some((first, others)) = expected.split_first() else {
            return false;
        };
        if !is_same_child(first, &child) {
            return false;
        }
        left = rest;
        expected = others;
    }
    expected.is_empty()
}

/// Whether the names in the directory among these rows, with their kinds, are this answer.
pub(crate) fn is_names(rows: &[(Path, Node)], names: &[Name], answer: &Answer) -> bool
    requires { IsTrue (is_sorted path_cmp rows.now) }
    ensures { IsTrue result ↔ (Answer.Names (filter_map (child_of names.now) rows.now) ≡ answer.now) }
{
    match answer {
        Answer::Names(children) => are_children(rows, names, children.as_slice()),
        _ => false,
    }
}

/// Whether two names in a directory are equal, and their kinds too.
fn is_same_child(a: &(Name, Kind), b: &(Name, Kind)) -> bool
    ensures { IsTrue result ↔ (a.now ≡ b.now) }
{
    a.0 == b.0 && a.1 == b.1
}
