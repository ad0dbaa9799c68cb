//! Where two trees differ.
ghost use Rattle.std.specs.Prelude.{◌≡◌, ◌↔◌, IfOk, IfNone, IfSome, IsTrue};
ghost use Rattle.std.specs.Option.{option_copied};
ghost use Rattle.iot_audit.specs.Differences.{DifferFirst, SameLen, earlier};

use iot_text::{NoMemory, Path};
use iot_tree::{Node, Tree};
use std::alloc::Global;

/// The first path in order at which the trees differ, if they do. One pass over the rows of both.
pub(crate) fn first_difference(
    alloc: Global,
    tree: &Tree,
    other: &Tree,
) -> Result<Option<Path>, NoMemory>
    ensures none { IfOk result (λ found. IfNone found (tree.now ≡ other.now)) }
    ensures some { IfOk result (λ found. IfSome found (DifferFirst tree.now other.now)) }
{
    let rows = tree.rows().as_slice();
    let others = other.rows().as_slice();
    let same = same_len(rows, others);
    match earlier(rows.get(same), others.get(same)) {
        Some(path) => Ok(Some(path.copy(alloc)?)),
        None => Ok(None),
    }
}

/// How many rows at the front are the same in both.
fn same_len(rows: &[(Path, Node)], others: &[(Path, Node)]) -> usize
    ensures { SameLen rows.now others.now result }
{
    let shorter = rows.len().min(others.len());
    'rows: for at in 0..shorter {
        if !is_same(&rows[at], &others[at]) {
            return at;
        }
    }
    shorter
}

/// Whether both rows are the same.
fn is_same(row: &(Path, Node), other: &(Path, Node)) -> bool
    ensures { IsTrue result ↔ (row.now ≡ other.now) }
{
    row.0 == other.0 && is_same_node(&row.1, &other.1)
}

/// Whether both objects are the same.
fn is_same_node(node: &Node, other: &Node) -> bool
    ensures { IsTrue result ↔ (node.now ≡ other.now) }
{
    match (node, other) {
        (Node::Dir, Node::Dir) | (Node::FarDir, Node::FarDir) => true,
        (Node::File(bytes, mode), Node::File(others, far)) => bytes == others && mode == far,
        (Node::FarFile(mode), Node::FarFile(other)) => mode == other,
        _ => false,
    }
}

/// The path that comes first, if there is one.
fn earlier<'a>(row: Option<&'a (Path, Node)>, other: Option<&'a (Path, Node)>) -> Option<&'a Path>
    ensures { option_copied result ≡ earlier (option_copied row.entry) (option_copied other.entry) }
{
    match (row, other) {
        (Some(row), Some(other)) => Some(if row.0.cmp(&other.0).is_gt() {
            &other.0
        } else {
            &row.0
        }),
        (Some(row), None) | (None, Some(row)) => Some(&row.0),
        (None, None) => None,
    }
}
