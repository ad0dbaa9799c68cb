//! Trees cut down to known paths.
ghost use Rattle.std.specs.Prelude.{◌≡◌, IfOk};
ghost use Rattle.iot_text.specs.Paths.{parent_of};
ghost use Rattle.iot_tree.specs.Rows.{AreTreeRows};
ghost use Rattle.iot_tree.specs.Snapshots.{AnswersOrAway, ArePathsRising, cut_rows, has, prune};
ghost use Rattle.iot_prune.specs.Walks.{is_hidden, last_row};

use crate::walking::{begins, from};
use iot_text::{NoMemory, Path};
use iot_tree::{Duplicate, Node, Paths, Rows, Tree};
use std::alloc::Global;

/// The tree that has exactly the rows of `s` of which all paths above are among `k`, which rise. A row whose
/// own path is not among them is far. One pass over both.
pub fn prune(alloc: Global, s: &Tree, k: &Paths) -> Result<Tree, NoMemory>
    requires { ArePathsRising k.now }
    ensures pruned { IfOk result (λ t. t ≡ prune s.now (has k.now)) }
    ensures answers { IfOk result (AnswersOrAway s.now) }
{
    let rows = cut_rows(alloc, s.rows().as_slice(), k.as_slice())?;
    let tree = Tree::of_rows(rows)?;
    Ok(tree)
}

/// The rows of the pruned tree.
fn cut_rows(alloc: Global, rows: &[(Path, Node)], paths: &[Path]) -> Result<Rows, NoMemory>
    requires tree { AreTreeRows rows.now }
    requires rising { ArePathsRising paths.now }
    ensures { IfOk result (λ out. out ≡ cut_rows (has paths.now) rows.now) }
{
    let mut out = Rows::new(alloc);
    let mut rest = paths;
    'rows: for row in rows {
        if !is_hidden(out.as_slice(), &row.0) {
            rest = from(&row.0, rest);
            let known = begins(&row.0, rest);
            out.push((row.0.copy(alloc)?, row.1.seen(alloc, known)?))?;
        }
    }
    Ok(out)
}

/// Whether the last row is a far directory above the path. As long as each row follows the one before it, no
/// other row needs a look.
fn is_hidden(rows: &[(Path, Node)], path: &Path) -> bool
    ensures { result ≡ is_hidden (last_row rows.now) (parent_of path.now) }
{
    let Some(parent) = path.parent_names() else {
        return false;
    };
    match rows.last() {
        Some((above, Node::FarDir)) => parent.starts_with(above.names()),
        _ => false,
    }
}
