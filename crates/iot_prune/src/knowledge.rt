//! What a tree knows.
ghost use Rattle.std.specs.Prelude.{◌≡◌, IfOk};
ghost use Rattle.iot_tree.specs.Snapshots.{ArePathsRising, is_known, known, paths_where};

use iot_text::{NoMemory, Path};
use iot_tree::{Duplicate, Node, Paths, Tree};
use std::alloc::Global;

/// The paths that the tree maps to a directory whose names it knows or to a file with its contents.
pub fn known(alloc: Global, t: &Tree) -> Result<Paths, NoMemory>
    ensures known { IfOk result (λ paths. paths ≡ known t.now) }
    ensures rising { IfOk result ArePathsRising }
{
    known_paths(alloc, t.rows().as_slice())
}

/// The paths of the rows whose insides are known.
fn known_paths(alloc: Global, rows: &[(Path, Node)]) -> Result<Paths, NoMemory>
    ensures { IfOk result (λ paths. paths ≡ paths_where (λ row. is_known row.1) rows.now) }
{
    let mut paths = Paths::new(alloc);
    'rows: for row in rows {
        if row.1.is_known() {
            paths.push(row.0.copy(alloc)?)?;
        }
    }
    Ok(paths)
}
