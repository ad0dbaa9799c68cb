//! What a client wants to know besides what it knows.
ghost use Rattle.std.specs.Prelude.{◌≡◌, ℕ, List, IfOk};
ghost use Rattle.iot_text.specs.Paths.{is_below, prefixes};
ghost use Rattle.iot_tree.specs.Snapshots.{ArePathsRising, has, paths_where, wants, widen};

use crate::joining::joined;
use iot_text::{NoMemory, Path};
use iot_tree::{Duplicate, Node, Paths, Tree, Want};
use std::alloc::Global;

/// The paths `k`, which rise, and those that are wanted of `s`, in their order. One pass over the rows, and one over the paths.
pub fn widen(alloc: Global, k: Paths, s: &Tree, want: &Want) -> Result<Paths, NoMemory>
    requires { ArePathsRising k }
    ensures rising { IfOk result ArePathsRising }
    ensures paths { IfOk result (λ paths. (p : List (List ℕ)) → has paths p ≡ widen (has k) s.now want.now p) }
{
    let wanted = wanted(alloc, s, want)?;
    joined(alloc, k, wanted)
}

/// The paths that are wanted.
fn wanted(alloc: Global, s: &Tree, want: &Want) -> Result<Paths, NoMemory>
    ensures rising { IfOk result ArePathsRising }
    ensures paths { IfOk result (λ paths. (p : List (List ℕ)) → has paths p ≡ wants s.now want.now p) }
{
    match want {
        Want::Nothing => Ok(Paths::new(alloc)),
        Want::Path(path) => prefixes(alloc, path),
        Want::Below(path) => {
            let above = prefixes(alloc, path)?;
            let below = paths_below(alloc, s.rows().as_slice(), path)?;
            joined(alloc, above, below)
        }
    }
}

/// The path and all paths above it, the root first.
fn prefixes(alloc: Global, path: &Path) -> Result<Paths, NoMemory>
    ensures { IfOk result (λ paths. paths ≡ prefixes path.now) }
{
    let mut paths = Paths::new(alloc);
    let mut above = Path::root(alloc);
    'names: for name in path.names() {
        let below = above.joined(alloc, name)?;
        paths.push(above)?;
        above = below;
    }
    paths.push(above)?;
    Ok(paths)
}

/// The paths of the rows below a path.
fn paths_below(alloc: Global, rows: &[(Path, Node)], path: &Path) -> Result<Paths, NoMemory>
    ensures { IfOk result (λ paths. paths ≡ paths_where (λ row. is_below row.0 path.now) rows.now) }
{
    let mut paths = Paths::new(alloc);
    'rows: for row in rows {
        if row.0.is_below(path) {
            paths.push(row.0.copy(alloc)?)?;
        }
    }
    Ok(paths)
}
