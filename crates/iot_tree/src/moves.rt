//! New paths for rows that move.
ghost use Rattle.std.specs.Prelude.{◌≡◌, ◌≤◌, ◌-◌, map, take, drop, length, IfOk, IsTrue};
ghost use Rattle.std.specs.FinMap.{is_sorted};
ghost use Rattle.iot_text.specs.Paths.{path_cmp};
ghost use Rattle.iot_tree.specs.Place.{IsPutAt};
ghost use Rattle.iot_tree.specs.Updates.{renamed};

use crate::places::place_of;
use crate::{Node, Rows};
use iot_text::{Name, NoMemory, Path};
use std::alloc::Global;

/// The path at or below `from`, with `to` in its place.
fn renamed_path(alloc: Global, path: &Path, from: &Path, to: &Path) -> Result<Path, NoMemory>
    ensures { IfOk result (λ new. new ≡ renamed from.now to.now path.now) }
{
    if !path.names().starts_with(from.names()) {
        return path.copy(alloc);
    }
    let rest = &path.names()[from.names().len()..];
    Path::from_parts(alloc, to.names(), rest)
}

/// The paths of the rows, with `to` in place of `from`.
pub(crate) fn renamed_paths(
    alloc: Global,
    rows: &[(Path, Node)],
    from: &Path,
    to: &Path,
) -> Result<Vec<Path>, NoMemory>
    ensures { IfOk result (λ paths. paths.items ≡ map (λ row. renamed from.now to.now row.0) rows.now) }
{
    let mut paths = Vec::with_capacity(alloc, rows.len())?;
    'rows: for row in rows {
        paths.push(renamed_path(alloc, &row.0, from, to)?)?;
    }
    Ok(paths)
}

/// Puts the last `count` rows into the place of the path among the others, in place of its row.
pub(crate) fn put_last(rows: &mut Rows, count: usize, names: &[Name])
    requires count { count ≤ length rows.old }
    requires rising { IsTrue (is_sorted path_cmp (take (length rows.old - count) rows.old)) }
    ensures { IsPutAt (take (length rows.old - count) rows.old) (drop (length rows.old - count) rows.old) names.now rows.new }
{
    let others = rows.len() - count;
    match place_of(&rows.as_slice()[..others], names) {
        Ok(at) => {
            rows.remove(at);
            rows.rotate(at, others - at - 1);
        }
        Err(gap) => rows.rotate(gap, others - gap),
    }
}
