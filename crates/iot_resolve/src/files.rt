//! The files of a tree.
ghost use Rattle.std.specs.Prelude.{◌≡◌, IfOk};
ghost use Rattle.iot_exec.specs.Files.{file_of, files_of};
ghost use Rattle.iot_resolve.specs.Files.{offered};

use iot_text::{NoMemory, Path};
use iot_tree::{Blob, Duplicate, Files, Node, Tree};
use std::alloc::Global;

/// The file of a row, if its contents are known, in memory of its own.
fn file_of(alloc: Global, row: &(Path, Node)) -> Result<Option<(Path, Blob)>, NoMemory>
    ensures { IfOk result (λ file. file ≡ file_of row.now) }
{
    match &row.1 {
        Node::File(bytes, _) => Ok(Some((row.0.copy(alloc)?, bytes.copy(alloc)?))),
        Node::Dir | Node::FarDir | Node::FarFile(_) => Ok(None),
    }
}

/// The files of the tree whose contents are known, in the order of their paths.
fn files_of(alloc: Global, t: &Tree) -> Result<Files, NoMemory>
    ensures { IfOk result (λ files. files ≡ files_of t.now) }
{
    let mut files = Files::new(alloc);
    let rows = t.rows().as_slice();
    'rows: for row in rows {
        if let Some(file) = file_of(alloc, row)? {
            files.push(file)?;
        }
    }
    Ok(files)
}

/// The files that are offered to `keep`: those of the tree if the plan keeps, else none.
pub(crate) fn offered_files(alloc: Global, keeps: bool, t: &Tree) -> Result<Files, NoMemory>
    ensures { IfOk result (λ files. files ≡ offered keeps t.now) }
{
    if keeps {
        files_of(alloc, t)
    } else {
        Ok(Files::new(alloc))
    }
}
