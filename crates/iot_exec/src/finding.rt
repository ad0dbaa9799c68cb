//! What `keep` finds among the kept files.
ghost use Rattle.std.specs.Prelude.{◌≡◌, ◌++◌, ℕ, List, [], Some, None, IfOk, OnOk, if◌then◌else◌};
ghost use Rattle.std.specs.List.{cons_option};
ghost use Rattle.std.specs.BTreeSet.{contains};
ghost use Rattle.iot_text.specs.Paths.{path_cmp};
ghost use Rattle.iot_exec.specs.Commands.{kept_files};
ghost use Rattle.iot_exec.specs.Finding.{wanted_by, wanted_of, found_of, is_among, files_among};

use crate::conditions::path_of;
use crate::env::Env;
use crate::kept::KeptFiles;
use iot_lang::{Command, Stmt};
use iot_text::{NoMemory, Path};
use iot_tree::{Blob, Duplicate, Files, Paths};
use std::alloc::Global;
use std::collections::BTreeSet;

/// The path at which a command looks for a kept file.
fn wanted_by(alloc: Global, env: &Env, command: &Command) -> Result<Option<Path>, NoMemory>
    ensures { IfOk result (λ path. path ≡ wanted_by env.now command.now) }
{
    match command {
        Command::Keep(from, to) => {
            let Some(from) = path_of(alloc, env, from)? else {
                return Ok(None);
            };
            match path_of(alloc, env, to)? {
                Some(_) => Ok(Some(from)),
                None => Ok(None),
            }
        }
        _ => Ok(None),
    }
}

/// The path at which a statement looks for a kept file.
fn wanted(alloc: Global, env: &Env, statement: &Stmt) -> Result<Option<Path>, NoMemory>
    ensures { IfOk result (λ path. path ≡ wanted_of env.now statement.now) }
{
    match statement {
        Stmt::Do(command) => wanted_by(alloc, env, command),
        Stmt::Stop | Stmt::If { .. } | Stmt::For { .. } => Ok(None),
    }
}

/// The path at which a statement finds a kept file.
pub(crate) fn found(
    alloc: Global,
    env: &Env,
    kept: &KeptFiles,
    statement: &Stmt,
) -> Result<Option<Path>, NoMemory>
    ensures { IfOk result (λ path. path ≡ found_of (kept_files kept.now) (wanted_of env.now statement.now)) }
{
    let Some(path) = wanted(alloc, env, statement)? else {
        return Ok(None);
    };
    match kept.get(&path) {
        Some(_) => Ok(Some(path)),
        None => Ok(None),
    }
}

/// Puts a path after the others, if there is one.
pub(crate) fn push_path(paths: &mut Paths, path: Option<Path>) -> Result<(), NoMemory>
    ensures { OnOk result (paths.new ≡ paths.old ++ cons_option path []) }
{
    match path {
        Some(path) => paths.push(path),
        None => Ok(()),
    }
}

/// The set of these paths.
fn set_of(alloc: Global, paths: &[Path]) -> Result<BTreeSet<Path>, NoMemory>
    ensures { IfOk result (λ set. (path : List (List ℕ)) → contains path_cmp set path ≡ is_among path paths.now) }
{
    let mut set = BTreeSet::new(alloc);
    'paths: for path in paths {
        set.insert(path.copy(alloc)?)?;
    }
    Ok(set)
}

/// The file, if its path is in the set, in memory of its own.
fn file_among(
    alloc: Global,
    file: &(Path, Blob),
    paths: &BTreeSet<Path>,
) -> Result<Option<(Path, Blob)>, NoMemory>
    ensures { IfOk result (λ found. found ≡ (if contains path_cmp paths.now file.now.0 then Some file.now else None)) }
{
    if paths.contains(&file.0) {
        Ok(Some((file.0.copy(alloc)?, file.1.copy(alloc)?)))
    } else {
        Ok(None)
    }
}

/// Those of the files that lie at one of the paths, in their order.
pub(crate) fn files_among(alloc: Global, files: &Files, paths: &[Path]) -> Result<Files, NoMemory>
    ensures { IfOk result (λ found. found ≡ files_among paths.now files.now) }
{
    let wanted = set_of(alloc, paths)?;
    let mut found = Files::new(alloc);
    let rows = files.as_slice();
    'rows: for row in rows {
        if let Some(file) = file_among(alloc, row, &wanted)? {
            found.push(file)?;
        }
    }
    Ok(found)
}
