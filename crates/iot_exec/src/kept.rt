//! The files that `keep` reads.
ghost use Rattle.std.specs.Prelude.{◌≡◌, IsTrue};
ghost use Rattle.std.specs.Option.{option_copied};
ghost use Rattle.std.specs.Ordering.{is_lt};
ghost use Rattle.std.specs.FinMap.{get, find, is_sorted};
ghost use Rattle.iot_text.specs.Paths.{path_cmp};
ghost use Rattle.iot_exec.specs.Commands.{kept_files};
ghost use Rattle.iot_exec.specs.Kept.{IsFoundAt};

use iot_text::Path;
use iot_tree::{Blob, Files};
use std::cmp::Ordering;
use std::marker::Model;

/// The files that `keep` reads. Contracts see it as their list.
///
/// Where they rise by their paths, as the files of a tree do, a look-up is a binary search.
#[derive(Drop)]
pub struct KeptFiles {
    files: Files,

    /// Whether they rise by their paths.
    rising: bool,
}

impl Model for KeptFiles {
    ghost use Rattle.std.specs.Prelude.{◌≡◌, ℕ, List};
    ghost use Rattle.std.specs.Coded.{coded_ℕ, coded_list, coded×};
    ghost use Rattle.std.specs.FinMap.{is_sorted};
    ghost use Rattle.iot_text.specs.Paths.{path_cmp};

    ghost Value = { List (List (List ℕ) × List ℕ) };

    ghost coded = { coded_list (coded× (coded_list (coded_list coded_ℕ)) (coded_list coded_ℕ)) };

    ghost view = { λ kept. kept.files };

    ghost invariant = { λ kept. kept.rising ≡ is_sorted path_cmp kept.files };
}

impl KeptFiles {
    /// These files. Does not allocate.
    pub(crate) fn new(files: Files) -> KeptFiles
        ensures { result ≡ files }
    {
        let rising = do_rise(files.as_slice());
        KeptFiles { files, rising }
    }

    /// The contents that are kept at the path.
    pub(crate) fn get(&self, path: &Path) -> Option<&Blob>
        ensures { option_copied result ≡ get (kept_files self.now) path.now }
    {
        let files = self.files.as_slice();
        if self.rising {
            search(files, path)
        } else {
            scan(files, path)
        }
    }
}

/// Whether the files rise by their paths.
fn do_rise(files: &[(Path, Blob)]) -> bool
    ensures { result ≡ is_sorted path_cmp files.now }
{
    files.is_sorted_by(
        |one, next| -> bool
            ensures { result ≡ is_lt (path_cmp one.now.0 next.now.0) }
        { one.0.cmp(&next.0).is_lt() },
    )
}

/// The place of the path's file among files that rise, or the place where it would go. A binary search.
fn place_of(files: &[(Path, Blob)], path: &Path) -> Result<usize, usize>
    requires { IsTrue (is_sorted path_cmp files.now) }
    ensures { IsFoundAt files.now path.now result }
{
    files.binary_search_by(
        |file| -> Ordering
            ensures { result ≡ path_cmp file.now.0 path.entry.now }
        { file.0.cmp(path) },
    )
}

/// The contents that files which rise have at the path.
fn search<'k>(files: &'k [(Path, Blob)], path: &Path) -> Option<&'k Blob>
    requires { IsTrue (is_sorted path_cmp files.now) }
    ensures { option_copied result ≡ find path_cmp path.now files.now }
{
    match place_of(files, path) {
        Ok(at) => Some(&files[at].1),
        Err(_) => None,
    }
}

/// The contents that the first of the files at the path has, in whatever order they stand.
fn scan<'k>(files: &'k [(Path, Blob)], path: &Path) -> Option<&'k Blob>
    ensures { option_copied result ≡ find path_cmp path.now files.now }
{
    'files: for (at, bytes) in files {
        if path.cmp(at).is_eq() {
            return Some(bytes);
        }
    }
    None
}
