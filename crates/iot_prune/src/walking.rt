//! Rising paths, gone through beside rows.
ghost use Rattle.std.specs.Prelude.{◌≡◌};
ghost use Rattle.iot_prune.specs.Walks.{begins, from};

use iot_text::Path;

/// The paths from the first on that does not come before this one.
pub fn from<'a>(path: &Path, paths: &'a [Path]) -> &'a [Path]
    ensures { result.now ≡ from path.now paths.now }
{
    'paths: for (at, other) in paths.iter().enumerate() {
        if !other.cmp(path).is_lt() {
            return &paths[at..];
        }
    }
    &paths[paths.len()..]
}

/// Whether the paths begin with this one.
pub fn begins(path: &Path, paths: &[Path]) -> bool
    ensures { result ≡ begins path.now paths.now }
{
    match paths.first() {
        Some(first) => path.cmp(first).is_eq(),
        None => false,
    }
}
