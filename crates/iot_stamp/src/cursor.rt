//! Entries in order, gone through beside rows.
ghost use Rattle.std.specs.Prelude.{◌≡◌, ◌++◌, ◌∷◌, [], map, IfOk, OnOk};
ghost use Rattle.std.specs.List.{AllByRecursion};
ghost use Rattle.iot_text.specs.Paths.{IsPath};
ghost use Rattle.iot_stamp.specs.Passes.{before_key, from_key, after_head, head_at};

use iot_text::{NoMemory, Path};
use iot_tree::{Duplicate, Paths};
use std::alloc::Global;

/// Puts the path after the others.
pub(crate) fn push_path(alloc: Global, path: &Path, paths: &mut Paths) -> Result<(), NoMemory>
    ensures pushed { OnOk result (paths.new ≡ paths.old ++ path.now ∷ []) }
    ensures each { OnOk result (AllByRecursion IsPath paths.old → AllByRecursion IsPath paths.new) }
{
    // That it is a path is known of its names.
    let _names = path.names();
    paths.push(path.copy(alloc)?)?;
    Ok(())
}

/// Puts the paths of the entries up to the first that does not come before the path after the others, and gives the rest.
fn pass_before<'a>(
    alloc: Global,
    path: &Path,
    entries: &'a [(Path, u64)],
    passed: &mut Paths,
) -> Result<&'a [(Path, u64)], NoMemory>
    ensures rest { IfOk result (λ rest. rest.now ≡ from_key path.now entries.now) }
    ensures passed { OnOk result (passed.new ≡ passed.old ++ map (λ e. e.0) (before_key path.now entries.now)) }
    ensures each { OnOk result (AllByRecursion IsPath passed.old → AllByRecursion IsPath passed.new) }
{
    'entries: for (at, entry) in entries.iter().enumerate() {
        if !entry.0.cmp(path).is_lt() {
            return Ok(&entries[at..]);
        }
        push_path(alloc, &entry.0, passed)?;
    }
    Ok(&entries[entries.len()..])
}

/// Puts the paths of the entries after the others.
pub(crate) fn pass_all(
    alloc: Global,
    entries: &[(Path, u64)],
    passed: &mut Paths,
) -> Result<(), NoMemory>
    ensures passed { OnOk result (passed.new ≡ passed.old ++ map (λ e. e.0) entries.now) }
    ensures each { OnOk result (AllByRecursion IsPath passed.old → AllByRecursion IsPath passed.new) }
{
    'entries: for entry in entries {
        push_path(alloc, &entry.0, passed)?;
    }
    Ok(())
}

/// The stamp of the path's entry, if there is one, and the entries after it. The paths of the entries before it are put after the
/// others. Costs one comparison if the entries begin with the path's.
pub(crate) fn pass_to<'a>(
    alloc: Global,
    path: &Path,
    entries: &'a [(Path, u64)],
    passed: &mut Paths,
) -> Result<(Option<u64>, &'a [(Path, u64)]), NoMemory>
    ensures stamp { IfOk result (λ found. found.0 ≡ head_at path.now (from_key path.now entries.now)) }
    ensures rest { IfOk result (λ found. found.1.now ≡ after_head path.now (from_key path.now entries.now)) }
    ensures passed { OnOk result (passed.new ≡ passed.old ++ map (λ e. e.0) (before_key path.now entries.now)) }
    ensures each { OnOk result (AllByRecursion IsPath passed.old → AllByRecursion IsPath passed.new) }
{
    if let (Some(stamp), rest) = split_head(path, entries) {
        return Ok((Some(stamp), rest));
    }
    let rest = pass_before(alloc, path, entries, passed)?;
    Ok(split_head(path, rest))
}

/// The stamp of the path, if the entries begin with it, and the entries after that.
fn split_head<'a>(path: &Path, entries: &'a [(Path, u64)]) -> (Option<u64>, &'a [(Path, u64)])
    ensures stamp { result.0 ≡ head_at path.now entries.now }
    ensures rest { result.1.now ≡ after_head path.now entries.now }
{
    match entries.split_first() {
        Some((first, rest)) => {
            if path.cmp(&first.0).is_eq() {
                (Some(first.1), rest)
            } else {
                (None, entries)
            }
        }
        None => (None, entries),
    }
}
