//! Rising lists of paths put together.
ghost use Rattle.std.specs.Prelude.{◌≡◌, ◌<◌, ◌+◌, ◌++◌, [], IfOk, IfNone, OnSome, length, option_to_list};
ghost use Rattle.iot_prune.specs.Joins.{front_cmp, joined};

use iot_text::{NoMemory, Path};
use iot_tree::Paths;
use std::alloc::Global;
use std::cmp::Ordering;
use std::collections::VecDeque;

/// The paths of both lists, which rise, in their order. One that is in both stands once. One pass over both.
pub(crate) fn joined(alloc: Global, first: Paths, second: Paths) -> Result<Paths, NoMemory>
    ensures { IfOk result (λ paths. paths ≡ joined first second) }
{
    let mut first = VecDeque::from(first.into_vec());
    let mut second = VecDeque::from(second.into_vec());
    let mut paths = Paths::new(alloc);
    'paths: while let Some(path) = next(&mut first, &mut second) {
        paths.push(path)?;
    }
    Ok(paths)
}

/// Takes the least path out of both lists.
fn next(first: &mut VecDeque<Path>, second: &mut VecDeque<Path>) -> Option<Path>
    ensures next { joined first.old.items second.old.items ≡ option_to_list result ++ joined first.new.items second.new.items }
    ensures shorter { OnSome result (length first.new.items + length second.new.items < length first.old.items + length second.old.items) }
    ensures none { IfNone result (joined first.old.items second.old.items ≡ []) }
{
    match front_cmp(first, second) {
        Ordering::Less => first.pop_front(),
        Ordering::Equal => {
            second.pop_front();
            first.pop_front()
        }
        Ordering::Greater => second.pop_front(),
    }
}

/// How the first paths of both lists compare. The end of a list comes after every path.
fn front_cmp(first: &VecDeque<Path>, second: &VecDeque<Path>) -> Ordering
    ensures { result ≡ front_cmp first.now.items second.now.items }
{
    let Some(path) = first.front() else {
        return Ordering::Greater;
    };
    match second.front() {
        Some(other) => path.cmp(other),
        None => Ordering::Less,
    }
}
