//! Choosing the paths.
ghost use Rattle.std.specs.Prelude.{◌≡◌, map, IfOk};
ghost use Rattle.iot_tree.specs.Snapshots.{ArePathsRising};
ghost use Rattle.iot_hoard.specs.Picking.{IsPick, by_priority};

use crate::choosing::Choice;
use iot_text::NoMemory;
use iot_tree::{Paths, Profile, Tree, Wish};
use std::alloc::Global;

/// The paths of the tree that the profile takes along within the limit, in their order. The wishes count by their
/// priority, the greatest first, and those of the same priority in the order of their lines. Each takes its path with
/// those above it from the root down, and then, if it reaches below, all paths below it, in order. A path counts once, at
/// its first place, and only if the tree has it. The first path that does not fit ends the choice, so that what is taken
/// is the longest front of that list whose size is within the limit.
///
/// Costs one search for each path that a wish names or that is above it, and one pass over the rows below it.
pub fn pick(alloc: Global, s: &Tree, p: &Profile, limit: u64) -> Result<Paths, NoMemory>
    ensures picks { IfOk result (IsPick s.now p.now limit) }
    ensures rising { IfOk result ArePathsRising }
{
    let rows = s.rows().as_slice();
    let wishes = by_priority(alloc, p.as_slice())?;
    let mut choice = Choice::nothing(alloc, rows, limit)?;
    'wishes: for wish in wishes.as_slice() {
        choice.take_wish(rows, wish);
    }
    choice.paths(alloc, rows)
}

/// The wishes by their priority, the greatest first, and those of the same priority in the order of their lines.
fn by_priority<'a>(alloc: Global, wishes: &'a [Wish]) -> Result<Vec<&'a Wish>, NoMemory>
    ensures { IfOk result (λ sorted. map (λ wish. wish.now) sorted.items ≡ by_priority wishes.now) }
{
    let mut sorted = Vec::new(alloc);
    'wishes: for wish in wishes {
        sorted.push(wish)?;
    }
    sorted.sort_by(|a, b| b.priority.cmp(&a.priority))?;
    Ok(sorted)
}
