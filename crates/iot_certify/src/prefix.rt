//! How far acts hold.
ghost use Rattle.std.specs.Prelude.{◌≡◌, ◌↔◌, length, IfOk, IsTrue};
ghost use Rattle.iot_acts.specs.Traces.{ReadsHold, FitsIfAny, ActsHold};
ghost use Rattle.iot_certify.specs.Verdicts.{IsLongest};

use crate::reads::first_wrong;
use crate::updates::{apply, current, fits};
use iot_text::NoMemory;
use iot_tree::{Act, Acts, Tree};
use std::alloc::Global;

/// The greatest length of a prefix of the acts that holds on the tree. One walk, up to the first act that does not hold; copies the tree
/// when the first update comes.
pub fn longest(alloc: Global, t: &Tree, acts: &Acts) -> Result<u64, NoMemory>
    ensures longest { IfOk result (IsLongest t.now acts.now) }
    ensures all { IfOk result (λ count. (count ≡ length acts.now) ↔ ActsHold t.now acts.now) }
{
    walk(alloc, t, acts.as_slice())
}

/// The same of a slice.
fn walk(alloc: Global, t: &Tree, acts: &[Act]) -> Result<u64, NoMemory>
    ensures { IfOk result (IsLongest t.now acts.now) }
{
    let mut changed = None;
    let mut count: u64 = 0;
    'acts: for act in acts {
        if !holds(current(t, &changed), act) {
            return Ok(count);
        }
        changed = apply(alloc, t, changed, &act.update)?;
        count += 1;
    }
    Ok(count)
}

/// Whether each read of the act is the tree's answer, and its update fits. Does not allocate.
fn holds(t: &Tree, act: &Act) -> bool
    ensures { IsTrue result ↔ (ReadsHold t.now act.now.reads × FitsIfAny t.now act.now.update) }
{
    match first_wrong(t, act.reads.as_slice()) {
        Some(_) => false,
        None => fits(t, &act.update),
    }
}
