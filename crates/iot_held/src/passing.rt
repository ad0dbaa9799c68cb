//! Acts that are made on a plain tree.
ghost use Rattle.std.specs.Prelude.{◌≡◌, OnOk};
ghost use Rattle.iot_acts.specs.Traces.{FitsIfAny, after_update, after_acts};
ghost use Rattle.iot_stamp.specs.Acting.{UpdatesFit};

use iot_text::NoMemory;
use iot_tree::{Act, Tree, Update};
use std::alloc::Global;

/// Makes the updates of the acts in turn, in place. After an error nothing is said of the tree.
pub fn pass(alloc: Global, tree: &mut Tree, acts: &[Act]) -> Result<(), NoMemory>
    requires { UpdatesFit tree.old acts.now }
    ensures { OnOk result (tree.new ≡ after_acts tree.old acts.now) }
{
    'acts: for act in acts {
        make(alloc, tree, &act.update)?;
    }
    Ok(())
}

/// Makes the update, if there is one.
fn make(alloc: Global, tree: &mut Tree, update: &Option<Update>) -> Result<(), NoMemory>
    requires { FitsIfAny tree.old update.now }
    ensures { OnOk result (tree.new ≡ after_update tree.old update.now) }
{
    match update {
        Some(update) => tree.apply(alloc, update),
        None => Ok(()),
    }
}
