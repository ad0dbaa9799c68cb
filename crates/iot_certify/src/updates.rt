//! Updates of acts in turn, on a copy of a tree.
ghost use Rattle.std.specs.Prelude.{◌≡◌, ◌↔◌, IsTrue, IfOk, unwrap_or, true};
ghost use Rattle.std.specs.List.{list_all};
ghost use Rattle.iot_tree.specs.Tree.{Nodes};
ghost use Rattle.iot_acts.specs.Traces.{ActsHold, FitsIfAny, after_update};
ghost use Rattle.iot_certify.specs.Silent.{is_silent};

use iot_text::NoMemory;
use iot_tree::{Act, Tree, Update};
use std::alloc::Global;

/// The tree after the updates so far: the changed one, if there is one.
pub(crate) fn current<'a>(t: &'a Tree, changed: &'a Option<Tree>) -> &'a Tree
    ensures { result.now ≡ unwrap_or changed.now t.now }
{
    changed.as_ref().unwrap_or(t)
}

/// Whether the update of an act, if it has one, fits the tree. Does not allocate.
pub(crate) fn fits(t: &Tree, update: &Option<Update>) -> bool
    ensures { IsTrue result ↔ FitsIfAny t.now update.now }
{
    match update {
        Some(update) => t.fits(update),
        None => true,
    }
}

/// Makes the update of an act, if it has one, on the changed tree, or on a copy of the tree if none
/// is changed yet. Gives the changed tree.
pub(crate) fn apply(
    alloc: Global,
    t: &Tree,
    changed: Option<Tree>,
    update: &Option<Update>,
) -> Result<Option<Tree>, NoMemory>
    requires { FitsIfAny (unwrap_or changed t.now) update.now }
    ensures { IfOk result (λ next. unwrap_or next t.now ≡ after_update (unwrap_or changed t.now) update.now) }
{
    let Some(update) = update else {
        return Ok(changed);
    };
    let mut tree = match changed {
        Some(tree) => tree,
        None => t.copy(alloc)?,
    };
    tree.apply(alloc, update)?;
    Ok(Some(tree))
}

/// Whether there is an update that no later act can see: they read and change nothing, and so hold on every tree.
pub(crate) fn is_unseen(update: &Option<Update>, later: &[Act]) -> bool
    ensures { result ≡ true → (t : Nodes) → ActsHold t later.now }
{
    // Without an update there is nothing to spare, and the later acts need no look.
    if update.is_none() {
        return false;
    }
    are_silent(later)
}

/// Whether each of the acts reads and changes nothing.
fn are_silent(acts: &[Act]) -> bool
    ensures { result ≡ list_all is_silent acts.now }
{
    acts.iter().all(|act| is_silent(act))
}

/// Whether the act reads and changes nothing.
fn is_silent(act: &Act) -> bool
    ensures { result ≡ is_silent act.now }
{
    act.reads.is_empty() && act.update.is_none()
}
