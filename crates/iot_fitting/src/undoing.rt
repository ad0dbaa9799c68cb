//! What undoes updates.
ghost use Rattle.std.specs.Prelude.{◌≡◌, ◌++◌, ◌∷◌, Some, IfOk, OnOk, List, reverse, unwrap_or};
ghost use Rattle.std.specs.FinMap.{get};
ghost use Rattle.std.specs.List.{cons_option};
ghost use Rattle.iot_tree.specs.declared.updates.Update.TheVariants.{Remove};
ghost use Rattle.iot_fitting.specs.Undoing.{restoring, undoing, CanUndo, undone_by, CanUndoInTurn, after_undoing};
ghost use Rattle.iot_fitting.specs.declared.undoing.Undo.TheVariants.{Make};

use iot_text::{NoMemory, Path};
use iot_tree::{Duplicate, Node, Sequence, Tree, Update};
use std::alloc::Global;

/// A step that undoes an update, or a part of one.
#[derive(Drop)]
pub enum Undo {
    /// What was at the path comes back, as it was.
    Restore(Path, Node),
    /// This update is made.
    Make(Update),
}

/// The step that brings back what is at the path now, if anything is there.
fn restoring(alloc: Global, tree: &Tree, path: &Path) -> Result<Option<Undo>, NoMemory>
    ensures { IfOk result (λ step. step ≡ restoring path.now (get tree.now path.now)) }
{
    match tree.node(path.names()) {
        Some(node) => Ok(Some(Undo::Restore(path.copy(alloc)?, node.copy(alloc)?))),
        None => Ok(None),
    }
}

/// The step that undoes a `Put` at the path: what is there now comes back, or the new file goes.
fn undoing_put(alloc: Global, tree: &Tree, path: &Path) -> Result<Undo, NoMemory>
    ensures { IfOk result (λ step. step ≡ unwrap_or (restoring path.now (get tree.now path.now)) (Make (Remove path.now))) }
{
    match restoring(alloc, tree, path)? {
        Some(step) => Ok(step),
        None => Ok(Undo::Make(Update::Remove(path.copy(alloc)?))),
    }
}

/// Puts on the stack what brings back what is at the path now, if anything is there.
fn push_restoring(
    alloc: Global,
    tree: &Tree,
    path: &Path,
    undo: &mut Sequence<Undo>,
) -> Result<(), NoMemory>
    ensures { OnOk result (reverse undo.new ≡ cons_option (restoring path.now (get tree.now path.now)) (reverse undo.old)) }
{
    match restoring(alloc, tree, path)? {
        Some(step) => undo.push(step),
        None => Ok(()),
    }
}

/// Puts on the stack what undoes the update after it is made: its last step is to be taken first.
pub(crate) fn push_undoing(
    alloc: Global,
    tree: &Tree,
    update: &Update,
    undo: &mut Sequence<Undo>,
) -> Result<(), NoMemory>
    ensures { OnOk result (reverse undo.new ≡ undoing tree.now update.now ++ reverse undo.old) }
{
    match update {
        Update::Put(path, _) => undo.push(undoing_put(alloc, tree, path)?),
        Update::MakeDir(path) => undo.push(Undo::Make(Update::Remove(path.copy(alloc)?))),
        Update::Remove(path) | Update::SetMode(path, _) => push_restoring(alloc, tree, path, undo),
        Update::Move(from, to) => {
            push_restoring(alloc, tree, to, undo)?;
            undo.push(Undo::Make(Update::Move(to.copy(alloc)?, from.copy(alloc)?)))
        }
    }
}

/// Takes the step.
fn take(alloc: Global, tree: &mut Tree, step: Undo) -> Result<(), NoMemory>
    requires { CanUndo tree.old step }
    ensures { OnOk result (tree.new ≡ undone_by tree.old step) }
{
    match step {
        Undo::Restore(path, node) => tree.put_node(alloc, &path, node),
        Undo::Make(update) => tree.apply(alloc, &update),
    }
}

/// Takes the steps of the stack, the last one first.
pub(crate) fn undo_all(alloc: Global, tree: &mut Tree, undo: Sequence<Undo>) -> Result<(), NoMemory>
    requires { CanUndoInTurn tree.old (reverse undo) }
    ensures { OnOk result (tree.new ≡ after_undoing tree.old (reverse undo)) }
{
    let mut left = undo.into_vec();
    'left: while let Some(step) = left.pop() {
        take(alloc, tree, step)?;
    }
    Ok(())
}
