//! Whether updates fit in turn.
ghost use Rattle.std.specs.Prelude.{◌≡◌, ◌↔◌, IsTrue, IfOk, OnOk, reverse};
ghost use Rattle.iot_tree.specs.Tree.{IsTree};
ghost use Rattle.iot_access.specs.Access.{FitInTurn};
ghost use Rattle.iot_fitting.specs.Undoing.{Undoes};

use crate::undoing::{Undo, push_undoing, undo_all};
use iot_text::NoMemory;
use iot_tree::{Sequence, Tree, Update};
use std::alloc::Global;

/// Updates that were made in turn, up to the first that did not fit.
#[derive(Drop)]
struct Trial {
    /// Whether each of them fit, and was made.
    fit: bool,
    /// What undoes those that were made: its last step is to be taken first.
    undo: Sequence<Undo>,
}

/// Makes the updates in place, up to the first that does not fit, and keeps what undoes them.
fn try_in_turn(alloc: Global, tree: &mut Tree, updates: &[Update]) -> Result<Trial, NoMemory>
    requires { IsTree tree.old }
    ensures fit { IfOk result (λ trial. IsTrue trial.fit ↔ FitInTurn tree.old updates.now) }
    ensures undoes { IfOk result (λ trial. Undoes (reverse trial.undo) tree.new tree.old) }
{
    let mut undo = Sequence::new(alloc);
    'updates: for update in updates {
        if !tree.fits(update) {
            return Ok(Trial { fit: false, undo });
        }
        push_undoing(alloc, tree, update, &mut undo)?;
        tree.apply(alloc, update)?;
    }
    Ok(Trial { fit: true, undo })
}

/// Whether each of the updates fits the tree in its turn. They are made in place, up to the first that does not fit, and then undone,
/// the last one first: so no copy of the tree is taken. Costs what the updates cost, twice. After an error nothing is said of the tree.
pub fn fit_in_turn(alloc: Global, tree: &mut Tree, updates: &[Update]) -> Result<bool, NoMemory>
    ensures fit { IfOk result (λ fit. IsTrue fit ↔ FitInTurn tree.old updates.now) }
    ensures same { OnOk result (tree.new ≡ tree.old) }
{
    // What is asked here is the clause that the rows are a tree's.
    let _rows = tree.rows();
    let Trial { fit, undo } = try_in_turn(alloc, tree, updates)?;
    undo_all(alloc, tree, undo)?;
    Ok(fit)
}
