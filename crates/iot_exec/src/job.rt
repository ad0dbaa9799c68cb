//! Whole runs of scripts.
ghost use Rattle.std.specs.Prelude.{◌≡◌, ◌≤◌, length, IfOk};
ghost use Rattle.iot_tree.specs.Tree.{Nodes, IsTree};
ghost use Rattle.iot_acts.specs.Traces.{ActsHold, after_acts};
ghost use Rattle.iot_acts.specs.Guards.{AllGuarded};
ghost use Rattle.iot_acts.specs.Fitting.{HoldByReads};
ghost use Rattle.iot_exec.specs.Commands.{kept_files};
ghost use Rattle.iot_exec.specs.Runs.{run, ran_on};
ghost use Rattle.iot_exec.specs.Traces.{IsAlike};
ghost use Rattle.iot_exec.specs.Parting.{PartWhereTheyDiffer};

use crate::exec::Exec;
use crate::ran::{Acted, Ran};
use iot_lang::Script;
use iot_text::NoMemory;
use iot_tree::{Acts, Files, Tree};
use std::alloc::Global;
use std::rc::Rc;

/// Runs a script on a copy of the tree, with at most so many acts. `keep` reads the kept files.
pub fn run(
    alloc: Global,
    script: Rc<Script>,
    kept: Files,
    t: &Tree,
    budget: u64,
) -> Result<Ran, NoMemory>
    ensures run { IfOk result (λ ran. ran ≡ run script.value (kept_files kept) t.now budget) }

    // Its acts hold on the tree, each is guarded by its reads, and so they hold on every tree that answers all their reads.
    ensures holds { IfOk result (λ ran. ActsHold t.now ran.acts) }
    ensures guarded { IfOk result (λ ran. AllGuarded ran.acts) }
    ensures fits { IfOk result (λ ran. HoldByReads ran.acts) }

    // On each other tree the acts hold exactly if the run there has the same reads; then it does the same there.
    ensures alike { IfOk result (λ ran. (u : Nodes) → IsTree u → IsAlike ran (run script.value (kept_files kept) u budget) u) }

    // On any tree the reads of the run there part from these at the first read of the acts that differs there in its turn.
    ensures parts { IfOk result (λ ran. (u : Nodes) → PartWhereTheyDiffer ran (run script.value (kept_files kept) u budget) u) }
{
    let mut tree = t.copy(alloc)?;
    let acted = run_on(alloc, script, kept, &mut tree, budget)?;
    Ok(Ran {
        acts: acted.acts,
        tree,
        ended: acted.ended,
    })
}

/// Runs a script on the tree itself, with at most so many acts. `keep` reads the kept files. After an error do not use
/// the tree.
pub fn run_on(
    alloc: Global,
    script: Rc<Script>,
    kept: Files,
    tree: &mut Tree,
    budget: u64,
) -> Result<Acted, NoMemory>
    ensures run { IfOk result (λ acted. ran_on acted tree.new ≡ run script.value (kept_files kept) tree.old budget) }

    // The acts hold on the tree, and make of it what it is now.
    ensures holds { IfOk result (λ acted. ActsHold tree.old acted.acts) }
    ensures made { IfOk result (λ acted. tree.new ≡ after_acts tree.old acted.acts) }

    // Each act is guarded by its reads, and so they hold on every tree that answers all their reads.
    ensures guarded { IfOk result (λ acted. AllGuarded acted.acts) }
    ensures fits { IfOk result (λ acted. HoldByReads acted.acts) }

    ensures few { IfOk result (λ acted. length acted.acts ≤ budget) }
{
    let mut exec = Exec::new(alloc, script, kept);
    let mut acts = Acts::new(alloc);
    'acts: while exec.acts() < budget {
        match exec.step(alloc, tree)? {
            Some(act) => acts.push(act)?,
            None => break,
        }
    }
    Ok(Acted {
        acts,
        ended: exec.at_end(),
    })
}
