//! Whole runs of scripts, with the kept files that they find.
ghost use Rattle.std.specs.Prelude.{◌≡◌, ◌≤◌, length, IfOk};
ghost use Rattle.iot_acts.specs.Traces.{ActsHold, after_acts};
ghost use Rattle.iot_acts.specs.Guards.{AllGuarded};
ghost use Rattle.iot_acts.specs.Fitting.{HoldByReads};
ghost use Rattle.iot_exec.specs.Commands.{kept_files};
ghost use Rattle.iot_exec.specs.Runs.{run, ran_on};
ghost use Rattle.iot_exec.specs.Finding.{found_in, files_among, AreFound};

use crate::exec::Exec;
use crate::finding::{files_among, push_path};
use crate::ran::{Acted, Found};
use iot_lang::Script;
use iot_text::NoMemory;
use iot_tree::{Acts, Duplicate, Files, Paths, Tree};
use std::alloc::Global;
use std::rc::Rc;

/// Runs a script on the tree itself, with at most so many acts, and says which of the kept files its `keep` commands found. After
/// an error do not use the tree.
pub fn run_finding(
    alloc: Global,
    script: Rc<Script>,
    kept: &Files,
    tree: &mut Tree,
    budget: u64,
) -> Result<Found, NoMemory>
    ensures run { IfOk result (λ done. ran_on done.acted tree.new ≡ run script.value (kept_files kept.now) tree.old budget) }

    // The files found are those that lie at the paths at which the run finds one, in the order of the kept files.
    ensures files { IfOk result
        (λ done. done.files ≡ files_among (found_in script.value (kept_files kept.now) tree.old budget) kept.now) }

    // The run needs no other kept files: with these alone it is the same.
    ensures found { IfOk result (λ done. AreFound script.value kept.now done.files tree.old budget) }

    // The acts hold on the tree, and make of it what it is now.
    ensures holds { IfOk result (λ done. ActsHold tree.old done.acted.acts) }
    ensures made { IfOk result (λ done. tree.new ≡ after_acts tree.old done.acted.acts) }

    // Each act is guarded by its reads, and so they hold on every tree that answers all their reads.
    ensures guarded { IfOk result (λ done. AllGuarded done.acted.acts) }
    ensures fits { IfOk result (λ done. HoldByReads done.acted.acts) }

    ensures few { IfOk result (λ done. length done.acted.acts ≤ budget) }
{
    let offered = kept.copy(alloc)?;
    let mut exec = Exec::at_start(alloc, script, offered);
    let mut acts = Acts::new(alloc);
    let mut paths = Paths::new(alloc);
    'acts: while exec.acts() < budget {
        let path = exec.next_found(alloc)?;
        match exec.step(alloc, tree)? {
            Some(act) => {
                acts.push(act)?;
                push_path(&mut paths, path)?;
            }
            None => break,
        }
    }
    let ended = exec.at_end();
    let files = files_among(alloc, kept, paths.as_slice())?;
    Ok(Found {
        acted: Acted { acts, ended },
        files,
    })
}
