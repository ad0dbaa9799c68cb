//! The run of a resolution.
ghost use Rattle.std.specs.Prelude.{◌≡◌, IfOk};
ghost use Rattle.iot_acts.specs.Traces.{ActsHold};
ghost use Rattle.iot_acts.specs.Guards.{AllGuarded};
ghost use Rattle.iot_acts.specs.Fitting.{HoldByReads};
ghost use Rattle.iot_exec.specs.Commands.{kept_files};
ghost use Rattle.iot_exec.specs.Runs.{run};
ghost use Rattle.iot_resolve.specs.Files.{offered, OffersFilesOf};
ghost use Rattle.iot_resolve.specs.Resolved.{resolved, KeepsFound};

use crate::files::offered_files;
use crate::plan::Plan;
use iot_exec::run_finding;
use iot_lang::Script;
use iot_queue::Resolution;
use iot_text::NoMemory;
use iot_tree::Tree;
use std::alloc::Global;
use std::rc::Rc;

/// Runs the script of a plan on a copy of the server's tree, with the plan's budget. If the plan keeps, `keep` reads the files of
/// the local tree whose contents are known, else none.
///
/// The resolution keeps exactly those of these files that its `keep` commands found.
pub fn resolve(
    alloc: Global,
    plan: &Plan,
    script: Rc<Script>,
    local: &Tree,
    server: &Tree,
) -> Result<Resolution, NoMemory>
    ensures resolved { IfOk result (λ done. done ≡ resolved plan.now script.value local.now server.now) }

    // What is offered to `keep` are the files of the local tree if the plan keeps, else none.
    ensures offers { IfOk result (λ done. OffersFilesOf plan.now.keeps local.now (offered plan.now.keeps local.now)) }

    // What it keeps are those of them that it found.
    ensures files { IfOk result (λ done. KeepsFound plan.now script.value local.now server.now done.kept) }

    // It needs no other files: with its own alone the script does the same on the server's tree.
    ensures again { IfOk result (λ done. done.acts ≡ (run script.value (kept_files done.kept) server.now done.budget).acts) }

    // Its acts hold on the server's tree, each is guarded by its reads, and so they hold on every tree that answers all their reads.
    ensures holds { IfOk result (λ done. ActsHold server.now done.acts) }
    ensures guarded { IfOk result (λ done. AllGuarded done.acts) }
    ensures fits { IfOk result (λ done. HoldByReads done.acts) }
{
    let offered = offered_files(alloc, plan.keeps, local)?;
    let mut tree = server.copy(alloc)?;
    let done = run_finding(alloc, script, &offered, &mut tree, plan.budget)?;
    Ok(Resolution {
        script: plan.script,
        budget: plan.budget,
        kept: done.files,
        acts: done.acted.acts,
    })
}
