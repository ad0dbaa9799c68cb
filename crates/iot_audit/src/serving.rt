//! Running the scripts of commits in turn.
ghost use Rattle.std.specs.Prelude.{◌≡◌, List, IfOk, option_copied};
ghost use Rattle.iot_event.specs.declared.event.Event.{Event};
ghost use Rattle.iot_audit.specs.Scripts.{AreScriptsOf};
ghost use Rattle.iot_audit.specs.Audits.{IsServed, entry_of, record_with, records_after, walked_in};
ghost use Rattle.iot_exec.specs.Runs.{ran_on};
ghost use Rattle.iot_exec.specs.Serial.{run_entry};

use crate::AuditFault;
use crate::lines::agrees;
use crate::scripts::Scripts;
use iot_exec::{Acted, run_on};
use iot_lang::Script;
use iot_store::Image;
use iot_text::NoMemory;
use iot_tree::{Duplicate, Label, Lines, Tree};
use std::alloc::Global;
use std::rc::Rc;

/// The tree that the commits of an image make when each one's script is run alone, one after the other, on one tree that has only its
/// root at first.
///
/// # Errors
///
/// At the first commit whose script is none of these, or whose record says that other lines were printed. `NoMemory`.
pub(crate) fn serve(alloc: Global, scripts: &Scripts, image: &Image) -> Result<Tree, AuditFault>
    ensures { (events : List Event) → AreScriptsOf events scripts.now → IsServed result (walked_in events image.now) }
{
    let mut tree = Tree::whole_root(alloc)?;
    let mut records = image.recorded.as_slice();
    let mut number = 0;
    let mut later = image.labels.len();
    'labels: for label in image.labels.as_slice() {
        number += 1;
        later -= 1;
        let Some(script) = scripts.named(&label.script) else {
            return Err(AuditFault::NoScript { number });
        };
        let (record, rest) = split_record(records, later);
        records = rest;
        let done = run_label(alloc, script, label, &mut tree)?;
        if !agrees(record, done.acts.as_slice()) {
            return Err(AuditFault::Lines { number });
        }
    }
    Ok(tree)
}

/// Runs the script of a label on the tree. After an error do not use the tree.
fn run_label(
    alloc: Global,
    script: &Rc<Script>,
    label: &Label,
    tree: &mut Tree,
) -> Result<Acted, NoMemory>
    ensures { IfOk result
        (λ acted. ran_on acted tree.new ≡ run_entry (entry_of script.now.value label.now) tree.old) }
{
    run_on(
        alloc,
        Rc::clone(script)?,
        label.kept.copy(alloc)?,
        tree,
        label.budget,
    )
}

/// The record of a label after which there are so many others, if it has one, and the records of these.
fn split_record(records: &[Lines], later: usize) -> (Option<&Lines>, &[Lines])
    ensures record { option_copied result.0 ≡ record_with records.now later }
    ensures rest { result.1.now ≡ records_after records.now later }
{
    if records.len() <= later {
        return (None, records);
    }
    match records.split_first() {
        Some((record, rest)) => (Some(record), rest),
        None => (None, records),
    }
}
