//! A whole run of a script, as a transaction.
ghost use Rattle.iot_exchange.specs.{Pairs.Does, Pairs.IsReadyWith, Pairs.two, Scripts.script_of, Scripts.scripts_of};
ghost use Rattle.iot_exchange.specs.Words.{Begins, Chosen, Declared, Goes, IsMeant, Means};
ghost use Rattle.iot_machine.specs.Events.{Runs, runs_through};

use crate::declared::DeclaredScript;
use crate::queues::sync_all;
use crate::transactions::{begin, end, steps};
use iot_disk::Disk;
use iot_laptop::Laptop;
use iot_node::{Halt, say};
use iot_server_node::ServerNode;
use iot_text::Text;
use iot_tree::OnConflict;
use std::alloc::Global;

/// The most single steps that one run makes.
const RUN_STEPS: u64 = 100_000;

/// Over a link that is up, syncs what waits; then begins a transaction of the script, makes its single steps, and ends it; unless as many
/// run as may.
pub(crate) fn run<D: Disk>(
    laptop: &mut Laptop<D>,
    server: &mut ServerNode<D>,
    alloc: Global,
    scripts: &[DeclaredScript],
    script: &DeclaredScript,
    option: OnConflict,
    out: &mut Text,
) -> Result<(), Halt>
    requires ready { IsReadyWith D.medium (scripts_of scripts.now) (two laptop.old server.old) }
    requires meant { IsMeant (scripts_of scripts.now) (script_of script.now) option }
    ensures { (on_conflict : Chosen Declared) → Means (scripts_of scripts.now) (script_of script.now) option on_conflict
        → Does D.medium (scripts_of scripts.now) (Runs (script_of script.now) on_conflict)
        (two laptop.old server.old) (two laptop.new server.new) out.old out.new result }
{
    if laptop.is_full() {
        say(b"busy", out)?;
        return Err(Halt::Over);
    }
    if !laptop.is_connected() {
        return run_script(laptop, server, alloc, scripts, script, option, out);
    }
    sync_all(laptop, server, alloc, scripts, out)?;
    run_script(laptop, server, alloc, scripts, script, option, out)
}

/// Begins a transaction of the script, makes its single steps, and ends it; unless as many run as may.
fn run_script<D: Disk>(
    laptop: &mut Laptop<D>,
    server: &mut ServerNode<D>,
    alloc: Global,
    scripts: &[DeclaredScript],
    script: &DeclaredScript,
    option: OnConflict,
    out: &mut Text,
) -> Result<(), Halt>
    requires ready { IsReadyWith D.medium (scripts_of scripts.now) (two laptop.old server.old) }
    requires meant { IsMeant (scripts_of scripts.now) (script_of script.now) option }
    ensures { (on_conflict : Chosen Declared) → Means (scripts_of scripts.now) (script_of script.now) option on_conflict
        → Does D.medium (scripts_of scripts.now) (Goes (Begins (script_of script.now) on_conflict) runs_through)
        (two laptop.old server.old) (two laptop.new server.new) out.old out.new result }
{
    let number = begin(laptop, server, alloc, script, option, out)?;
    steps(laptop, server, alloc, number, RUN_STEPS, false, out)?;
    end(laptop, server, alloc, scripts, Some(number), out)
}
