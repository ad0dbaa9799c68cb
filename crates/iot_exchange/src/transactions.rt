//! What a client does with its transactions: they begin, are stepped and end.
ghost use Rattle.iot_exchange.specs.Pairs.{Does, IsReady, IsReadyWith, two};
ghost use Rattle.iot_exchange.specs.{Queues.EndsAloud, Queues.ended_as, Scripts.script_of, Scripts.scripts_of};
ghost use Rattle.iot_exchange.specs.Words.{Begins, Chosen, Declared, IsMeant, List, Means};
ghost use Rattle.iot_machine.specs.{Calls.Repeats, Events.BeginsAloud, Events.StepsAloud, Transactions.Ends, Transactions.Steps};

use crate::declared::DeclaredScript;
use crate::objects::{bring, send};
use crate::queues::{Synced, sync};
use crate::texts::{say_begin, say_fetch, say_of, say_pending, say_read, say_step};
use iot_client::Step;
use iot_disk::Disk;
use iot_laptop::{Certified, Errand, Gone, Laptop};
use iot_node::{Halt, say};
use iot_server_node::ServerNode;
use iot_text::{NoMemory, Text};
use iot_tree::{OnConflict, Want};
use std::alloc::Global;

// ---- begin

/// Begins the client's next transaction, unless as many run as may, and says so.
pub(crate) fn begin_aloud<D: Disk>(
    laptop: &mut Laptop<D>,
    server: &mut ServerNode<D>,
    alloc: Global,
    script: &DeclaredScript,
    option: OnConflict,
    out: &mut Text,
) -> Result<(), Halt>
    requires { (scripts : List Declared) × IsReadyWith D.medium scripts (two laptop.old server.old)
        × IsMeant scripts (script_of script.now) option }
    ensures { (scripts : List Declared) (on_conflict : Chosen Declared) → Means scripts (script_of script.now) option on_conflict
        → Does D.medium scripts (BeginsAloud (script_of script.now) on_conflict)
        (two laptop.old server.old) (two laptop.new server.new) out.old out.new result }
{
    let number = begin(laptop, server, alloc, script, option, out)?;
    match laptop.run(number) {
        Some(running) => {
            let transaction = laptop.transaction(number);
            Ok(say_begin(&transaction, &running.script, running.first, out)?)
        }
        None => Ok(()),
    }
}

/// Begins the client's next transaction, unless as many run as may, and gives its number. It is first class if a refresh comes.
#[tactic(auto, using(std::proofs::lemmas::Bool::Decides::nat_tests, crate::proofs::ExchangeLaws::no_items))]
pub(crate) fn begin<D: Disk>(
    laptop: &mut Laptop<D>,
    server: &mut ServerNode<D>,
    alloc: Global,
    script: &DeclaredScript,
    option: OnConflict,
    out: &mut Text,
) -> Result<u64, Halt>
    requires { IsReady D.medium (two laptop.old server.old) }
    ensures { (scripts : List Declared) (on_conflict : Chosen Declared) → Means scripts (script_of script.now) option on_conflict
        → Does D.medium scripts (Begins (script_of script.now) on_conflict)
        (two laptop.old server.old) (two laptop.new server.new) out.old out.new result }
{
    if laptop.is_full() {
        say(b"busy", out)?;
        return Err(Halt::Over);
    }
    let code = script.script.shared()?;
    if laptop.waits() {
        return laptop.begin(alloc, &script.name, code, option, false, out);
    }
    let first = bring(laptop, server, alloc, Errand::Refresh(&Want::Nothing), out)?;
    laptop.begin(alloc, &script.name, code, option, first, out)
}

// ---- steps

/// Makes at most so many single steps of the running transaction that is meant, and says how far it is.
pub(crate) fn step_aloud<D: Disk>(
    laptop: &mut Laptop<D>,
    server: &mut ServerNode<D>,
    alloc: Global,
    most: u64,
    which: Option<u64>,
    out: &mut Text,
) -> Result<(), Halt>
    requires { IsReady D.medium (two laptop.old server.old) }
    ensures { (scripts : List Declared) → Does D.medium scripts (StepsAloud most which)
        (two laptop.old server.old) (two laptop.new server.new) out.old out.new result }
{
    let Some(number) = laptop.meant(which) else {
        say(b"idle", out)?;
        return Err(Halt::Over);
    };
    steps(laptop, server, alloc, number, most, true, out)?;
    match laptop.run(number) {
        Some(running) => {
            let transaction = laptop.transaction(number);
            let acts = running.acts.len() as u64;
            Ok(say_step(&transaction, acts, laptop.at_end(number), out)?)
        }
        None => Ok(()),
    }
}

/// Makes at most so many single steps of the transaction with this number. What was fetched is said if they are loud.
#[tactic(auto, using(crate::proofs::DoesLaws::none_yet))]
pub(crate) fn steps<D: Disk>(
    laptop: &mut Laptop<D>,
    server: &mut ServerNode<D>,
    alloc: Global,
    number: u64,
    most: u64,
    loud: bool,
    out: &mut Text,
) -> Result<(), Halt>
    requires { IsReady D.medium (two laptop.old server.old) }
    ensures { (scripts : List Declared) → Does D.medium scripts (Repeats most (Steps number loud))
        (two laptop.old server.old) (two laptop.new server.new) out.old out.new result }
{
    'steps: for _ in 0..most {
        if !step(laptop, server, alloc, number, loud, out)? {
            return Ok(());
        }
    }
    Ok(())
}

/// Makes a single step of the transaction with this number, and tells whether more may follow. A run, of whose steps nothing is said, goes
/// on after a fetch that failed.
fn step<D: Disk>(
    laptop: &mut Laptop<D>,
    server: &mut ServerNode<D>,
    alloc: Global,
    number: u64,
    loud: bool,
    out: &mut Text,
) -> Result<bool, Halt>
    requires { IsReady D.medium (two laptop.old server.old) }
    ensures { (scripts : List Declared) → Does D.medium scripts (Steps number loud)
        (two laptop.old server.old) (two laptop.new server.new) out.old out.new result }
{
    let Some(_running) = laptop.run(number) else {
        return Ok(false);
    };
    match laptop.step(alloc, number, out)? {
        Step::Acted { .. } => Ok(true),
        Step::Fetch { request, path } => {
            let errand = Errand::Fetch {
                number,
                path: &path,
            };
            let came = send(laptop, server, alloc, errand, request.into_bytes(), out)?;
            if !loud {
                return Ok(true);
            }
            say_fetch(&path, !came, out)?;
            Ok(came)
        }
        Step::AtEnd { .. } => Ok(false),
        Step::AtLimit { .. } => Ok(false),
    }
}

// ---- end

/// Ends the running transaction that is meant, if its script has ended or may do no more acts: it waits, or starts again on the view, which
/// is said. One of first class that waits is synced at once.
#[tactic(auto, using(crate::proofs::DoesLaws::no_memory, crate::proofs::DoesLaws::keeps_more))]
pub(crate) fn end<D: Disk>(
    laptop: &mut Laptop<D>,
    server: &mut ServerNode<D>,
    alloc: Global,
    scripts: &[DeclaredScript],
    which: Option<u64>,
    out: &mut Text,
) -> Result<(), Halt>
    requires { IsReadyWith D.medium (scripts_of scripts.now) (two laptop.old server.old) }
    ensures { Does D.medium (scripts_of scripts.now) (Ends which)
        (two laptop.old server.old) (two laptop.new server.new) out.old out.new result }
{
    let Some(number) = laptop.meant(which) else {
        say(b"idle", out)?;
        return Err(Halt::Over);
    };
    if !laptop.may_end(number) {
        say(b"not at end", out)?;
        return Err(Halt::Over);
    }
    match laptop.end(alloc, number, out)? {
        Certified::Joined(gone) => join(laptop, server, alloc, scripts, &gone, out),
        Certified::Again { read, question } => {
            Ok(say_read(b"again ", &laptop.transaction(number), read, &question, out)?)
        }
    }
}

/// Says that a transaction has ended, and waits. One of first class is synced at once.
#[tactic(auto, using(crate::proofs::DoesLaws::no_memory))]
fn join<D: Disk>(
    laptop: &mut Laptop<D>,
    server: &mut ServerNode<D>,
    alloc: Global,
    scripts: &[DeclaredScript],
    gone: &Gone,
    out: &mut Text,
) -> Result<(), Halt>
    requires { IsReadyWith D.medium (scripts_of scripts.now) (two laptop.old server.old) }
    ensures { Does D.medium (scripts_of scripts.now) (EndsAloud (ended_as gone.now))
        (two laptop.old server.old) (two laptop.new server.new) out.old out.new result }
{
    say_of(b"end ", &gone.printed.transaction, out)?;
    if !gone.first {
        return Ok(say_pending(&gone.printed, out)?);
    }
    match sync(laptop, server, alloc, scripts, out)? {
        Synced::Unanswered => Ok(say_pending(&gone.printed, out)?),
        Synced::Moved | Synced::Stays => Ok(()),
    }
}
