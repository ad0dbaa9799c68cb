//! The transactions of a client that wait for the server.
ghost use Rattle.std.specs.Prelude.{◌≡◌};
ghost use Rattle.iot_exchange.specs.Pairs.{Does, IsReady, IsReadyWith, two};
ghost use Rattle.iot_exchange.specs.{Queues.DrainsQuietly, Queues.First, Saying.synced_by, Saying.synced_of};
ghost use Rattle.iot_exchange.specs.{Saying.told_synced, Scripts.scripts_of, Words.Declared, Words.List, Words.Some, Words.SyncsAll};
ghost use Rattle.iot_laptop.specs.{Calls.AsksAll, Calls.HandsIn, Messages.verdict_of};
ghost use Rattle.iot_machine.specs.{Events.Drains, Transactions.Syncs, Transactions.moves};

use crate::declared::DeclaredScript;
use crate::exchange::{exchange, miss};
use crate::objects::refresh;
use crate::texts::{say_of, say_resolve, say_told};
use iot_disk::Disk;
use iot_lang::Script;
use iot_laptop::{Laptop, Need, Submitted, Told, Verdict};
use iot_node::{Halt, Transaction, say};
use iot_server_node::{Handed, Message, ServerNode};
use iot_text::{Name, NoMemory, Text};
use iot_tree::OnConflict;
use std::alloc::Global;
use std::rc::Rc;

// ---- the first that waits

/// How it went to sync the first transaction that waits.
#[derive(Clone, Copy)]
pub(crate) enum Synced {
    /// It left or is further, and the next may follow.
    Moved,

    /// None waits, or it waits for a decision by hand.
    Stays,

    /// No reply came.
    Unanswered,
}

impl Synced {
    /// How it went if the client was told this.
    pub(crate) fn by(told: &Told) -> Synced
        ensures { synced_of result ≡ told_synced (verdict_of told.now.verdict) told.now.option }
    {
        match told.verdict {
            Verdict::Settled { .. } => Synced::Moved,
            Verdict::Conflict { .. } => match told.option {
                OnConflict::Reexec | OnConflict::Resolver(_) | OnConflict::Abort => Synced::Moved,
                OnConflict::Manual => Synced::Stays,
            },
        }
    }

    /// Whether the next may follow.
    pub(crate) fn moves(self) -> bool
        ensures { result ≡ moves (synced_of self) }
    {
        match self {
            Synced::Moved => true,
            Synced::Stays | Synced::Unanswered => false,
        }
    }
}

/// Submits or resolves the first transaction that waits, by its stage, and tells how that went.
#[tactic(auto, using(crate::proofs::FirstLaws::some_waits))]
pub(crate) fn sync<D: Disk>(
    laptop: &mut Laptop<D>,
    server: &mut ServerNode<D>,
    alloc: Global,
    scripts: &[DeclaredScript],
    out: &mut Text,
) -> Result<Synced, Halt>
    requires { IsReadyWith D.medium (scripts_of scripts.now) (two laptop.old server.old) }
    ensures { Does D.medium (scripts_of scripts.now) Syncs
        (two laptop.old server.old) (two laptop.new server.new) out.old out.new (synced_by result) }
{
    let Some(transaction) = laptop.head() else {
        say(b"nothing", out)?;
        return Ok(Synced::Stays);
    };
    if !laptop.is_connected() {
        // Nothing is spelled for a server that no message reaches.
        return match laptop.decision() {
            Ok(by_hand) => {
                say_of(b"manual ", &by_hand, out)?;
                Ok(Synced::Stays)
            }
            Err(_) => {
                miss(laptop, server);
                say(b"away", out)?;
                Ok(Synced::Unanswered)
            }
        };
    }
    match laptop.need(alloc)? {
        Need::Verdict(submitted) => submit(laptop, server, alloc, &transaction, submitted, out),
        Need::Tree(request) => resolve(laptop, server, alloc, scripts, &transaction, request, out),
        Need::Decision => {
            say_of(b"manual ", &transaction, out)?;
            Ok(Synced::Stays)
        }
    }
}

/// Submits the first transaction that waits, and takes the verdict, if one comes.
#[tactic(auto, using(crate::proofs::DoesLaws::no_memory, crate::proofs::DoesLaws::keeps_more, crate::proofs::FirstLaws::synced_err))]
fn submit<D: Disk>(
    laptop: &mut Laptop<D>,
    server: &mut ServerNode<D>,
    alloc: Global,
    transaction: &Transaction,
    submitted: Submitted,
    out: &mut Text,
) -> Result<Synced, Halt>
    requires ready { IsReady D.medium (two laptop.old server.old) }
    requires first { First (λ item. HandsIn laptop.old item submitted) laptop.old transaction.now }
    ensures { (scripts : List Declared) → Does D.medium scripts Syncs
        (two laptop.old server.old) (two laptop.new server.new) out.old out.new (synced_by result) }
{
    let message = Message {
        request: submitted.request,
        handed: Some(Handed {
            printed: submitted.printed,
            way: submitted.way,
        }),
    };
    match exchange(laptop, server, alloc, &message, out)? {
        Some(reply) => {
            let told = laptop.take_verdict(alloc, &reply, out)?;
            say_told(transaction, &told, out)?;
            Ok(Synced::by(&told))
        }
        None => {
            say(b"away", out)?;
            Ok(Synced::Unanswered)
        }
    }
}

/// Brings the server's whole tree by this request, and resolves the first transaction that waits on it, if it comes.
#[tactic(auto, using(crate::proofs::DoesLaws::no_memory, crate::proofs::DoesLaws::keeps_more, crate::proofs::FirstLaws::synced_err))]
fn resolve<D: Disk>(
    laptop: &mut Laptop<D>,
    server: &mut ServerNode<D>,
    alloc: Global,
    scripts: &[DeclaredScript],
    transaction: &Transaction,
    request: Vec<u8>,
    out: &mut Text,
) -> Result<Synced, Halt>
    requires ready { IsReadyWith D.medium (scripts_of scripts.now) (two laptop.old server.old) }
    requires first { First (λ item. AsksAll laptop.old item request.items) laptop.old transaction.now }
    ensures { Does D.medium (scripts_of scripts.now) Syncs
        (two laptop.old server.old) (two laptop.new server.new) out.old out.new (synced_by result) }
{
    let message = Message {
        request,
        handed: None,
    };
    match exchange(laptop, server, alloc, &message, out)? {
        Some(reply) => {
            let plan = laptop.plan();
            // What is planned is a script that was declared.
            let Some(declared) = scripts.iter().find(|declared| plan.script == declared.name) else {
                unreachable!()
            };
            laptop.resolve(alloc, &reply, declared.script.shared()?, out)?;
            say_resolve(transaction, &plan, out)?;
            Ok(Synced::Moved)
        }
        None => {
            say(b"away", out)?;
            Ok(Synced::Unanswered)
        }
    }
}

// ---- all that wait

/// Syncs the first transaction that waits again and again, as long as one waits and it goes on.
#[tactic(auto, using(crate::proofs::DoesLaws::none_yet))]
pub(crate) fn sync_all<D: Disk>(
    laptop: &mut Laptop<D>,
    server: &mut ServerNode<D>,
    alloc: Global,
    scripts: &[DeclaredScript],
    out: &mut Text,
) -> Result<(), Halt>
    requires { IsReadyWith D.medium (scripts_of scripts.now) (two laptop.old server.old) }
    ensures { Does D.medium (scripts_of scripts.now) SyncsAll
        (two laptop.old server.old) (two laptop.new server.new) out.old out.new result }
{
    let most = laptop.most_syncs()?;
    'syncs: for _ in 0..most {
        if !laptop.waits() {
            return Ok(());
        }
        if !sync(laptop, server, alloc, scripts, out)?.moves() {
            return Ok(());
        }
    }
    Ok(())
}

/// Syncs all that wait, and then fetches anew what the client knows. If that says nothing, this is said.
pub(crate) fn drain<D: Disk>(
    laptop: &mut Laptop<D>,
    server: &mut ServerNode<D>,
    alloc: Global,
    scripts: &[DeclaredScript],
    out: &mut Text,
) -> Result<(), Halt>
    requires { IsReadyWith D.medium (scripts_of scripts.now) (two laptop.old server.old) }
    ensures { Does D.medium (scripts_of scripts.now) Drains
        (two laptop.old server.old) (two laptop.new server.new) out.old out.new result }
{
    let before = out.len();
    let drained = drain_quietly(laptop, server, alloc, scripts, out);
    if out.len() != before {
        return drained;
    }
    say(b"nothing", out)?;
    drained
}

/// Syncs all that wait, and then fetches anew what the client knows, if its link is up and nothing waits or runs.
fn drain_quietly<D: Disk>(
    laptop: &mut Laptop<D>,
    server: &mut ServerNode<D>,
    alloc: Global,
    scripts: &[DeclaredScript],
    out: &mut Text,
) -> Result<(), Halt>
    requires { IsReadyWith D.medium (scripts_of scripts.now) (two laptop.old server.old) }
    ensures { Does D.medium (scripts_of scripts.now) DrainsQuietly
        (two laptop.old server.old) (two laptop.new server.new) out.old out.new result }
{
    sync_all(laptop, server, alloc, scripts, out)?;
    if !laptop.is_drained() {
        return Ok(());
    }
    refresh(laptop, server, alloc, out)
}
