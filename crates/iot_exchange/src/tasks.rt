//! What a client is asked to do.
ghost use Rattle.std.specs.Prelude.{◌++◌, ◌-◌, ◌≡◌, ◌≤◌};
ghost use Rattle.iot_exchange.specs.Pairs.{AnyStands, Does, IsReady, IsReadyWith, IsStandingWith, KeepsDisks, two};
ghost use Rattle.iot_exchange.specs.{Saying.line_of, Scripts.MayDo, Scripts.scripts_of, Words.Client, Words.Declared};
ghost use Rattle.iot_exchange.specs.Words.{IfOk, LaptopStands, List, OnOk, ResolverIsDeclared, ServerNode, Stands, StepsTo, length, map, ℕ};
ghost use Rattle.iot_machine.specs.{Events.IfUp, Events.ReadsOf, Events.chosen, Events.running_in, Events.task_part, Recorded.queue_kept};
ghost use Rattle.{iot_machine.specs.Texts.queue_text, iot_standing.specs.Scripts.AreApart, iot_standing.specs.Scripts.option_named};

use crate::decisions::{discard, repair};
use crate::declared::DeclaredScript;
use crate::objects::{hoard, refresh, walk};
use crate::queues::{drain, sync};
use crate::runs::run;
use crate::transactions::{begin_aloud, end, step_aloud};
use iot_client::Running;
use iot_disk::Disk;
use iot_event::{Choice, SharedProfile, Task};
use iot_inspect::{RunLine, queue, reads};
use iot_laptop::Laptop;
use iot_node::{Halt, say};
use iot_queue::Item;
use iot_server_node::ServerNode;
use iot_text::{NoMemory, Text};
use iot_tree::OnConflict;
use std::alloc::Global;

/// Does what the client is asked to do, with the server and the scripts that were declared, and says it; or `down`, if it is not alive.
///
/// # Errors
///
/// Only if memory runs out.
#[tactic(auto, using(crate::proofs::DoesLaws::ready_there))]
pub fn perform<D: Disk>(
    laptop: &mut Laptop<D>,
    server: &mut ServerNode<D>,
    alloc: Global,
    scripts: &[DeclaredScript],
    task: &Task<u64, SharedProfile>,
    out: &mut Text,
) -> Result<(), NoMemory>
    requires stands { IsStandingWith D.medium (scripts_of scripts.now) (two laptop.old server.old) }
    requires apart { AreApart (scripts_of scripts.now) }
    requires may { MayDo task.now (length scripts.now) }
    ensures step { OnOk result ((names : List (List ℕ)) (c : ℕ)
        → StepsTo (AnyStands D.medium (scripts_of scripts.now) names c) (AnyStands D.medium (scripts_of scripts.now) names c)
        (IfUp (task_part (scripts_of scripts.now) task.now))
        (two laptop.old server.old) (two laptop.new server.new) out.old out.new tt) }

    // Also if memory runs out.
    ensures disks { KeepsDisks D.medium (two laptop.old server.old) (two laptop.new server.new) }
{
    if !laptop.is_alive() {
        return say(b"down", out);
    }
    match carry_out(laptop, server, alloc, scripts, task, out) {
        Ok(()) => Ok(()),
        Err(Halt::Over) => Ok(()),
        Err(Halt::NoMemory) => Err(NoMemory),
    }
}

/// Does what a client that is alive is asked to do.
fn carry_out<D: Disk>(
    laptop: &mut Laptop<D>,
    server: &mut ServerNode<D>,
    alloc: Global,
    scripts: &[DeclaredScript],
    task: &Task<u64, SharedProfile>,
    out: &mut Text,
) -> Result<(), Halt>
    requires ready { IsReadyWith D.medium (scripts_of scripts.now) (two laptop.old server.old) }
    requires apart { AreApart (scripts_of scripts.now) }
    requires may { MayDo task.now (length scripts.now) }
    ensures { Does D.medium (scripts_of scripts.now) (task_part (scripts_of scripts.now) task.now)
        (two laptop.old server.old) (two laptop.new server.new) out.old out.new result }
{
    match task {
        Task::Run { script, option } => {
            let script = &scripts[*script as usize];
            let chosen = by_name(scripts, *option);
            run(laptop, server, alloc, scripts, script, chosen, out)
        }
        Task::Hoard { path } => hoard(laptop, server, alloc, path, out),
        Task::Refresh => refresh(laptop, server, alloc, out),
        Task::Walk { profile, limit } => {
            walk(laptop, server, alloc, profile.profile(), *limit, out)
        }
        Task::Begin { script, option } => {
            let script = &scripts[*script as usize];
            let chosen = by_name(scripts, *option);
            begin_aloud(laptop, server, alloc, script, chosen, out)
        }
        Task::Step { count, transaction } => {
            step_aloud(laptop, server, alloc, *count, *transaction, out)
        }
        Task::End { transaction } => end(laptop, server, alloc, scripts, *transaction, out),
        Task::Sync => {
            let _synced = sync(laptop, server, alloc, scripts, out)?;
            Ok(())
        }
        Task::Drain => drain(laptop, server, alloc, scripts, out),
        Task::Repair { script } => repair(laptop, alloc, &scripts[*script as usize].name, out),
        Task::Discard => discard(laptop, alloc, out),
        Task::Queue => Ok(say_queue(laptop, alloc, out)?),
        Task::Reads { item } => say_reads(laptop, *item, out),
    }
}

/// What is done with a transaction that is in conflict, by the name of its resolver.
fn by_name(scripts: &[DeclaredScript], option: Choice<u64>) -> OnConflict
    requires { ResolverIsDeclared option (length scripts.now) }
    ensures { result ≡ option_named (chosen (scripts_of scripts.now) option) }
{
    match option {
        Choice::Reexec => OnConflict::Reexec,
        Choice::Resolver(script) => OnConflict::Resolver(scripts[script as usize].name),
        Choice::Abort => OnConflict::Abort,
        Choice::Manual => OnConflict::Manual,
    }
}

// ---- what is looked at

/// Says the client's transactions: those that wait, and then those that run.
fn say_queue<D: Disk>(laptop: &Laptop<D>, alloc: Global, out: &mut Text) -> Result<(), NoMemory>
    requires { Stands D.medium laptop.now }
    ensures { OnOk result ((scripts : List Declared) (m : Client) → LaptopStands D.medium scripts laptop.now m
        → out.new ≡ out.old ++ queue_text m.name (queue_kept m.node.durable) (running_in m)) }
{
    let lines = lines_of(alloc, laptop.running())?;
    queue(laptop.name(), laptop.client().queue(), &lines, out)
}

/// A line for each transaction that runs.
fn lines_of(alloc: Global, running: &[Running]) -> Result<Vec<RunLine>, NoMemory>
    ensures { IfOk result (λ lines. lines.items ≡ map line_of running.now) }
{
    let mut lines = Vec::new(alloc);
    'running: for it in running {
        lines.push(RunLine {
            tid: it.tid,
            script: it.script,
            first: it.first,
            acts: it.acts.len() as u64,
        })?;
    }
    Ok(lines)
}

/// Says what the client's transaction at this place of those that wait, from 1, has read in its own run, if so many wait.
fn say_reads<D: Disk>(laptop: &Laptop<D>, place: u64, out: &mut Text) -> Result<(), Halt>
    requires stands { Stands D.medium laptop.now }
    requires counts { 1 ≤ place }
    ensures { (server : ServerNode D) → IsReady D.medium (two laptop.now server) → (scripts : List Declared)
        → Does D.medium scripts (ReadsOf place) (two laptop.now server) (two laptop.now server) out.old out.new result }
{
    match laptop.client().queue().items().get(place as usize - 1) {
        Some(item) => Ok(reads(item, out)?),
        None => {
            say(b"nothing", out)?;
            Err(Halt::Over)
        }
    }
}
