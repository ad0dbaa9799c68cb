//! What a client asks of the server: objects, over its link.
ghost use Rattle.std.specs.Prelude.{◌≡◌, ◌≤◌};
ghost use Rattle.iot_exchange.specs.Pairs.{Does, IsReady, two};
ghost use Rattle.iot_exchange.specs.Words.{Declared, IfOk, IsErrand, IsProfile, IsWalkLimit, List, Refreshes, stamps_in, state_in, []};
ghost use Rattle.iot_laptop.specs.Calls.{IsNoFetch, MayAsk, MayTake, errand_of, held_for};
ghost use Rattle.iot_machine.specs.{Clients.hold, Events.Hoards, Events.Walks, Transactions.Holds, Transactions.Takes};

use crate::exchange::{exchange, miss};
use crate::texts::{say_hoard, say_refresh, say_walk};
use iot_disk::Disk;
use iot_laptop::{Errand, Laptop};
use iot_node::{Halt, say};
use iot_server_node::{Message, ServerNode};
use iot_text::{Path, Text};
use iot_tree::{Duplicate, Profile, Want};
use std::alloc::Global;

/// Fetches what lies on the way to the path, at it and below it.
pub(crate) fn hoard<D: Disk>(
    laptop: &mut Laptop<D>,
    server: &mut ServerNode<D>,
    alloc: Global,
    path: &Path,
    out: &mut Text,
) -> Result<(), Halt>
    requires { IsReady D.medium (two laptop.old server.old) }
    ensures { (scripts : List Declared) → Does D.medium scripts (Hoards path.now)
        (two laptop.old server.old) (two laptop.new server.new) out.old out.new result }
{
    let want = Want::Below(path.copy(alloc)?);
    take(laptop, server, alloc, Errand::Refresh(&want), out)?;
    Ok(say_hoard(laptop.name(), path, out)?)
}

/// Fetches anew what the client knows.
pub(crate) fn refresh<D: Disk>(
    laptop: &mut Laptop<D>,
    server: &mut ServerNode<D>,
    alloc: Global,
    out: &mut Text,
) -> Result<(), Halt>
    requires { IsReady D.medium (two laptop.old server.old) }
    ensures { (scripts : List Declared) → Does D.medium scripts Refreshes
        (two laptop.old server.old) (two laptop.new server.new) out.old out.new result }
{
    take(laptop, server, alloc, Errand::Refresh(&Want::Nothing), out)?;
    Ok(say_refresh(laptop.name(), out)?)
}

/// Takes along what the profile wishes, as much as fits into the limit.
pub(crate) fn walk<D: Disk>(
    laptop: &mut Laptop<D>,
    server: &mut ServerNode<D>,
    alloc: Global,
    profile: &Profile,
    limit: u64,
    out: &mut Text,
) -> Result<(), Halt>
    requires ready { IsReady D.medium (two laptop.old server.old) }
    requires profile { IsProfile profile.now }
    requires limit { IsWalkLimit limit }
    ensures { (scripts : List Declared) → Does D.medium scripts (Walks profile.now limit)
        (two laptop.old server.old) (two laptop.new server.new) out.old out.new result }
{
    take(laptop, server, alloc, Errand::Walk { profile, limit }, out)?;
    Ok(say_walk(alloc, laptop.name(), laptop.held(), out)?)
}

/// Brings what it asks for, unless a transaction runs or waits.
#[tactic(auto, using(crate::proofs::ExchangeLaws::no_items))]
fn take<D: Disk>(
    laptop: &mut Laptop<D>,
    server: &mut ServerNode<D>,
    alloc: Global,
    errand: Errand<'_>,
    out: &mut Text,
) -> Result<(), Halt>
    requires ready { IsReady D.medium (two laptop.old server.old) }
    requires may { MayAsk errand }
    requires holds { IsNoFetch errand }
    ensures { (scripts : List Declared) → Does D.medium scripts (Takes (errand_of errand.entry))
        (two laptop.old server.old) (two laptop.new server.new) out.old out.new result }
{
    if laptop.runs() {
        say(b"busy", out)?;
        return Err(Halt::Over);
    }
    if laptop.waits() {
        say(b"pending", out)?;
        return Err(Halt::Over);
    }
    if !bring(laptop, server, alloc, errand, out)? {
        say(b"away", out)?;
        return Err(Halt::Over);
    }
    Ok(())
}

/// Holds what it asks for of the server's tree, and tells whether it came.
pub(crate) fn bring<D: Disk>(
    laptop: &mut Laptop<D>,
    server: &mut ServerNode<D>,
    alloc: Global,
    errand: Errand<'_>,
    out: &mut Text,
) -> Result<bool, Halt>
    requires ready { IsReady D.medium (two laptop.old server.old) }
    requires none { (state_in laptop.old).items ≡ [] }
    requires may { MayAsk errand }
    requires holds { IsNoFetch errand }
    ensures does { (scripts : List Declared) → Does D.medium scripts (Holds hold (errand_of errand.entry))
        (two laptop.old server.old) (two laptop.new server.new) out.old out.new result }
    ensures running { IfOk result (λ _. (state_in laptop.new).running ≡ (state_in laptop.old).running) }
{
    if !laptop.is_connected() {
        miss(laptop, server);
        return Ok(false);
    }
    let request = laptop.ask(alloc, errand)?;
    send(laptop, server, alloc, errand, request, out)
}

/// Sends the request for it, and holds what the reply brings. Tells whether it came.
pub(crate) fn send<D: Disk>(
    laptop: &mut Laptop<D>,
    server: &mut ServerNode<D>,
    alloc: Global,
    errand: Errand<'_>,
    request: Vec<u8>,
    out: &mut Text,
) -> Result<bool, Halt>
    requires ready { IsReady D.medium (two laptop.old server.old) }
    requires may { MayTake errand laptop.old }
    requires none { (state_in laptop.old).items ≡ [] }
    requires asks { IsErrand laptop.old.place (stamps_in laptop.old) (errand_of errand) request.items }
    ensures does { (scripts : List Declared) → Does D.medium scripts (Holds (held_for errand.entry) (errand_of errand.entry))
        (two laptop.old server.old) (two laptop.new server.new) out.old out.new result }
    ensures running { IsNoFetch errand.entry → IfOk result (λ _. (state_in laptop.new).running ≡ (state_in laptop.old).running) }
{
    let message = Message {
        request,
        handed: None,
    };
    match exchange(laptop, server, alloc, &message, out)? {
        Some(reply) => {
            laptop.take(alloc, errand, &reply, out)?;
            Ok(true)
        }
        None => Ok(false),
    }
}
