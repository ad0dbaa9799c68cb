//! A message to the server over a client's link, and its reply.
ghost use Rattle.std.specs.Prelude.{◌++◌, ◌≡◌};
ghost use Rattle.iot_exchange.specs.Pairs.{AsksFor, IsReady, KeepsDisks};
ghost use Rattle.iot_exchange.specs.Pairs.{KeepsServed, LendsIfReplied, MissesAll, Query, Replied, Serves, Spells, request_of, two};
ghost use Rattle.iot_exchange.specs.Words.{IfOk, List, OnOk, ServerStands, false, is_up, state_in, true, ℕ};
ghost use Rattle.iot_server_node.specs.{Messages.IsSomeRequest, Messages.said_of, Servers.ServerIsSound};

use iot_disk::Disk;
use iot_laptop::Laptop;
use iot_link::Passage;
use iot_server_node::{Message, ServerNode};
use iot_text::{NoMemory, Text};
use std::alloc::Global;

/// Sends a message to the server over the client's link: the reply, if it comes. What the server commits is said.
#[tactic(auto, using(crate::proofs::DoesLaws::keeps_served))]
pub(crate) fn exchange<D: Disk>(
    laptop: &mut Laptop<D>,
    server: &mut ServerNode<D>,
    alloc: Global,
    message: &Message,
    out: &mut Text,
) -> Result<Option<Vec<u8>>, NoMemory>
    requires ready { IsReady D.medium (two laptop.old server.old) }
    requires request { IsSomeRequest message.now.request.items }
    ensures replied { IfOk result (λ reply. Replied D.medium message.now reply
        (two laptop.old server.old) (two laptop.new server.new) out.old out.new) }
    ensures state { IfOk result (λ _. state_in laptop.new ≡ state_in laptop.old) }
    ensures disks { KeepsDisks D.medium (two laptop.old server.old) (two laptop.new server.new) }
{
    match laptop.pass(server.is_up()) {
        Passage::Away | Passage::RequestLost => Ok(None),
        Passage::ReplyLost => {
            let _lost = serve(server, alloc, message, out)?;
            Ok(None)
        }
        Passage::Both => match serve(server, alloc, message, out)? {
            Some(reply) => Ok(Some(reply)),
            None => {
                laptop.broke();
                Ok(None)
            }
        },
    }
}

/// What a live server replies to a message, unless it stops in that. What it commits is said.
fn serve<D: Disk>(
    server: &mut ServerNode<D>,
    alloc: Global,
    message: &Message,
    out: &mut Text,
) -> Result<Option<Vec<u8>>, NoMemory>
    requires up { is_up server.old ≡ true }
    requires sound { ServerIsSound D.medium server.old }
    requires request { IsSomeRequest message.now.request.items }
    ensures asks { IfOk result (λ reply. (names : List (List ℕ)) (query : Query) → AsksFor names message.now server.old query
        → Serves (ServerStands D.medium names) (Spells query) (request_of query) reply server.old server.new out.old out.new) }
    ensures lends { IfOk result (λ reply. LendsIfReplied message.now reply server.old server.new) }
    ensures keeps { KeepsServed D.medium server.old server.new }
{
    let Some(served) = server.serve(alloc, message, out)? else {
        return Ok(None);
    };
    say_committed(message, served.committed, out)?;
    Ok(Some(served.reply))
}

/// What a commit of the message says, if one was made, under this number.
fn say_committed(message: &Message, number: Option<u64>, out: &mut Text) -> Result<(), NoMemory>
    ensures { OnOk result (out.new ≡ out.old ++ said_of number message.now.handed) }
{
    match number {
        Some(number) => message.say_under(number, out),
        None => Ok(()),
    }
}

/// No message gets through, since the client's link is not up. What runs is second class then.
#[tactic(auto, using(crate::proofs::DoesLaws::keeps_served))]
pub(crate) fn miss<D: Disk>(laptop: &mut Laptop<D>, server: &ServerNode<D>)
    requires ready { IsReady D.medium (two laptop.old server.now) }
    requires down { laptop.old.link.up ≡ false }
    ensures all { MissesAll D.medium (two laptop.old server.now) (two laptop.new server.now) }
    ensures state { state_in laptop.new ≡ state_in laptop.old }
    ensures disks { KeepsDisks D.medium (two laptop.old server.now) (two laptop.new server.now) }
{
    laptop.pass(server.is_up());
}
