//! What a client reads of the server's replies.
ghost use Rattle.std.specs.Prelude.{◌≡◌, IfOk, IfErr, length};
ghost use Rattle.std.specs.List.{list_all};
ghost use Rattle.iot_client.specs.Faults.{IsNoStop};
ghost use Rattle.iot_client.specs.Messages.{is_known_row};
ghost use Rattle.iot_wire.specs.Messages.{IsMessage};
ghost use Rattle.iot_wire.specs.Rules.{IsReply};
ghost use Rattle.iot_wire.specs.Spelling.{reply_spelling};
ghost use Rattle.iot_wire.specs.declared.replies.Reply.TheVariants.{Objects};
ghost use Rattle.iot_client.specs.Messages.{objects_in, MakesWhole, MakesOf, ReadsAs, is_whole, noted_in, Reads, ReadsObjects};
ghost use Rattle.iot_client.specs.Messages.{ReadsNoted, IsToldBy};

use crate::fault::ClientFault;
use crate::noted::Noted;
use iot_held::{Held, MergeFault};
use iot_text::Path;
use iot_tree::{Changes, Node, Tree};
use iot_wire::{Reply, read_reply};
use std::alloc::Global;

/// The changes of a reply that brings some.
///
/// # Errors
///
/// `BadReply` exactly if the bytes are no such reply, at the first fault, or at 0 if they are another one; `NoMemory`.
pub(crate) fn objects(alloc: Global, reply: &[u8]) -> Result<Changes, ClientFault>
    ensures reads { Reads (objects_in reply.now) result }
    ensures found { IfOk result (λ changes. IsMessage IsReply reply_spelling reply.now (Objects changes)) }
    ensures only { ReadsObjects reply.now }
    ensures fault { IfErr result IsNoStop }
{
    match read_reply(alloc, reply)? {
        Reply::Objects(changes) => Ok(changes),
        _ => Err(ClientFault::BadReply { at: 0 }),
    }
}

/// The whole tree that a reply makes of nothing.
///
/// # Errors
///
/// `BadReply` exactly if the bytes are no reply that makes one: at the first fault, at 0 if they are another reply, and at their end if
/// what they make is no whole tree; `NoMemory`.
pub(crate) fn whole(alloc: Global, reply: &[u8]) -> Result<Held, ClientFault>
    ensures makes { ReadsAs (MakesWhole reply.now) result }
    ensures found { IfOk result (MakesOf reply.now) }
    ensures only { ReadsObjects reply.now }
    ensures fault { IfErr result IsNoStop }
{
    let changes = objects(alloc, reply)?;
    let mut held = Held::new(alloc)?;
    match held.merge(alloc, changes) {
        Ok(()) => (),
        Err(MergeFault::NoMemory) => return Err(ClientFault::NoMemory),
        Err(MergeFault::NoTree) => return Err(bad_at_its_end(reply)),
    }
    if !is_whole(held.tree()) {
        return Err(bad_at_its_end(reply));
    }
    Ok(held)
}

/// What the reply makes is no tree that the call takes.
pub(crate) fn bad_at_its_end(reply: &[u8]) -> ClientFault
    ensures { result ≡ ClientFault.BadReply (length reply.now) }
{
    ClientFault::BadReply {
        at: reply.len() as u64,
    }
}

/// Whether the inside of every object of the tree is known.
fn is_whole(tree: &Tree) -> bool
    ensures { result ≡ is_whole tree.now }
{
    all_known(tree.rows().as_slice())
}

/// Whether the inside of the object of each row is known.
fn all_known(rows: &[(Path, Node)]) -> bool
    ensures { result ≡ list_all is_known_row rows.now }
{
    rows.iter().all(|row| row.1.is_known())
}

/// What a reply says of a transaction that was submitted.
///
/// # Errors
///
/// `BadReply` exactly if the bytes are no reply, at the first fault, or bring changes, at 0; `NoMemory`.
pub(crate) fn noted(alloc: Global, reply: &[u8]) -> Result<Noted, ClientFault>
    ensures reads { Reads (noted_in reply.now) result }
    ensures found { IfOk result (IsToldBy reply.now) }
    ensures only { ReadsNoted reply.now }
    ensures fault { IfErr result IsNoStop }
{
    match read_reply(alloc, reply)? {
        Reply::Objects(_) => Err(ClientFault::BadReply { at: 0 }),
        Reply::Committed { number } => Ok(Noted::Settled { number }),
        Reply::Already { number } => Ok(Noted::Settled { number }),
        Reply::Conflict { read, answer: _ } => Ok(Noted::Conflict { read }),
    }
}
