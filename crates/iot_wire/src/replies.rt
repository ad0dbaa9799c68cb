//! What the server answers.
ghost use Rattle.std.specs.Prelude.{◌≡◌, ◌++◌, IfOk, Ok, OnOk, [], ◌∷◌};
ghost use Rattle.iot_codec.specs.Outcomes.{IsOutcome};
ghost use Rattle.iot_wire.specs.Decoding.{reply_at, objects_at, committed_at, already_at, conflict_at};
ghost use Rattle.iot_wire.specs.Messages.{IsMessage, ReadsMessage, IsOneMessage, whole};
ghost use Rattle.iot_wire.specs.Rules.{IsReply};
ghost use Rattle.iot_wire.specs.Spelling.{reply_spelling};

use crate::messages::{ROOM, finished, malformed, tag_of};
use iot_codec::{
    CodecFault, put_answer, put_changes, put_number, read_answer, read_changes, read_number,
};
use iot_text::{NoMemory, Text};
use iot_tree::{Answer, Changes};
use std::alloc::Global;

/// What the server answers.
#[derive(Drop)]
pub enum Reply {
    /// What changed for the client: the rows that are new to it, with their stamps, and the sent paths that are gone.
    Objects(Changes),
    /// The transaction was committed, under this number.
    Committed { number: u64 },
    /// The transaction had been committed, under this number.
    Already { number: u64 },
    /// The read of this number, counted from 1, has this answer now. Nothing was committed.
    Conflict { read: u64, answer: Answer },
}

/// Appends the spelling of the reply.
#[tactic(auto, unfolding(crate::specs::Spelling::reply_spelling))]
fn put_reply(reply: &Reply, out: &mut Text) -> Result<(), NoMemory>
    requires { IsReply reply.now }
    ensures { OnOk result (out.new ≡ out.old ++ reply_spelling reply.now) }
{
    match reply {
        Reply::Objects(changes) => {
            out.push(1)?;
            put_changes(changes, out)
        }
        Reply::Committed { number } => {
            out.push(2)?;
            put_number(number, out)
        }
        Reply::Already { number } => {
            out.push(3)?;
            put_number(number, out)
        }
        Reply::Conflict { read, answer } => {
            out.push(4)?;
            put_number(read, out)?;
            put_answer(answer, out)
        }
    }
}

/// The bytes of the reply: its tag, and then its parts. What is written is read back.
pub fn write_reply(alloc: Global, reply: &Reply) -> Result<Vec<u8>, NoMemory>
    requires { IsReply reply.now }
    ensures spelled { IfOk result (λ bytes. bytes.items ≡ reply_spelling reply.now) }
    ensures back { IfOk result (λ bytes. whole reply_at bytes.items ≡ Ok reply.now) }
{
    let mut out = Text::with_capacity(alloc, ROOM)?;
    put_reply(reply, &mut out)?;
    Ok(out.into_bytes())
}

/// Reads what follows the tag of objects.
#[tactic(auto, unfolding(crate::specs::Decoding::objects_at))]
fn read_objects(alloc: Global, bytes: &[u8], at: usize) -> Result<(Reply, usize), CodecFault>
    ensures { IsOutcome result (objects_at bytes.now at) }
{
    let (changes, end) = read_changes(alloc, bytes, at)?;
    Ok((Reply::Objects(changes), end))
}

/// Reads what follows the tag of a new commit.
#[tactic(auto, unfolding(crate::specs::Decoding::committed_at))]
fn read_committed(alloc: Global, bytes: &[u8], at: usize) -> Result<(Reply, usize), CodecFault>
    ensures { IsOutcome result (committed_at bytes.now at) }
{
    let (number, end) = read_number(alloc, bytes, at)?;
    Ok((Reply::Committed { number }, end))
}

/// Reads what follows the tag of an earlier commit.
#[tactic(auto, unfolding(crate::specs::Decoding::already_at))]
fn read_already(alloc: Global, bytes: &[u8], at: usize) -> Result<(Reply, usize), CodecFault>
    ensures { IsOutcome result (already_at bytes.now at) }
{
    let (number, end) = read_number(alloc, bytes, at)?;
    Ok((Reply::Already { number }, end))
}

/// Reads what follows the tag of a conflict.
#[tactic(auto, unfolding(crate::specs::Decoding::conflict_at))]
fn read_conflict(alloc: Global, bytes: &[u8], at: usize) -> Result<(Reply, usize), CodecFault>
    ensures { IsOutcome result (conflict_at bytes.now at) }
{
    let (read, at) = read_number(alloc, bytes, at)?;
    let (answer, end) = read_answer(alloc, bytes, at)?;
    Ok((Reply::Conflict { read, answer }, end))
}

/// Reads a reply, and gives the offset after it.
#[tactic(auto, unfolding(crate::specs::Decoding::reply_at))]
fn read_tagged(alloc: Global, bytes: &[u8]) -> Result<(Reply, usize), CodecFault>
    ensures { IsOutcome result (reply_at bytes.now 0) }
{
    match tag_of(bytes) {
        Some(1) => read_objects(alloc, bytes, 1),
        Some(2) => read_committed(alloc, bytes, 1),
        Some(3) => read_already(alloc, bytes, 1),
        Some(4) => read_conflict(alloc, bytes, 1),
        _ => Err(malformed(0)),
    }
}

/// Reads the bytes as a reply.
fn read_whole(alloc: Global, bytes: &[u8]) -> Result<Reply, CodecFault>
    ensures { IsOutcome result (whole reply_at bytes.now) }
{
    let (reply, end) = read_tagged(alloc, bytes)?;
    finished(reply, end, bytes)
}

/// The reply whose spelling the bytes are.
///
/// # Errors
///
/// `Malformed` exactly if they are that of no reply: `at` is the first fault from the left, or the
/// offset of the first byte that is left after a reply. `NoMemory` if there is none for it.
pub fn read_reply(alloc: Global, bytes: &[u8]) -> Result<Reply, CodecFault>
    ensures found { IfOk result (IsMessage IsReply reply_spelling bytes.now) }
    ensures only { ReadsMessage IsReply reply_spelling bytes.now result }
    ensures one { IsOneMessage IsReply reply_spelling bytes.now }
    ensures exact { IsOutcome result (whole reply_at bytes.now) }
{
    read_whole(alloc, bytes)
}
