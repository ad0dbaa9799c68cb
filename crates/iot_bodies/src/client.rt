//! What a client keeps.
ghost use Rattle.std.specs.Prelude.{◌≡◌, ◌++◌, map, OnOk, IfOk};
ghost use Rattle.iot_codec.specs.Outcomes.{IsOutcome};
ghost use Rattle.iot_wire.specs.Messages.{IsMessage, ReadsMessage, IsOneMessage, whole};
ghost use Rattle.iot_bodies.specs.Decoding.{client_at};
ghost use Rattle.iot_bodies.specs.Rules.{IsClientBody, waiting_of};
ghost use Rattle.iot_bodies.specs.Spelling.{client_spelling};

use crate::parts::finished;
use crate::queued::put_queue;
use crate::running::{Runs, put_runs, read_runs};
use iot_codec::{CodecFault, Spelled, read_list};
use iot_queue::Item;
use iot_text::{Name, NoMemory, Text};
use iot_tree::{Access, Acts, OnConflict, Sequence, Tree};
use std::alloc::Global;

/// A transaction that waits, with what the run asked that was made in its place, if it is resolved; else with no access.
#[derive(Drop)]
pub struct Waiting {
    pub item: Item,
    pub access: Access,
}

/// A transaction that runs.
#[derive(Drop)]
pub struct Running {
    /// Its number at its client, from 1.
    pub tid: u64,

    /// The script that is run.
    pub script: Name,

    /// What is done if it conflicts.
    pub option: OnConflict,

    /// The tree on which it began.
    pub base: Tree,

    /// What it did since.
    pub acts: Acts,
}

/// What a client's checkpoint holds.
#[derive(Drop)]
pub struct ClientBody {
    pub held: Tree,

    /// Those that wait, in the order in which they ended.
    pub items: Sequence<Waiting>,

    /// Those that run, by their numbers.
    pub running: Sequence<Running>,

    /// The number of the last transaction, 0 before the first.
    pub last: u64,
}

/// Appends the spelling of a client's body: its held tree, the transactions that wait, those that run, and the number of the last
/// one. `access` is that of the first one that waits, if it is resolved, or else that of nothing. It copies none of them.
///
/// # Errors
///
/// `NoMemory` if there is none for the text. Nothing is said of the text then.
#[tactic(auto, unfolding(crate::specs::Spelling::client_spelling))]
pub fn put_client<R: Runs>(
    held: &Tree,
    items: &[Item],
    access: &Access,
    running: &[R],
    last: u64,
    out: &mut Text,
) -> Result<(), NoMemory>
    ensures { OnOk result (out.new ≡ out.old ++ client_spelling (record {
      held = held.now;
      items = waiting_of items.now access.now;
      running = map R.run running.now;
      last = last;
    })) }
{
    held.put(out)?;
    put_queue(items, access, out)?;
    put_runs(running, out)?;
    last.put(out)
}

/// Reads a client's body, and gives the offset after it.
#[tactic(auto, unfolding(crate::specs::Decoding::client_at))]
fn read_parts(alloc: Global, bytes: &[u8]) -> Result<(ClientBody, usize), CodecFault>
    ensures { IsOutcome result (client_at bytes.now 0) }
{
    let (held, at) = Tree::read(alloc, bytes, 0)?;
    let (items, at) = read_list(alloc, bytes, at)?;
    let (running, at) = read_runs(alloc, bytes, at)?;
    let (last, end) = u64::read(alloc, bytes, at)?;
    let body = ClientBody {
        held,
        items,
        running,
        last,
    };
    Ok((body, end))
}

/// Reads the bytes as a client's body.
fn read_whole(alloc: Global, bytes: &[u8]) -> Result<ClientBody, CodecFault>
    ensures { IsOutcome result (whole client_at bytes.now) }
{
    let (body, end) = read_parts(alloc, bytes)?;
    finished(body, end, bytes)
}

/// The client's body whose spelling the bytes are.
///
/// # Errors
///
/// `Malformed` exactly if they are that of no client's body: `at` is the first fault from the left, or the offset of the first
/// byte that is left after a body. `NoMemory` if there is none for it.
pub fn read_client(alloc: Global, bytes: &[u8]) -> Result<ClientBody, CodecFault>
    ensures found { IfOk result (IsMessage IsClientBody client_spelling bytes.now) }
    ensures only { ReadsMessage IsClientBody client_spelling bytes.now result }
    ensures one { IsOneMessage IsClientBody client_spelling bytes.now }
    ensures exact { IsOutcome result (whole client_at bytes.now) }
{
    read_whole(alloc, bytes)
}
