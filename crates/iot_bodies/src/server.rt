//! What a server keeps.
ghost use Rattle.std.specs.Prelude.{◌≡◌, ◌++◌, OnOk, IfOk};
ghost use Rattle.iot_codec.specs.Outcomes.{IsOutcome};
ghost use Rattle.iot_wire.specs.Messages.{IsMessage, ReadsMessage, IsOneMessage, whole};
ghost use Rattle.iot_bodies.specs.Decoding.{server_at};
ghost use Rattle.iot_bodies.specs.Rules.{IsServerBody};
ghost use Rattle.iot_bodies.specs.Spelling.{server_spelling};

use crate::parts::finished;
use iot_codec::{CodecFault, Spelled, put_list, read_list};
use iot_text::{NoMemory, Text};
use iot_tree::{Labels, Sequence, Tree};
use std::alloc::Global;

/// What a server's checkpoint holds.
#[derive(Drop)]
pub struct ServerBody {
    /// The tree that its commits make.
    pub tree: Tree,

    /// The labels of its commits, in their order.
    pub labels: Labels,

    /// The stamps of the rows, in the order of the rows.
    pub stamps: Sequence<u64>,
}

/// Appends the spelling of a server's body: its tree, its labels and its stamps. It copies none of them.
///
/// # Errors
///
/// `NoMemory` if there is none for the text. Nothing is said of the text then.
#[tactic(auto, unfolding(crate::specs::Spelling::server_spelling))]
pub fn put_server(
    tree: &Tree,
    labels: &Labels,
    stamps: &[u64],
    out: &mut Text,
) -> Result<(), NoMemory>
    ensures { OnOk result (out.new ≡ out.old ++ server_spelling (record { tree = tree.now; labels = labels.now; stamps = stamps.now })) }
{
    tree.put(out)?;
    put_list(labels.as_slice(), out)?;
    put_list(stamps, out)
}

/// Reads a server's body, and gives the offset after it.
#[tactic(auto, unfolding(crate::specs::Decoding::server_at))]
fn read_parts(alloc: Global, bytes: &[u8]) -> Result<(ServerBody, usize), CodecFault>
    ensures { IsOutcome result (server_at bytes.now 0) }
{
    let (tree, at) = Tree::read(alloc, bytes, 0)?;
    let (labels, at) = read_list(alloc, bytes, at)?;
    let (stamps, end) = read_list(alloc, bytes, at)?;
    let body = ServerBody {
        tree,
        labels,
        stamps,
    };
    Ok((body, end))
}

/// Reads the bytes as a server's body.
fn read_whole(alloc: Global, bytes: &[u8]) -> Result<ServerBody, CodecFault>
    ensures { IsOutcome result (whole server_at bytes.now) }
{
    let (body, end) = read_parts(alloc, bytes)?;
    finished(body, end, bytes)
}

/// The server's body whose spelling the bytes are.
///
/// # Errors
///
/// `Malformed` exactly if they are that of no server's body: `at` is the first fault from the left, or the offset of the first
/// byte that is left after a body. `NoMemory` if there is none for it.
pub fn read_server(alloc: Global, bytes: &[u8]) -> Result<ServerBody, CodecFault>
    ensures found { IfOk result (IsMessage IsServerBody server_spelling bytes.now) }
    ensures only { ReadsMessage IsServerBody server_spelling bytes.now result }
    ensures one { IsOneMessage IsServerBody server_spelling bytes.now }
    ensures exact { IsOutcome result (whole server_at bytes.now) }
{
    read_whole(alloc, bytes)
}
