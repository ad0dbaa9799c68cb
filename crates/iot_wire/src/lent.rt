//! Requests of which a commit is lent.
ghost use Rattle.std.specs.Prelude.{IfOk};
ghost use Rattle.iot_codec.specs.Outcomes.{IsSeen};
ghost use Rattle.iot_tree.specs.Rows.{Rising};
ghost use Rattle.iot_wire.specs.Decoding.{request_at, refresh_at, walk_at};
ghost use Rattle.iot_wire.specs.Lent.{request_seen};
ghost use Rattle.iot_wire.specs.Messages.{IsMessage, LendsMessage, IsOneMessage, whole};
ghost use Rattle.iot_wire.specs.Rules.{IsRequest};
ghost use Rattle.iot_wire.specs.Spelling.{request_spelling};

use crate::CommitView;
use crate::commits::commit_after;
use crate::messages::{malformed, read_at_most, tag_of};
use crate::requests::LAST_CLIENT;
use iot_codec::{CodecFault, read_known_beside, read_profile, read_walk_limit, read_want};
use iot_text::Path;
use iot_tree::{Known, Node, Profile, Want};
use std::alloc::Global;

/// What a client asks of the server, of which a commit is lent out of the bytes.
#[derive(Drop)]
pub enum RequestView<'a> {
    /// As [`Request::Refresh`](crate::Request::Refresh).
    Refresh {
        client: u64,
        known: Known,
        want: Want,
    },
    /// As [`Request::Commit`](crate::Request::Commit).
    Commit(CommitView<'a>),
    /// As [`Request::Walk`](crate::Request::Walk).
    Walk {
        client: u64,
        profile: Profile,
        limit: u64,
    },
}

/// Reads what follows the tag of a refresh, beside the rows, which rise.
#[tactic(auto, unfolding(crate::specs::Decoding::refresh_at))]
fn lend_refresh<'a>(
    alloc: Global,
    rows: &[(Path, Node)],
    bytes: &'a [u8],
    at: usize,
) -> Result<(RequestView<'a>, usize), CodecFault>
    requires { Rising rows.now }
    ensures { IsSeen (λ read. (request_seen read.0, read.1)) result (refresh_at bytes.now at) }
{
    let (client, at) = read_at_most(alloc, LAST_CLIENT, bytes, at)?;
    let (known, at) = read_known_beside(alloc, rows, bytes, at)?;
    let (want, end) = read_want(alloc, bytes, at)?;
    let request = RequestView::Refresh {
        client,
        known,
        want,
    };
    Ok((request, end))
}

/// Reads what follows the tag of a walk.
#[tactic(auto, unfolding(crate::specs::Decoding::walk_at))]
fn lend_walk<'a>(
    alloc: Global,
    bytes: &'a [u8],
    at: usize,
) -> Result<(RequestView<'a>, usize), CodecFault>
    ensures { IsSeen (λ read. (request_seen read.0, read.1)) result (walk_at bytes.now at) }
{
    let (client, at) = read_at_most(alloc, LAST_CLIENT, bytes, at)?;
    let (profile, at) = read_profile(alloc, bytes, at)?;
    let (limit, end) = read_walk_limit(bytes, at)?;
    let request = RequestView::Walk {
        client,
        profile,
        limit,
    };
    Ok((request, end))
}

/// Reads a request beside the rows, which rise, or lends a commit, and gives the offset after it.
#[tactic(auto, unfolding(crate::specs::Decoding::request_at))]
fn lend_tagged<'a>(
    alloc: Global,
    rows: &[(Path, Node)],
    bytes: &'a [u8],
) -> Result<(RequestView<'a>, usize), CodecFault>
    requires { Rising rows.now }
    ensures { IsSeen (λ read. (request_seen read.0, read.1)) result (request_at bytes.now 0) }
{
    match tag_of(bytes) {
        Some(1) => lend_refresh(alloc, rows, bytes, 1),
        Some(2) => {
            let (commit, end) = commit_after(bytes, 1)?;
            Ok((RequestView::Commit(commit), end))
        }
        Some(3) => lend_walk(alloc, bytes, 1),
        _ => Err(malformed(0)),
    }
}

/// Reads the bytes as a request beside the rows, which rise, or lends a commit.
fn lend_whole<'a>(
    alloc: Global,
    rows: &[(Path, Node)],
    bytes: &'a [u8],
) -> Result<RequestView<'a>, CodecFault>
    requires { Rising rows.now }
    ensures { IsSeen request_seen result (whole request_at bytes.now) }
{
    let (request, end) = lend_tagged(alloc, rows, bytes)?;
    if end != bytes.len() {
        return Err(malformed(end));
    }
    Ok(request)
}

/// The request whose spelling the bytes are, as `read_request` gives it, but a commit is lent, in no memory. A known path that is one of
/// these rows, which rise, shares its names: that costs a comparison of bytes, and no memory.
///
/// # Errors
///
/// Those of `read_request`.
pub fn lend_request<'a>(
    alloc: Global,
    rows: &[(Path, Node)],
    bytes: &'a [u8],
) -> Result<RequestView<'a>, CodecFault>
    requires { Rising rows.now }
    ensures found { IfOk result (λ request. IsMessage IsRequest request_spelling bytes.now (request_seen request)) }
    ensures only { LendsMessage request_seen IsRequest request_spelling bytes.now result }
    ensures one { IsOneMessage IsRequest request_spelling bytes.now }
    ensures exact { IsSeen request_seen result (whole request_at bytes.now) }
{
    lend_whole(alloc, rows, bytes)
}
