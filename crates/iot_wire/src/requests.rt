//! What a client asks of the server.
ghost use Rattle.std.specs.Prelude.{◌≡◌, ◌≤◌, ◌++◌, IfOk, Ok, OnOk, [], ◌∷◌};
ghost use Rattle.iot_codec.specs.Outcomes.{IsOutcome};
ghost use Rattle.iot_tree.specs.Profiles.{IsProfile, IsWalkLimit};
ghost use Rattle.iot_views.specs.Rules.{AreLines, IsAccess, IsLabel};
ghost use Rattle.iot_wire.specs.Decoding.{request_at, refresh_at, commit_at, walk_at};
ghost use Rattle.iot_wire.specs.Messages.{IsMessage, ReadsMessage, IsOneMessage, whole};
ghost use Rattle.iot_wire.specs.Rules.{IsRequest};
ghost use Rattle.iot_wire.specs.Spelling.{request_spelling};
ghost use Rattle.iot_wire.specs.declared.requests.Request.TheVariants.{Commit, Walk};

use crate::messages::{ROOM, finished, malformed, read_at_most, tag_of};
use iot_codec::{
    CodecFault, put_access, put_known, put_label, put_lines, put_number, put_profile,
    put_walk_limit, put_want, read_access, read_known, read_label, read_lines, read_profile,
    read_walk_limit, read_want,
};
use iot_text::{NoMemory, Text};
use iot_tree::{Access, Known, Label, Lines, Profile, Want};
use std::alloc::Global;

/// The greatest number of a client.
pub(crate) const LAST_CLIENT: u64 = 7;

/// How many bytes each known path and each wish has room for at first, which are enough for most of them.
const ROOM_FOR_PATH: usize = 64;

/// What a client asks of the server.
#[derive(Drop)]
pub enum Request {
    /// What changed of what it knows, and what it wants to know besides: the paths whose insides it knows, in their order, with
    /// their stamps.
    Refresh {
        client: u64,
        known: Known,
        want: Want,
    },
    /// That a transaction be committed: what it asked of the tree before it, its updates, and its lines.
    Commit {
        label: Label,
        access: Access,
        lines: Lines,
    },
    /// What the profile takes along within the limit.
    Walk {
        client: u64,
        profile: Profile,
        limit: u64,
    },
}

/// Appends the spelling of the request.
#[tactic(auto, unfolding(crate::specs::Spelling::request_spelling))]
fn put_request(request: &Request, out: &mut Text) -> Result<(), NoMemory>
    requires { IsRequest request.now }
    ensures { OnOk result (out.new ≡ out.old ++ request_spelling request.now) }
{
    match request {
        Request::Refresh {
            client,
            known,
            want,
        } => {
            out.push(1)?;
            put_number(client, out)?;
            put_known(known, out)?;
            put_want(want, out)
        }
        Request::Commit {
            label,
            access,
            lines,
        } => put_commit(label, access, lines, out),
        Request::Walk {
            client,
            profile,
            limit,
        } => put_walk(*client, profile, *limit, out),
    }
}

/// Appends the spelling of the request that a transaction with this label, this access and these lines be committed.
#[tactic(auto, unfolding(crate::specs::Spelling::request_spelling))]
pub fn put_commit(
    label: &Label,
    access: &Access,
    lines: &Lines,
    out: &mut Text,
) -> Result<(), NoMemory>
    requires label { IsLabel label.now }
    requires access { IsAccess access.now }
    requires lines { AreLines lines.now }
    ensures { OnOk result (out.new ≡ out.old ++ request_spelling (Commit label.now access.now lines.now)) }
{
    out.push(2)?;
    put_label(label, out)?;
    put_access(access, out)?;
    put_lines(lines, out)
}

/// Appends the spelling of the request of one of 8 clients for what the profile takes along within the limit.
#[tactic(auto, unfolding(crate::specs::Spelling::request_spelling))]
pub fn put_walk(client: u64, profile: &Profile, limit: u64, out: &mut Text) -> Result<(), NoMemory>
    requires client { client ≤ 7 }
    requires profile { IsProfile profile.now }
    requires limit { IsWalkLimit limit }
    ensures { OnOk result (out.new ≡ out.old ++ request_spelling (Walk client profile.now limit)) }
{
    out.push(3)?;
    put_number(&client, out)?;
    put_profile(profile, out)?;
    put_walk_limit(&limit, out)
}

/// How many bytes the request has room for at first.
fn room_for(request: &Request) -> usize {
    let paths = match request {
        Request::Refresh { known, .. } => known.len(),
        Request::Commit { .. } => 0,
        Request::Walk { profile, .. } => profile.len(),
    };
    paths.saturating_mul(ROOM_FOR_PATH).saturating_add(ROOM)
}

/// The bytes of the request: its tag, and then its parts. What is written is read back.
pub fn write_request(alloc: Global, request: &Request) -> Result<Vec<u8>, NoMemory>
    requires { IsRequest request.now }
    ensures spelled { IfOk result (λ bytes. bytes.items ≡ request_spelling request.now) }
    ensures back { IfOk result (λ bytes. whole request_at bytes.items ≡ Ok request.now) }
{
    let mut out = Text::with_capacity(alloc, room_for(request))?;
    put_request(request, &mut out)?;
    Ok(out.into_bytes())
}

/// Reads what follows the tag of a refresh.
#[tactic(auto, unfolding(crate::specs::Decoding::refresh_at))]
fn read_refresh(alloc: Global, bytes: &[u8], at: usize) -> Result<(Request, usize), CodecFault>
    ensures { IsOutcome result (refresh_at bytes.now at) }
{
    let (client, at) = read_at_most(alloc, LAST_CLIENT, bytes, at)?;
    let (known, at) = read_known(alloc, bytes, at)?;
    let (want, end) = read_want(alloc, bytes, at)?;
    let request = Request::Refresh {
        client,
        known,
        want,
    };
    Ok((request, end))
}

/// Reads what follows the tag of a commit.
#[tactic(auto, unfolding(crate::specs::Decoding::commit_at))]
fn read_commit(alloc: Global, bytes: &[u8], at: usize) -> Result<(Request, usize), CodecFault>
    ensures { IsOutcome result (commit_at bytes.now at) }
{
    let (label, at) = read_label(alloc, bytes, at)?;
    let (access, at) = read_access(alloc, bytes, at)?;
    let (lines, end) = read_lines(alloc, bytes, at)?;
    let request = Request::Commit {
        label,
        access,
        lines,
    };
    Ok((request, end))
}

/// Reads what follows the tag of a walk.
#[tactic(auto, unfolding(crate::specs::Decoding::walk_at))]
fn read_walk(alloc: Global, bytes: &[u8], at: usize) -> Result<(Request, usize), CodecFault>
    ensures { IsOutcome result (walk_at bytes.now at) }
{
    let (client, at) = read_at_most(alloc, LAST_CLIENT, bytes, at)?;
    let (profile, at) = read_profile(alloc, bytes, at)?;
    let (limit, end) = read_walk_limit(bytes, at)?;
    let request = Request::Walk {
        client,
        profile,
        limit,
    };
    Ok((request, end))
}

/// Reads a request, and gives the offset after it.
#[tactic(auto, unfolding(crate::specs::Decoding::request_at))]
fn read_tagged(alloc: Global, bytes: &[u8]) -> Result<(Request, usize), CodecFault>
    ensures { IsOutcome result (request_at bytes.now 0) }
{
    match tag_of(bytes) {
        Some(1) => read_refresh(alloc, bytes, 1),
        Some(2) => read_commit(alloc, bytes, 1),
        Some(3) => read_walk(alloc, bytes, 1),
        _ => Err(malformed(0)),
    }
}

/// Reads the bytes as a request.
fn read_whole(alloc: Global, bytes: &[u8]) -> Result<Request, CodecFault>
    ensures { IsOutcome result (whole request_at bytes.now) }
{
    let (request, end) = read_tagged(alloc, bytes)?;
    finished(request, end, bytes)
}

/// The request whose spelling the bytes are.
///
/// # Errors
///
/// `Malformed` exactly if they are that of no request: `at` is the first fault from the left, or
/// the offset of the first byte that is left after a request. `NoMemory` if there is none for it.
pub fn read_request(alloc: Global, bytes: &[u8]) -> Result<Request, CodecFault>
    ensures found { IfOk result (IsMessage IsRequest request_spelling bytes.now) }
    ensures only { ReadsMessage IsRequest request_spelling bytes.now result }
    ensures one { IsOneMessage IsRequest request_spelling bytes.now }
    ensures exact { IsOutcome result (whole request_at bytes.now) }
{
    read_whole(alloc, bytes)
}
