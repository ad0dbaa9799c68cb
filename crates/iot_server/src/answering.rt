//! The reply to a request.
ghost use Rattle.std.specs.Prelude.{◌≡◌, ◌+◌, IfOk, OnOk, None, length};
ghost use Rattle.iot_access.specs.Access.{FitInTurn};
ghost use Rattle.iot_acts.specs.Traces.{ReadsHold};
ghost use Rattle.iot_certify.specs.Verdicts.{IsVerdictOnAccess};
ghost use Rattle.iot_views.specs.Rules.{AreKnown};
ghost use Rattle.iot_server.specs.Faults.{Leaves};
ghost use Rattle.iot_server.specs.Copies.{commit_of};
ghost use Rattle.iot_server.specs.Replies.{AreAnswered, IsAnswered};
ghost use Rattle.iot_slots.specs.Decoding.{State as Encoded};
ghost use Rattle.iot_store.specs.Numbers.{number_in};
ghost use Rattle.iot_store.specs.Records.{IsRecord};
ghost use Rattle.iot_store.specs.Rules.{IsCommit};
ghost use Rattle.iot_store.specs.Store.{state_of, IsSynced};
ghost use Rattle.iot_tree.specs.declared.questions.Answer.TheVariants.{Away};
ghost use Rattle.iot_wire.specs.Lent.{request_of, request_seen};
ghost use Rattle.iot_wire.specs.Messages.{IsMessage};
ghost use Rattle.iot_wire.specs.Rules.{IsRequest, IsReply};
ghost use Rattle.iot_wire.specs.Spelling.{request_spelling, reply_spelling};
ghost use Rattle.iot_wire.specs.declared.requests.Request.{Request as Asked};
ghost use Rattle.iot_wire.specs.declared.requests.Request.TheVariants.{Refresh, Commit as Asks, Walk};
ghost use Rattle.iot_wire.specs.declared.replies.Reply.TheVariants.{Committed, Conflict};

use iot_certify::{Verdict, certify_view};
use iot_disk::{Disk, JournalFault};
use iot_hoard::pick;
use iot_store::{Commit, Store};
use iot_text::NoMemory;
use iot_tree::{Access, Answer, Known, Profile, Tree, Want};
use iot_wire::{CommitView, Reply, Request, RequestView, read_request, write_reply};
use std::alloc::Global;

/// Answers the request with these bytes. A commit is on both disks when this gives its reply.
pub(crate) fn answer<D: Disk>(
    alloc: Global,
    store: &mut Store<D>,
    request: &RequestView<'_>,
    bytes: &[u8],
) -> Result<Vec<u8>, JournalFault>
    requires synced { IsSynced D.medium store.old }
    requires asked { IsMessage IsRequest request_spelling bytes.now (request_seen request.now) }
    ensures answered { IfOk result (λ bytes. AreAnswered D.medium (request_seen request.now) bytes.items store.old store.new) }
    ensures synced { OnOk result (IsSynced D.medium store.new) }
    ensures leaves { Leaves D.medium (λ (asked : Asked). asked ≡ request_seen request.now) result store.old store.new }
{
    match request {
        RequestView::Refresh {
            client: _,
            known,
            want,
        } => Ok(lend(alloc, store, known, want)?),
        RequestView::Commit(commit) => submit(alloc, store, commit, bytes),
        RequestView::Walk {
            client: _,
            profile,
            limit,
        } => Ok(walk(alloc, store, profile, *limit)?),
    }
}

/// What changed in its tree for a client that knows these paths, with these stamps, and wants this besides. One pass over the
/// tree and the paths.
fn lend<D: Disk>(
    alloc: Global,
    store: &Store<D>,
    known: &Known,
    want: &Want,
) -> Result<Vec<u8>, NoMemory>
    requires synced { IsSynced D.medium store.now }
    requires known { AreKnown known.now }
    ensures { (client : _) (was : Encoded) → IfOk result (λ bytes.
        IsAnswered (state_of store.now) was (Refresh client known.now want.now) bytes.items (state_of store.now) was) }
{
    let changes = store.stamped().changed(alloc, known.as_slice(), want)?;
    write_reply(alloc, &Reply::Objects(changes))
}

/// What the profile takes along of its tree within the limit. It costs what `pick` does, and one pass over the tree.
fn walk<D: Disk>(
    alloc: Global,
    store: &Store<D>,
    profile: &Profile,
    limit: u64,
) -> Result<Vec<u8>, NoMemory>
    requires { IsSynced D.medium store.now }
    ensures { (client : _) (was : Encoded) → IfOk result (λ bytes.
        IsAnswered (state_of store.now) was (Walk client profile.now limit) bytes.items (state_of store.now) was) }
{
    let paths = pick(alloc, store.tree(), profile, limit)?;
    let changes = store.stamped().listed(alloc, paths.as_slice())?;
    write_reply(alloc, &Reply::Objects(changes))
}

/// The number of a transaction that is among the commits; any other is judged.
fn submit<D: Disk>(
    alloc: Global,
    store: &mut Store<D>,
    commit: &CommitView<'_>,
    body: &[u8],
) -> Result<Vec<u8>, JournalFault>
    requires synced { IsSynced D.medium store.old }
    requires asked { IsMessage IsRequest request_spelling body.now (request_of commit.now) }
    ensures answered { IfOk result (λ bytes. AreAnswered D.medium (request_of commit.now) bytes.items store.old store.new) }
    ensures synced { OnOk result (IsSynced D.medium store.new) }
    ensures leaves { Leaves D.medium (λ (asked : Asked). asked ≡ request_of commit.now) result store.old store.new }
{
    match number_of(store, commit) {
        Some(number) => Ok(write_reply(alloc, &Reply::Already { number })?),
        None => judge(alloc, store, commit, body),
    }
}

/// The number of the transaction, if it is among the commits.
fn number_of<D: Disk>(store: &Store<D>, commit: &CommitView<'_>) -> Option<u64>
    ensures { result ≡ number_in (state_of store.now).labels commit.now.0.client commit.now.0.tid }
{
    let label = commit.label();
    store.number_of(label.client, label.tid)
}

/// Commits a new transaction if what it asked of the tree before it is so of the store's tree; else tells the first read that is not.
/// Only then are its parts copied out of the request.
fn judge<D: Disk>(
    alloc: Global,
    store: &mut Store<D>,
    commit: &CommitView<'_>,
    body: &[u8],
) -> Result<Vec<u8>, JournalFault>
    requires synced { IsSynced D.medium store.old }
    requires asked { IsMessage IsRequest request_spelling body.now (request_of commit.now) }
    requires new { number_in (state_of store.old).labels commit.now.0.client commit.now.0.tid ≡ None }
    ensures answered { IfOk result (λ bytes. AreAnswered D.medium (request_of commit.now) bytes.items store.old store.new) }
    ensures synced { OnOk result (IsSynced D.medium store.new) }
    ensures leaves { Leaves D.medium (λ (asked : Asked). asked ≡ request_of commit.now) result store.old store.new }
{
    match verdict(alloc, store.tree(), commit)? {
        Verdict::Holds => commit_copied(alloc, store, commit, body),
        Verdict::Differs { read, answer } => {
            Ok(write_reply(alloc, &Reply::Conflict { read, answer })?)
        }
    }
}

/// The verdict on what the transaction asked of the tree before it.
fn verdict(alloc: Global, t: &Tree, commit: &CommitView<'_>) -> Result<Verdict, NoMemory>
    ensures { IfOk result (IsVerdictOnAccess t.now commit.now.1.0) }
{
    certify_view(alloc, t, &commit.access())
}

/// Copies a new transaction whose base reads hold, and commits it if its updates fit in turn.
fn commit_copied<D: Disk>(
    alloc: Global,
    store: &mut Store<D>,
    commit: &CommitView<'_>,
    body: &[u8],
) -> Result<Vec<u8>, JournalFault>
    requires synced { IsSynced D.medium store.old }
    requires asked { IsMessage IsRequest request_spelling body.now (request_of commit.now) }
    requires new { number_in (state_of store.old).labels commit.now.0.client commit.now.0.tid ≡ None }
    requires holds { ReadsHold (state_of store.old).tree commit.now.1.0.reads }
    ensures answered { IfOk result (λ bytes. AreAnswered D.medium (request_of commit.now) bytes.items store.old store.new) }
    ensures synced { OnOk result (IsSynced D.medium store.new) }
    ensures leaves { Leaves D.medium (λ (asked : Asked). asked ≡ request_of commit.now) result store.old store.new }
{
    let copy = copied(alloc, commit, body)?;
    commit_if_fit(alloc, store, copy, body)
}

/// The commit that is lent out of the bytes, in memory of its own.
fn copied(alloc: Global, commit: &CommitView<'_>, bytes: &[u8]) -> Result<Commit, NoMemory>
    requires { IsMessage IsRequest request_spelling bytes.now (request_of commit.now) }
    ensures { IfOk result (λ copy. copy ≡ commit_of commit.now) }
{
    match read_request(alloc, bytes) {
        Ok(
            Request::Commit {
                label,
                access,
                lines,
            },
        ) => Ok(Commit {
            label,
            access,
            lines,
        }),
        // The bytes are those of a commit, so that only memory can be lacking.
        _ => Err(NoMemory),
    }
}

/// Commits a new transaction whose base reads hold, if its updates fit in turn.
fn commit_if_fit<D: Disk>(
    alloc: Global,
    store: &mut Store<D>,
    commit: Commit,
    body: &[u8],
) -> Result<Vec<u8>, JournalFault>
    requires synced { IsSynced D.medium store.old }
    requires commit { IsCommit commit }
    requires recorded { IsRecord body.now commit.label commit.access commit.lines }
    requires new { number_in (state_of store.old).labels commit.label.client commit.label.tid ≡ None }
    requires holds { ReadsHold (state_of store.old).tree commit.access.reads }
    ensures answered { IfOk result (λ bytes. AreAnswered D.medium (Asks commit.label commit.access commit.lines) bytes.items
        store.old store.new) }
    ensures synced { OnOk result (IsSynced D.medium store.new) }
    ensures leaves { Leaves D.medium (λ (asked : Asked). asked ≡ Asks commit.label commit.access commit.lines) result store.old store.new }
{
    if !store.fit_in_turn(alloc, &commit.access.updates)? {
        return Ok(misfit(alloc, &commit.access)?);
    }
    add(alloc, store, commit, body)
}

/// The reply that the updates of an access do not fit, which no client of this system sends. Places end at 64 bits; no list in memory is
/// that long.
fn misfit(alloc: Global, access: &Access) -> Result<Vec<u8>, NoMemory>
    ensures { IfOk result (λ bytes. IsMessage IsReply reply_spelling bytes.items (Conflict (length access.now.reads + 1) Away)) }
{
    match (access.reads.len() as u64).checked_add(1) {
        Some(read) => {
            let answer = Answer::Away;
            write_reply(alloc, &Reply::Conflict { read, answer })
        }
        None => Err(NoMemory),
    }
}

/// Commits a new transaction that can follow. Its reply is spelled first, so that want of memory comes before the commit.
fn add<D: Disk>(
    alloc: Global,
    store: &mut Store<D>,
    commit: Commit,
    body: &[u8],
) -> Result<Vec<u8>, JournalFault>
    requires synced { IsSynced D.medium store.old }
    requires commit { IsCommit commit }
    requires recorded { IsRecord body.now commit.label commit.access commit.lines }
    requires new { number_in (state_of store.old).labels commit.label.client commit.label.tid ≡ None }
    requires holds { ReadsHold (state_of store.old).tree commit.access.reads }
    requires fit { FitInTurn (state_of store.old).tree commit.access.updates }
    ensures answered { IfOk result (λ bytes. AreAnswered D.medium (Asks commit.label commit.access commit.lines) bytes.items
        store.old store.new) }
    ensures synced { OnOk result (IsSynced D.medium store.new) }
    ensures leaves { Leaves D.medium (λ (asked : Asked). asked ≡ Asks commit.label commit.access commit.lines) result store.old store.new }
{
    let bytes = committed(alloc, store.number())?;
    store.commit_recorded(alloc, commit, body)?;
    Ok(bytes)
}

/// The reply that tells of one commit after so many. Numbers end at 64 bits; no list in memory is that long.
fn committed(alloc: Global, number: u64) -> Result<Vec<u8>, NoMemory>
    ensures { IfOk result (λ bytes. IsMessage IsReply reply_spelling bytes.items (Committed (number + 1))) }
{
    match number.checked_add(1) {
        Some(number) => write_reply(alloc, &Reply::Committed { number }),
        None => Err(NoMemory),
    }
}
