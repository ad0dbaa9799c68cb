//! Requests and replies, as they were written by hand.
ghost use Rattle.std.specs.Prelude.{IfOk, OnOk};
ghost use Rattle.iot_backup.specs.Parts.{IsThere};
ghost use Rattle.iot_server.specs.Servers.{IsSynced, second_of};
ghost use Rattle.iot_store.specs.Standing.{EachStarts};

use iot_backup::TwinFault;
use iot_disk::{Disk, MemDisk, Pick};
use iot_server::{Server, ServerFault, StartFault, Traffic};
use std::alloc::Global;
use std::process::Abort;
use std::test::Fail;

/// Client 0 asks that its transaction 1 be committed, which found nothing at `/d` and a directory at `/`, and made one at `/d`.
const COMMIT: &[u8] =
    b"\x02\0\0\0\0\0\0\0\0\0\0\0\0\0\0\0\x01\0\0\0\0\0\0\0\x01e\0\0\0\0\0\0\x10\0\x01\0\0\0\0\0\0\0\0\
    \0\0\0\0\0\0\0\x02\
    \x01\0\0\0\0\0\0\0\x01\0\0\0\0\0\0\0\x01d\x02\0\0\0\0\0\0\0\x01\
    \x01\0\0\0\0\0\0\0\0\x03\0\0\0\0\0\0\0\x02\
    \0\0\0\0\0\0\0\x01\x02\0\0\0\0\0\0\0\x01\0\0\0\0\0\0\0\x01d\0\0\0\0\0\0\0\0";

/// The same of its transaction 2.
const LATE: &[u8] =
    b"\x02\0\0\0\0\0\0\0\0\0\0\0\0\0\0\0\x02\0\0\0\0\0\0\0\x01e\0\0\0\0\0\0\x10\0\x01\0\0\0\0\0\0\0\0\
    \0\0\0\0\0\0\0\x02\
    \x01\0\0\0\0\0\0\0\x01\0\0\0\0\0\0\0\x01d\x02\0\0\0\0\0\0\0\x01\
    \x01\0\0\0\0\0\0\0\0\x03\0\0\0\0\0\0\0\x02\
    \0\0\0\0\0\0\0\x01\x02\0\0\0\0\0\0\0\x01\0\0\0\0\0\0\0\x01d\0\0\0\0\0\0\0\0";

/// Client 1 knows `/` with stamp 1, and wants nothing else.
const REFRESH: &[u8] = b"\x01\0\0\0\0\0\0\0\x01\
    \0\0\0\0\0\0\0\x01\0\0\0\0\0\0\0\0\0\0\0\0\0\0\0\x01\x01";

/// The root, which has stamp 2 now, and the far directory `/d`. Nothing is gone.
const OBJECTS: &[u8] = b"\x01\0\0\0\0\0\0\0\x02\0\0\0\0\0\0\0\0\x01\0\0\0\0\0\0\0\x02\
    \0\0\0\0\0\0\0\x01\0\0\0\0\0\0\0\x01d\x03\0\0\0\0\0\0\0\0\
    \0\0\0\0\0\0\0\0";

/// Client 1 knows `/` with stamp 2.
const AGAIN: &[u8] = b"\x01\0\0\0\0\0\0\0\x01\
    \0\0\0\0\0\0\0\x01\0\0\0\0\0\0\0\0\0\0\0\0\0\0\0\x02\x01";

/// Nothing is new, and nothing is gone.
const NOTHING: &[u8] = b"\x01\0\0\0\0\0\0\0\0\0\0\0\0\0\0\0\0";

const COMMITTED: &[u8] = b"\x02\0\0\0\0\0\0\0\x01";

const ALREADY: &[u8] = b"\x03\0\0\0\0\0\0\0\x01";

/// The first read differs: a directory is there now.
const CONFLICT: &[u8] = b"\x04\0\0\0\0\0\0\0\x01\x03";

/// A server that is started after a restart.
pub(crate) fn started<D: Disk + Drop>(alloc: Global, mut disk: D) -> Result<Server<D>, StartFault>
    ensures { IfOk result (λ server. IsSynced D.medium server) }
{
    disk.restart();
    match Server::start(alloc, disk) {
        Ok(server) => Ok(server),
        Err((_, fault)) => Err(fault),
    }
}

/// A server over two disks that is started after a restart of both.
fn started_on_both<D: Disk + Drop>(
    alloc: Global,
    mut first: D,
    mut second: D,
) -> Result<Server<D>, TwinFault>
    requires { EachStarts (D.medium.may_leave first) (D.medium.may_leave second) }
    ensures synced { IfOk result (λ server. IsSynced D.medium server) }
    ensures pair { IfOk result (λ server. IsThere (second_of server)) }
{
    first.restart();
    second.restart();
    match Server::start_pair(alloc, first, second) {
        Ok(server) => Ok(server),
        Err((_, _, fault)) => Err(fault),
    }
}

/// The server answers the request with this reply.
pub(crate) fn answers<D: Disk>(
    rt: &impl Abort,
    alloc: Global,
    server: &mut Server<D>,
    request: &[u8],
    reply: &[u8],
) -> Result<(), Fail>
    requires { IsSynced D.medium server.old }
    ensures { OnOk result (IsSynced D.medium server.new) }
{
    assert_eq!(rt; server.handle(alloc, request)?.as_slice(), reply);
    Ok(())
}

/// A new server is asked to commit, and then for what it holds.
fn answers_each<D: Disk>(rt: &impl Abort, alloc: Global, server: &mut Server<D>) -> Result<(), Fail>
    requires { IsSynced D.medium server.old }
{
    answers(rt, alloc, server, COMMIT, COMMITTED)?;
    answers(rt, alloc, server, COMMIT, ALREADY)?;
    answers(rt, alloc, server, LATE, CONFLICT)?;
    answers(rt, alloc, server, REFRESH, OBJECTS)?;
    answers(rt, alloc, server, AGAIN, NOTHING)?;
    let bad = server.handle(alloc, b"\x04");
    assert!(rt; matches!(bad, Err(ServerFault::Malformed { at: 0 })));
    let traffic = Traffic {
        requests: 5,
        received: 458,
        sent: 105,
    };
    assert_eq!(rt; server.traffic(), traffic);
    assert_eq!(rt; server.store().number(), 1);
    Ok(())
}

#[test]
fn each_request_has_its_reply(rt: HostRuntime) -> Result<(), Fail> {
    let alloc = rt.alloc();
    let mut server = started(alloc, MemDisk::new(alloc))?;
    answers_each(&rt, alloc, &mut server)
}

/// The server that starts from this disk has the commit.
fn has_the_commit<D: Disk + Drop>(rt: &impl Abort, alloc: Global, disk: D) -> Result<(), Fail> {
    let mut server = started(alloc, disk)?;
    answers(rt, alloc, &mut server, COMMIT, ALREADY)
}

/// A server's disk fails at this call of a commit. The server starts again.
pub(crate) fn stopped_in<D: Disk + Drop>(
    rt: &impl Abort,
    alloc: Global,
    disk: D,
    commit: &[u8],
    calls: u64,
    pick: Pick,
) -> Result<Server<D>, StartFault>
    ensures { IfOk result (λ server. IsSynced D.medium server) }
{
    let mut server = started(alloc, disk)?;
    server.arm(false, calls, pick);
    let stopped = server.handle(alloc, commit);
    assert!(rt; matches!(stopped, Err(ServerFault::Stopped)));
    started(alloc, server.into_disks().0)
}

/// The server's disk fails at this call of the commit. The server starts again, and is asked again.
fn stops_in_a_commit<D: Disk + Drop>(
    rt: &impl Abort,
    alloc: Global,
    disk: D,
    calls: u64,
    pick: Pick,
) -> Result<(), Fail> {
    let mut server = stopped_in(rt, alloc, disk, COMMIT, calls, pick)?;
    let kept = calls > 2 && pick != Pick::Old;
    assert_eq!(rt; server.store().number(), u64::from(kept), "call {calls}");
    let reply = if kept { ALREADY } else { COMMITTED };
    answers(rt, alloc, &mut server, COMMIT, reply)
}

#[test]
fn a_commit_is_kept_or_lost(rt: HostRuntime) -> Result<(), Fail> {
    let alloc = rt.alloc();
    for calls in 1..5 {
        for pick in [Pick::Old, Pick::New, Pick::Fill(165)] {
            stops_in_a_commit(&rt, alloc, MemDisk::new(alloc), calls, pick)?;
        }
    }
    Ok(())
}

/// A disk of the server fails as it answers the request. The server starts again, from both disks.
fn fails_in<D: Disk + Drop>(
    alloc: Global,
    mut server: Server<D>,
    request: &[u8],
) -> Result<Server<D>, Fail>
    requires { IsSynced D.medium server }
    ensures { IfOk result (λ it. IsSynced D.medium it) }
{
    if server.handle(alloc, request).is_ok() {
        return Err(Fail::new("no disk failed"));
    }
    let (first, second) = server.into_disks();
    let Some(second) = second else {
        return Err(Fail::new("there is no backup"));
    };
    Ok(started_on_both(alloc, first, second)?)
}

/// The backup fails at this call of the commit. The first disk has the record then, and a start from both disks brings the backup up. So
/// the server goes on from the backup alone.
fn stops_on_the_backup<D: Disk + Drop>(
    rt: &impl Abort,
    alloc: Global,
    mut server: Server<D>,
    calls: u64,
    pick: Pick,
) -> Result<(), Fail>
    requires synced { IsSynced D.medium server }
    requires pair { IsThere (second_of server) }
{
    server.arm(true, calls, pick);
    let server = fails_in(alloc, server, COMMIT)?;
    assert_eq!(rt; server.store().number(), 1);
    let (_first, backup) = server.into_disks();
    has_the_commit(rt, alloc, backup.ok_or("there is no backup")?)
}

#[test]
fn a_commit_goes_on_from_the_backup(rt: HostRuntime) -> Result<(), Fail> {
    let alloc = rt.alloc();
    for calls in 1..5 {
        for pick in [Pick::Old, Pick::New, Pick::Fill(165)] {
            let server = started_on_both(alloc, MemDisk::new(alloc), MemDisk::new(alloc))?;
            stops_on_the_backup(&rt, alloc, server, calls, pick)?;
        }
    }
    Ok(())
}
