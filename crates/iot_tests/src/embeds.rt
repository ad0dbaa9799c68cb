//! A server and a client in a program of their own: over a disk and a transport that are its own.
ghost use Rattle.std.specs.Prelude.{◌≡◌, ◌≤◌, IfOk, OnOk};
ghost use Rattle.iot_server.specs.Servers.{IsSynced};
ghost use Rattle.iot_client.specs.Ties.{AreBegun, IsTied, live_of, place_of, state_of};
ghost use Rattle.iot_client.specs.Calls.{HeadIsIfAny};
ghost use Rattle.iot_kept.specs.Changes.{IsSubmitted};

use iot_client::{Ask, Client, Ended, Noted};
use iot_disk::{Disk, DiskFault, MemDisk, Pick};
use iot_lang::{Script, parse};
use iot_server::{Server, ServerFault};
use iot_text::{Name, Path};
use iot_tree::{ACT_LIMIT, OnConflict, Want};
use std::alloc::Global;
use std::process::Abort;
use std::rc::Rc;
use std::test::Fail;

/// A disk of one's own: another disk, whose syncs are counted.
#[derive(Drop)]
struct Counted<D> {
    disk: D,
    syncs: u64,
}

impl<D: Disk> Disk for Counted<D> {
    ghost medium = { record {
      reads = λ it. D.medium.reads it.disk;
      may_leave = λ it. D.medium.may_leave it.disk;
      faults = λ it. D.medium.faults it.disk;
      arms = λ it. D.medium.arms it.disk;
    } };

    ghost reads_is_image = { λ it. D.reads_is_image it.disk };

    fn len(&self) -> u64 {
        self.disk.len()
    }

    fn read_at(&mut self, at: u64, buf: &mut [u8]) -> Result<(), DiskFault> {
        self.disk.read_at(at, buf)
    }

    fn write_at(&mut self, at: u64, bytes: &[u8]) -> Result<(), DiskFault> {
        self.disk.write_at(at, bytes)
    }

    fn sync(&mut self) -> Result<(), DiskFault> {
        self.syncs = self.syncs.wrapping_add(1);
        self.disk.sync()
    }

    fn arm(&mut self, calls: u64, pick: Pick) {
        self.disk.arm(calls, pick);
    }

    fn restart(&mut self) {
        self.disk.restart();
    }
}

/// A transport of one's own: it carries one message each way.
#[derive(Drop)]
struct Line {
    request: Option<Vec<u8>>,
    reply: Option<Vec<u8>>,
}

/// A server that is started after a restart.
fn server_on<D: Disk + Drop>(alloc: Global, mut disk: D) -> Result<Server<D>, Fail>
    ensures { IfOk result (λ server. IsSynced D.medium server) }
{
    disk.restart();
    match Server::start(alloc, disk) {
        Ok(server) => Ok(server),
        Err((_, fault)) => Err(Fail::from(fault)),
    }
}

/// The first of at most eight clients, started after a restart.
fn client_on<D: Disk + Drop>(alloc: Global, mut disk: D) -> Result<Client<D>, Fail>
    ensures tied { IfOk result (λ client. IsTied D.medium client) }
    ensures place { IfOk result (λ client. place_of client ≡ 0) }
{
    disk.restart();
    match Client::start(alloc, disk, 0) {
        Ok(client) => Ok(client),
        Err((_, fault)) => Err(Fail::from(fault)),
    }
}

/// The server's side: it answers the request that is on the line, if one is.
fn serve<D: Disk>(alloc: Global, server: &mut Server<D>, line: &mut Line) -> Result<(), ServerFault>
    requires { IsSynced D.medium server.old }
    ensures { OnOk result (IsSynced D.medium server.new) }
{
    if let Some(request) = line.request.take() {
        line.reply = Some(server.handle(alloc, &request)?);
    }
    Ok(())
}

/// The client's side: it asks for a path with all below it.
fn ask<D: Disk>(alloc: Global, client: &Client<D>, line: &mut Line, want: Path) -> Result<(), Fail>
    requires { place_of client.now ≤ 7 }
{
    line.request = Some(client.ask(alloc, &Want::Below(want))?);
    Ok(())
}

/// The client holds what has come.
fn hold<D: Disk>(alloc: Global, client: &mut Client<D>, line: &mut Line) -> Result<(), Fail>
    requires { IsTied D.medium client.old }
    ensures tied { OnOk result (IsTied D.medium client.new) }
    ensures place { OnOk result (place_of client.new ≡ place_of client.old) }
{
    let reply = line.reply.take().ok_or("no reply")?;
    client.take_objects(alloc, &reply)?;
    Ok(())
}

/// What a start has found running goes on no further: it waits, with the acts that still hold. Then all that run were begun since.
fn cut_all<D: Disk>(alloc: Global, client: &mut Client<D>) -> Result<(), Fail>
    requires tied { IsTied D.medium client.old }
    ensures tied { OnOk result (IsTied D.medium client.new) }
    ensures begun { OnOk result (AreBegun (live_of client.new)) }
    ensures place { OnOk result (place_of client.new ≡ place_of client.old) }
{
    'cuts: while let Some(_) = client.cut(alloc)? {}
    Ok(())
}

/// The client runs a script on what it holds. The transaction is second class: it asks the server for nothing, and waits when it ends.
fn run<D: Disk>(
    alloc: Global,
    client: &mut Client<D>,
    name: &Name,
    script: Rc<Script>,
) -> Result<(), Fail>
    requires tied { IsTied D.medium client.old }
    requires begun { AreBegun (live_of client.old) }
    requires place { place_of client.old ≤ 7 }
    ensures tied { OnOk result (IsTied D.medium client.new) }
    ensures place { OnOk result (place_of client.new ≤ 7) }
{
    let number = client.begin(alloc, name, script, OnConflict::Abort, false)?;
    'steps: for _ in 0..ACT_LIMIT {
        if client.at_end(number) {
            break;
        }
        client.step(alloc, number)?;
    }
    match client.end(alloc, number)? {
        Ended::Joined { .. } => Ok(()),
        Ended::Again { .. } => Err(Fail::new("another one has ended before it")),
    }
}

/// The client submits the first transaction that waits.
fn submit<D: Disk>(alloc: Global, client: &Client<D>, line: &mut Line) -> Result<(), Fail>
    requires tied { IsTied D.medium client.now }
    requires place { place_of client.now ≤ 7 }
    ensures { OnOk result (HeadIsIfAny IsSubmitted (state_of client.now).items) }
{
    let Ask::Commit(request) = client.submission(alloc)? else {
        return Err(Fail::new("nothing to be committed"));
    };
    line.request = Some(request.into_bytes());
    Ok(())
}

/// The client takes the verdict that has come: the number of the commit, or none if the transaction conflicts.
fn take_verdict<D: Disk>(
    alloc: Global,
    client: &mut Client<D>,
    line: &mut Line,
) -> Result<Option<u64>, Fail>
    requires tied { IsTied D.medium client.old }
    requires submitted { HeadIsIfAny IsSubmitted (state_of client.old).items }
    ensures { OnOk result (IsTied D.medium client.new) }
{
    let reply = line.reply.take().ok_or("no reply")?;
    match client.take_verdict(alloc, &reply)? {
        Noted::Settled { number } => Ok(Some(number)),
        Noted::Conflict { .. } => Ok(None),
    }
}

/// A day: the client holds what the server has at `/d`, runs a script by itself, and submits what waits.
fn day<S: Disk, C: Disk>(
    alloc: Global,
    server: &mut Server<S>,
    client: &mut Client<C>,
    line: &mut Line,
) -> Result<(), Fail>
    requires synced { IsSynced S.medium server.old }
    requires tied { IsTied C.medium client.old }
    requires place { place_of client.old ≡ 0 }
    ensures synced { OnOk result (IsSynced S.medium server.new) }
    ensures tied { OnOk result (IsTied C.medium client.new) }
    ensures place { OnOk result (place_of client.new ≤ 7) }
{
    ask(alloc, client, line, Path::parse(alloc, b"/d")?)?;
    serve(alloc, server, line)?;
    hold(alloc, client, line)?;
    let script = Rc::new(alloc, parse(alloc, b"mkdir /d\n")?)?;
    cut_all(alloc, client)?;
    run(alloc, client, &Name::parse(b"make")?, script)?;
    submit(alloc, client, line)
}

/// The client submits it once more, and takes the verdict.
fn settle<S: Disk, C: Disk>(
    alloc: Global,
    server: &mut Server<S>,
    client: &mut Client<C>,
    line: &mut Line,
) -> Result<Option<u64>, Fail>
    requires synced { IsSynced S.medium server.old }
    requires tied { IsTied C.medium client.old }
    requires place { place_of client.old ≤ 7 }
{
    submit(alloc, client, line)?;
    serve(alloc, server, line)?;
    take_verdict(alloc, client, line)
}

/// The day at a server whose disk fails in the commit, at the write that makes the record count. Gives the disk.
fn stops<S: Disk + Drop, C: Disk>(
    rt: &impl Abort,
    alloc: Global,
    disk: S,
    client: &mut Client<C>,
    line: &mut Line,
) -> Result<S, Fail>
    requires tied { IsTied C.medium client.old }
    requires place { place_of client.old ≡ 0 }
    ensures tied { OnOk result (IsTied C.medium client.new) }
    ensures place { OnOk result (place_of client.new ≤ 7) }
{
    let mut server = server_on(alloc, disk)?;
    day(alloc, &mut server, client, line)?;
    server.arm(false, 3, Pick::New);
    let stopped = serve(alloc, &mut server, line);
    assert!(rt; matches!(stopped, Err(ServerFault::Stopped)));
    Ok(server.into_disks().0)
}

/// The server starts again from this disk, and is asked again. Gives the disk.
fn comes_back<S: Disk + Drop, C: Disk>(
    rt: &impl Abort,
    alloc: Global,
    disk: S,
    client: &mut Client<C>,
    line: &mut Line,
) -> Result<S, Fail>
    requires tied { IsTied C.medium client.old }
    requires place { place_of client.old ≤ 7 }
{
    let mut server = server_on(alloc, disk)?;
    assert_eq!(rt; server.store().number(), 1);
    let verdict = settle(alloc, &mut server, client, line)?;
    assert_eq!(rt; verdict, Some(1));
    Ok(server.into_disks().0)
}

#[test]
fn a_client_commits_at_a_server(rt: HostRuntime) -> Result<(), Fail> {
    let alloc = rt.alloc();
    let counted = Counted {
        disk: MemDisk::new(alloc),
        syncs: 0,
    };
    let mut line = Line {
        request: None,
        reply: None,
    };
    let mut client = client_on(alloc, MemDisk::new(alloc))?;
    let disk = stops(&rt, alloc, counted, &mut client, &mut line)?;
    let disk = comes_back(&rt, alloc, disk, &mut client, &mut line)?;
    assert!(rt; disk.syncs > 0);
    Ok(())
}
