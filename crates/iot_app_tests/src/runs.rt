//! Runs on disks that fail, and one on which nothing fails; and what nodes find on their disks after one.
use crate::fixtures::{Failing, NONE, client_on, ends, joined, ran, store_on};
use iot_disk::{MemDisk, Pick};
use iot_text::Path;
use iot_tree::Kind;
use std::alloc::Global;
use std::process::Abort;
use std::test::Fail;

/// A transaction, and a server that crashes and comes back. What it is asked while it is down is lost.
const CRASH: &[u8] =
    b"client laptop\nscript e {\nmkdir /d\ncat /x\n}\nrun laptop e abort\ncrash server\n\
    refresh laptop\ncrash server\nrestart server\nrestart server\nshow server\n";

/// What it says before the crash, and from then on.
const COMMITTED: &[u8] =
    b"client laptop\nend laptop.1\ncommit 1 laptop.1 certified\n|cat: /x: no file\nsettled laptop.1 1\n";

const CRASHED: &[u8] = b"crash server\naway\ndown\nrestart server\nup\ndir /\ndir /d\n";

/// What it leaves on the server's disk: one record behind the checkpoint of the start, of 181 bytes. It has the label of client 0's
/// transaction 1, of the script `e`, certified, with nothing kept; what it asked of the tree before it, its update and its line.
const RECORDED: &[u8] = b"\xa5IOTSLOT1\
    \xa5\0\0\0\0\0\0\0\x01\x80\0\0\0\0\0\0\x2b\
    \0\0\0\0\0\0\0\0\0\0\0\0\0\0\0\0\0\
    \0\0\0\0\0\0\0\x29\
    \0\0\0\0\0\0\0\x01\0\0\0\0\0\0\0\0\x01\
    \0\0\0\0\0\0\0\0\
    \0\0\0\0\0\0\0\x01\0\0\0\0\0\0\0\x01\
    \0\0\0\0\0\0\0\0\
    \xa5\0\0\0\0\0\0\0\xb5\x02\
    \0\0\0\0\0\0\0\0\0\0\0\0\0\0\0\x01\0\0\0\0\0\0\0\x01e\0\0\0\0\0\0\x10\0\x01\0\0\0\0\0\0\0\0\
    \0\0\0\0\0\0\0\x03\
    \x01\0\0\0\0\0\0\0\x01\0\0\0\0\0\0\0\x01d\x02\0\0\0\0\0\0\0\x01\
    \x01\0\0\0\0\0\0\0\0\x03\0\0\0\0\0\0\0\x02\
    \x02\0\0\0\0\0\0\0\x01\0\0\0\0\0\0\0\x01x\x02\0\0\0\0\0\0\0\x03\
    \0\0\0\0\0\0\0\x01\x02\0\0\0\0\0\0\0\x01\0\0\0\0\0\0\0\x01d\
    \0\0\0\0\0\0\0\x01\0\0\0\0\0\0\0\x10cat: /x: no file\0";

/// The same, if the server's disk fails in its start. What the laptop runs knows of no tree.
const UNSTARTED: &[u8] =
    b"server stopped\nclient laptop\nend laptop.1\npending laptop.1\n|mkdir: /d: not cached\n\
    |cat: /x: not cached\ndown\npending\ndown\nrestart server\nup\ndir /\n";

/// If it fails in the commit: up to the restart, and from then on if the commit was kept, or was lost.
const STOPPED: &[u8] =
    b"client laptop\nend laptop.1\nserver stopped\naway\npending laptop.1\n|cat: /x: no file\ndown\npending\ndown\n";

const KEPT: &[u8] =
    b"restart server kept\ncommit 1 laptop.1 certified\n|cat: /x: no file\nup\ndir /\ndir /d\n";

const LOST: &[u8] = b"restart server lost\nup\ndir /\n";

/// If it fails in the first start after the crash: from the crash on.
const AGAIN: &[u8] = b"crash server\naway\ndown\nserver stopped\nrestart server\ndir /\ndir /d\n";

/// A client that crashes after three acts of a transaction. What they did is committed when it is back.
const CUT: &[u8] = b"client laptop\nscript five {\necho 1\necho 2\necho 3\necho 4\necho 5\n}\n\
    begin laptop five abort\nstep laptop 3\ncrash laptop\nrestart laptop\nqueue laptop\ndrain laptop\n";

/// The server's disk has the commit, and nothing else.
fn has_the_commit(rt: &impl Abort, alloc: Global, disk: Option<MemDisk>) -> Result<(), Fail> {
    let store = store_on(alloc, disk)?;
    assert!(rt; store.number() == 1 && store.labels().len() == 1);
    assert_eq!(rt; store.number_of(0, 1), Some(1));
    assert_eq!(rt; store.number_of(1, 1), None);
    let made = Path::parse(alloc, b"/d")?;
    assert!(rt; store.tree().kind(&made) == Kind::IsDir);
    assert_eq!(rt; store.into_disks().0.bytes(), RECORDED);
    Ok(())
}

/// The client held a tree, began a transaction, fetched, did two acts, ended it, and heard that it is in the list.
fn has_heard_of_it(rt: &impl Abort, alloc: Global, disk: Option<MemDisk>) -> Result<(), Fail> {
    let client = client_on(alloc, disk)?;
    assert_eq!(rt; client.records(), 7);
    let made = Path::parse(alloc, b"/d")?;
    assert!(rt; client.held().kind(&made) == Kind::IsDir);
    Ok(())
}

#[test]
fn a_run_keeps_its_commit(rt: HostRuntime) -> Result<(), Fail> {
    let alloc = rt.alloc();
    let said = joined(alloc, &[COMMITTED, CRASHED])?;
    let mut disks = ends(&rt, alloc, &[], CRASH, NONE, 0, &said)?.into_iter();
    has_the_commit(&rt, alloc, disks.next())?;
    has_heard_of_it(&rt, alloc, disks.next())
}

/// What is said, in two pieces, if the server's disk fails at this call, and how many commits the disk has then.
fn stopped_at(device: u64, pick: Pick) -> ([&'static [u8]; 2], u64) {
    let kept = device > 10 && pick != Pick::Old;
    match device {
        1..=8 => ([UNSTARTED, b""], 0),
        9..=12 if kept => ([STOPPED, KEPT], 1),
        9..=12 => ([STOPPED, LOST], 0),
        _ => ([COMMITTED, AGAIN], 1),
    }
}

/// A run whose server's disk fails there says so, and leaves so many commits.
fn server_stops(rt: &impl Abort, alloc: Global, device: u64, pick: Pick) -> Result<(), Fail> {
    let failing = Failing {
        device,
        pick,
        ..NONE
    };
    let (texts, number) = stopped_at(device, pick);
    let disks = ends(rt, alloc, &[], CRASH, failing, 0, &joined(alloc, &texts)?)?;
    let store = store_on(alloc, disks.into_iter().next())?;
    assert_eq!(rt; store.number(), number, "call {device}");
    Ok(())
}

#[test]
fn a_server_whose_disk_fails_stops(rt: HostRuntime) -> Result<(), Fail> {
    // A start of an empty disk makes eight device calls, a commit four, and the start after a crash one.
    for device in 1..14 {
        for pick in [Pick::Old, Pick::New, Pick::Fill(165)] {
            server_stops(&rt, rt.alloc(), device, pick)?;
        }
    }
    Ok(())
}

/// The client's disk fails at this call.
fn at_client(device: u64, pick: Pick) -> Failing {
    Failing {
        place: 1,
        device,
        pick,
        ..NONE
    }
}

/// A client whose disk failed there finds so many records.
fn stops_and_finds(
    rt: &impl Abort,
    alloc: Global,
    device: u64,
    pick: Pick,
    records: u64,
) -> Result<(), Fail> {
    let (ended, _) = ran(alloc, CUT, &[], at_client(device, pick))?;
    let client = client_on(alloc, ended.disks.into_iter().nth(1))?;
    assert_eq!(rt; client.records(), records, "call {device}");
    Ok(())
}

#[test]
fn a_client_whose_disk_fails_stops(rt: HostRuntime) -> Result<(), Fail> {
    let alloc = rt.alloc();
    // A start of an empty disk makes eight device calls, a record four, and the start after a crash one.
    let cases: [(u64, Pick, &[u8]); 8] = [
        (
            8,
            Pick::Old,
            b"laptop stopped\ndown\ndown\ndown\nrestart laptop\nempty\nrefresh laptop\n",
        ),
        (
            10,
            Pick::New,
            b"client laptop\nlaptop stopped\ndown\ndown\nrestart laptop lost\nempty\nrefresh laptop\n",
        ),
        (
            16,
            Pick::New,
            b"client laptop\nlaptop stopped\ndown\ndown\nrestart laptop kept\ncut laptop.1 0 acts\n\
            item laptop.1 five abort waiting 0 acts cut\ncommit 1 laptop.1 certified\nsettled laptop.1 1\nrefresh laptop\n",
        ),
        (
            28,
            Pick::Old,
            b"client laptop\nbegin laptop.1 five first\nlaptop stopped\ndown\nrestart laptop lost\ncut laptop.1 2 acts\n\
            item laptop.1 five abort waiting 2 acts cut\ncommit 1 laptop.1 certified\n|1\n|2\nsettled laptop.1 1\nrefresh laptop\n",
        ),
        (
            28,
            Pick::New,
            b"client laptop\nbegin laptop.1 five first\nlaptop stopped\ndown\nrestart laptop kept\ncut laptop.1 3 acts\n\
            item laptop.1 five abort waiting 3 acts cut\ncommit 1 laptop.1 certified\n|1\n|2\n|3\nsettled laptop.1 1\nrefresh laptop\n",
        ),
        (
            29,
            Pick::New,
            b"client laptop\nbegin laptop.1 five first\nstep laptop.1 3 acts\ncrash laptop\nlaptop stopped\ndown\ndown\n",
        ),
        (
            33,
            Pick::New,
            b"client laptop\nbegin laptop.1 five first\nstep laptop.1 3 acts\ncrash laptop\nrestart laptop\nlaptop stopped\ndown\ndown\n",
        ),
        (
            37,
            Pick::New,
            b"client laptop\nbegin laptop.1 five first\nstep laptop.1 3 acts\ncrash laptop\nrestart laptop\ncut laptop.1 3 acts\n\
            item laptop.1 five abort waiting 3 acts cut\ncommit 1 laptop.1 certified\n|1\n|2\n|3\nlaptop stopped\n",
        ),
    ];
    for (device, pick, says) in cases {
        ends(&rt, alloc, &[], CUT, at_client(device, pick), 0, says)?;
    }
    // What it finds that stops in its last records.
    for (device, before, after) in [(29, 5, 5), (33, 5, 6), (37, 6, 7), (41, 7, 8)] {
        stops_and_finds(&rt, alloc, device, Pick::Old, before)?;
        stops_and_finds(&rt, alloc, device, Pick::New, after)?;
    }
    Ok(())
}
