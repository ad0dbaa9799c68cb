//! Refreshes of a client at a server, in bytes, and what they leave on the client's disk.
ghost use Rattle.std.specs.Prelude.{◌≡◌, ◌≤◌, IfOk, OnOk, true};
ghost use Rattle.iot_server.specs.Servers.{IsSynced};
ghost use Rattle.iot_client.specs.Calls.{HeadIsIfAny, IsPlanned};
ghost use Rattle.iot_client.specs.Ties.{IsTied, place_of, state_of};

use crate::fixtures::recorded;
use crate::requests::started;
use iot_client::{Client, ClientFault};
use iot_disk::{Disk, MemDisk, StartFault};
use iot_lang::parse;
use iot_queue::Stage;
use iot_server::Server;
use iot_text::Path;
use iot_tree::{OnConflict, Want};
use std::alloc::Global;
use std::process::Abort;
use std::rc::Rc;
use std::test::Fail;

/// Client 0 knows nothing, and wants the root with all below it.
const FIRST: &[u8] = b"\x01\0\0\0\0\0\0\0\0\0\0\0\0\0\0\0\0\x03\0\0\0\0\0\0\0\0";

/// The root, which has stamp 1. Nothing is gone.
const ROOT: &[u8] = b"\x01\0\0\0\0\0\0\0\x01\0\0\0\0\0\0\0\0\x01\0\0\0\0\0\0\0\x01\
    \0\0\0\0\0\0\0\0";

/// It knows the root with stamp 1, and wants the same.
const AGAIN: &[u8] = b"\x01\0\0\0\0\0\0\0\0\0\0\0\0\0\0\0\x01\0\0\0\0\0\0\0\0\0\0\0\0\0\0\0\x01\
    \x03\0\0\0\0\0\0\0\0";

/// Nothing is new, and nothing is gone.
const NOTHING: &[u8] = b"\x01\0\0\0\0\0\0\0\0\0\0\0\0\0\0\0\0";

/// Two records, each of which says that the root alone is held, and is whole.
const TWICE: &[&[u8]] = &[HELD, HELD];

const HELD: &[u8] = b"\x01\0\0\0\0\0\0\0\x01\0\0\0\0\0\0\0\0\x01";

/// The far directory `/d`, without the root above it.
const WITHOUT_ROOT: &[u8] = b"\x01\0\0\0\0\0\0\0\x01\0\0\0\0\0\0\0\x01\0\0\0\0\0\0\0\x01d\x03\
    \0\0\0\0\0\0\0\0\0\0\0\0\0\0\0\0";

/// The records of a client whose transaction 1, of script `e`, is in conflict, and is to be run again.
const CONFLICT: &[&[u8]] = &[
    b"\x02\0\0\0\0\0\0\0\x01\0\0\0\0\0\0\0\x01e\x01",
    b"\x05\0\0\0\0\0\0\0\x01",
    b"\x07",
];

/// The root with stamp 2, and the far directory `/d`.
const FAR: &[u8] = b"\x01\0\0\0\0\0\0\0\x02\0\0\0\0\0\0\0\0\x01\0\0\0\0\0\0\0\x02\
    \0\0\0\0\0\0\0\x01\0\0\0\0\0\0\0\x01d\x03\0\0\0\0\0\0\0\0\
    \0\0\0\0\0\0\0\0";

/// Client 0, started after a restart.
pub(crate) fn client_on<D: Disk + Drop>(alloc: Global, mut disk: D) -> Result<Client<D>, StartFault>
    ensures tied { IfOk result (λ client. IsTied D.medium client) }
    ensures place { IfOk result (λ client. place_of client ≤ 7) }
{
    disk.restart();
    match Client::start(alloc, disk, 0) {
        Ok(client) => Ok(client),
        Err((_, fault)) => Err(fault),
    }
}

/// The client asks for the root with all below it in these bytes, is answered by those, and holds what they bring.
fn hoard<S: Disk, C: Disk>(
    rt: &impl Abort,
    alloc: Global,
    server: &mut Server<S>,
    client: &mut Client<C>,
    asks: &[u8],
    brings: &[u8],
) -> Result<(), Fail>
    requires synced { IsSynced S.medium server.old }
    requires tied { IsTied C.medium client.old }
    requires place { place_of client.old ≤ 7 }
    ensures synced { OnOk result (IsSynced S.medium server.new) }
    ensures tied { OnOk result (IsTied C.medium client.new) }
    ensures place { OnOk result (place_of client.new ≤ 7) }
{
    let request = client.ask(alloc, &Want::Below(Path::root(alloc)))?;
    assert_eq!(rt; request.as_slice(), asks);
    let reply = server.handle(alloc, &request)?;
    assert_eq!(rt; reply.as_slice(), brings);
    client.take_objects(alloc, &reply)?;
    Ok(())
}

/// The client asks a new server, which sends the root, and then once more. It holds the root alone, by two records.
fn hoard_twice<S: Disk, C: Disk>(
    rt: &impl Abort,
    alloc: Global,
    server: &mut Server<S>,
    client: &mut Client<C>,
) -> Result<(), Fail>
    requires synced { IsSynced S.medium server.old }
    requires tied { IsTied C.medium client.old }
    requires place { place_of client.old ≤ 7 }
{
    hoard(rt, alloc, server, client, FIRST, ROOT)?;
    hoard(rt, alloc, server, client, AGAIN, NOTHING)?;
    assert_eq!(rt; client.held().rows().len(), 1);
    assert_eq!(rt; client.records(), 2);
    Ok(())
}

/// The same on the client's disk. Gives it back.
fn hoards_on<S: Disk, C: Disk + Drop>(
    rt: &impl Abort,
    alloc: Global,
    server: &mut Server<S>,
    client: C,
) -> Result<C, Fail>
    requires { IsSynced S.medium server.old }
{
    let mut client = client_on(alloc, client)?;
    hoard_twice(rt, alloc, server, &mut client)?;
    Ok(client.into_disk())
}

/// The same on disks that are empty. Gives the client's.
fn hoards(rt: &impl Abort, alloc: Global) -> Result<MemDisk, Fail> {
    let mut server = started(alloc, MemDisk::new(alloc))?;
    hoards_on(rt, alloc, &mut server, MemDisk::new(alloc))
}

#[test]
fn what_is_known_does_not_come_again(rt: HostRuntime) -> Result<(), Fail> {
    let alloc = rt.alloc();
    let disk = hoards(&rt, alloc)?;

    // What is held has not changed, and its record was appended again.
    let twice = recorded(alloc, TWICE, None)?;
    assert_eq!(rt; disk.bytes(), twice.as_slice());
    Ok(())
}

/// Whether the client refuses the reply as bad from its end on.
fn is_bad_at_its_end<D: Disk>(
    alloc: Global,
    client: &mut Client<D>,
    reply: &[u8],
) -> Result<bool, Fail>
    requires tied { IsTied D.medium client.old }
    requires place { place_of client.old ≤ 7 }
    ensures tied { OnOk result (IsTied D.medium client.new) }
    ensures place { OnOk result (place_of client.new ≤ 7) }
{
    match client.take_objects(alloc, reply) {
        Ok(()) => Ok(false),
        Err(ClientFault::BadReply { at }) => Ok(at == reply.len() as u64),
        Err(fault) => Err(Fail::from(fault)),
    }
}

/// The client, which knows nothing, refuses what makes no tree. Where it knows the root, the same bytes make one.
fn refuses_what_makes_no_tree<S: Disk, C: Disk>(
    rt: &impl Abort,
    alloc: Global,
    server: &mut Server<S>,
    client: &mut Client<C>,
) -> Result<(), Fail>
    requires synced { IsSynced S.medium server.old }
    requires tied { IsTied C.medium client.old }
    requires place { place_of client.old ≤ 7 }
{
    assert!(rt; is_bad_at_its_end(alloc, client, WITHOUT_ROOT)?);

    // Nothing has changed: it has no record, and asks as at first.
    assert_eq!(rt; client.records(), 0);
    hoard(rt, alloc, server, client, FIRST, ROOT)?;
    assert!(rt; !is_bad_at_its_end(alloc, client, WITHOUT_ROOT)?);
    assert_eq!(rt; client.records(), 2);
    assert_eq!(rt; client.held().rows().len(), 2);
    Ok(())
}

/// The same of the client that starts from this disk.
fn refuses_on<S: Disk, C: Disk + Drop>(
    rt: &impl Abort,
    alloc: Global,
    server: &mut Server<S>,
    client: C,
) -> Result<(), Fail>
    requires { IsSynced S.medium server.old }
{
    let mut client = client_on(alloc, client)?;
    refuses_what_makes_no_tree(rt, alloc, server, &mut client)
}

#[test]
fn what_makes_no_tree_is_bad_at_its_end(rt: HostRuntime) -> Result<(), Fail> {
    let alloc = rt.alloc();
    let mut server = started(alloc, MemDisk::new(alloc))?;
    refuses_on(&rt, alloc, &mut server, MemDisk::new(alloc))
}

/// Whether the first transaction that waits, if one does, is in conflict, and is to be run again.
fn is_planned<D: Disk>(client: &Client<D>) -> bool
    ensures { result ≡ true → HeadIsIfAny IsPlanned (state_of client.now).items }
{
    match client.queue().head() {
        None => true,
        Some(item) => match item.stage {
            Stage::Conflict => match item.option {
                OnConflict::Reexec => true,
                _ => false,
            },
            _ => false,
        },
    }
}

/// The client, whose first transaction is to be run again, refuses the reply as bad from this place on, and notes nothing.
fn refuses_to_resolve<D: Disk>(
    rt: &impl Abort,
    alloc: Global,
    client: &mut Client<D>,
    reply: &[u8],
    at: u64,
) -> Result<(), Fail>
    requires { IsTied D.medium client.old }
{
    assert!(rt; is_planned(client));
    let script = Rc::new(alloc, parse(alloc, b"mkdir /d\n")?)?;
    let refused = client.resolve(alloc, reply, script);
    assert!(rt; matches!(refused, Err(ClientFault::BadReply { at: place }) if place == at));
    assert_eq!(rt; client.records(), 3);
    Ok(())
}

/// The same of the client that starts from this disk.
fn refuses_to_resolve_on<D: Disk + Drop>(
    rt: &impl Abort,
    alloc: Global,
    disk: D,
    reply: &[u8],
    at: u64,
) -> Result<(), Fail> {
    let mut client = client_on(alloc, disk)?;
    refuses_to_resolve(rt, alloc, &mut client, reply, at)
}

#[test]
fn a_resolution_needs_a_whole_tree(rt: HostRuntime) -> Result<(), Fail> {
    let alloc = rt.alloc();
    for (reply, at) in [
        (FAR, FAR.len() as u64),
        (WITHOUT_ROOT, WITHOUT_ROOT.len() as u64),
        (b"\x01", 1),
    ] {
        let disk = MemDisk::of(alloc, recorded(alloc, CONFLICT, None)?)?;
        refuses_to_resolve_on(&rt, alloc, disk, reply, at)?;
    }
    Ok(())
}
