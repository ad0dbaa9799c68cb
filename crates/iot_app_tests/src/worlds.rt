//! The whole machine in a program of its own: a server and its clients, over disks that are its own, and looks at what they hold.
ghost use Rattle.std.specs.Prelude.{[], IfOk, OnOk};
ghost use Rattle.iot_disk.specs.Memory.{in_memory};
ghost use Rattle.iot_event.specs.Declarations.{AreDeclared};
ghost use Rattle.iot_world.specs.Disks.{AreFresh};
ghost use Rattle.iot_world.specs.World.{DeclaredOn, HasDisks, IsWorldOfSome};

use iot_disk::{Disk, MemDisk};
use iot_event::{Event, parse};
use iot_text::{NoMemory, Path, Text};
use iot_tree::Kind;
use iot_world::World;
use std::alloc::Global;
use std::test::Fail;

/// How many disks a world takes: two for the server, and one for each client that there may be.
const COUNT: usize = 10;

/// So many empty disks.
fn fresh_disks(alloc: Global) -> Result<Vec<MemDisk>, NoMemory>
    ensures { IfOk result (λ disks. AreFresh in_memory disks.items) }
{
    let mut disks = Vec::with_capacity(alloc, COUNT)?;
    'disks: for _ in 0..COUNT {
        disks.push(MemDisk::new(alloc))?;
    }
    Ok(disks)
}

/// Does the events in turn. What they say is added to the text.
fn apply_all<D: Disk>(
    alloc: Global,
    world: &mut World<D>,
    events: &[Event],
    said: &mut Text,
) -> Result<(), NoMemory>
    requires stands { IsWorldOfSome D.medium world.old }
    requires declared { DeclaredOn events.now world.old }
    requires has { HasDisks world.old }
    ensures stands { OnOk result (IsWorldOfSome D.medium world.new) }
    ensures has { HasDisks world.new }
{
    'events: for event in events {
        world.apply(alloc, event, said)?;
    }
    Ok(())
}

/// The world that has done these events on these disks. If memory runs out, the disks come back.
fn world_after<D: Disk>(
    alloc: Global,
    events: &[Event],
    disks: Vec<D>,
    said: &mut Text,
) -> Result<World<D>, Vec<D>>
    requires declared { AreDeclared events.now 0 [] }
    requires fresh { AreFresh D.medium disks.items }
    ensures stands { IfOk result (λ world. IsWorldOfSome D.medium world) }
    ensures has { IfOk result (λ world. HasDisks world) }
{
    let mut world = World::new(alloc, disks, said)?;
    match apply_all(alloc, &mut world, events, said) {
        Ok(()) => Ok(world),
        Err(NoMemory) => Err(world.into_disks()),
    }
}

/// What the server has at the path, if it is alive.
fn on_server<D: Disk>(world: &World<D>, path: &Path) -> Option<Kind> {
    let server = world.server()?;
    Some(server.store().tree().kind(path))
}

/// What the client at this place sees at the path, if it is alive.
fn in_view<D: Disk>(world: &World<D>, place: u64, path: &Path) -> Option<Kind>
    requires { IsWorldOfSome D.medium world.now }
{
    let client = world.client(place)?;
    Some(client.view().kind(path))
}

/// The least number of the transactions that run there, if one does.
fn running<D: Disk>(world: &World<D>, place: u64) -> Option<u64>
    requires { IsWorldOfSome D.medium world.now }
{
    let running = world.client(place)?.running().first()?;
    Some(running.tid)
}

/// How many transactions wait there.
fn waiting<D: Disk>(world: &World<D>, place: u64) -> usize {
    match world.client(place) {
        Some(client) => client.queue().items().len(),
        None => 0,
    }
}

/// What the server was asked and has answered since its start, if it is alive: the requests, their bytes, and those of the replies.
fn traffic<D: Disk>(world: &World<D>) -> Option<(u64, u64, u64)> {
    let traffic = world.server()?.traffic();
    Some((traffic.requests, traffic.received, traffic.sent))
}

/// A laptop that commits a file, and goes on without its server: what it does next waits, and then two run.
const EVENTS: &[u8] = b"client laptop\n\
    script one {\nwrite /one 1\n}\n\
    script two {\nwrite /two 2\n}\n\
    script three {\nwrite /three 3\necho done\n}\n\
    run laptop one abort\nhoard laptop /\ndisconnect laptop\n\
    run laptop two abort\nbegin laptop three abort\nbegin laptop three abort\nstep laptop 1 4\n";

/// What this says.
const SAID: &[u8] = b"client laptop\n\
    end laptop.1\ncommit 1 laptop.1 certified\nsettled laptop.1 1\nhoard laptop /\ndisconnect laptop\n\
    end laptop.2\npending laptop.2\nbegin laptop.3 three second\nbegin laptop.4 three second\nstep laptop.4 1 acts\n";

#[test]
fn a_world_is_looked_at(rt: HostRuntime) -> Result<(), Fail> {
    let alloc = rt.alloc();
    let events = parse(alloc, EVENTS)?;
    let mut said = Text::new(alloc);
    let Ok(world) = world_after(alloc, &events, fresh_disks(alloc)?, &mut said) else {
        return Err(Fail::new("memory ran out"));
    };
    assert_eq!(rt; said.as_bytes(), SAID);

    // The server has what was committed. The client sees what waits, too. What runs is seen by its own script alone.
    for (name, there, seen) in [
        (b"/one".as_slice(), Kind::IsFile, Kind::IsFile),
        (b"/two", Kind::Absent, Kind::IsFile),
        (b"/three", Kind::Absent, Kind::Absent),
    ] {
        let path = Path::parse(alloc, name)?;
        assert!(rt; on_server(&world, &path) == Some(there));
        assert!(rt; in_view(&world, 0, &path) == Some(seen));
    }
    assert!(rt; waiting(&world, 0) == 1 && running(&world, 0) == Some(3));
    assert!(rt; waiting(&world, 1) == 0 && running(&world, 1).is_none());
    assert_eq!(rt; world.into_disks().len(), COUNT);
    Ok(())
}

/// A laptop that hoards all of an empty server, twice.
const HOARDS: &[u8] = b"client laptop\nhoard laptop /\nhoard laptop /\n";

#[test]
fn what_is_known_is_not_sent_again(rt: HostRuntime) -> Result<(), Fail> {
    let alloc = rt.alloc();
    let events = parse(alloc, HOARDS)?;
    let mut said = Text::new(alloc);
    let Ok(world) = world_after(alloc, &events, fresh_disks(alloc)?, &mut said) else {
        return Err(Fail::new("memory ran out"));
    };

    // The requests have 26 and 42 bytes, of which 16 are the root with its stamp, and the replies 34 and 17.
    assert!(rt; traffic(&world) == Some((2, 68, 51)));
    Ok(())
}

/// A server that commits, and then goes on from its backup.
const GOES_ON: &[u8] =
    b"client laptop\nscript one {\nwrite /one 1\n}\nhoard laptop /\nrun laptop one abort\ncrash server\npromote\n";

#[test]
fn a_promoted_server_has_the_last_disk(rt: HostRuntime) -> Result<(), Fail> {
    let alloc = rt.alloc();
    for (events, place) in [(EVENTS, 0), (GOES_ON, 9)] {
        let events = parse(alloc, events)?;
        let mut said = Text::new(alloc);
        let Ok(world) = world_after(alloc, &events, fresh_disks(alloc)?, &mut said) else {
            return Err(Fail::new("memory ran out"));
        };
        assert_eq!(rt; world.server_place(), place);
        let path = Path::parse(alloc, b"/one")?;
        assert!(rt; on_server(&world, &path) == Some(Kind::IsFile));
        assert_eq!(rt; world.into_disks().len(), COUNT);
    }
    Ok(())
}
