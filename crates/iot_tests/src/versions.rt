//! Disks of version 1, byte by byte: what they stand for, and what the first change makes of them.

use crate::fixtures::recorded;
use crate::refreshes::client_on;
use crate::requests::{answers, started, stopped_in};
use iot_disk::{Disk, MemDisk, Pick};
use iot_server::StartFault;
use iot_store::{ImageFault, Store};
use iot_text::Path;
use std::alloc::Global;
use std::process::Abort;
use std::test::Fail;

/// A server's disk. The checkpoint is of one commit, which put `hi` into `/f`; the file has no mode. The record is of a second one, which
/// made `/d`.
const OLD: &[u8] = b"\xa5IOTSLOT1\xa5\0\0\0\0\0\0\0\x01\0\0\0\0\0\0\0\x2b\
    \0\0\0\0\0\0\0\0\0\0\0\0\0\0\0\0\0\
    \0\0\0\0\0\0\0\x77\
    \0\0\0\0\0\0\0\x02\0\0\0\0\0\0\0\0\x01\
    \0\0\0\0\0\0\0\x01\0\0\0\0\0\0\0\x01f\x02\0\0\0\0\0\0\0\x02hi\
    \0\0\0\0\0\0\0\x01\0\0\0\0\0\0\0\0\0\0\0\0\0\0\0\x01\0\0\0\0\0\0\0\x01e\0\0\0\0\0\0\x10\0\x01\0\0\0\0\0\0\0\0\
    \0\0\0\0\0\0\0\x02\0\0\0\0\0\0\0\x02\0\0\0\0\0\0\0\x02\
    \0\0\0\0\0\0\0\x01\
    \xa5\0\0\0\0\0\0\0\x82\
    \x02\0\0\0\0\0\0\0\0\0\0\0\0\0\0\0\x02\0\0\0\0\0\0\0\x01e\0\0\0\0\0\0\x10\0\x01\0\0\0\0\0\0\0\0\
    \0\0\0\0\0\0\0\x02\
    \x01\0\0\0\0\0\0\0\x01\0\0\0\0\0\0\0\x01d\x02\0\0\0\0\0\0\0\x01\
    \x01\0\0\0\0\0\0\0\0\x03\0\0\0\0\0\0\0\x02\
    \0\0\0\0\0\0\0\x01\x02\0\0\0\0\0\0\0\x01\0\0\0\0\0\0\0\x01d\0\0\0\0\0\0\0\0\
    \0";

/// What it is upgraded into: one checkpoint, after two records, with a byte for the mode of `/f`.
const UPGRADED: &[u8] = b"\xa5IOTSLOT1\xa5\0\0\0\0\0\0\0\x01\x80\0\0\0\0\0\0\x2b\
    \0\0\0\0\0\0\0\0\0\0\0\0\0\0\0\0\0\
    \0\0\0\0\0\0\0\xbc\
    \0\0\0\0\0\0\0\x03\0\0\0\0\0\0\0\0\x01\
    \0\0\0\0\0\0\0\x01\0\0\0\0\0\0\0\x01d\x01\
    \0\0\0\0\0\0\0\x01\0\0\0\0\0\0\0\x01f\x02\0\0\0\0\0\0\0\0\x02hi\
    \0\0\0\0\0\0\0\x02\0\0\0\0\0\0\0\0\0\0\0\0\0\0\0\x01\0\0\0\0\0\0\0\x01e\0\0\0\0\0\0\x10\0\x01\0\0\0\0\0\0\0\0\
    \0\0\0\0\0\0\0\0\0\0\0\0\0\0\0\x02\0\0\0\0\0\0\0\x01e\0\0\0\0\0\0\x10\0\x01\0\0\0\0\0\0\0\0\
    \0\0\0\0\0\0\0\x03\0\0\0\0\0\0\0\x03\0\0\0\0\0\0\0\x03\0\0\0\0\0\0\0\x02\
    \0\0\0\0\0\0\0\x02\
    \0";

/// Client 0 asks that its transaction 3 be committed, which makes `/g`.
const THIRD: &[u8] =
    b"\x02\0\0\0\0\0\0\0\0\0\0\0\0\0\0\0\x03\0\0\0\0\0\0\0\x01e\0\0\0\0\0\0\x10\0\x01\0\0\0\0\0\0\0\0\
    \0\0\0\0\0\0\0\x02\
    \x01\0\0\0\0\0\0\0\x01\0\0\0\0\0\0\0\x01g\x02\0\0\0\0\0\0\0\x01\
    \x01\0\0\0\0\0\0\0\0\x03\0\0\0\0\0\0\0\x02\
    \0\0\0\0\0\0\0\x01\x02\0\0\0\0\0\0\0\x01\0\0\0\0\0\0\0\x01g\0\0\0\0\0\0\0\0";

const COMMITTED: &[u8] = b"\x02\0\0\0\0\0\0\0\x03";

const ALREADY: &[u8] = b"\x03\0\0\0\0\0\0\0\x03";

/// A server's disk of version 2 with a record of a transaction that asked for the mode of `/d`, where nothing is.
const ASKS_A_MODE: [u8; 204] = *b"\xa5IOTSLOT1\xa5\0\0\0\0\0\0\0\x01\x80\0\0\0\0\0\0\x2b\
    \0\0\0\0\0\0\0\0\0\0\0\0\0\0\0\0\0\
    \0\0\0\0\0\0\0\x29\
    \0\0\0\0\0\0\0\x01\0\0\0\0\0\0\0\0\x01\
    \0\0\0\0\0\0\0\0\
    \0\0\0\0\0\0\0\x01\0\0\0\0\0\0\0\x01\
    \0\0\0\0\0\0\0\0\
    \xa5\0\0\0\0\0\0\0\x5e\
    \x02\0\0\0\0\0\0\0\0\0\0\0\0\0\0\0\x01\0\0\0\0\0\0\0\x01e\0\0\0\0\0\0\x10\0\x01\0\0\0\0\0\0\0\0\
    \0\0\0\0\0\0\0\x01\x04\0\0\0\0\0\0\0\x01\0\0\0\0\0\0\0\x01d\x02\0\0\0\0\0\0\0\x01\
    \0\0\0\0\0\0\0\0\0\0\0\0\0\0\0\0\
    \0";

#[test]
fn an_old_disk_stands_for_a_state_and_is_only_read(rt: HostRuntime) -> Result<(), Fail> {
    let alloc = rt.alloc();
    let path = Path::parse(alloc, b"/f")?;
    let server = started(alloc, MemDisk::of(alloc, OLD.to_vec(alloc)?)?)?;
    assert_eq!(rt; server.store().number(), 2);
    assert_eq!(rt;
        server.store().tree().content(&path),
        Some(b"hi".as_slice())
    );
    assert_eq!(rt; server.into_disks().0.bytes(), OLD);
    Ok(())
}

/// The disk fails at this call of the first commit on it. The server starts again, and is asked again.
fn stops_in_the_first_commit<D: Disk + Drop>(
    rt: &impl Abort,
    alloc: Global,
    disk: D,
    calls: u64,
    pick: Pick,
) -> Result<(), Fail> {
    let mut server = stopped_in(rt, alloc, disk, THIRD, calls, pick)?;
    // Seven calls are of the checkpoint, and two more come before the gate of the record.
    let kept = calls > 9 && pick != Pick::Old;
    assert_eq!(rt;
        server.store().number(),
        2 + u64::from(kept),
        "call {calls}"
    );
    let reply = if kept { ALREADY } else { COMMITTED };
    answers(rt, alloc, &mut server, THIRD, reply)
}

#[test]
fn the_first_commit_on_it_is_kept_or_lost(rt: HostRuntime) -> Result<(), Fail> {
    let alloc = rt.alloc();
    for calls in 1..12 {
        for pick in [Pick::Old, Pick::New, Pick::Fill(165)] {
            let disk = MemDisk::of(alloc, OLD.to_vec(alloc)?)?;
            stops_in_the_first_commit(&rt, alloc, disk, calls, pick)?;
        }
    }
    Ok(())
}

#[test]
fn after_it_the_disk_is_of_version_2(rt: HostRuntime) -> Result<(), Fail> {
    let alloc = rt.alloc();
    let mut server = started(alloc, MemDisk::of(alloc, OLD.to_vec(alloc)?)?)?;
    answers(&rt, alloc, &mut server, THIRD, COMMITTED)?;
    let disk = server.into_disks().0;
    // Cell 1 is in force, and names the end of the old disk.
    assert_eq!(rt;
        &disk.bytes()[26..43],
        b"\xa5\0\0\0\0\0\0\0\x02\x80\0\0\0\0\0\x01\x3e".as_slice()
    );
    assert_eq!(rt; started(alloc, disk)?.store().number(), 3);
    Ok(())
}

#[test]
fn an_upgrade_keeps_the_state_and_the_count(rt: HostRuntime) -> Result<(), Fail> {
    let alloc = rt.alloc();
    for image in [OLD, UPGRADED] {
        let upgraded = Store::<MemDisk>::upgrade(alloc, image)?;
        assert_eq!(rt; upgraded.as_slice(), UPGRADED);
    }
    let cut = Store::<MemDisk>::upgrade(alloc, &OLD[..317]);
    assert!(rt; matches!(cut, Err(ImageFault::Damaged { at: 178 })));
    Ok(())
}

/// The number of commits of a server that starts from this disk.
fn commits_on<D: Disk + Drop>(alloc: Global, disk: D) -> Result<u64, StartFault> {
    let server = started(alloc, disk)?;
    Ok(server.store().number())
}

#[test]
fn version_1_knows_no_modes(rt: HostRuntime) -> Result<(), Fail> {
    let alloc = rt.alloc();
    for (mark, want) in [(0x80, Ok(1)), (0, Err(StartFault::Damaged { at: 100 }))] {
        let mut bytes = ASKS_A_MODE;
        bytes[18] = mark;
        let disk = MemDisk::of(alloc, bytes.to_vec(alloc)?)?;
        assert_eq!(rt; commits_on(alloc, disk), want);
    }
    Ok(())
}

/// The number of records of a client that starts from this disk.
fn records_on<D: Disk + Drop>(alloc: Global, disk: D) -> Result<u64, StartFault> {
    let client = client_on(alloc, disk)?;
    Ok(client.records())
}

#[test]
fn a_client_has_version_2_alone(rt: HostRuntime) -> Result<(), Fail> {
    let alloc = rt.alloc();
    // A disk from before has another header; and no cell with this one is of version 1.
    for (at, byte, want) in [
        (18, 0x80, Ok(0)),
        (8, b'1', Err(StartFault::Foreign)),
        (18, 0, Err(StartFault::Damaged { at: 43 })),
    ] {
        let mut bytes = recorded(alloc, &[], None)?;
        if let Some(old) = bytes.get_mut(at) {
            *old = byte;
        }
        assert_eq!(rt; records_on(alloc, MemDisk::of(alloc, bytes)?), want);
    }
    Ok(())
}
