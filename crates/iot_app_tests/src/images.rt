//! What a client finds on the disk that a run leaves, and on that disk after a checkpoint, if it is cut off or damaged.
ghost use Rattle.std.specs.Prelude.{OnOk};
ghost use Rattle.iot_slots.specs.Slots.{IsSynced};

use crate::fixtures::{NONE, ran};
use iot_client::{Client, StartFault};
use iot_disk::{Disk, JournalFault, MemDisk};
use iot_slots::Slots;
use std::alloc::Global;
use std::process::Abort;
use std::test::Fail;

/// A laptop that loses messages, whose transactions conflict and are resolved and repaired, and that crashes while one runs.
const WEEK: &[u8] = b"client laptop\nclient desk\n\
    script init {\nmkdir /d\nwrite /d/n 1\n}\n\
    script next {\nappend /d/n x\n}\n\
    script other {\nappend /d/n y\n}\n\
    script merge {\nkeep /d/n /d/m\n}\n\
    run laptop init abort\nhoard desk /d\ndisconnect laptop\n\
    run laptop next resolver merge\nrun laptop next manual\nrun desk other abort\n\
    connect laptop\nlose laptop reply\nsync laptop\n\
    connect laptop\nsync laptop\nsync laptop\nsync laptop\nsync laptop\n\
    repair laptop merge\nsync laptop\nlose laptop request\nsync laptop\nconnect laptop\nsync laptop\n\
    begin laptop next reexec\nstep laptop\ncrash laptop\nrestart laptop\n";

/// How many records the laptop has then: of the first transaction 7 with what it brought, of the two that wait 3 each, of what becomes of
/// them 7, of the last one 4.
const RECORDS: u64 = 24;

/// The body of a later checkpoint. The root alone is held, and is whole. Transaction 1 was of script `e`, which was run again and did
/// nothing; transaction 2 is of script `e`, runs on what is held, and has made `/d`.
const BODY: &[u8] = b"\0\0\0\0\0\0\0\x01\0\0\0\0\0\0\0\0\x01\
    \0\0\0\0\0\0\0\x01\
    \0\0\0\0\0\0\0\x01\0\0\0\0\0\0\0\x01e\0\0\0\0\0\0\x10\0\0\0\0\0\0\0\0\0\x01\x04\
    \0\0\0\0\0\0\0\x01e\0\0\0\0\0\0\x10\0\0\0\0\0\0\0\0\0\0\0\0\0\0\0\0\0\
    \0\0\0\0\0\0\0\0\0\0\0\0\0\0\0\0\
    \0\0\0\0\0\0\0\x01\0\0\0\0\0\0\0\x02\0\0\0\0\0\0\0\x01e\x03\
    \0\0\0\0\0\0\0\x01\0\0\0\0\0\0\0\0\x01\0\0\0\0\0\0\0\x01\
    \0\0\0\0\0\0\0\x02\x01\0\0\0\0\0\0\0\x01\0\0\0\0\0\0\0\x01d\x02\
    \x01\0\0\0\0\0\0\0\0\x03\x02\0\0\0\0\0\0\0\x01\0\0\0\0\0\0\0\x01d\0\0\0\0\0\0\0\0\
    \0\0\0\0\0\0\0\x02";

/// The bytes of a disk, and where some parts of it are: the gate of the cell in force, its checkpoint, and the gate behind that.
#[derive(Drop)]
struct Image {
    bytes: Vec<u8>,
    cell: u64,
    place: u64,
    first: u64,

    /// How many records were ever appended.
    records: u64,
}

/// What the laptop's disk has after the week.
fn week(alloc: Global) -> Result<Image, Fail> {
    let (ended, _) = ran(alloc, WEEK, &[], NONE)?;
    let mut disks = ended.disks.into_iter();
    let _server = disks.next();
    let disk = disks.next().ok_or("a disk")?;
    Ok(Image {
        bytes: Vec::from_slice(alloc, disk.bytes())?,
        cell: 9,
        place: 43,
        first: 100,
        records: RECORDS,
    })
}

/// Appends a record for which there is room.
fn append<D: Disk>(slots: &mut Slots<D>, body: &[u8]) -> Result<(), JournalFault>
    requires { IsSynced D.medium slots.old }
    ensures { OnOk result (IsSynced D.medium slots.new) }
{
    if slots.due(body.len() as u64) {
        return Err(JournalFault::Stopped);
    }
    slots.append(body)
}

/// Makes a checkpoint. Then the first transaction that waits leaves, and the one that runs ends.
fn renew<D: Disk>(slots: &mut Slots<D>) -> Result<(), JournalFault>
    requires { IsSynced D.medium slots.old }
{
    slots.checkpoint(BODY)?;
    append(slots, b"\x0a")?;
    append(slots, b"\x05\0\0\0\0\0\0\0\x02")
}

/// What it has after a checkpoint and two more records.
fn renewed(alloc: Global) -> Result<Image, Fail> {
    let bytes = week(alloc)?.bytes;
    let place = bytes.len() as u64;
    let mut disk = MemDisk::of(alloc, bytes)?;
    disk.restart();
    let Ok((mut slots, _)) = Slots::start(alloc, disk, *b"IOTSLOT2") else {
        return Err(Fail::new("no slots"));
    };
    renew(&mut slots)?;
    Ok(Image {
        bytes: Vec::from_slice(alloc, slots.into_disk().bytes())?,
        cell: 26,
        place,
        first: place.wrapping_add(16).wrapping_add(BODY.len() as u64),
        records: RECORDS + 2,
    })
}

/// The number of records that the client finds that starts from these bytes.
fn started(alloc: Global, bytes: Vec<u8>) -> Result<u64, StartFault> {
    let mut disk = MemDisk::of(alloc, bytes)?;
    disk.restart();
    match Client::start(alloc, disk, 0) {
        Ok(client) => Ok(client.records()),
        Err((_, fault)) => Err(fault),
    }
}

/// Where the record at this gate ends, of at most 65,535 bytes: at the next gate. The last gate is closed, and ends the bytes. 0 for any
/// other place.
fn next_gate(bytes: &[u8], gate: u64) -> u64 {
    let high = bytes.get(gate.wrapping_add(7) as usize);
    let low = bytes.get(gate.wrapping_add(8) as usize);
    match (bytes.get(gate as usize), high, low) {
        (Some(165), Some(high), Some(low)) => {
            let size = u64::from(*high) * 256 + u64::from(*low);
            gate.wrapping_add(9).wrapping_add(size)
        }
        (Some(0), None, None) => bytes.len() as u64,
        _ => 0,
    }
}

/// Where the part ends that is damaged at this place: the checkpoint, if this is its own place or that of its cell, or a record behind it.
/// 0 for any other place.
fn end_of(image: &Image, at: u64) -> u64 {
    if at == image.cell || at == image.place {
        image.first
    } else if at < image.first {
        0
    } else {
        next_gate(&image.bytes, at)
    }
}

/// Each front of the bytes is named by the first part that it cuts off. One that ends in the cells was never started.
fn names_each_cut(rt: &impl Abort, alloc: Global, image: &Image) -> Result<(), Fail> {
    let whole = Vec::from_slice(alloc, image.bytes.as_slice())?;
    assert_eq!(rt; started(alloc, whole), Ok(image.records));
    for size in 0..image.bytes.len() {
        let cut = Vec::from_slice(alloc, &image.bytes[..size])?;
        match started(alloc, cut) {
            Ok(records) => assert!(rt; size < 43 && records == 0),
            Err(StartFault::Damaged { at }) => {
                let end = end_of(image, at);
                assert!(rt; size >= 43 && (at < size as u64 && size as u64 <= end));
            }
            Err(fault) => return Err(Fail::from(fault)),
        }
    }
    Ok(())
}

#[test]
fn each_cut_is_named(rt: HostRuntime) -> Result<(), Fail> {
    let alloc = rt.alloc();
    names_each_cut(&rt, alloc, &week(alloc)?)?;
    names_each_cut(&rt, alloc, &renewed(alloc)?)
}

/// The number of records that the client finds if this byte is damaged: a closed gate is open then, and an open one is closed.
fn damaged(alloc: Global, image: &Image, place: usize) -> Result<u64, StartFault> {
    let mut bytes = Vec::from_slice(alloc, image.bytes.as_slice())?;
    if let Some(byte) = bytes.get_mut(place) {
        *byte ^= 165;
    }
    started(alloc, bytes)
}

/// Each damaged byte from the checkpoint on is named by its part, or by a later one that cannot follow, or makes other parts. The number
/// of bytes of the body always is.
fn names_each_damage(rt: &impl Abort, alloc: Global, image: &Image) -> Result<(), Fail> {
    for place in image.place as usize..image.bytes.len() {
        match damaged(alloc, image, place) {
            Ok(_) => assert!(rt; place as u64 >= image.place.wrapping_add(8)),
            Err(StartFault::Damaged { at }) => {
                let end = end_of(image, at);
                assert!(rt; (place as u64) < end);
            }
            Err(fault) => return Err(Fail::from(fault)),
        }
    }
    Ok(())
}

#[test]
fn each_damaged_byte_is_named(rt: HostRuntime) -> Result<(), Fail> {
    let alloc = rt.alloc();
    let image = week(alloc)?;
    for place in 0..43 {
        let found = match place {
            // The disk or its only cell is closed.
            0 | 9 => Ok(0),
            1..=8 => Err(StartFault::Foreign),
            // No checkpoint is at the place that the cell names.
            18..=25 => Err(StartFault::Damaged { at: 9 }),
            // An only cell may have any generation. The other one is closed, or is open with the generation before.
            _ => Ok(RECORDS),
        };
        assert_eq!(rt; damaged(alloc, &image, place), found, "byte {place}");
    }
    names_each_damage(&rt, alloc, &image)
}

#[test]
fn each_damaged_byte_after_a_checkpoint_is_named(rt: HostRuntime) -> Result<(), Fail> {
    let alloc = rt.alloc();
    let image = renewed(alloc)?;
    for place in 0..image.place as usize {
        let found = match place {
            0 => Ok(0),
            1..=8 => Err(StartFault::Foreign),
            // Neither generation is the one after the other, or no checkpoint is at the place that the cell names.
            10..=17 | 27..=41 => Err(StartFault::Damaged { at: 26 }),
            // It names a place in the checkpoint, where a part of the body reads as a checkpoint whose body spells nothing.
            42 => Err(StartFault::Damaged {
                at: image.place ^ 165,
            }),
            // The cell in force is closed, and what was there before the checkpoint counts again.
            26 => Ok(RECORDS),
            _ => Ok(image.records),
        };
        assert_eq!(rt; damaged(alloc, &image, place), found, "byte {place}");
    }
    names_each_damage(&rt, alloc, &image)
}
