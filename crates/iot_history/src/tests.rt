//! Runs that go on, on a source, a sink and disks in memory.
use crate::{Outcome, go_on};
use iot_app::empty_disks;
use iot_disk::{MemDisk, Pick};
use iot_io::{MemSink, MemSource};
use iot_text::NoMemory;
use std::alloc::{AllocError, Global};
use std::process::Abort;
use std::test::Fail;

/// The input of a first day.
const TODAY: &[u8] = b"client laptop\nscript init {\nmkdir /src\n}\nrun laptop init abort\n";

/// That of a second day, which may also be the first.
const TOMORROW: &[u8] = b"client desk\nshow server\n";

/// What both say: the opening, and then each event.
const PIECES: [&[u8]; 6] = [
    b"",
    b"client laptop\n",
    b"",
    b"end laptop.1\ncommit 1 laptop.1 certified\nsettled laptop.1 1\n",
    b"client desk\n",
    b"dir /\ndir /src\n",
];

/// What the second says alone.
const ALONE: &[u8] = b"client desk\ndir /\n";

/// The journal of an input that declares a client, after both of its pieces were said.
const MARKED: &[u8] =
    b"\xa5IOTJRNL1\xa5\0\0\0\0\0\0\0\x0eclient laptop\n\xa5\0\0\0\0\0\0\0\0\xa5\0\0\0\0\0\0\0\0\0";

/// Three marks, and no input.
const MARKED_ALONE: &[u8] =
    b"\xa5IOTJRNL1\xa5\0\0\0\0\0\0\0\0\xa5\0\0\0\0\0\0\0\0\xa5\0\0\0\0\0\0\0\0\0";

/// An input that is no event script.
const NO_SCRIPT: &[u8] = b"\xa5IOTJRNL1\xa5\0\0\0\0\0\0\0\x07client\n\0";

/// The disk of a server.
const FOREIGN: &[u8] = b"\xa5IOTSLOT1\0";

/// A run: which call of the source and which of the sink fails, for how many bytes the sink has room, and which call of the journal's
/// disk fails. There is no call 0.
#[derive(Clone, Copy)]
struct Run<'a> {
    input: &'a [u8],
    read: u64,
    write: u64,
    room: usize,
    device: u64,
    pick: Pick,
}

/// A run on this input in which nothing fails.
fn plain(input: &[u8]) -> Run<'_> {
    Run {
        input,
        read: 0,
        write: 0,
        room: 4096,
        device: 0,
        pick: Pick::Old,
    }
}

/// These pieces, one after another, but for the one at this place.
fn joined_without(alloc: Global, pieces: &[&[u8]], lost: usize) -> Result<Vec<u8>, NoMemory> {
    let mut bytes = Vec::new(alloc);
    for (place, &piece) in pieces.iter().enumerate() {
        if place != lost {
            bytes.extend_from_slice(piece)?;
        }
    }
    Ok(bytes)
}

/// All pieces, one after another.
fn joined(alloc: Global, pieces: &[&[u8]]) -> Result<Vec<u8>, NoMemory> {
    joined_without(alloc, pieces, pieces.len())
}

/// Whether these are the bytes of all pieces, or of all but one.
fn lacks_one_at_most(alloc: Global, bytes: &[u8], pieces: &[&[u8]]) -> Result<bool, NoMemory> {
    for lost in 0..=pieces.len() {
        if joined_without(alloc, pieces, lost)?.as_slice() == bytes {
            return Ok(true);
        }
    }
    Ok(false)
}

/// How a run from this disk ends, after a restart of it, and what it writes after what was written before.
fn ran(
    alloc: Global,
    mut disk: MemDisk,
    run: Run<'_>,
    told: &mut Vec<u8>,
) -> Result<Outcome<MemDisk>, NoMemory> {
    disk.restart();
    disk.arm(run.device, run.pick);
    let reads = Vec::from_slice(alloc, &[run.read])?;
    let mut source = MemSource::new(Vec::from_slice(alloc, run.input)?, reads);
    let writes = Vec::from_slice(alloc, &[run.write])?;
    let mut sink = MemSink::new(alloc, run.room, writes, Vec::new(alloc))?;
    let disks = empty_disks(alloc)?;
    let ended = go_on(alloc, &mut source, &mut sink, disk, disks);
    told.extend_from_slice(sink.written())?;
    Ok(ended)
}

/// A run from this disk ends with this status. Gives the journal's disk.
fn ends(
    rt: &impl Abort,
    alloc: Global,
    disk: MemDisk,
    run: Run<'_>,
    status: u8,
    told: &mut Vec<u8>,
) -> Result<MemDisk, Fail> {
    let ended = ran(alloc, disk, run, told)?;
    let device = run.device;
    assert_eq!(rt; ended.status, status, "device call {device}");
    Ok(ended.disk)
}

/// All pieces were told, but for the one at this place.
fn tells_without(
    rt: &impl Abort,
    alloc: Global,
    told: &[u8],
    pieces: &[&[u8]],
    lost: usize,
) -> Result<(), Fail> {
    let whole = joined_without(alloc, pieces, lost)?;
    assert_eq!(rt; told, whole.as_slice());
    Ok(())
}

/// All pieces were told.
fn tells(rt: &impl Abort, alloc: Global, told: &[u8], pieces: &[&[u8]]) -> Result<(), Fail> {
    tells_without(rt, alloc, told, pieces, pieces.len())
}

/// A disk that reads as these bytes.
fn disk_of(alloc: Global, bytes: &[u8]) -> Result<MemDisk, AllocError> {
    MemDisk::of(alloc, Vec::from_slice(alloc, bytes)?)
}

/// This call of the sink fails, before which these pieces were told. The piece at this place is lost by that.
fn loses(
    rt: &impl Abort,
    alloc: Global,
    input: &[u8],
    write: u64,
    before: &[&[u8]],
    lost: usize,
) -> Result<(), Fail> {
    let mut told = Vec::new(alloc);
    let mut run = plain(input);
    run.write = write;
    let disk = ends(rt, alloc, MemDisk::new(alloc), run, 4, &mut told)?;
    tells(rt, alloc, &told, before)?;
    ends(rt, alloc, disk, plain(b""), 0, &mut told)?;
    tells_without(rt, alloc, &told, &PIECES, lost)
}

#[test]
fn a_piece_whose_write_failed_is_the_one_that_lacks(rt: HostRuntime) -> Result<(), Fail> {
    let alloc = rt.alloc();
    let both = joined(alloc, &[TODAY, TOMORROW])?;
    for (write, lost) in [(1, 1), (2, 3), (3, 4), (4, 5)] {
        loses(&rt, alloc, &both, write, &PIECES[..lost], lost)?;
    }
    Ok(())
}

#[test]
fn a_piece_that_is_cut_is_not_said_again(rt: HostRuntime) -> Result<(), Fail> {
    let alloc = rt.alloc();
    let mut told = Vec::new(alloc);
    let mut run = plain(TODAY);
    run.room = 17;
    let disk = ends(&rt, alloc, MemDisk::new(alloc), run, 4, &mut told)?;
    ends(&rt, alloc, disk, plain(TOMORROW), 0, &mut told)?;
    assert_eq!(rt;
        told.as_slice(),
        b"client laptop\nendclient desk\ndir /\ndir /src\n".as_slice()
    );
    Ok(())
}

/// The first run fails at this call of its journal's disk. Its input is lost, or one piece at most.
fn loses_one_at_most(rt: &impl Abort, alloc: Global, device: u64, pick: Pick) -> Result<(), Fail> {
    let mut told = Vec::new(alloc);
    let mut run = plain(TODAY);
    run.device = device;
    run.pick = pick;
    let disk = ends(rt, alloc, MemDisk::new(alloc), run, 6, &mut told)?;
    ends(rt, alloc, disk, plain(TOMORROW), 0, &mut told)?;
    let lacks = lacks_one_at_most(alloc, &told, &PIECES)?;
    assert!(rt; lacks || told.as_slice() == ALONE, "at {device}");
    Ok(())
}

#[test]
fn each_failure_of_the_journal_loses_one_piece_at_most(rt: HostRuntime) -> Result<(), Fail> {
    for device in 1..=20 {
        for pick in [Pick::Old, Pick::New] {
            loses_one_at_most(&rt, rt.alloc(), device, pick)?;
        }
    }
    Ok(())
}

#[test]
fn a_refused_input_leaves_the_journal_as_it_was(rt: HostRuntime) -> Result<(), Fail> {
    let alloc = rt.alloc();
    let mut told = Vec::new(alloc);
    let disk = ends(&rt, alloc, MemDisk::new(alloc), plain(TODAY), 0, &mut told)?;
    let bytes = Vec::from_slice(alloc, disk.bytes())?;
    told.clear();
    let twice = plain(b"client desk\nclient laptop\n");
    let disk = ends(&rt, alloc, disk, twice, 1, &mut told)?;
    assert_eq!(rt; told.as_slice(), b"line 2: named twice\n".as_slice());
    assert_eq!(rt; disk.bytes(), bytes.as_slice());
    Ok(())
}

#[test]
fn a_read_that_failed_leaves_the_journal_as_it_was(rt: HostRuntime) -> Result<(), Fail> {
    let alloc = rt.alloc();
    let mut told = Vec::new(alloc);
    let mut run = plain(TOMORROW);
    run.read = 1;
    let disk = ends(&rt, alloc, disk_of(alloc, MARKED)?, run, 3, &mut told)?;
    assert!(rt; told.is_empty());
    assert_eq!(rt; disk.bytes(), MARKED);
    Ok(())
}

#[test]
fn a_run_records_its_input_and_marks_its_pieces(rt: HostRuntime) -> Result<(), Fail> {
    let alloc = rt.alloc();
    let mut told = Vec::new(alloc);
    let run = plain(b"client laptop");
    let disk = ends(&rt, alloc, MemDisk::new(alloc), run, 0, &mut told)?;
    assert_eq!(rt; disk.bytes(), MARKED);
    Ok(())
}

#[test]
fn more_marks_than_pieces_are_no_fault(rt: HostRuntime) -> Result<(), Fail> {
    let alloc = rt.alloc();
    let mut told = Vec::new(alloc);
    let run = plain(b"client laptop");
    ends(&rt, alloc, disk_of(alloc, MARKED_ALONE)?, run, 0, &mut told)?;
    assert!(rt; told.is_empty());
    Ok(())
}

#[test]
fn a_disk_without_inputs_is_refused(rt: HostRuntime) -> Result<(), Fail> {
    let alloc = rt.alloc();
    for (bytes, status) in [(NO_SCRIPT, 8), (FOREIGN, 7)] {
        let mut told = Vec::new(alloc);
        let disk = ends(
            &rt,
            alloc,
            disk_of(alloc, bytes)?,
            plain(TODAY),
            status,
            &mut told,
        )?;
        assert!(rt; told.is_empty());
        assert_eq!(rt; disk.bytes(), bytes);
    }
    Ok(())
}
