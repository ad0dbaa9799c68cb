//! Whole runs of `serve`, on a source, a sink and a disk in memory.
use crate::{Outcome, ServeFault, serve};
use iot_disk::{MemDisk, Pick};
use iot_io::{MemSink, MemSource};
use std::alloc::{AllocError, Global};
use std::test::Fail;

/// The frame in which client 0 asks that its transaction 1 be committed, which made a directory at `/d`.
const COMMIT: &[u8] = b"\0\0\0\0\0\0\0\x82\
    \x02\0\0\0\0\0\0\0\0\0\0\0\0\0\0\0\x01\0\0\0\0\0\0\0\x01e\0\0\0\0\0\0\x10\0\x01\0\0\0\0\0\0\0\0\
    \0\0\0\0\0\0\0\x02\
    \x01\0\0\0\0\0\0\0\x01\0\0\0\0\0\0\0\x01d\x02\0\0\0\0\0\0\0\x01\
    \x01\0\0\0\0\0\0\0\0\x03\0\0\0\0\0\0\0\x02\
    \0\0\0\0\0\0\0\x01\x02\0\0\0\0\0\0\0\x01\0\0\0\0\0\0\0\x01d\0\0\0\0\0\0\0\0";

/// The frame of the reply to it.
const COMMITTED: &[u8] = b"\0\0\0\0\0\0\0\x09\x02\0\0\0\0\0\0\0\x01";

/// That of the reply if the transaction was committed before.
const ALREADY: &[u8] = b"\0\0\0\0\0\0\0\x09\x03\0\0\0\0\0\0\0\x01";

/// A frame that holds no request.
const BAD: &[u8] = b"\0\0\0\0\0\0\0\x01?";

const EMPTY: &[u8] = b"\0\0\0\0\0\0\0\0";

/// These pieces, one after another.
fn joined(alloc: Global, pieces: &[&[u8]]) -> Result<Vec<u8>, AllocError> {
    let mut bytes = Vec::new(alloc);
    for &piece in pieces {
        bytes.extend_from_slice(piece)?;
    }
    Ok(bytes)
}

/// How serving this input from the disk ends, after a restart of it, and what it writes to a sink with so much room. The device call with
/// this number fails; 0 is none.
fn served(
    alloc: Global,
    mut disk: MemDisk,
    call: u64,
    input: &[&[u8]],
    room: usize,
) -> Result<(Outcome<MemDisk>, Vec<u8>), AllocError> {
    disk.restart();
    disk.arm(call, Pick::Old);
    let mut source = MemSource::new(joined(alloc, input)?, Vec::new(alloc));
    let mut sink = MemSink::new(alloc, room, Vec::new(alloc), Vec::new(alloc))?;
    let ended = serve(alloc, disk, &mut source, &mut sink);
    Ok((ended, Vec::from_slice(alloc, sink.written())?))
}

#[test]
fn each_frame_has_its_answer(rt: HostRuntime) -> Result<(), Fail> {
    let alloc = rt.alloc();
    let (ended, told) = served(alloc, MemDisk::new(alloc), 0, &[COMMIT, BAD, COMMIT], 64)?;
    assert!(rt; ended.result.is_ok());
    assert!(rt; told == joined(alloc, &[COMMITTED, EMPTY, ALREADY])?);
    let (again, told) = served(alloc, ended.disk, 0, &[COMMIT], 64)?;
    assert!(rt; again.result.is_ok());
    assert_eq!(rt; told.as_slice(), ALREADY);
    Ok(())
}

#[test]
fn a_frame_that_is_not_whole_has_none(rt: HostRuntime) -> Result<(), Fail> {
    let alloc = rt.alloc();
    let (ended, told) = served(alloc, MemDisk::new(alloc), 0, &[COMMIT, b"\0\0\0"], 64)?;
    assert!(rt; matches!(ended.result, Err(ServeFault::Cut)));
    assert_eq!(rt; told.as_slice(), COMMITTED);
    let (ended, told) = served(alloc, ended.disk, 0, &[b"\0\0\0\0\xff\0\0\0", COMMIT], 64)?;
    assert!(rt; matches!(ended.result, Err(ServeFault::TooLong)));
    assert!(rt; told.is_empty());
    Ok(())
}

#[test]
fn a_reply_that_is_cut_is_to_a_commit_that_is_kept(rt: HostRuntime) -> Result<(), Fail> {
    let alloc = rt.alloc();
    let (ended, told) = served(alloc, MemDisk::new(alloc), 0, &[COMMIT], 5)?;
    assert!(rt; matches!(ended.result, Err(ServeFault::WriteFailed)));
    assert_eq!(rt; told.as_slice(), b"\0\0\0\0\0".as_slice());
    let (_, told) = served(alloc, ended.disk, 0, &[COMMIT], 64)?;
    assert_eq!(rt; told.as_slice(), ALREADY);
    Ok(())
}

#[test]
fn a_commit_that_is_answered_outlives_each_device_call(rt: HostRuntime) -> Result<(), Fail> {
    let alloc = rt.alloc();
    for call in 1..=16 {
        let (first, told) = served(alloc, MemDisk::new(alloc), call, &[COMMIT], 64)?;
        let (_, later) = served(alloc, first.disk, 0, &[COMMIT], 64)?;
        if told.is_empty() {
            assert!(rt; matches!(first.result, Err(ServeFault::Stopped)));
            assert!(rt; later.as_slice() == COMMITTED || later.as_slice() == ALREADY);
        } else {
            assert_eq!(rt; told.as_slice(), COMMITTED);
            assert_eq!(rt; later.as_slice(), ALREADY);
        }
    }
    Ok(())
}
