//! Whole runs on real files, but for the words, standard input and output.
use crate::keep;
use iot_file::open;
use iot_io::{MemSink, MemSource};
use std::alloc::Alloc;
use std::fs;
use std::test::Fail;

const FOLDER: &str = "iot_keep_test";

const PATH: &str = "iot_keep_test/a.disk";

/// The frame in which client 0 asks that its transaction 1 be committed, which has read and changed nothing.
const COMMIT: &[u8] = b"\0\0\0\0\0\0\0\x43\
    \x02\0\0\0\0\0\0\0\0\0\0\0\0\0\0\0\x01\0\0\0\0\0\0\0\x01e\0\0\0\0\0\0\x10\0\x01\0\0\0\0\0\0\0\0\
    \0\0\0\0\0\0\0\0\0\0\0\0\0\0\0\0\0\0\0\0\0\0\0\0";

/// The frame of the reply to it.
const COMMITTED: &[u8] = b"\0\0\0\0\0\0\0\x09\x02\0\0\0\0\0\0\0\x01";

/// That of the reply if the transaction was committed before.
const ALREADY: &[u8] = b"\0\0\0\0\0\0\0\x09\x03\0\0\0\0\0\0\0\x01";

/// An empty folder.
fn clear(rt: &HostRuntime) -> Result<(), Fail> {
    let _ = fs::remove_dir_all(rt, FOLDER);
    fs::create_dir(rt, FOLDER)?;
    Ok(())
}

/// The status with which a run on this input ends, and what it writes.
fn kept(rt: &HostRuntime, input: &[u8]) -> Result<(u8, Vec<u8>), Fail> {
    let alloc = rt.alloc();
    let mut source = MemSource::new(Vec::from_slice(alloc, input)?, Vec::new(alloc));
    let mut sink = MemSink::new(alloc, 64, Vec::new(alloc), Vec::new(alloc))?;
    let status = match keep(rt, PATH, &mut source, &mut sink) {
        Ok(()) => 0,
        Err(fault) => fault.code(),
    };
    Ok((status, Vec::from_slice(alloc, sink.written())?))
}

/// The status of a run on a file with these bytes, which it leaves.
fn refused(rt: &HostRuntime, bytes: &[u8]) -> Result<u8, Fail> {
    fs::write(rt, PATH, bytes)?;
    let (status, told) = kept(rt, COMMIT)?;
    if !told.is_empty() || fs::read(rt, PATH)?.as_slice() != bytes {
        return Err(Fail::new("the file is not left as it was"));
    }
    Ok(status)
}

/// That of a run on a file with the first so many of these bytes.
fn cut(rt: &HostRuntime, bytes: &[u8], count: usize) -> Result<u8, Fail> {
    if count > bytes.len() {
        return Err(Fail::new("the file is too short"));
    }
    refused(rt, &bytes[..count])
}

#[test]
fn a_commit_is_there_in_the_next_run(rt: HostRuntime) -> Result<(), Fail> {
    clear(&rt)?;
    let (status, told) = kept(&rt, COMMIT)?;
    assert!(rt; status == 0 && told.as_slice() == COMMITTED);
    let (status, told) = kept(&rt, COMMIT)?;
    assert!(rt; status == 0 && told.as_slice() == ALREADY);
    fs::remove_dir_all(&rt, FOLDER)?;
    Ok(())
}

#[test]
fn a_file_in_use_is_left(rt: HostRuntime) -> Result<(), Fail> {
    clear(&rt)?;
    let disk = open(&rt, PATH, &[])?;
    let (status, told) = kept(&rt, COMMIT)?;
    assert!(rt; status == 2 && told.is_empty());
    drop(disk);
    let (status, told) = kept(&rt, COMMIT)?;
    assert!(rt; status == 0 && told.as_slice() == COMMITTED);
    fs::remove_dir_all(&rt, FOLDER)?;
    Ok(())
}

#[test]
fn a_file_that_is_foreign_damaged_or_cut_is_left(rt: HostRuntime) -> Result<(), Fail> {
    clear(&rt)?;
    kept(&rt, COMMIT)?;
    let mut whole = fs::read(&rt, PATH)?;
    assert_eq!(rt; whole.len(), 177);
    assert_eq!(rt; refused(&rt, b"a text")?, 3);
    assert_eq!(rt; cut(&rt, &whole, 50)?, 3);
    assert_eq!(rt; cut(&rt, &whole, 101)?, 4);
    assert_eq!(rt; cut(&rt, &whole, 176)?, 4);
    whole[67] = 5;
    assert_eq!(rt; refused(&rt, &whole)?, 4);
    fs::remove_dir_all(&rt, FOLDER)?;
    Ok(())
}
