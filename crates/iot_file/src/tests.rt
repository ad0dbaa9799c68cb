use crate::{FileDisk, OpenFault, open};
use iot_disk::{Disk, DiskFault, Pick};
use std::fs;
use std::os::unix::fs::symlink;
use std::test::Fail;

const FOLDER: &str = "iot_file_test";

const PATH: &str = "iot_file_test/a.disk";

/// An empty folder.
fn clear(rt: &HostRuntime) -> Result<(), Fail> {
    let _ = fs::remove_dir_all(rt, FOLDER);
    fs::create_dir(rt, FOLDER)?;
    Ok(())
}

/// The first four bytes of the disk, if it has so many.
fn four(disk: &mut FileDisk) -> Result<[u8; 4], DiskFault> {
    if disk.len() < 4 {
        return Err(DiskFault::Failed);
    }
    let mut found = [0; 4];
    disk.read_at(0, &mut found)?;
    Ok(found)
}

#[test]
fn what_was_written_is_there_again(rt: HostRuntime) -> Result<(), Fail> {
    clear(&rt)?;
    let mut disk = open(&rt, PATH, &[])?;
    assert_eq!(rt; disk.len(), 0);
    disk.write_at(0, b"abc")?;
    disk.sync()?;
    disk.write_at(3, b"d")?;
    assert_eq!(rt; four(&mut disk)?, *b"abcd");
    assert!(rt; matches!(open(&rt, PATH, &[]), Err(OpenFault::Busy)));
    drop(disk);
    let mut again = open(&rt, PATH, &[])?;
    assert_eq!(rt; again.len(), 4);
    assert_eq!(rt; four(&mut again)?, *b"abcd");
    drop(again);
    fs::remove_dir_all(&rt, FOLDER)?;
    Ok(())
}

#[test]
fn a_call_that_fails_ends_all_until_a_restart(rt: HostRuntime) -> Result<(), Fail> {
    clear(&rt)?;
    let mut disk = open(&rt, PATH, &[])?;
    disk.write_at(0, b"abcd")?;
    disk.sync()?;
    disk.arm(1, Pick::New);
    assert!(rt; matches!(disk.write_at(4, b"e"), Err(DiskFault::Failed)));
    assert!(rt; matches!(four(&mut disk), Err(DiskFault::Failed)));
    assert!(rt; matches!(disk.sync(), Err(DiskFault::Failed)));
    disk.restart();
    assert_eq!(rt; disk.len(), 4);
    assert_eq!(rt; four(&mut disk)?, *b"abcd");
    assert_eq!(rt; fs::read(&rt, PATH)?.as_slice(), b"abcd".as_slice());
    drop(disk);
    fs::remove_dir_all(&rt, FOLDER)?;
    Ok(())
}

#[test]
fn bytes_that_somebody_else_has_written_are_no_answer(rt: HostRuntime) -> Result<(), Fail> {
    clear(&rt)?;
    let mut disk = open(&rt, PATH, &[])?;
    disk.write_at(0, b"abcd")?;
    disk.sync()?;
    fs::write(&rt, PATH, b"abxd".as_slice())?;
    assert!(rt; matches!(four(&mut disk), Err(DiskFault::Failed)));
    disk.restart();
    assert_eq!(rt; four(&mut disk)?, *b"abcd");
    drop(disk);
    fs::remove_dir_all(&rt, FOLDER)?;
    Ok(())
}

#[test]
fn only_a_regular_file_with_one_name_is_a_disk(rt: HostRuntime) -> Result<(), Fail> {
    clear(&rt)?;
    assert!(rt; matches!(open(&rt, FOLDER, &[]), Err(OpenFault::Io(_))));
    fs::write(&rt, PATH, b"kept".as_slice())?;
    symlink(&rt, "a.disk", "iot_file_test/link")?;
    assert!(rt; matches!(open(&rt, "iot_file_test/link", &[]), Err(OpenFault::Io(_))));
    fs::hard_link(&rt, PATH, "iot_file_test/b.disk")?;
    assert!(rt; matches!(open(&rt, PATH, &[]), Err(OpenFault::Io(_))));
    fs::remove_file(&rt, "iot_file_test/b.disk")?;
    let mut disk = open(&rt, PATH, &[])?;
    assert_eq!(rt; four(&mut disk)?, *b"kept");
    drop(disk);
    fs::remove_dir_all(&rt, FOLDER)?;
    Ok(())
}

/// The bytes of a disk that a program has just started.
const FIRST: &[u8] = b"\xa5IOTJRNL1\0";

/// Whether a file with these bytes is taken as one of the program, and whether it still has them.
fn is_taken(rt: &HostRuntime, bytes: &[u8]) -> Result<(bool, bool), Fail> {
    fs::write(rt, PATH, bytes)?;
    let taken = match open(rt, PATH, FIRST) {
        Ok(_) => true,
        Err(OpenFault::Foreign) => false,
        Err(fault) => return Err(Fail::from(fault)),
    };
    Ok((taken, fs::read(rt, PATH)?.as_slice() == bytes))
}

#[test]
fn a_file_of_something_else_is_refused_and_left(rt: HostRuntime) -> Result<(), Fail> {
    clear(&rt)?;
    for bytes in [
        b"".as_slice(),
        b"\0",
        b"\0IOT",
        b"\0IOTJRNL1\0",
        b"\0\0\0\0\0\0\0\0\0\0",
        b"\0IO\0JRNL1",
        FIRST,
        b"\xa5IOTJRNL1\xa5and so on",
    ] {
        assert_eq!(rt; is_taken(&rt, bytes)?, (true, true));
    }
    for bytes in [
        b"a".as_slice(),
        b"IOTJRNL1",
        b"\xa5",
        b"\xa5IOTJRNL1",
        b"\xa5IOTJRNL2\0",
        b"\0IOTJRNL2",
        b"\0\0\0\0\0\0\0\0\0\0\0",
    ] {
        assert_eq!(rt; is_taken(&rt, bytes)?, (false, true));
    }
    fs::remove_dir_all(&rt, FOLDER)?;
    Ok(())
}
