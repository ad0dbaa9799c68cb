//! The program: `go_on` with the journal in a folder, standard input and output, and ten disks in memory.
//!
//! It takes one word, the folder, and makes it if it is not there. Besides the statuses of `go_on` it ends with 2 if it is given no word
//! or more than one, with 7 if something else has written the journal's file, and with 9 if the journal cannot be opened, or another process
//! has it.
#![tactic(auto)]

ghost use Rattle.std.specs.Prelude.{IfOk};
ghost use Rattle.iot_disk.specs.Disk.{Only};
ghost use Rattle.iot_file.specs.FileDisk.{reads_of, images_of};

use iot_app::empty_disks;
use iot_disk::MemDisk;
use iot_file::{FileDisk, OpenFault, open};
use iot_history::go_on;
use iot_io::{StdSink, StdSource};
use iot_journal::Journal;
use std::alloc::{AllocError, Global};
use std::io::ErrorKind;
use std::path::Path;
use std::process::ExitCode;
use std::{env, fs};

/// The name of the journal in its folder.
const JOURNAL: &str = "events.journal";

/// What a process ends with that was not given the name of one folder.
const USAGE: u8 = 2;

/// What a process ends with that has no memory for its words or its disks.
const NO_MEMORY: u8 = 5;

/// What a process ends with whose journal is a file of something else.
const FOREIGN: u8 = 7;

/// What a process ends with whose journal cannot be opened, or is in use.
const NO_FILE: u8 = 9;

fn main(rt: HostRuntime) -> ExitCode {
    ExitCode::from(start(&rt).unwrap_or(NO_MEMORY))
}

/// Opens the journal, and goes on from it.
fn start(rt: &HostRuntime) -> Result<u8, AllocError> {
    let Some(folder) = folder(rt)? else {
        return Ok(USAGE);
    };
    let disk = match open_in(rt, &folder) {
        Ok(disk) => disk,
        Err(OpenFault::NoMemory) => return Ok(NO_MEMORY),
        Err(OpenFault::Foreign) => return Ok(FOREIGN),
        Err(_) => return Ok(NO_FILE),
    };
    let disks = match empty_disks(rt.alloc()) {
        Ok(disks) => disks,
        Err(_) => return Ok(NO_MEMORY),
    };
    let mut source = StdSource::new(rt.stdin());
    let mut sink = StdSink::new(rt.stdout());
    Ok(go_on(rt.alloc(), &mut source, &mut sink, disk, disks).status)
}

/// The word after the program's name, if it is the only one.
fn folder(rt: &HostRuntime) -> Result<Option<String>, AllocError> {
    let mut words = match env::args(rt) {
        Ok(words) => words.skip(1),
        Err(error) if error.kind() == ErrorKind::OutOfMemory => return Err(AllocError),
        Err(_) => return Ok(None),
    };
    match (words.next(), words.next()) {
        (Some(folder), None) => Ok(Some(folder)),
        _ => Ok(None),
    }
}

/// Opens the journal in a folder, and makes both if they are not there.
fn open_in(rt: &HostRuntime, folder: &str) -> Result<FileDisk, OpenFault>
    ensures { IfOk result (λ disk. Only (reads_of disk) (images_of disk)) }
{
    match fs::create_dir(rt, folder) {
        Ok(()) => (),
        Err(error) if error.kind() == ErrorKind::AlreadyExists => (),
        Err(error) => return Err(OpenFault::Io(error)),
    }
    let path = Path::new(folder).join(rt.alloc(), JOURNAL)?;
    let first = first(rt.alloc())?;
    open(rt, path.as_str(), first.bytes())
}

/// The disk of a journal that was just started, by which a file is told that something else has written.
fn first(alloc: Global) -> Result<MemDisk, AllocError> {
    match Journal::start(alloc, MemDisk::new(alloc)) {
        Ok((journal, _)) => Ok(journal.into_disk()),
        Err(_) => Err(AllocError),
    }
}
