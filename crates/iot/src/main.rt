//! The program: `run` on the words of the command line, standard input and output, and ten disks in memory.
#![tactic(auto)]

use iot_app::{empty_disks, run};
use iot_io::{StdSink, StdSource};
use std::alloc::{Alloc, AllocError, Global};
use std::env::{self, Env};
use std::io::ErrorKind;
use std::process::ExitCode;

/// Stands for a word that is no text, which no command line takes.
const NO_TEXT: &str = "\u{fffd}";

/// What a process ends with that has no memory for its words or its disks.
const NO_MEMORY: u8 = 5;

fn main(rt: HostRuntime) -> ExitCode {
    let alloc = rt.alloc();
    let mut source = StdSource::new(rt.stdin());
    let mut sink = StdSink::new(rt.stdout());
    let status = match words(&rt) {
        Ok(words) => start(alloc, &words, &mut source, &mut sink).unwrap_or(NO_MEMORY),
        Err(AllocError) => NO_MEMORY,
    };
    ExitCode::from(status)
}

/// The words after the program's name.
fn words<R: Env + Alloc<A = Global>>(rt: &R) -> Result<Vec<String>, AllocError> {
    let mut words = Vec::new(rt.alloc());
    match env::args(rt) {
        Ok(args) => {
            for word in args.skip(1) {
                words.push(word)?;
            }
        }
        Err(error) if error.kind() == ErrorKind::OutOfMemory => return Err(AllocError),
        Err(_) => words.push(String::from_str(rt.alloc(), NO_TEXT)?)?,
    }
    Ok(words)
}

/// Lends the words and the disks to the one call.
fn start(
    alloc: Global,
    words: &[String],
    source: &mut StdSource,
    sink: &mut StdSink,
) -> Result<u8, AllocError> {
    let mut lent = Vec::new(alloc);
    for word in words {
        lent.push(word.as_str())?;
    }
    let disks = empty_disks(alloc)?;
    Ok(run(alloc, &lent, source, sink, disks).status)
}
