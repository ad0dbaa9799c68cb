//! The program: `serve` on the disk in a file, standard input and output.
#![tactic(auto)]

#[cfg(test)]
mod tests;

use iot_disk::MemDisk;
use iot_file::{OpenFault, open};
use iot_io::{Sink, Source, StdSink, StdSource};
use iot_keep_app::{ServeFault, serve};
use iot_server::Server;
use std::alloc::{Alloc, Global};
use std::env;
use std::process::ExitCode;
use thiserror::Error;

/// Why the program ends before its input does.
#[derive(Clone, Copy, Debug, Error)]
enum Fault {
    #[error("usage: iot_keep FILE")]
    Usage,
    #[error("{0}")]
    Open(OpenFault),
    #[error("{0}")]
    Serve(ServeFault),
}

impl Fault {
    /// The status of the process.
    fn code(self) -> u8 {
        match self {
            Fault::Usage => 1,
            Fault::Open(OpenFault::NoMemory) => 5,
            Fault::Open(OpenFault::Foreign) => 3,
            Fault::Open(_) => 2,
            Fault::Serve(fault) => fault.code(),
        }
    }
}

fn main(rt: HostRuntime) -> ExitCode {
    match run(&rt) {
        Ok(()) => ExitCode::from(0),
        Err(fault) => {
            let _ = eprintln!(rt; "iot_keep: {fault}");
            ExitCode::from(fault.code())
        }
    }
}

/// Serves from the file that the one word names.
fn run(rt: &HostRuntime) -> Result<(), Fault> {
    let path = path(rt)?;
    let mut source = StdSource::new(rt.stdin());
    let mut sink = StdSink::new(rt.stdout());
    keep(rt, path.as_str(), &mut source, &mut sink)
}

/// Serves from the file at this path.
fn keep<S: Source, K: Sink>(
    rt: &HostRuntime,
    path: &str,
    source: &mut S,
    sink: &mut K,
) -> Result<(), Fault> {
    let first = first(rt.alloc())?;
    let disk = match open(rt, path, first.bytes()) {
        Ok(disk) => disk,
        Err(fault) => return Err(Fault::Open(fault)),
    };
    match serve(rt.alloc(), disk, source, sink).result {
        Ok(()) => Ok(()),
        Err(fault) => Err(Fault::Serve(fault)),
    }
}

/// The disk of a server that was just started, by which a file is told that something else has written.
fn first(alloc: Global) -> Result<MemDisk, Fault> {
    match Server::start(alloc, MemDisk::new(alloc)) {
        Ok(server) => Ok(server.into_disks().0),
        Err(_) => Err(Fault::Serve(ServeFault::NoMemory)),
    }
}

/// The one word after the program's name.
fn path(rt: &HostRuntime) -> Result<String, Fault> {
    let Ok(args) = env::args(rt) else {
        return Err(Fault::Usage);
    };
    let mut words = args.skip(1);
    match (words.next(), words.next()) {
        (Some(path), None) => Ok(path),
        _ => Err(Fault::Usage),
    }
}
