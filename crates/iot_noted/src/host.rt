//! A file of the system. What is read here is trusted: each body makes the call that it notes.
ghost use Rattle.std.specs.Prelude.{◌≡◌, [], ◌∷◌};
ghost use Rattle.iot_noted.specs.Events.{Opened};

use crate::{Calls, Record};
use std::fs::File;
use std::io;
use std::os::unix::fs::FileExt;

/// A file of the system, with the record of what it was asked.
#[derive(Drop)]
pub struct Host {
    file: File,
    log: Record,
}

impl Host {
    ghost use Rattle.iot_noted.specs.Hosts.{asked};

    /// A file that was synced, with its name, and then read as these bytes.
    pub fn new(file: File, bytes: &[u8]) -> Host
        ensures { asked result ≡ Opened bytes.now ∷ [] }
    {
        let mut log = Record::new();
        log.note(&[0, 0], bytes);
        Host { file, log }
    }
}

impl Calls for Host {
    ghost use Rattle.iot_noted.specs.Hosts.{asked};

    ghost history = { asked };

    fn read(&mut self, at: u64, buf: &mut [u8]) -> io::Result<()> {
        self.file.read_exact_at(buf, at)
    }

    fn write(&mut self, at: u64, bytes: &[u8]) -> io::Result<()> {
        self.log.note(&[1, at], bytes);
        self.file.write_all_at(bytes, at)
    }

    fn sync(&mut self) -> io::Result<()> {
        self.file.sync_data()?;
        self.log.note(&[2, 0], &[]);
        Ok(())
    }
}
