//! The disk over a device whose calls fail.
ghost use Rattle.std.specs.Prelude.{◌≡◌, [], ◌∷◌};
ghost use Rattle.iot_noted.specs.Events.{Opened};

use crate::{Calls, Noted, Record};
use iot_disk::{Disk, DiskFault};
use std::alloc::Global;
use std::io;
use std::test::Fail;

/// A device of one's own: eight bytes, and the number of the call that fails, counted from the next one on.
#[derive(Drop)]
struct Chip {
    cells: [u8; 8],
    failing: u64,
    log: Record,
}

impl Chip {
    /// A device that holds eight dots.
    fn new(failing: u64) -> Chip
        ensures { result.log.events ≡ Opened result.cells ∷ [] }
    {
        let cells = *b"........";
        let mut log = Record::new();
        log.note(&[0, 0], &cells);
        Chip {
            cells,
            failing,
            log,
        }
    }

    /// One more call, which may fail.
    fn call(&mut self) -> io::Result<()>
        ensures { self.new.log ≡ self.old.log }
    {
        let fails = self.failing == 1;
        self.failing = self.failing.saturating_sub(1);
        if fails {
            return Err(io::ErrorKind::Other.into());
        }
        Ok(())
    }
}

impl Calls for Chip {
    ghost history = { λ chip. chip.log.events };

    fn read(&mut self, at: u64, buf: &mut [u8]) -> io::Result<()> {
        let Some(cells) = self.cells.get(at as usize..) else {
            return Err(io::ErrorKind::UnexpectedEof.into());
        };
        if cells.len() < buf.len() {
            return Err(io::ErrorKind::UnexpectedEof.into());
        }
        buf.copy_from_slice(&cells[..buf.len()]);
        self.call()
    }

    fn write(&mut self, at: u64, bytes: &[u8]) -> io::Result<()> {
        self.log.note(&[1, at], bytes);
        let Some(cells) = self.cells.get_mut(at as usize..) else {
            return Err(io::ErrorKind::StorageFull.into());
        };
        if cells.len() < bytes.len() {
            return Err(io::ErrorKind::StorageFull.into());
        }

        // A write that fails is half done.
        let half = bytes.len() / 2;
        cells[..half].copy_from_slice(&bytes[..half]);
        self.call()?;
        self.cells[at as usize..at as usize + bytes.len()].copy_from_slice(bytes);
        Ok(())
    }

    fn sync(&mut self) -> io::Result<()> {
        self.call()?;
        self.log.note(&[2, 0], &[]);
        Ok(())
    }
}

/// A disk over a device of which the call with this number fails.
fn disk(alloc: Global, failing: u64) -> Result<Noted<Chip>, Fail> {
    let chip = Chip::new(failing);
    let bytes = chip.cells.to_vec(alloc)?;
    Ok(Noted::new(chip, bytes))
}

/// Reads all bytes of the device, which are to be those of the disk.
fn eight(disk: &mut Noted<Chip>) -> Result<[u8; 8], DiskFault> {
    if disk.len() != 8 {
        return Err(DiskFault::Failed);
    }
    let mut found = [0; 8];
    disk.read_at(0, &mut found)?;
    Ok(found)
}

#[test]
fn a_restart_writes_again_what_was_half_written(rt: HostRuntime) -> Result<(), Fail> {
    let mut disk = disk(rt.alloc(), 3)?;
    disk.write_at(0, b"ab")?;
    disk.sync()?;
    assert!(rt; matches!(disk.write_at(1, b"BCDE"), Err(DiskFault::Failed)));
    assert!(rt; matches!(eight(&mut disk), Err(DiskFault::Failed)));
    disk.restart();
    assert_eq!(rt; eight(&mut disk)?, *b"aBCDE...");
    Ok(())
}

#[test]
fn no_restart_helps_after_a_sync_that_failed(rt: HostRuntime) -> Result<(), Fail> {
    let mut disk = disk(rt.alloc(), 2)?;
    disk.write_at(0, b"ab")?;
    assert!(rt; matches!(disk.sync(), Err(DiskFault::Failed)));
    disk.restart();
    assert!(rt; matches!(eight(&mut disk), Err(DiskFault::Failed)));
    assert!(rt; matches!(disk.write_at(0, b"ab"), Err(DiskFault::Failed)));
    assert!(rt; matches!(disk.sync(), Err(DiskFault::Failed)));
    Ok(())
}

#[test]
fn no_restart_helps_after_one_that_failed(rt: HostRuntime) -> Result<(), Fail> {
    let mut disk = disk(rt.alloc(), 1)?;
    disk.restart();
    disk.restart();
    assert!(rt; matches!(eight(&mut disk), Err(DiskFault::Failed)));
    Ok(())
}
