//! Runs on sources, sinks and disks that fail, and what is found on the disks after one.
ghost use Rattle.std.specs.Prelude.{IfOk};
ghost use Rattle.iot_app.specs.Disks.{AreEmptyDisks};
ghost use Rattle.iot_disk.specs.Disk.{Only};
ghost use Rattle.iot_disk.specs.Memory.{images_of};

use iot_app::{Outcome, empty_disks, run};
use iot_client::Client;
use iot_disk::{Disk, MemDisk, Pick};
use iot_io::{MemSink, MemSource};
use iot_store::Store;
use iot_text::NoMemory;
use std::alloc::Global;
use std::process::Abort;
use std::test::Fail;

/// Which calls of a run's objects fail: of its source, of its sink and of its disk at this place the ones with these
/// numbers. There is no call 0.
#[derive(Clone, Copy)]
pub(crate) struct Failing {
    pub(crate) read: u64,
    pub(crate) write: u64,

    /// This call of the sink takes nothing.
    pub(crate) empty: u64,

    /// The sink takes nothing after so many bytes.
    pub(crate) room: usize,

    pub(crate) place: usize,
    pub(crate) device: u64,
    pub(crate) pick: Pick,
}

/// None fails.
pub(crate) const NONE: Failing = Failing {
    read: 0,
    write: 0,
    empty: 0,
    room: 4096,
    place: 0,
    device: 0,
    pick: Pick::New,
};

/// Ten empty disks, of which one fails.
fn armed_disks(alloc: Global, failing: Failing) -> Result<Vec<MemDisk>, NoMemory>
    ensures { IfOk result (λ disks. AreEmptyDisks disks.items) }
{
    let mut disks = empty_disks(alloc)?;
    if let Some(disk) = disks.get_mut(failing.place) {
        disk.arm(failing.device, failing.pick);
    }
    Ok(disks)
}

/// How a run on this input and these words ends, and what it writes.
pub(crate) fn ran(
    alloc: Global,
    input: &[u8],
    words: &[&str],
    failing: Failing,
) -> Result<(Outcome<MemDisk>, Vec<u8>), NoMemory> {
    let reads = Vec::from_slice(alloc, &[failing.read])?;
    let mut source = MemSource::new(Vec::from_slice(alloc, input)?, reads);
    let writes = Vec::from_slice(alloc, &[failing.write])?;
    let empties = Vec::from_slice(alloc, &[failing.empty])?;
    let mut sink = MemSink::new(alloc, failing.room, writes, empties)?;
    let disks = armed_disks(alloc, failing)?;
    let ended = run(alloc, words, &mut source, &mut sink, disks);
    Ok((ended, Vec::from_slice(alloc, sink.written())?))
}

/// A run on this input and these words ends with this status, and writes this. Gives the disks that it leaves.
pub(crate) fn ends(
    rt: &impl Abort,
    alloc: Global,
    words: &[&str],
    input: &[u8],
    failing: Failing,
    status: u8,
    says: &[u8],
) -> Result<Vec<MemDisk>, Fail> {
    let (ended, written) = ran(alloc, input, words, failing)?;
    let device = failing.device;
    assert_eq!(rt; ended.status, status, "device call {device}");
    assert_eq!(rt; written.as_slice(), says, "device call {device}");
    Ok(ended.disks)
}

/// All these texts, one after the other.
pub(crate) fn joined(alloc: Global, texts: &[&[u8]]) -> Result<Vec<u8>, Fail> {
    let mut whole = Vec::new(alloc);
    for text in texts {
        whole.extend_from_slice(text)?;
    }
    Ok(whole)
}

/// One of the disks of a run, after a restart.
fn restarted(disk: Option<MemDisk>) -> Result<MemDisk, Fail>
    ensures { IfOk result (λ disk. Only disk.written (images_of disk)) }
{
    let mut disk = disk.ok_or("a disk")?;
    disk.restart();
    Ok(disk)
}

/// The store that starts from this disk.
pub(crate) fn store_on(alloc: Global, disk: Option<MemDisk>) -> Result<Store<MemDisk>, Fail> {
    match Store::start(alloc, restarted(disk)?) {
        Ok(store) => Ok(store),
        Err(_) => Err(Fail::new("a store")),
    }
}

/// The client that starts from this disk.
pub(crate) fn client_on(alloc: Global, disk: Option<MemDisk>) -> Result<Client<MemDisk>, Fail> {
    match Client::start(alloc, restarted(disk)?, 0) {
        Ok(client) => Ok(client),
        Err(_) => Err(Fail::new("a client")),
    }
}
