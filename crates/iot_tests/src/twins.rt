//! Two disks: what is on both after each call, and on the second one alone.
ghost use Rattle.std.specs.Prelude.{ℕ, List, IfOk};
ghost use Rattle.iot_disk.specs.Disk.{Only};
ghost use Rattle.iot_backup.specs.Parts.{IsThere};
ghost use Rattle.iot_backup.specs.Start.{MayBeBehind};
ghost use Rattle.iot_backup.specs.Twin.{IsSynced, second_of};

use crate::slots::{HEADER, found};
use iot_backup::{Twin, TwinFault};
use iot_disk::{Disk, JournalFault, MemDisk, StartFault};
use std::alloc::Global;
use std::process::Abort;
use std::test::Fail;

/// A twin over two disks.
fn started<D: Disk + Drop>(
    alloc: Global,
    first: D,
    second: D,
    header: [u8; 8],
) -> Result<Twin<D>, TwinFault>
    requires first { Only (D.medium.reads first) (D.medium.may_leave first) }
    requires second { Only (D.medium.reads second) (D.medium.may_leave second) }
    requires behind { (body : List ℕ) → MayBeBehind header body (D.medium.reads first) (D.medium.reads second) }
    ensures synced { IfOk result (λ twin. IsSynced D.medium twin) }
    ensures there { IfOk result (λ twin. IsThere (second_of twin)) }
{
    match Twin::start(alloc, first, second, header, b"ab") {
        Ok((twin, _)) => Ok(twin),
        Err((_, _, fault)) => Err(fault),
    }
}

/// Appends a record, if no checkpoint is due on either disk.
fn append<D: Disk>(twin: &mut Twin<D>, body: &[u8]) -> Result<(), JournalFault>
    requires { IsSynced D.medium twin.old }
{
    if twin.due(false, body.len() as u64) || twin.due(true, body.len() as u64) {
        return Err(JournalFault::NoMemory);
    }
    twin.append(body)
}

/// What both disks of a twin encode.
fn both(
    alloc: Global,
    disks: (MemDisk, Option<MemDisk>),
) -> Result<[(usize, usize, u64); 2], StartFault> {
    let (first, second) = disks;
    let Some(second) = second else {
        return Err(StartFault::NoMemory);
    };
    Ok([found(alloc, first)?, found(alloc, second)?])
}

#[test]
fn a_record_is_on_both_disks(rt: HostRuntime) -> Result<(), Fail> {
    let alloc = rt.alloc();
    let mut twin = started(alloc, MemDisk::new(alloc), MemDisk::new(alloc), HEADER)?;
    append(&mut twin, b"new")?;
    assert_eq!(rt; twin.count(), 1);
    assert_eq!(rt; both(alloc, twin.into_disks())?, [(2, 1, 1), (2, 1, 1)]);
    Ok(())
}

#[test]
fn each_disk_has_checkpoints_of_its_own(rt: HostRuntime) -> Result<(), Fail> {
    let alloc = rt.alloc();
    let mut twin = started(alloc, MemDisk::new(alloc), MemDisk::new(alloc), HEADER)?;
    twin.checkpoint(true, b"abcd")?;
    append(&mut twin, b"new")?;
    assert_eq!(rt; both(alloc, twin.into_disks())?, [(2, 1, 1), (4, 1, 1)]);
    Ok(())
}

/// A disk goes on alone, and takes one more record.
fn goes_on_alone<D: Disk + Drop>(rt: &impl Abort, alloc: Global, mut second: D) -> Result<D, Fail> {
    second.restart();
    let mut alone = match Twin::alone(alloc, second, HEADER, b"ab") {
        Ok((alone, _)) => alone,
        Err((_, fault)) => return Err(Fail::from(fault)),
    };
    append(&mut alone, b"newer")?;
    let (disk, second) = alone.into_disks();
    assert!(rt; second.is_none());
    Ok(disk)
}

/// The second of two disks with a record.
fn second_disk(alloc: Global) -> Result<MemDisk, Fail> {
    let mut twin = started(alloc, MemDisk::new(alloc), MemDisk::new(alloc), HEADER)?;
    append(&mut twin, b"new")?;
    let (_first, second) = twin.into_disks();
    Ok(second.ok_or("there is no second disk")?)
}

#[test]
fn the_second_disk_goes_on_alone(rt: HostRuntime) -> Result<(), Fail> {
    let alloc = rt.alloc();
    let disk = goes_on_alone(&rt, alloc, second_disk(alloc)?)?;
    assert_eq!(rt; found(alloc, disk)?, (2, 2, 2));
    Ok(())
}
