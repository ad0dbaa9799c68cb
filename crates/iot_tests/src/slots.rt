//! A start that stops at every device call, disks that something else wrote, and checkpoints that come when they are due.
ghost use Rattle.std.specs.Prelude.{◌≡◌, false, IfOk, OnOk};
ghost use Rattle.iot_slots.specs.Layouts.{is_due};
ghost use Rattle.iot_slots.specs.Slots.{IsSynced, layout_of, state_on};

use iot_disk::{Disk, JournalFault, MemDisk, Pick, StartFault};
use iot_slots::{Slots, Started};
use std::alloc::Global;
use std::process::Abort;
use std::test::Fail;

pub(crate) const HEADER: [u8; 8] = *b"IOTSLOT1";

const PICKS: [Pick; 3] = [Pick::Old, Pick::New, Pick::Fill(165)];

/// A disk that was started with the body "ab".
const FRESH: [u8; 62] =
    *b"\xa5IOTSLOT1\xa5\0\0\0\0\0\0\0\x01\x80\0\0\0\0\0\0\x2b\0\0\0\0\0\0\0\0\0\0\0\0\0\0\0\0\0\0\0\0\0\0\0\0\x02ab\0\0\0\0\0\0\0\0\0";

/// Slots that are started after a restart.
fn restarted<D: Disk + Drop>(alloc: Global, mut disk: D) -> Result<(Slots<D>, Started), StartFault>
    ensures { IfOk result (λ made. IsSynced D.medium made.0) }
{
    disk.restart();
    match Slots::start_with(alloc, disk, HEADER, b"ab") {
        Ok(made) => Ok(made),
        Err((_, fault)) => Err(fault),
    }
}

/// The length of the body, the number of records and the count that a start after a restart finds.
pub(crate) fn found<D: Disk + Drop>(
    alloc: Global,
    mut disk: D,
) -> Result<(usize, usize, u64), StartFault> {
    disk.restart();
    match Slots::start(alloc, disk, HEADER) {
        Ok((slots, started)) => {
            let records = started.records.len();
            Ok((started.body.into_vec().len(), records, slots.count()))
        }
        Err((_, fault)) => Err(fault),
    }
}

/// A start after a restart in which this call fails, if it comes: the disk, and whether it started.
fn stopped<D: Disk + Drop>(alloc: Global, mut disk: D, calls: u64, pick: Pick) -> (D, bool) {
    disk.restart();
    disk.arm(calls, pick);
    match Slots::start_with(alloc, disk, HEADER, b"ab") {
        Ok((slots, _)) => (slots.into_disk(), true),
        Err((disk, _)) => (disk, false),
    }
}

/// A start stops at this call, and the next one at that call, if it comes. One that does not stop makes up for both.
fn stops_twice(
    rt: &impl Abort,
    alloc: Global,
    calls: u64,
    again: u64,
    pick: Pick,
) -> Result<(), StartFault> {
    let (disk, started) = stopped(alloc, MemDisk::new(alloc), calls, pick);
    assert_eq!(rt; started, calls == 0);
    let (disk, _) = stopped(alloc, disk, again, pick);
    // A call that was armed and has not come would stay armed.
    let (disk, _) = stopped(alloc, disk, 1, pick);
    let (slots, _) = restarted(alloc, disk)?;
    assert_eq!(rt; slots.into_disk().bytes(), FRESH.as_slice(), "call {calls}");
    Ok(())
}

#[test]
fn a_start_can_stop_and_start_again(rt: HostRuntime) -> Result<(), Fail> {
    for calls in 0..9 {
        for again in 0..10 {
            for pick in PICKS {
                stops_twice(&rt, rt.alloc(), calls, again, pick)?;
            }
        }
    }
    Ok(())
}

#[test]
fn other_bytes_are_refused(rt: HostRuntime) -> Result<(), Fail> {
    let alloc = rt.alloc();
    for at in 0..53 {
        let mut bytes = FRESH;
        bytes[at] ^= 128;
        let flipped = MemDisk::of(alloc, bytes.to_vec(alloc)?)?;
        let want = match at {
            0 | 9 => Ok((0, 0, 0)),
            1..=8 => Err(StartFault::Foreign),
            // No whole checkpoint is at the place that the cell names.
            19..=25 | 43..=50 => Err(StartFault::Damaged { at: 9 }),
            _ => Ok((2, 0, 0)),
        };
        assert_eq!(rt; found(alloc, flipped), want, "flipped at {at}");
    }
    Ok(())
}

/// Makes the checkpoints that are due before an append of a body of so many bytes, and gives their number.
fn make_room<D: Disk>(slots: &mut Slots<D>, size: u64) -> Result<u64, JournalFault>
    requires { IsSynced D.medium slots.old }
    ensures synced { OnOk result (IsSynced D.medium slots.new) }
    ensures room { OnOk result
        (is_due (state_on D.medium slots.new).bodies (layout_of slots.new) size ≡ false) }
{
    if !slots.due(size) {
        return Ok(0);
    }
    slots.checkpoint(b"abcd")?;
    if !slots.due(size) {
        return Ok(1);
    }
    slots.checkpoint(b"abcd")?;
    Ok(2)
}

/// Appends 300 records of this body, and gives the number of checkpoints.
fn fill<D: Disk>(slots: &mut Slots<D>, body: &[u8]) -> Result<u64, JournalFault>
    requires { IsSynced D.medium slots.old }
{
    let mut checkpoints = 0u64;
    for _i in 0..300u32 {
        checkpoints = checkpoints.wrapping_add(make_room(slots, body.len() as u64)?);
        slots.append(body)?;
    }
    Ok(checkpoints)
}

#[test]
fn three_hundred_records_take_checkpoints(rt: HostRuntime) -> Result<(), Fail> {
    let alloc = rt.alloc();
    let body = vec![in alloc; 7; 8192]?;
    let (mut slots, _) = restarted(alloc, MemDisk::new(alloc))?;
    assert_eq!(rt; fill(&mut slots, &body)?, 2);
    assert_eq!(rt; slots.count(), 300);
    // 128 records are before each checkpoint, whose body has four bytes.
    assert_eq!(rt; found(alloc, slots.into_disk())?, (4, 300 - 2 * 128, 300));
    Ok(())
}
