//! Journals whose device calls stop, and disks that something else wrote.
ghost use Rattle.std.specs.Prelude.{IfOk};
ghost use Rattle.iot_journal.specs.Journal.{IsSynced};

use iot_disk::{Disk, JournalFault, MemDisk, Pick, StartFault};
use iot_journal::Journal;
use std::alloc::Global;
use std::process::Abort;
use std::test::Fail;

/// A journal with the body "ab" and no more.
const ONE: [u8; 21] = *b"\xa5IOTJRNL1\xa5\0\0\0\0\0\0\0\x02ab\0";

/// A journal that is started after a restart, and the number of its bodies.
fn started<D: Disk + Drop>(alloc: Global, mut disk: D) -> Result<(Journal<D>, u64), StartFault>
    ensures { IfOk result (λ made. IsSynced D.medium made.0) }
{
    disk.restart();
    match Journal::start(alloc, disk) {
        Ok((journal, bodies)) => Ok((journal, bodies.len() as u64)),
        Err((_, fault)) => Err(fault),
    }
}

/// The disk fails at this call of an append, and comes back. There is no call with the number 0.
fn stops_in_an_append<D: Disk + Drop>(
    rt: &impl Abort,
    alloc: Global,
    disk: D,
    calls: u64,
    pick: Pick,
) -> Result<D, StartFault> {
    let (mut journal, _) = started(alloc, disk)?;
    journal.arm(calls, pick);
    let want = if calls == 0 {
        Ok(())
    } else {
        Err(JournalFault::Stopped)
    };
    assert_eq!(rt; journal.append(b"ab"), want);
    let written = calls == 0 || calls > 2 && pick != Pick::Old;
    let (journal, count) = started(alloc, journal.into_disk())?;
    assert_eq!(rt; count, u64::from(written), "call {calls}");
    Ok(journal.into_disk())
}

#[test]
fn an_append_is_whole_or_not_at_all(rt: HostRuntime) -> Result<(), Fail> {
    let alloc = rt.alloc();
    for calls in 0..5 {
        for pick in [Pick::Old, Pick::New, Pick::Fill(165)] {
            let disk = stops_in_an_append(&rt, alloc, MemDisk::new(alloc), calls, pick)?;
            assert!(rt; calls != 0 || disk.bytes() == ONE.as_slice());
        }
    }
    Ok(())
}

#[test]
fn other_bytes_are_refused(rt: HostRuntime) -> Result<(), Fail> {
    let alloc = rt.alloc();
    for at in 0..ONE.len() {
        let mut bytes = ONE;
        bytes[at] ^= 64;
        let flipped = MemDisk::of(alloc, bytes.to_vec(alloc)?)?;
        let want = match at {
            0 | 9 => Ok(0),
            1..=8 => Err(StartFault::Foreign),
            10..=17 => Err(StartFault::Damaged { at: 9 }),
            _ => Ok(1),
        };
        let found = started(alloc, flipped).map(|(_, count)| count);
        assert_eq!(rt; found, want, "flipped at {at}");
    }
    Ok(())
}
