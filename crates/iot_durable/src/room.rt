//! Room on the disks of a durable state for its next record.
ghost use Rattle.std.specs.Prelude.{◌≡◌, not, IfErr, OnOk};
ghost use Rattle.iot_disk.specs.Faults.{CountsJournalFault};
ghost use Rattle.iot_slots.specs.Layouts.{MakesRoom};
ghost use Rattle.iot_slots.specs.Slots.{disk_of, count_of, layout_of, state_on};
ghost use Rattle.iot_backup.specs.Following.{MayFollow};
ghost use Rattle.iot_backup.specs.Pairs.{EachPair};
ghost use Rattle.iot_backup.specs.Parts.{part, IsThere, If, Changes, CountsBoth};
ghost use Rattle.iot_durable.specs.Durable.{images_of, Keeps, HasRoom};
ghost use Rattle.iot_durable.specs.Standing.{EachStays, IsAlone, header_of};

use crate::{Log, Recorded};
use iot_disk::JournalFault;
use iot_text::Text;
use std::alloc::Global;

/// Makes the checkpoints that are due before a record with a body of this size: none, one or two on each disk, first on the first.
pub(crate) fn make_room<R: Recorded, L: Log>(
    alloc: Global,
    state: &R,
    log: &mut L,
    size: u64,
) -> Result<(), JournalFault>
    requires sound { R.IsSound state.now }
    requires keeps { Keeps L.Disk.medium L.first L.second R.rules (R.kept state.now) log.old }
    ensures first_stays { EachStays R.rules (images_of L.Disk.medium (L.first log.new)) (count_of (L.first log.old))
        (state_on L.Disk.medium (L.first log.old)) (R.kept state.now) }
    ensures second_stays { Changes (λ old new. EachStays R.rules (images_of L.Disk.medium new) (count_of (L.first log.old))
        (state_on L.Disk.medium old) (R.kept state.now)) (L.second log.old) (L.second log.new) }
    ensures follows { If (λ s. EachPair (MayFollow (header_of R.rules)) (images_of L.Disk.medium (L.first log.new))
        (images_of L.Disk.medium s)) (L.second log.new) }
    ensures keeps { OnOk result (Keeps L.Disk.medium L.first L.second R.rules (R.kept state.now) log.new) }
    ensures first_room { OnOk result (HasRoom L.Disk.medium R.rules (R.kept state.now) size (L.first log.old) (L.first log.new)) }
    ensures second_room { OnOk result (Changes (HasRoom L.Disk.medium R.rules (R.kept state.now) size)
        (L.second log.old) (L.second log.new)) }
    ensures count { OnOk result (count_of (L.first log.new) ≡ count_of (L.first log.old)) }
    ensures faults { CountsBoth L.Disk.medium result (L.first log.old) (L.first log.new) (L.second log.old) (L.second log.new) }
    ensures arms { L.Disk.medium.arms (disk_of (L.first log.new)) ≡ L.Disk.medium.arms (disk_of (L.first log.old)) }
    ensures second_arms { Changes (λ old new. L.Disk.medium.arms (disk_of new) ≡ L.Disk.medium.arms (disk_of old))
        (L.second log.old) (L.second log.new) }
{
    make_room_on(alloc, state, log, false, size)?;
    make_room_on(alloc, state, log, true, size)
}

/// Makes those on one disk.
fn make_room_on<R: Recorded, L: Log>(
    alloc: Global,
    state: &R,
    log: &mut L,
    on_second: bool,
    size: u64,
) -> Result<(), JournalFault>
    requires sound { R.IsSound state.now }
    requires keeps { Keeps L.Disk.medium L.first L.second R.rules (R.kept state.now) log.old }
    ensures stays { Changes (λ old new. EachStays R.rules (images_of L.Disk.medium new) (count_of (L.first log.old))
        (state_on L.Disk.medium old) (R.kept state.now))
        (part on_second (L.first log.old) (L.second log.old)) (part on_second (L.first log.new) (L.second log.new)) }
    ensures other { part (not on_second) (L.first log.new) (L.second log.new)
        ≡ part (not on_second) (L.first log.old) (L.second log.old) }
    ensures follows { If (λ s. EachPair (MayFollow (header_of R.rules)) (images_of L.Disk.medium (L.first log.new))
        (images_of L.Disk.medium s)) (L.second log.new) }
    ensures keeps { OnOk result (Keeps L.Disk.medium L.first L.second R.rules (R.kept state.now) log.new) }

    // A checkpoint is made if one is due, and only then; after Ok none is due.
    ensures room { OnOk result (Changes (HasRoom L.Disk.medium R.rules (R.kept state.now) size)
        (part on_second (L.first log.old) (L.second log.old)) (part on_second (L.first log.new) (L.second log.new))) }
    ensures count { OnOk result (count_of (L.first log.new) ≡ count_of (L.first log.old)) }
    ensures there { IfErr result (λ _. IsThere (part on_second (L.first log.old) (L.second log.old))) }
    ensures faults { Changes (λ old new. CountsJournalFault result
        (L.Disk.medium.faults (disk_of old)) (L.Disk.medium.faults (disk_of new)))
        (part on_second (L.first log.old) (L.second log.old)) (part on_second (L.first log.new) (L.second log.new)) }
    ensures arms { Changes (λ old new. L.Disk.medium.arms (disk_of new) ≡ L.Disk.medium.arms (disk_of old))
        (part on_second (L.first log.old) (L.second log.old)) (part on_second (L.first log.new) (L.second log.new)) }
{
    if !log.due(on_second, size) {
        return Ok(());
    }
    checkpoint(alloc, state, log, on_second)?;
    if !log.due(on_second, size) {
        return Ok(());
    }
    checkpoint(alloc, state, log, on_second)
}

/// Puts a checkpoint of the whole state in the place of the one in force and its records, on one disk.
fn checkpoint<R: Recorded, L: Log>(
    alloc: Global,
    state: &R,
    log: &mut L,
    on_second: bool,
) -> Result<(), JournalFault>
    requires sound { R.IsSound state.now }
    requires keeps { Keeps L.Disk.medium L.first L.second R.rules (R.kept state.now) log.old }
    requires there { IsThere (part on_second (L.first log.old) (L.second log.old)) }
    ensures stays { Changes (λ old new. EachStays R.rules (images_of L.Disk.medium new) (count_of (L.first log.old))
        (state_on L.Disk.medium old) (R.kept state.now))
        (part on_second (L.first log.old) (L.second log.old)) (part on_second (L.first log.new) (L.second log.new)) }
    ensures other { part (not on_second) (L.first log.new) (L.second log.new)
        ≡ part (not on_second) (L.first log.old) (L.second log.old) }
    ensures follows { If (λ s. EachPair (MayFollow (header_of R.rules)) (images_of L.Disk.medium (L.first log.new))
        (images_of L.Disk.medium s)) (L.second log.new) }
    ensures keeps { OnOk result (Keeps L.Disk.medium L.first L.second R.rules (R.kept state.now) log.new) }
    ensures renews { OnOk result (Changes (λ old new. IsAlone R.rules (state_on L.Disk.medium old) (R.kept state.now)
        (state_on L.Disk.medium new))
        (part on_second (L.first log.old) (L.second log.old)) (part on_second (L.first log.new) (L.second log.new))) }
    ensures room { OnOk result (Changes (λ old new. MakesRoom (layout_of old) (layout_of new))
        (part on_second (L.first log.old) (L.second log.old)) (part on_second (L.first log.new) (L.second log.new))) }
    ensures count { OnOk result (count_of (L.first log.new) ≡ count_of (L.first log.old)) }
    ensures faults { Changes (λ old new. CountsJournalFault result
        (L.Disk.medium.faults (disk_of old)) (L.Disk.medium.faults (disk_of new)))
        (part on_second (L.first log.old) (L.second log.old)) (part on_second (L.first log.new) (L.second log.new)) }
    ensures arms { Changes (λ old new. L.Disk.medium.arms (disk_of new) ≡ L.Disk.medium.arms (disk_of old))
        (part on_second (L.first log.old) (L.second log.old)) (part on_second (L.first log.new) (L.second log.new)) }
{
    let mut body = Text::new(alloc);
    state.spell(&mut body)?;
    log.checkpoint(on_second, body.as_bytes())
}
