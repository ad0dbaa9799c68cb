//! What a durable state needs of that which keeps its checkpoints and records.
ghost use Rattle.std.specs.Prelude.{◌≡◌, ℕ, false, length, not, Option, Some, IsErrOf, OnOk};
ghost use Rattle.iot_disk.specs.Faults.{CountsJournalFault};
ghost use Rattle.iot_slots.specs.Cells.{next};
ghost use Rattle.iot_slots.specs.Layouts.{MakesRoom};
ghost use Rattle.iot_slots.specs.Slots.{appended, renewed, EachEncodes, EachEncodesEither};
ghost use Rattle.iot_slots.specs.Slots.{disk_of, header_of, count_of, layout_of, state_on};
ghost use Rattle.iot_slots.specs.declared.slots.Slots.{Slots as SlotsValue};
ghost use Rattle.iot_backup.specs.Following.{MayFollow};
ghost use Rattle.iot_backup.specs.Pairs.{EachPair};
ghost use Rattle.iot_backup.specs.Parts.{part, is_due_on, IsThere, If, Changes, AreSynced, LacksMemory, CountsBoth};

use iot_backup::Twin;
use iot_disk::{Disk, JournalFault};
use iot_slots::Slots;

/// Where a state's checkpoints and records are kept: on the slots of one disk, or of two, the second of which follows the first.
///
/// Calls that concern one disk are told by `on_second` which: the second one if it is true, else the first. After an `Err` nothing
/// more is said.
pub trait Log {
    type Disk: Disk;

    /// The slots of the first disk.
    ghost first: { Self → SlotsValue Self.Disk };

    /// Those of the second disk, if there is one.
    ghost second: { Self → Option (SlotsValue Self.Disk) };

    /// Appends a record to the first disk, and then to the second: it is on both when this answers Ok.
    fn append(&mut self, body: &[u8]) -> Result<(), JournalFault>
        requires synced { AreSynced Self.Disk.medium (first self.old) (second self.old) }
        requires first_not_due { is_due_on Self.Disk.medium (length body.now) (Some (first self.old)) ≡ false }
        requires second_not_due { is_due_on Self.Disk.medium (length body.now) (second self.old) ≡ false }

        // However this returns, every image of each disk encodes the state before or the one with the new record. A start can go on
        // from each pair of images. After Ok each has the record.
        ensures first_images { EachEncodesEither (header_of (first self.old)) (Self.Disk.medium.may_leave (disk_of (first self.new)))
            (state_on Self.Disk.medium (first self.old)) (appended (state_on Self.Disk.medium (first self.old)) body.now) }
        ensures second_images { Changes (λ old new. EachEncodesEither (header_of old) (Self.Disk.medium.may_leave (disk_of new))
            (state_on Self.Disk.medium old) (appended (state_on Self.Disk.medium old) body.now)) (second self.old) (second self.new) }
        ensures follows { If (λ s. EachPair (MayFollow (header_of (first self.old)))
            (Self.Disk.medium.may_leave (disk_of (first self.new))) (Self.Disk.medium.may_leave (disk_of s))) (second self.new) }
        ensures no_memory { IsErrOf result JournalFault.NoMemory → LacksMemory Self.Disk.medium body.now
            (first self.old) (first self.new) (second self.old) (second self.new) }
        ensures first_appended { OnOk result (EachEncodes (header_of (first self.old))
            (Self.Disk.medium.may_leave (disk_of (first self.new))) (appended (state_on Self.Disk.medium (first self.old)) body.now)) }
        ensures second_appended { OnOk result (Changes (λ old new. EachEncodes (header_of old)
            (Self.Disk.medium.may_leave (disk_of new)) (appended (state_on Self.Disk.medium old) body.now))
            (second self.old) (second self.new)) }

        ensures first_state { OnOk result
            (state_on Self.Disk.medium (first self.new) ≡ appended (state_on Self.Disk.medium (first self.old)) body.now) }
        ensures second_state { OnOk result (Changes (λ old new.
            state_on Self.Disk.medium new ≡ appended (state_on Self.Disk.medium old) body.now) (second self.old) (second self.new)) }
        ensures synced { OnOk result (AreSynced Self.Disk.medium (first self.new) (second self.new)) }
        ensures count { OnOk result (count_of (first self.new) ≡ next (count_of (first self.old))) }
        ensures header { header_of (first self.new) ≡ header_of (first self.old) }

        ensures faults { CountsBoth Self.Disk.medium result
            (first self.old) (first self.new) (second self.old) (second self.new) }
        ensures first_arms { Self.Disk.medium.arms (disk_of (first self.new)) ≡ Self.Disk.medium.arms (disk_of (first self.old)) }
        ensures second_arms { Changes (λ old new. Self.Disk.medium.arms (disk_of new) ≡ Self.Disk.medium.arms (disk_of old))
            (second self.old) (second self.new) };

    /// Whether a checkpoint is to come on a disk before an append of a body of so many bytes: never on a second disk that is not
    /// there.
    fn due(&self, on_second: bool, size: u64) -> bool
        requires { AreSynced Self.Disk.medium (first self.now) (second self.now) }
        ensures { result ≡ is_due_on Self.Disk.medium size (part on_second (first self.now) (second self.now)) };

    /// Puts a new body in the place of the old one and its records on a disk: it is there when this answers Ok.
    fn checkpoint(&mut self, on_second: bool, body: &[u8]) -> Result<(), JournalFault>
        requires synced { AreSynced Self.Disk.medium (first self.old) (second self.old) }
        requires there { IsThere (part on_second (first self.old) (second self.old)) }

        // However this returns, every image of that disk encodes the old body with its records or the new body with none. The other
        // disk is left alone. A start can go on from each pair of images.
        ensures images { Changes (λ old new. EachEncodesEither (header_of old) (Self.Disk.medium.may_leave (disk_of new))
            (state_on Self.Disk.medium old) (renewed (state_on Self.Disk.medium old) body.now))
            (part on_second (first self.old) (second self.old)) (part on_second (first self.new) (second self.new)) }
        ensures other { part (not on_second) (first self.new) (second self.new)
            ≡ part (not on_second) (first self.old) (second self.old) }
        ensures follows { If (λ s. EachPair (MayFollow (header_of (first self.old)))
            (Self.Disk.medium.may_leave (disk_of (first self.new))) (Self.Disk.medium.may_leave (disk_of s))) (second self.new) }

        ensures state { OnOk result (Changes (λ old new.
            state_on Self.Disk.medium new ≡ renewed (state_on Self.Disk.medium old) body.now)
            (part on_second (first self.old) (second self.old)) (part on_second (first self.new) (second self.new))) }
        ensures synced { OnOk result (AreSynced Self.Disk.medium (first self.new) (second self.new)) }
        ensures count { OnOk result (count_of (first self.new) ≡ count_of (first self.old)) }
        ensures header { header_of (first self.new) ≡ header_of (first self.old) }

        // So after at most two checkpoints of a disk none is due on it.
        ensures room { OnOk result (Changes (λ old new. MakesRoom (layout_of old) (layout_of new))
            (part on_second (first self.old) (second self.old)) (part on_second (first self.new) (second self.new))) }

        ensures faults { Changes (λ old new. CountsJournalFault result
            (Self.Disk.medium.faults (disk_of old)) (Self.Disk.medium.faults (disk_of new)))
            (part on_second (first self.old) (second self.old)) (part on_second (first self.new) (second self.new)) }
        ensures arms { Changes (λ old new. Self.Disk.medium.arms (disk_of new) ≡ Self.Disk.medium.arms (disk_of old))
            (part on_second (first self.old) (second self.old)) (part on_second (first self.new) (second self.new)) };

    /// The number of records ever appended, modulo 2^64.
    fn count(&self) -> u64
        ensures { result ≡ count_of (first self.now) };
}

impl<D: Disk> Log for Slots<D> {
    ghost use Rattle.iot_durable.specs.Alone.{first as first_slots, second as no_slots};

    type Disk = D;

    ghost first = { first_slots };

    ghost second = { no_slots };

    fn append(&mut self, body: &[u8]) -> Result<(), JournalFault> {
        self.append(body)
    }

    fn due(&self, on_second: bool, size: u64) -> bool {
        if on_second {
            return false;
        }
        self.due(size)
    }

    fn checkpoint(&mut self, on_second: bool, body: &[u8]) -> Result<(), JournalFault> {
        if on_second {
            return Ok(());
        }
        self.checkpoint(body)
    }

    fn count(&self) -> u64 {
        self.count()
    }
}

impl<D: Disk> Log for Twin<D> {
    ghost use Rattle.iot_backup.specs.Twin.{first_of, second_of};

    type Disk = D;

    ghost first = { first_of };

    ghost second = { second_of };

    fn append(&mut self, body: &[u8]) -> Result<(), JournalFault> {
        self.append(body)
    }

    fn due(&self, on_second: bool, size: u64) -> bool {
        self.due(on_second, size)
    }

    fn checkpoint(&mut self, on_second: bool, body: &[u8]) -> Result<(), JournalFault> {
        self.checkpoint(on_second, body)
    }

    fn count(&self) -> u64 {
        self.count()
    }
}
