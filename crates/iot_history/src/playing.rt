//! Doing the events, and writing what the new ones say.
ghost use Rattle.std.specs.Prelude.{[], List, map};
ghost use Rattle.std.specs.Io.KnownBytes.{Appends};
ghost use Rattle.iot_event.specs.Declarations.{AreDeclared};
ghost use Rattle.iot_journal.specs.Journal.{disk_of, bodies_on, IsSynced};
ghost use Rattle.iot_machine.specs.Nodes.{Counts};
ghost use Rattle.iot_world.specs.Disks.{AreFresh, counts_on};
ghost use Rattle.iot_app.specs.Running.{IsOpened, IsOpenedSome};
ghost use Rattle.iot_history.specs.Continuing.{Continued};
ghost use Rattle.iot_history.specs.Status.{SinkCounts, DiskCounts};

use crate::status::Status;
use crate::writing::write_new;
use iot_disk::Disk;
use iot_event::Event;
use iot_io::Sink;
use iot_journal::Journal;
use iot_text::Text;
use iot_world::World;
use std::alloc::Global;

/// Does the events in turn on these disks, and writes what is said but for the first `old` pieces: the opening is the first, and then each
/// event says one. Each that is written is marked in the journal first.
pub(crate) fn play<J: Disk, K: Sink, D: Disk + Drop>(
    alloc: Global,
    events: &[Event],
    old: usize,
    journal: &mut Journal<J>,
    sink: &mut K,
    disks: Vec<D>,
) -> Status
    requires declared { AreDeclared events.now 0 [] }
    requires synced { IsSynced J.medium journal.old }
    requires fresh { AreFresh D.medium disks.items }
    ensures ends { Continued (map (counts_on D.medium) disks.items) (J.medium.may_leave (disk_of journal.new))
        (bodies_on J.medium journal.old) (Appends (K.written sink.old) (K.written sink.new)) old events.now result }
    ensures sink_faults { SinkCounts result
        (record { before = K.faults sink.old; after = K.faults sink.new })
        (record { before = K.empties sink.old; after = K.empties sink.new }) }
    ensures disk_faults { DiskCounts result
        (record { before = J.medium.faults (disk_of journal.old); after = J.medium.faults (disk_of journal.new) }) }
{
    let mut opening = Text::new(alloc);
    match World::new(alloc, disks, &mut opening) {
        Ok(mut world) => play_on(alloc, &opening, events, old, journal, sink, &mut world),
        Err(_disks) => Status::NoMemory,
    }
}

/// Does the events in a new world, whose opening said this.
fn play_on<J: Disk, K: Sink, D: Disk>(
    alloc: Global,
    opening: &Text,
    events: &[Event],
    old: usize,
    journal: &mut Journal<J>,
    sink: &mut K,
    world: &mut World<D>,
) -> Status
    requires declared { AreDeclared events.now 0 [] }
    requires synced { IsSynced J.medium journal.old }
    requires opened { IsOpenedSome D.medium opening.now world.old }
    ensures ends { (handed : List Counts) → IsOpened D.medium handed opening.now world.old
        → Continued handed (J.medium.may_leave (disk_of journal.new)) (bodies_on J.medium journal.old)
        (Appends (K.written sink.old) (K.written sink.new)) old events.now result }
    ensures sink_faults { SinkCounts result
        (record { before = K.faults sink.old; after = K.faults sink.new })
        (record { before = K.empties sink.old; after = K.empties sink.new }) }
    ensures disk_faults { DiskCounts result
        (record { before = J.medium.faults (disk_of journal.old); after = J.medium.faults (disk_of journal.new) }) }
{
    match write_new(journal, sink, old == 0, opening.as_bytes()) {
        Ok(()) => (),
        Err(status) => return status,
    }
    let mut left = old.saturating_sub(1);
    let mut text = Text::new(alloc);
    'events: for event in events {
        text.clear();
        match world.apply(alloc, event, &mut text) {
            Ok(()) => (),
            Err(_) => return Status::NoMemory,
        }
        match write_new(journal, sink, left == 0, text.as_bytes()) {
            Ok(()) => (),
            Err(status) => return status,
        }
        left = left.saturating_sub(1);
    }
    Status::Done
}
