//! Doing the events, and writing what they say.
ghost use Rattle.std.specs.Prelude.{[], List, map};
ghost use Rattle.std.specs.Io.KnownBytes.{Appends};
ghost use Rattle.iot_event.specs.Declarations.{AreDeclared};
ghost use Rattle.iot_world.specs.Disks.{AreFresh, counts_on};
ghost use Rattle.iot_app.specs.Keeping.{DisksKeep, DisksStay};
ghost use Rattle.iot_machine.specs.Nodes.{Counts};
ghost use Rattle.iot_world.specs.World.{StandsFor, KeepsDisks};
ghost use Rattle.iot_app.specs.Running.{IsOpened, IsOpenedSome, StaysIn};
ghost use Rattle.iot_app.specs.Played.{Played};
ghost use Rattle.iot_app.specs.Status.{SinkCounts};

use crate::status::Status;
use iot_disk::Disk;
use iot_event::Event;
use iot_io::{Sink, write_all};
use iot_text::Text;
use iot_world::World;
use std::alloc::Global;

/// Does the events in turn, on these disks, and gives the disks back.
pub(crate) fn play<K: Sink, D: Disk>(
    alloc: Global,
    events: &[Event],
    sink: &mut K,
    disks: Vec<D>,
) -> (Status, Vec<D>)
    requires declared { AreDeclared events.now 0 [] }
    requires fresh { AreFresh D.medium disks.items }
    ensures ends { Played (map (counts_on D.medium) disks.items) result.0
        (Appends (K.written sink.old) (K.written sink.new))
        (DisksKeep D.medium disks.items result.1.items)
        (DisksStay D.medium disks.items result.1.items)
        events.now }
    ensures sink_faults { SinkCounts result.0
        (record { before = K.faults sink.old; after = K.faults sink.new })
        (record { before = K.empties sink.old; after = K.empties sink.new }) }
{
    let mut opening = Text::new(alloc);
    match World::new(alloc, disks, &mut opening) {
        Ok(mut world) => {
            let status = play_on(alloc, &opening, events, sink, &mut world);
            (status, world.into_disks())
        }
        Err(disks) => (Status::NoMemory, disks),
    }
}

/// Does the events in a new world, and writes what its opening said, and then each event's text by one `write_all` before the next is done.
fn play_on<K: Sink, D: Disk>(
    alloc: Global,
    opening: &Text,
    events: &[Event],
    sink: &mut K,
    world: &mut World<D>,
) -> Status
    requires declared { AreDeclared events.now 0 [] }
    requires opened { IsOpenedSome D.medium opening.now world.old }
    ensures ends { (handed : List Counts) → IsOpened D.medium handed opening.now world.old
        → Played handed result
        (Appends (K.written sink.old) (K.written sink.new))
        (StandsFor D.medium world.new)
        (StaysIn D.medium world.new)
        events.now }
    ensures sink_faults { SinkCounts result
        (record { before = K.faults sink.old; after = K.faults sink.new })
        (record { before = K.empties sink.old; after = K.empties sink.new }) }
    ensures disks { KeepsDisks world.old world.new }
{
    match write_all(sink, opening.as_bytes()) {
        Ok(()) => (),
        Err(_) => return Status::WriteFailed,
    }
    let mut text = Text::new(alloc);
    'events: for event in events {
        text.clear();
        match world.apply(alloc, event, &mut text) {
            Ok(()) => (),
            Err(_) => return Status::NoMemory,
        }
        match write_all(sink, text.as_bytes()) {
            Ok(()) => (),
            Err(_) => return Status::WriteFailed,
        }
    }
    Status::Done
}
