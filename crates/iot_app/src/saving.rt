//! Writing what the server's disk reads as.
ghost use Rattle.std.specs.Prelude.{◌≡◌, [], map, IfOk};
ghost use Rattle.std.specs.Io.KnownBytes.{Appends};
ghost use Rattle.iot_disk.specs.Disk.{CountsFault, SameImages};
ghost use Rattle.iot_event.specs.Declarations.{AreDeclared};
ghost use Rattle.iot_world.specs.Disks.{AreFresh, counts_on};
ghost use Rattle.iot_app.specs.Keeping.{DisksKeep, DisksKeepUnread, DisksStay};
ghost use Rattle.iot_words.specs.declared.jobs.Run.TheVariants.{Save};
ghost use Rattle.iot_app.specs.Doing.{Did};
ghost use Rattle.iot_app.specs.Saving.{server_reads};
ghost use Rattle.iot_app.specs.Status.{SinkCounts};

use crate::running::run_events;
use crate::status::Status;
use crate::writing::write_text;
use iot_disk::{Disk, DiskFault};
use iot_event::Event;
use iot_io::Sink;
use iot_words::Run;
use std::alloc::Global;

/// Does the events, and then writes what the server's disk reads as.
pub(crate) fn save<K: Sink, D: Disk>(
    alloc: Global,
    events: &[Event],
    sink: &mut K,
    disks: Vec<D>,
) -> (Status, Vec<D>)
    requires declared { AreDeclared events.now 0 [] }
    requires fresh { AreFresh D.medium disks.items }
    ensures ends { Did (map (counts_on D.medium) disks.items)
        (Appends (K.written sink.old) (K.written sink.new))
        (DisksKeep D.medium disks.items result.1.items)
        (DisksStay D.medium disks.items result.1.items)
        (DisksKeepUnread D.medium disks.items result.1.items)
        (server_reads D.medium result.1.items)
        Save result.0 events.now }
    ensures sink_faults { SinkCounts result.0
        (record { before = K.faults sink.old; after = K.faults sink.new })
        (record { before = K.empties sink.old; after = K.empties sink.new }) }
{
    let (told, place, mut disks) = run_events(alloc, Run::Save, events, disks);
    match told {
        Ok(_) => match read_whole(alloc, &mut disks[place]) {
            Ok(bytes) => (write_text(sink, &bytes, Status::Done), disks),
            Err(fault) => (Status::of_read(fault), disks),
        },
        Err(_no_memory) => (Status::NoMemory, disks),
    }
}

/// What a disk reads as, by one device call.
fn read_whole<D: Disk>(alloc: Global, disk: &mut D) -> Result<Vec<u8>, DiskFault>
    ensures bytes { IfOk result (λ bytes. bytes.items ≡ D.medium.reads disk.new) }
    ensures images { SameImages (D.medium.may_leave disk.old) (D.medium.may_leave disk.new) }
    ensures faults { CountsFault result (D.medium.faults disk.old) (D.medium.faults disk.new) }
    ensures arms { D.medium.arms disk.new ≡ D.medium.arms disk.old }
{
    let mut bytes = vec![in alloc; 0; disk.len() as usize]?;
    disk.read_at(0, &mut bytes)?;
    Ok(bytes)
}
