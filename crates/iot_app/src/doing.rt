//! Doing the events of a job, and writing its output.
ghost use Rattle.std.specs.Prelude.{[], map};
ghost use Rattle.std.specs.Io.KnownBytes.{Appends};
ghost use Rattle.iot_event.specs.Declarations.{AreDeclared};
ghost use Rattle.iot_world.specs.Disks.{AreFresh, counts_on};
ghost use Rattle.iot_app.specs.Keeping.{DisksKeep, DisksKeepUnread, DisksStay};
ghost use Rattle.iot_app.specs.Doing.{Did};
ghost use Rattle.iot_app.specs.Running.{IsTold};
ghost use Rattle.iot_app.specs.Saving.{server_reads};
ghost use Rattle.iot_app.specs.Status.{SinkCounts};

use crate::play::play;
use crate::running::run_events;
use crate::saving::save;
use crate::status::Status;
use crate::writing::write_text;
use iot_disk::Disk;
use iot_event::Event;
use iot_io::Sink;
use iot_words::Run;
use std::alloc::Global;

/// Does the events on these disks, writes what the job writes of them, and gives the disks back.
pub(crate) fn do_events<K: Sink, D: Disk>(
    alloc: Global,
    job: Run,
    events: &[Event],
    sink: &mut K,
    disks: Vec<D>,
) -> (Status, Vec<D>)
    requires declared { AreDeclared events.now 0 [] }
    requires fresh { AreFresh D.medium disks.items }
    ensures ends { Did (map (counts_on D.medium) disks.items)
        (Appends (K.written sink.old) (K.written sink.new))
        (DisksKeep D.medium disks.items result.1.items)
        (DisksStay D.medium disks.items result.1.items)
        (DisksKeepUnread D.medium disks.items result.1.items)
        (server_reads D.medium result.1.items)
        job result.0 events.now }
    ensures sink_faults { SinkCounts result.0
        (record { before = K.faults sink.old; after = K.faults sink.new })
        (record { before = K.empties sink.old; after = K.empties sink.new }) }
{
    match job {
        Run::Transcript => play(alloc, events, sink, disks),
        Run::Json => report(alloc, job, events, sink, disks),
        Run::Generate(_) => report(alloc, job, events, sink, disks),
        Run::Save => save(alloc, events, sink, disks),
    }
}

/// Does the events, and then writes what the job has to say of them.
fn report<K: Sink, D: Disk>(
    alloc: Global,
    job: Run,
    events: &[Event],
    sink: &mut K,
    disks: Vec<D>,
) -> (Status, Vec<D>)
    requires declared { AreDeclared events.now 0 [] }
    requires fresh { AreFresh D.medium disks.items }
    requires told { IsTold job }
    ensures ends { Did (map (counts_on D.medium) disks.items)
        (Appends (K.written sink.old) (K.written sink.new))
        (DisksKeep D.medium disks.items result.1.items)
        (DisksStay D.medium disks.items result.1.items)
        (DisksKeepUnread D.medium disks.items result.1.items)
        (server_reads D.medium result.1.items)
        job result.0 events.now }
    ensures sink_faults { SinkCounts result.0
        (record { before = K.faults sink.old; after = K.faults sink.new })
        (record { before = K.empties sink.old; after = K.empties sink.new }) }
{
    let (told, _place, disks) = run_events(alloc, job, events, disks);
    match told {
        Ok(text) => (write_text(sink, text.as_bytes(), Status::Done), disks),
        Err(_no_memory) => (Status::NoMemory, disks),
    }
}
