//! Serving one request after another.
ghost use Rattle.std.specs.Prelude.{◌≡◌, IfOk, OnOk};
ghost use Rattle.std.specs.Io.KnownBytes.{Appends, IsAtEnd};
ghost use Rattle.iot_io.specs.ReadAll.{Took};
ghost use Rattle.iot_server.specs.Servers.{IsAlone, IsSynced, disk_of, state_of};
ghost use Rattle.iot_keep_app.specs.Serving.{AnswerEnds, EachKeeps, ServeEnds, StepEnds, kept_on};
ghost use Rattle.iot_keep_app.specs.Status.{DiskCounts, SinkCounts, SourceCounts};

use crate::ServeFault;
use crate::frames::{read_frame, write_frame};
use iot_disk::Disk;
use iot_io::{Sink, Source};
use iot_server::{Server, ServerFault};
use std::alloc::Global;

/// What comes next.
#[derive(Clone, Copy, Debug, PartialEq, Eq)]
pub(crate) enum Next {
    /// A request came, and was answered.
    Answered,
    /// The input has ended.
    AtEnd,
}

/// Answers each frame of the input by one, until the input ends.
pub(crate) fn serve_all<D: Disk, S: Source, K: Sink>(
    alloc: Global,
    server: &mut Server<D>,
    source: &mut S,
    sink: &mut K,
) -> Result<(), ServeFault>
    requires synced { IsSynced D.medium server.old }
    requires alone { IsAlone server.old }
    requires keeps { EachKeeps (D.medium.may_leave (disk_of server.old)) (state_of server.old) }
    ensures ends { ServeEnds (record {
      took = Took S.left S.taken source.old source.new;
      at_end = IsAtEnd (S.left source.new);
      wrote = Appends (K.written sink.old) (K.written sink.new);
      images = D.medium.may_leave (disk_of server.new);
    }) (kept_on D.medium server.old) result }
    ensures alone { IsAlone server.new }
    ensures source_faults { SourceCounts result (record { before = S.faults source.old; after = S.faults source.new }) }
    ensures sink_faults { SinkCounts result
        (record { before = K.faults sink.old; after = K.faults sink.new })
        (record { before = K.empties sink.old; after = K.empties sink.new }) }
    ensures disk_faults { DiskCounts result
        (record { before = D.medium.faults (disk_of server.old); after = D.medium.faults (disk_of server.new) }) }
{
    'requests: for _ in 0..u64::MAX {
        match serve_next(alloc, server, source, sink) {
            Ok(Next::Answered) => (),
            Ok(Next::AtEnd) => return Ok(()),
            Err(fault) => return Err(fault),
        }
    }
    Err(ServeFault::TooMany)
}

/// Answers the next frame of the input, if there is one.
fn serve_next<D: Disk, S: Source, K: Sink>(
    alloc: Global,
    server: &mut Server<D>,
    source: &mut S,
    sink: &mut K,
) -> Result<Next, ServeFault>
    requires synced { IsSynced D.medium server.old }
    requires alone { IsAlone server.old }
    requires keeps { EachKeeps (D.medium.may_leave (disk_of server.old)) (state_of server.old) }
    ensures ends { StepEnds (record {
      took = Took S.left S.taken source.old source.new;
      at_end = IsAtEnd (S.left source.new);
      wrote = Appends (K.written sink.old) (K.written sink.new);
      images = D.medium.may_leave (disk_of server.new);
    }) (kept_on D.medium server.old) (kept_on D.medium server.new) result }
    ensures synced { OnOk result (IsSynced D.medium server.new) }
    ensures alone { IsAlone server.new }
    ensures source_faults { SourceCounts result (record { before = S.faults source.old; after = S.faults source.new }) }
    ensures sink_faults { SinkCounts result
        (record { before = K.faults sink.old; after = K.faults sink.new })
        (record { before = K.empties sink.old; after = K.empties sink.new }) }
    ensures disk_faults { DiskCounts result
        (record { before = D.medium.faults (disk_of server.old); after = D.medium.faults (disk_of server.new) }) }
{
    let Some(request) = read_frame(alloc, source)? else {
        return Ok(Next::AtEnd);
    };
    answer(alloc, server, &request, sink)?;
    Ok(Next::Answered)
}

/// Answers the bytes of a frame: a request by its reply, and others by an empty frame. The reply is written after its commit is on the
/// disk.
fn answer<D: Disk, K: Sink>(
    alloc: Global,
    server: &mut Server<D>,
    request: &[u8],
    sink: &mut K,
) -> Result<(), ServeFault>
    requires synced { IsSynced D.medium server.old }
    requires alone { IsAlone server.old }
    requires keeps { EachKeeps (D.medium.may_leave (disk_of server.old)) (state_of server.old) }
    ensures ends { AnswerEnds (Appends (K.written sink.old) (K.written sink.new)) (D.medium.may_leave (disk_of server.new))
        (kept_on D.medium server.old) request.now (kept_on D.medium server.new) result }
    ensures synced { OnOk result (IsSynced D.medium server.new) }
    ensures alone { IsAlone server.new }
    ensures sink_faults { SinkCounts result
        (record { before = K.faults sink.old; after = K.faults sink.new })
        (record { before = K.empties sink.old; after = K.empties sink.new }) }
    ensures disk_faults { DiskCounts result
        (record { before = D.medium.faults (disk_of server.old); after = D.medium.faults (disk_of server.new) }) }
{
    match server.handle(alloc, request) {
        Ok(reply) => write_frame(sink, &reply),
        Err(ServerFault::Malformed { .. }) => write_frame(sink, &[]),
        Err(ServerFault::NoMemory) => Err(ServeFault::NoMemory),
        Err(ServerFault::Stopped) => Err(ServeFault::Stopped),
    }
}
