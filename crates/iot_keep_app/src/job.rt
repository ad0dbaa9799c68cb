//! Serving as one call.
ghost use Rattle.std.specs.Prelude.{◌≡◌, None};
ghost use Rattle.std.specs.Io.KnownBytes.{Appends, IsAtEnd};
ghost use Rattle.iot_disk.specs.Disk.{Only, SameImages};
ghost use Rattle.iot_io.specs.ReadAll.{Took};
ghost use Rattle.iot_keep_app.specs.Endings.{Ends};
ghost use Rattle.iot_keep_app.specs.Status.{DiskCounts, SinkCounts, SourceCounts};

use crate::ServeFault;
use crate::serving::serve_all;
use iot_disk::Disk;
use iot_io::{Sink, Source};
use iot_server::Server;
use std::alloc::Global;

/// How serving ended, and the disk that was handed in.
#[derive(Drop)]
pub struct Outcome<D> {
    /// `Ok` at the end of the input.
    pub result: Result<(), ServeFault>,

    /// The disk of the server.
    pub disk: D,
}

/// Starts a server from its disk, which no one else writes, and answers each frame of the source by one on the sink, in turn, until the
/// source ends. A frame that holds a request is answered by its reply; one that holds anything else by an empty frame, which changes
/// nothing. What was written are the frames of the replies to a front of the frames that were read, in their order.
///
/// # Errors
///
/// - `Foreign` and `Damaged` if the disk holds no server. Nothing was read or written, and the disk is as it was.
/// - `NoMemory`: at the start, or in a frame, for which nothing was written.
/// - `Stopped` if the disk failed: at the start, or in appending a commit, for which nothing was written.
/// - `ReadFailed` if the input could not be read, `Cut` if it ends inside a frame, and `TooLong` if a frame has more than `FRAME_LIMIT`
///   bytes.
/// - `WriteFailed` if a write failed or took nothing. A front of the frame of the last reply was written.
/// - `TooMany` after 2^64 - 1 requests.
///
/// # The disk
///
/// However this returns, each image of the disk stands for the state after the last reply that was written, in part or in full. With
/// `Stopped` an image may have the one commit besides that was to be appended.
pub fn serve<D: Disk, S: Source, K: Sink>(
    alloc: Global,
    disk: D,
    source: &mut S,
    sink: &mut K,
) -> Outcome<D>
    requires { Only (D.medium.reads disk) (D.medium.may_leave disk) }
    ensures ends { Ends (record {
      took = Took S.left S.taken source.old source.new;
      at_end = IsAtEnd (S.left source.new);
      wrote = Appends (K.written sink.old) (K.written sink.new);
      images = D.medium.may_leave result.disk;
    }) (D.medium.reads disk)
        ((D.medium.reads result.disk ≡ D.medium.reads disk) × SameImages (D.medium.may_leave disk) (D.medium.may_leave result.disk))
        result.result }

    // A fault comes exactly when its count rose.
    ensures source_faults { SourceCounts result.result (record { before = S.faults source.old; after = S.faults source.new }) }
    ensures sink_faults { SinkCounts result.result
        (record { before = K.faults sink.old; after = K.faults sink.new })
        (record { before = K.empties sink.old; after = K.empties sink.new }) }
    ensures disk_faults { DiskCounts result.result
        (record { before = D.medium.faults disk; after = D.medium.faults result.disk }) }
{
    match Server::start(alloc, disk) {
        Ok(mut server) => {
            let result = serve_all(alloc, &mut server, source, sink);
            let disk = alone(server.into_disks());
            Outcome { result, disk }
        }
        Err((disk, fault)) => Outcome {
            result: Err(ServeFault::from(fault)),
            disk,
        },
    }
}

/// The disk of a server that has no second one.
fn alone<D: Disk>(disks: (D, Option<D>)) -> D
    requires { disks.1 ≡ None }
    ensures { result ≡ disks.0 }
{
    let (disk, backup) = disks;
    match backup {
        None => disk,
        Some(_backup) => unreachable!(),
    }
}
