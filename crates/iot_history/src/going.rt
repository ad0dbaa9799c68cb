//! One run as one call.
ghost use Rattle.std.specs.Prelude.{◌≡◌, map};
ghost use Rattle.std.specs.Io.KnownBytes.{Appends, IsAtEnd};
ghost use Rattle.iot_disk.specs.Disk.{Only};
ghost use Rattle.iot_io.specs.ReadAll.{Took};
ghost use Rattle.iot_journal.specs.Decoding.{Encodes, decoded};
ghost use Rattle.iot_journal.specs.Journal.{disk_of, bodies_on, IsSynced};
ghost use Rattle.iot_world.specs.Disks.{AreFresh, counts_on};
ghost use Rattle.iot_history.specs.Ending.{Ends};
ghost use Rattle.iot_history.specs.Status.{HasStatus, SourceCounts, SinkCounts, DiskCounts};

use crate::input::read_input;
use crate::past::{Past, past_of};
use crate::playing::play;
use crate::refusing::refuse;
use crate::status::Status;
use iot_disk::{Bodies, Disk};
use iot_io::{Sink, Source};
use iot_journal::Journal;
use std::alloc::Global;

/// How a run ended: the status of the process, and the journal's disk.
#[derive(Drop)]
pub struct Outcome<J> {
    /// What the process ends with.
    pub status: u8,

    /// The disk of the journal.
    pub disk: J,
}

/// Goes on from where the earlier runs on the journal's disk have come: reads the source to its end as more lines of their event script,
/// records it, does all events, those of the earlier inputs again, and writes what was not said before, each event's text by one
/// `write_all`.
///
/// A record of the journal is the text of one input, and a newline; or it is empty, and marks one more piece of the transcript as said, of
/// which the first is what the opening says, and then each event says one. An input is on the disk before an event of it is done: then all
/// its events are done, now or at the next run, whatever becomes of this one. A run that is ended before that leaves nothing of the input.
/// A mark is on the disk before its piece is written. So a run that is ended while it writes leaves the later pieces to the next one, and
/// no piece is written twice; at most the one is lost whose mark is there and whose text is not, or not all of it.
///
/// The nodes' disks are empty, and are given up at the end. Where a node stops is up to them: what is claimed is that there is a transcript
/// of all events that begins with one of as many pieces as were marked before, and goes on with what is written. If the disks fail in no
/// other way today than yesterday, that front is what the earlier runs have said.
///
/// # Statuses
///
/// - 0: all that was not said before was marked and written.
/// - 1: the input has more than 4,194,304 bytes, or is no event script after the earlier ones. One line that says so was written, in which
///   lines count in this input alone; nothing was recorded.
/// - 3: a read failed. Nothing was recorded or written.
/// - 4: a write failed, or took nothing. A front of the line that refuses the input was written, and nothing was recorded. Or the input is
///   recorded, and of the last piece that was marked a front was written, and those before it were written in full.
/// - 5: memory ran out. Nothing was recorded or written; or the input is recorded, and what was marked was written.
/// - 6: the journal's disk failed. Nothing was written, and the input may be recorded; or it is, and what was marked was written, but for
///   one piece more that may be marked.
/// - 7: the journal's disk is damaged, or something else wrote it. Nothing was recorded or written.
/// - 8: what is recorded is no event script. Nothing was recorded or written.
pub fn go_on<S: Source, K: Sink, J: Disk, D: Disk + Drop>(
    alloc: Global,
    source: &mut S,
    sink: &mut K,
    disk: J,
    disks: Vec<D>,
) -> Outcome<J>
    requires only { Only (J.medium.reads disk) (J.medium.may_leave disk) }
    requires fresh { AreFresh D.medium disks.items }
    ensures ends { HasStatus result.status (Ends (record {
      took = Took S.left S.taken source.old source.new;
      at_end = IsAtEnd (S.left source.new);
      wrote = Appends (K.written sink.old) (K.written sink.new);
      handed = map (counts_on D.medium) disks.items;
      found = decoded (J.medium.reads disk);
      images = J.medium.may_leave result.disk;
    })) }

    // A fault's status comes exactly when its count rose.
    ensures source_faults { HasStatus result.status (λ status.
        SourceCounts status (record { before = S.faults source.old; after = S.faults source.new })) }
    ensures sink_faults { HasStatus result.status (λ status. SinkCounts status
        (record { before = K.faults sink.old; after = K.faults sink.new })
        (record { before = K.empties sink.old; after = K.empties sink.new })) }
    ensures disk_faults { HasStatus result.status (λ status.
        DiskCounts status (record { before = J.medium.faults disk; after = J.medium.faults result.disk })) }
{
    match Journal::start(alloc, disk) {
        Ok((mut journal, bodies)) => {
            let status = go_on_from(alloc, source, sink, &mut journal, &bodies, disks);
            Outcome {
                status: status.code(),
                disk: journal.into_disk(),
            }
        }
        Err((disk, fault)) => Outcome {
            status: Status::from(fault).code(),
            disk,
        },
    }
}

/// The same from a journal that has these bodies.
fn go_on_from<S: Source, K: Sink, J: Disk, D: Disk + Drop>(
    alloc: Global,
    source: &mut S,
    sink: &mut K,
    journal: &mut Journal<J>,
    bodies: &Bodies,
    disks: Vec<D>,
) -> Status
    requires synced { IsSynced J.medium journal.old }
    requires bodies { bodies_on J.medium journal.old ≡ bodies.now }
    requires fresh { AreFresh D.medium disks.items }
    ensures ends { Ends (record {
      took = Took S.left S.taken source.old source.new;
      at_end = IsAtEnd (S.left source.new);
      wrote = Appends (K.written sink.old) (K.written sink.new);
      handed = map (counts_on D.medium) disks.items;
      found = Encodes bodies.now;
      images = J.medium.may_leave (disk_of journal.new);
    }) result }
    ensures source_faults { SourceCounts result (record { before = S.faults source.old; after = S.faults source.new }) }
    ensures sink_faults { SinkCounts result
        (record { before = K.faults sink.old; after = K.faults sink.new })
        (record { before = K.empties sink.old; after = K.empties sink.new }) }
    ensures disk_faults { DiskCounts result
        (record { before = J.medium.faults (disk_of journal.old); after = J.medium.faults (disk_of journal.new) }) }
{
    let Past { text, pieces } = match past_of(alloc, bodies) {
        Ok(past) => past,
        Err(status) => return status,
    };
    let input = match read_input(alloc, source, &text) {
        Ok(input) => input,
        Err(fault) => return refuse(alloc, fault, &text, sink),
    };
    match journal.append(&input.text) {
        Ok(()) => play(alloc, &input.events, pieces, journal, sink, disks),
        Err(fault) => Status::from(fault),
    }
}
