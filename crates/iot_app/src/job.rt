//! The program as one call.
ghost use Rattle.std.specs.Prelude.{◌≡◌, map};
ghost use Rattle.std.specs.Io.KnownBytes.{Appends, IsAtEnd};
ghost use Rattle.iot_io.specs.ReadAll.{Took};
ghost use Rattle.iot_world.specs.Disks.{AreFresh, counts_on};
ghost use Rattle.iot_app.specs.Keeping.{DisksKeep, DisksKeepUnread, DisksStay};
ghost use Rattle.iot_app.specs.Endings.{Ends, JobEnds, RunEnds};
ghost use Rattle.iot_app.specs.Saving.{server_reads};
ghost use Rattle.iot_app.specs.Status.{HasStatus, SourceCounts, SinkCounts};

use crate::audit::audit_source;
use crate::doing::do_events;
use crate::events::events_of;
use crate::image::{Telling, show_source};
use crate::refusing::{refuse, refuse_words};
use crate::status::Status;
use iot_disk::Disk;
use iot_io::{Sink, Source};
use iot_words::{Job, Run, read_words};
use std::alloc::Global;

/// How a run ended: the status of the process, and the disks that were handed in.
#[derive(Drop)]
pub struct Outcome<D> {
    /// What the process ends with.
    pub status: u8,

    /// In the order in which they were handed in.
    pub disks: Vec<D>,
}

/// Runs the program: does the job that `words`, the words of the command line after the program's name, name.
///
/// - No word: reads the source to its end as an event script, does its events, and writes what they say, each event's text by one
///   `write_all`.
/// - `--json`: does the same events, and writes only what all nodes hold then, as JSON, and a newline.
/// - `--save`: does the same events, and writes only the bytes that the server's disk reads as then, which it reads by one device call.
///   That is the first disk, or the last if the backup was promoted.
/// - `--gen N`, with a number of at most 1,000,000: reads nothing, does the events of the text that is generated from it, and writes
///   four lines: how many commits, conflicts and waiting transactions the events said, and how many rows the server's tree has.
/// - `--image`: reads the source to its end as an image of a server's disk, as `--save` writes one, and writes the tree and the commits of
///   the state for which it stands, as the events `show server` and `log` print them. An image that is not started is that of a server
///   without a commit. A client goes by its place, 0 to 7, since an image holds no names. No disk is touched.
/// - `--upgrade`: reads the source in the same way, and writes the bytes of a disk that stands for the same state, in version 2: one that
///   was just started with a checkpoint of it, after as many records. What it writes is upgraded into itself. No disk is touched.
/// - `--audit`: reads the source to its end as a number of 8 bytes, most significant first, an event script of that many bytes, and an
///   image. Writes how many commits the image has, if the events make it: they declare each commit's script; these scripts, run alone in
///   the order of the commits, make the tree of the image; and they print then what its records say. No disk is touched.
///
/// Of the ten disks, which are empty and come back, the first is the server's and the last its backup's, and the client at place i, counted
/// from 0 in order of declaration, has disk i + 1. Since the backup was promoted the server's disk is the last, and the first is given up.
///
/// # Statuses
///
/// - 0: the input was read to its end and is an event script, or none is read; all events were done, and the whole output was written. Or
///   an image was read to its end, and all that it is written as was written; or the line was that says that the events make it.
/// - 1: the input has more than 4,194,304 bytes, or was read to its end and is no event script; or an image has more than 268,435,456
///   bytes, or was read to its end and is foreign or damaged; or the input of an audit has an event script or an image over these limits,
///   or was read to its end and is cut short, has no event script, or an image that the events do not make. One line that says so was
///   written.
/// - 2: the words name no job, or two. Nothing was read, and the usage line was written.
/// - 3: a read failed. Nothing was written.
/// - 4: a write failed, or took nothing. A front of what there was to say was written. If that is a transcript, the input
///   was read to its end, and the event whose text was cut is the last that was done, or none was done if the text of the opening was cut;
///   another job has done all its events then.
/// - 5: memory ran out. Nothing was written; or a transcript is wanted, the input was read to its end, and what its first events say was
///   written.
/// - 6: the server's disk could not be read to be saved. All events were done, and nothing was written.
///
/// A disk that fails ends no run: its node stops, which is a line of the transcript, and is down until it is restarted. The server stops if
/// either of its disks fails, and comes back by a restart from both, or by a promotion from the last alone.
///
/// # The disks
///
/// If the words name no job or an image is read, or the input is refused or was not read to its end, the disks are as they were, whatever
/// the status.
///
/// Else, with the statuses 0, 4 and 6, the first disk and the last hold the commits, and the disk of each client what it keeps, whichever
/// of its images a crash leaves; if a record of a client is in doubt, without it or with it. If a commit is in doubt, then whichever two
/// images a crash leaves of the first disk and the last, both hold the commits without it, or they stand together for the commits with it:
/// the first holds these, and so does the last, or it lacks that commit alone, whose record is the first one's last, and before which no
/// checkpoint is due on the last. Since the backup was promoted the last disk holds the commits, without one that is in doubt or with it,
/// and nothing is said of the first, which was given up.
///
/// That is so after all events; or, if a transcript was cut, after the event whose text was cut, or after the opening, if its text was. The
/// disks that no client has are as they were. The count of faults of a node's disk rises in each event in which the node stops, in the
/// opening if the server stops there, with status 6 once more, and at no other time; that of the server is the sum of those of its two
/// disks, also if one was given up. A disk is armed by the `stop` events of its node alone: the first by `stop server` until the backup is
/// promoted; the last by `stop backup`, and from then on by `stop server` too.
///
/// With status 5 the disks are as they were; or some events were done, and memory ran out in the next one, or after them. No disk was
/// armed but by those that were done, and each has failed as often as after them, or more often, the server's two together. Whichever of
/// its images a crash leaves, the last disk holds the commits that the server had after them, in their order, and so does the first,
/// unless one of them was a promotion, or the next one is; behind these may be more. The disks of the clients that are not declared by
/// them, or by the next one, are as they were.
pub fn run<S: Source, K: Sink, D: Disk>(
    alloc: Global,
    words: &[&str],
    source: &mut S,
    sink: &mut K,
    disks: Vec<D>,
) -> Outcome<D>
    requires { AreFresh D.medium disks.items }

    // What was read and written and what the disks hold, by the words and the status.
    ensures ends { HasStatus result.status (Ends (map (λ word. word.now) words.now) (record {
      took = Took S.left S.taken source.old source.new;
      at_end = IsAtEnd (S.left source.new);
      wrote = Appends (K.written sink.old) (K.written sink.new);
      handed = map (counts_on D.medium) disks.items;
      holds = DisksKeep D.medium disks.items result.disks.items;
      unread = DisksKeepUnread D.medium disks.items result.disks.items;
      stays = DisksStay D.medium disks.items result.disks.items;
      disk = server_reads D.medium result.disks.items;
      untouched = result.disks.items ≡ disks.items;
    })) }

    // A fault's status comes exactly when its count rose.
    ensures source_faults { HasStatus result.status (λ status.
        SourceCounts status (record { before = S.faults source.old; after = S.faults source.new })) }
    ensures sink_faults { HasStatus result.status (λ status. SinkCounts status
        (record { before = K.faults sink.old; after = K.faults sink.new })
        (record { before = K.empties sink.old; after = K.empties sink.new })) }
{
    let (status, disks) = status_of(alloc, words, source, sink, disks);
    Outcome {
        status: status.code(),
        disks,
    }
}

/// The same, with a status.
fn status_of<S: Source, K: Sink, D: Disk>(
    alloc: Global,
    words: &[&str],
    source: &mut S,
    sink: &mut K,
    disks: Vec<D>,
) -> (Status, Vec<D>)
    requires { AreFresh D.medium disks.items }
    ensures ends { Ends (map (λ word. word.now) words.now) (record {
      took = Took S.left S.taken source.old source.new;
      at_end = IsAtEnd (S.left source.new);
      wrote = Appends (K.written sink.old) (K.written sink.new);
      handed = map (counts_on D.medium) disks.items;
      holds = DisksKeep D.medium disks.items result.1.items;
      unread = DisksKeepUnread D.medium disks.items result.1.items;
      stays = DisksStay D.medium disks.items result.1.items;
      disk = server_reads D.medium result.1.items;
      untouched = result.1.items ≡ disks.items;
    }) result.0 }
    ensures source_faults { SourceCounts result.0 (record { before = S.faults source.old; after = S.faults source.new }) }
    ensures sink_faults { SinkCounts result.0
        (record { before = K.faults sink.old; after = K.faults sink.new })
        (record { before = K.empties sink.old; after = K.empties sink.new }) }
{
    match read_words(alloc, words) {
        Ok(job) => do_job(alloc, job, source, sink, disks),
        Err(fault) => (refuse_words(fault, sink), disks),
    }
}

/// Does a job.
fn do_job<S: Source, K: Sink, D: Disk>(
    alloc: Global,
    job: Job,
    source: &mut S,
    sink: &mut K,
    disks: Vec<D>,
) -> (Status, Vec<D>)
    requires { AreFresh D.medium disks.items }
    ensures ends { JobEnds (record {
      took = Took S.left S.taken source.old source.new;
      at_end = IsAtEnd (S.left source.new);
      wrote = Appends (K.written sink.old) (K.written sink.new);
      handed = map (counts_on D.medium) disks.items;
      holds = DisksKeep D.medium disks.items result.1.items;
      unread = DisksKeepUnread D.medium disks.items result.1.items;
      stays = DisksStay D.medium disks.items result.1.items;
      disk = server_reads D.medium result.1.items;
      untouched = result.1.items ≡ disks.items;
    }) job result.0 }
    ensures source_faults { SourceCounts result.0 (record { before = S.faults source.old; after = S.faults source.new }) }
    ensures sink_faults { SinkCounts result.0
        (record { before = K.faults sink.old; after = K.faults sink.new })
        (record { before = K.empties sink.old; after = K.empties sink.new }) }
{
    match job {
        Job::Run(run) => do_run(alloc, run, source, sink, disks),
        Job::Image => (show_source(alloc, Telling::Text, source, sink), disks),
        Job::Upgrade => (show_source(alloc, Telling::Disk, source, sink), disks),
        Job::Audit => (audit_source(alloc, source, sink), disks),
    }
}

/// Does events, and writes something of them.
fn do_run<S: Source, K: Sink, D: Disk>(
    alloc: Global,
    run: Run,
    source: &mut S,
    sink: &mut K,
    disks: Vec<D>,
) -> (Status, Vec<D>)
    requires { AreFresh D.medium disks.items }
    ensures ends { RunEnds (record {
      took = Took S.left S.taken source.old source.new;
      at_end = IsAtEnd (S.left source.new);
      wrote = Appends (K.written sink.old) (K.written sink.new);
      handed = map (counts_on D.medium) disks.items;
      holds = DisksKeep D.medium disks.items result.1.items;
      unread = DisksKeepUnread D.medium disks.items result.1.items;
      stays = DisksStay D.medium disks.items result.1.items;
      disk = server_reads D.medium result.1.items;
      untouched = result.1.items ≡ disks.items;
    }) run result.0 }
    ensures source_faults { SourceCounts result.0 (record { before = S.faults source.old; after = S.faults source.new }) }
    ensures sink_faults { SinkCounts result.0
        (record { before = K.faults sink.old; after = K.faults sink.new })
        (record { before = K.empties sink.old; after = K.empties sink.new }) }
{
    match events_of(alloc, run, source) {
        Ok(events) => do_events(alloc, run, &events, sink, disks),
        Err(fault) => (refuse(alloc, fault, sink), disks),
    }
}
