//! Writing what is new.
ghost use Rattle.std.specs.Prelude.{◌≡◌, ◌++◌, [], ◌∷◌, true, if◌then◌else◌, OnOk, OnErr, IfErr};
ghost use Rattle.std.specs.Io.KnownBytes.{Appends};
ghost use Rattle.iot_journal.specs.Journal.{disk_of, bodies_on, IsSynced};
ghost use Rattle.iot_history.specs.Continuing.{PieceFails};
ghost use Rattle.iot_history.specs.Status.{ended, SinkCounts, DiskCounts};

use crate::status::Status;
use iot_disk::Disk;
use iot_io::{Sink, write_all};
use iot_journal::Journal;

/// The body that marks a piece as said.
const MARK: &[u8] = &[];

/// Writes a piece of the transcript by one `write_all` if it is new, after its mark is on the disk. A run that ends between the two has not
/// said the piece, and no later one says it.
pub(crate) fn write_new<J: Disk, K: Sink>(
    journal: &mut Journal<J>,
    sink: &mut K,
    is_new: bool,
    piece: &[u8],
) -> Result<(), Status>
    requires { IsSynced J.medium journal.old }
    ensures written { OnOk result
        (Appends (K.written sink.old) (K.written sink.new) (if is_new then piece.now else [])) }
    ensures marked { OnOk result
        (bodies_on J.medium journal.new ≡ bodies_on J.medium journal.old ++ (if is_new then [] ∷ [] else [])) }
    ensures synced { OnOk result (IsSynced J.medium journal.new) }
    ensures new { OnErr result (is_new ≡ true) }
    ensures fails { IfErr result (λ status. PieceFails (J.medium.may_leave (disk_of journal.new)) (bodies_on J.medium journal.old)
        (Appends (K.written sink.old) (K.written sink.new)) piece.now status) }
    ensures sink_faults { SinkCounts (ended result)
        (record { before = K.faults sink.old; after = K.faults sink.new })
        (record { before = K.empties sink.old; after = K.empties sink.new }) }
    ensures disk_faults { DiskCounts (ended result)
        (record { before = J.medium.faults (disk_of journal.old); after = J.medium.faults (disk_of journal.new) }) }
{
    if !is_new {
        return Ok(());
    }
    journal.append(MARK)?;
    write_all(sink, piece)?;
    Ok(())
}
