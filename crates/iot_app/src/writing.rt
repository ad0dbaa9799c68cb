//! Writing a text, with which a run ends.
ghost use Rattle.std.specs.Io.KnownBytes.{Appends};
ghost use Rattle.iot_app.specs.Job.{TextEnds};

use crate::status::Status;
use iot_io::{Sink, write_all};

/// Writes a text by one `write_all`, and ends with this status, or with the sink's fault.
pub(crate) fn write_text<K: Sink>(sink: &mut K, text: &[u8], status: Status) -> Status
    ensures { TextEnds status text.now result
        (Appends (K.written sink.old) (K.written sink.new))
        (record { before = K.faults sink.old; after = K.faults sink.new })
        (record { before = K.empties sink.old; after = K.empties sink.new }) }
{
    match write_all(sink, text) {
        Ok(()) => status,
        Err(_) => Status::WriteFailed,
    }
}
