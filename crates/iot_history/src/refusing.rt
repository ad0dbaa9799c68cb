//! Saying why an input is refused.
ghost use Rattle.std.specs.Prelude.{◌≡◌, length, IfOk};
ghost use Rattle.std.specs.Io.KnownBytes.{Appends};
ghost use Rattle.iot_lines.specs.Lines.{lines};
ghost use Rattle.iot_history.specs.Input.{after, told_after};
ghost use Rattle.iot_history.specs.Ending.{LineEnds, RefusalEnds};
ghost use Rattle.iot_history.specs.Status.{SinkCounts};

use crate::input::InputFault;
use crate::status::Status;
use iot_app::refusal_line;
use iot_event::EventFault;
use iot_io::{Sink, write_all};
use iot_lines::split_lines;
use iot_text::{NoMemory, Text};
use std::alloc::Global;

/// Says why there is no input after this text of the earlier ones.
pub(crate) fn refuse<K: Sink>(alloc: Global, fault: InputFault, past: &[u8], sink: &mut K) -> Status
    ensures ends { RefusalEnds past.now fault (Appends (K.written sink.old) (K.written sink.new)) result }
    ensures sink_faults { SinkCounts result
        (record { before = K.faults sink.old; after = K.faults sink.new })
        (record { before = K.empties sink.old; after = K.empties sink.new }) }
{
    match fault {
        InputFault::NoMemory => Status::NoMemory,
        InputFault::Failed => Status::ReadFailed,
        InputFault::TooLong => write_line(sink, b"input too long\n"),
        InputFault::NoScript(fault) => match told_after(alloc, past, fault) {
            Ok(line) => write_line(sink, line.as_bytes()),
            Err(_) => Status::NoMemory,
        },
    }
}

/// Writes the line that says why.
fn write_line<K: Sink>(sink: &mut K, line: &[u8]) -> Status
    ensures ends { LineEnds line.now (Appends (K.written sink.old) (K.written sink.new)) result }
    ensures sink_faults { SinkCounts result
        (record { before = K.faults sink.old; after = K.faults sink.new })
        (record { before = K.empties sink.old; after = K.empties sink.new }) }
{
    match write_all(sink, line) {
        Ok(()) => Status::Refused,
        Err(_) => Status::WriteFailed,
    }
}

/// The line that names the fault of the first bad line, counted after the lines of this text.
fn told_after(alloc: Global, past: &[u8], fault: EventFault) -> Result<Text, NoMemory>
    ensures { IfOk result (λ line. line ≡ told_after past.now fault) }
{
    refusal_line(alloc, &shifted(fault, count_lines(past)))
}

/// The same fault, with its line counted after so many earlier ones.
fn shifted(fault: EventFault, earlier: u64) -> EventFault
    ensures { result ≡ after earlier fault }
{
    match fault {
        EventFault::NoMemory => EventFault::NoMemory,
        EventFault::BadLine { line } => EventFault::BadLine {
            line: line.saturating_sub(earlier),
        },
        EventFault::UnknownName { line } => EventFault::UnknownName {
            line: line.saturating_sub(earlier),
        },
        EventFault::Twice { line } => EventFault::Twice {
            line: line.saturating_sub(earlier),
        },
        EventFault::TooMany { line } => EventFault::TooMany {
            line: line.saturating_sub(earlier),
        },
        EventFault::BadStatement { line } => EventFault::BadStatement {
            line: line.saturating_sub(earlier),
        },
        EventFault::TooDeep { line } => EventFault::TooDeep {
            line: line.saturating_sub(earlier),
        },
    }
}

/// How many lines a text has.
fn count_lines(text: &[u8]) -> u64
    ensures { result ≡ length (lines text.now) }
{
    split_lines(text).count() as u64
}
