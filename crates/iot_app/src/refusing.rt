//! Saying why there is no job, or why it has no events.
ghost use Rattle.std.specs.Prelude.{◌≡◌, IfOk};
ghost use Rattle.std.specs.Io.KnownBytes.{Appends};
ghost use Rattle.iot_app.specs.Job.{WordsEnd, RefusalEnds};
ghost use Rattle.iot_app.specs.Refusals.{fault_line, refusal_line};

use crate::input::InputFault;
use crate::status::Status;
use crate::writing::write_text;
use iot_event::EventFault;
use iot_io::Sink;
use iot_text::{NoMemory, Text};
use iot_words::WordsFault;
use std::alloc::Global;

/// What a faulty command line is answered with.
const USAGE: &[u8] = b"usage: iot [--json | --gen N | --save | --image | --upgrade | --audit]\n";

/// Says how the program is called, if the words are faulty.
pub(crate) fn refuse_words<K: Sink>(fault: WordsFault, sink: &mut K) -> Status
    ensures { WordsEnd fault result
        (Appends (K.written sink.old) (K.written sink.new))
        (record { before = K.faults sink.old; after = K.faults sink.new })
        (record { before = K.empties sink.old; after = K.empties sink.new }) }
{
    match fault {
        WordsFault::NoMemory => Status::NoMemory,
        WordsFault::Refused => write_text(sink, USAGE, Status::Usage),
    }
}

/// Says why there are no events.
pub(crate) fn refuse<K: Sink>(alloc: Global, fault: InputFault, sink: &mut K) -> Status
    ensures { RefusalEnds fault result
        (Appends (K.written sink.old) (K.written sink.new))
        (record { before = K.faults sink.old; after = K.faults sink.new })
        (record { before = K.empties sink.old; after = K.empties sink.new }) }
{
    match fault {
        InputFault::NoMemory => Status::NoMemory,
        InputFault::Failed => Status::ReadFailed,
        InputFault::TooLong => write_text(sink, b"input too long\n", Status::Refused),
        InputFault::NoScript(fault) => match refusal_line(alloc, &fault) {
            Ok(text) => write_text(sink, text.as_bytes(), Status::Refused),
            Err(_) => Status::NoMemory,
        },
    }
}

/// What is wrong in a line.
fn fault_line(alloc: Global, number: u64, what: &[u8]) -> Result<Text, NoMemory>
    ensures { IfOk result (λ text. text ≡ fault_line number what.now) }
{
    let mut text = Text::new(alloc);
    text.append(b"line ")?;
    text.append_number(number)?;
    text.append(b": ")?;
    text.append(what)?;
    text.push(b'\n')?;
    Ok(text)
}

/// The line that says why an input is no event script: it names the fault of the first bad line, and ends with a newline. Running out of
/// memory is no fault of a line, and says nothing.
///
/// Fails if memory runs out.
pub fn refusal_line(alloc: Global, fault: &EventFault) -> Result<Text, NoMemory>
    ensures { IfOk result (λ text. text ≡ refusal_line fault.now) }
{
    match fault {
        EventFault::NoMemory => Ok(Text::new(alloc)),
        EventFault::BadLine { line } => fault_line(alloc, *line, b"bad line"),
        EventFault::UnknownName { line } => fault_line(alloc, *line, b"unknown name"),
        EventFault::Twice { line } => fault_line(alloc, *line, b"named twice"),
        EventFault::TooMany { line } => fault_line(alloc, *line, b"too many"),
        EventFault::BadStatement { line } => fault_line(alloc, *line, b"bad statement"),
        EventFault::TooDeep { line } => fault_line(alloc, *line, b"nested too deep"),
    }
}
