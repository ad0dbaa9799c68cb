//! The input: the events that are left in the source.
ghost use Rattle.std.specs.Prelude.{◌≡◌, [], IfOk, IfErr, OnOk};
ghost use Rattle.std.specs.Io.KnownBytes.{IsAtEnd};
ghost use Rattle.iot_io.specs.ReadAll.{Took};
ghost use Rattle.iot_event.specs.Declarations.{AreDeclared};
ghost use Rattle.iot_event.specs.Events.{Events};
ghost use Rattle.iot_app.specs.Input.{TookInput, TookFor, InputCounts};

use iot_event::{Event, EventFault, parse};
use iot_io::{ReadFault, Source, read_all};
use std::alloc::Global;

/// How many bytes an input has at most.
pub const INPUT_LIMIT: usize = 4_194_304;

/// Why there are no events.
#[derive(Debug, Drop)]
pub(crate) enum InputFault {
    /// Memory ran out.
    NoMemory,

    /// A read failed.
    Failed,

    /// The input is over its limit.
    TooLong,

    /// It is no event script, by this fault of its first bad line.
    NoScript(EventFault),
}

impl From<ReadFault> for InputFault {
    ghost use Rattle.std.specs.Prelude.{◌≡◌};
    ghost use Rattle.iot_app.specs.InputFaults.{of_reading};

    ghost from_gives = { λ read fault. fault ≡ of_reading read };

    fn from(fault: ReadFault) -> InputFault {
        match fault {
            ReadFault::NoMemory => InputFault::NoMemory,
            ReadFault::Failed => InputFault::Failed,
            ReadFault::TooLong => InputFault::TooLong,
        }
    }
}

impl From<EventFault> for InputFault {
    ghost use Rattle.std.specs.Prelude.{◌≡◌};
    ghost use Rattle.iot_app.specs.InputFaults.{of_parsing};

    ghost from_gives = { λ parsed fault. fault ≡ of_parsing parsed };

    fn from(fault: EventFault) -> InputFault {
        match fault {
            EventFault::NoMemory => InputFault::NoMemory,
            fault => InputFault::NoScript(fault),
        }
    }
}

/// Reads the source to its end, and its events.
pub(crate) fn read_events<S: Source>(
    alloc: Global,
    source: &mut S,
) -> Result<Vec<Event>, InputFault>
    ensures events { IfOk result (λ events.
        TookInput (Took S.left S.taken source.old source.new) (IsAtEnd (S.left source.new)) (Events events.items)) }
    ensures declared { IfOk result (λ events. AreDeclared events.items 0 []) }
    ensures none { IfErr result (λ fault.
        TookFor fault (Took S.left S.taken source.old source.new) (IsAtEnd (S.left source.new))) }
    ensures steady { OnOk result (S.faults source.new ≡ S.faults source.old) }
    ensures cause { IfErr result (λ fault.
        InputCounts fault (record { before = S.faults source.old; after = S.faults source.new })) }
{
    let input = read_all(alloc, source, INPUT_LIMIT)?;
    Ok(parse(alloc, &input)?)
}
