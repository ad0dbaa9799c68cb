//! The new input.
ghost use Rattle.std.specs.Prelude.{◌≡◌, ◌++◌, [], IfOk, IfErr, OnOk};
ghost use Rattle.std.specs.Io.KnownBytes.{IsAtEnd};
ghost use Rattle.iot_io.specs.ReadAll.{Took};
ghost use Rattle.iot_event.specs.Declarations.{AreDeclared};
ghost use Rattle.iot_event.specs.Events.{Gives, Events};
ghost use Rattle.iot_event.specs.Results.{HasFault};
ghost use Rattle.iot_history.specs.Input.{InputCounts, TookText, TookFor};

use iot_app::INPUT_LIMIT;
use iot_event::{Event, EventFault, parse};
use iot_io::{ReadFault, Source, read_all};
use std::alloc::Global;

/// What a run is asked for.
#[derive(Drop)]
pub(crate) struct Input {
    /// The text that is recorded of it: the input, and a newline.
    pub(crate) text: Vec<u8>,

    /// Those of the earlier inputs and of this one.
    pub(crate) events: Vec<Event>,
}

/// Why there is no input.
#[derive(Debug, Drop)]
pub(crate) enum InputFault {
    /// Memory ran out.
    NoMemory,

    /// A read failed.
    Failed,

    /// The input is over its limit.
    TooLong,

    /// It is no event script after the earlier inputs, by this fault of the first bad line of all.
    NoScript(EventFault),
}

/// Reads the source to its end, and takes what it has as more lines after this text of the earlier inputs.
pub(crate) fn read_input<S: Source>(
    alloc: Global,
    source: &mut S,
    past: &[u8],
) -> Result<Input, InputFault>
    ensures text { IfOk result (λ input.
        TookText (Took S.left S.taken source.old source.new) (IsAtEnd (S.left source.new)) input.text.items) }
    ensures events { IfOk result (λ input. Gives (past.now ++ input.text.items) (Events input.events.items)) }
    ensures declared { IfOk result (λ input. AreDeclared input.events.items 0 []) }
    ensures none { IfErr result (λ fault.
        TookFor past.now fault (Took S.left S.taken source.old source.new) (IsAtEnd (S.left source.new))) }
    ensures steady { OnOk result (S.faults source.new ≡ S.faults source.old) }
    ensures cause { IfErr result (λ fault.
        InputCounts fault (record { before = S.faults source.old; after = S.faults source.new })) }
{
    let mut text = match read_all(alloc, source, INPUT_LIMIT) {
        Ok(text) => text,
        Err(ReadFault::NoMemory) => return Err(InputFault::NoMemory),
        Err(ReadFault::Failed) => return Err(InputFault::Failed),
        Err(ReadFault::TooLong) => return Err(InputFault::TooLong),
    };
    if text.push(b'\n').is_err() {
        return Err(InputFault::NoMemory);
    }
    match events_of(alloc, past, &text) {
        Ok(events) => Ok(Input { text, events }),
        Err(EventFault::NoMemory) => Err(InputFault::NoMemory),
        Err(fault) => Err(InputFault::NoScript(fault)),
    }
}

/// The events of two texts, one after the other.
fn events_of(alloc: Global, past: &[u8], text: &[u8]) -> Result<Vec<Event>, EventFault>
    ensures events { IfOk result (λ events. Gives (past.now ++ text.now) (Events events.items)) }
    ensures declared { IfOk result (λ events. AreDeclared events.items 0 []) }
    ensures none { IfErr result (λ fault. HasFault (past.now ++ text.now) fault) }
{
    let mut whole = Vec::new(alloc);
    whole.extend_from_slice(past)?;
    whole.extend_from_slice(text)?;
    parse(alloc, &whole)
}
