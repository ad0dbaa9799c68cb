//! Parsing event scripts.
ghost use Rattle.std.specs.Prelude.{◌≡◌, [], IfOk, IfErr};
ghost use Rattle.iot_event.specs.Events.{Gives, Outcome, Events};
ghost use Rattle.iot_event.specs.Declarations.{AreDeclared};
ghost use Rattle.iot_event.specs.Results.{HasFault, UnlessMemory};

use crate::declared::{Declared, Step};
use crate::event::Event;
use crate::fault::EventFault;
use iot_lines::split_line;
use std::alloc::Global;

/// Parses an event script: the events that it asks for, in order.
///
/// A line has at most `LINE_LIMIT` bytes; there are at most `CLIENT_LIMIT` clients, `SCRIPT_LIMIT` scripts and `PROFILE_LIMIT` profiles;
/// a line asks for at most `STEP_LIMIT` steps, and names running transactions with at most `TRANSACTION_LIMIT` as their number, and at
/// most the `READS_LIMIT`-th transaction that waits. A profile has at most `iot_tree::WISH_LIMIT` wishes, whose priorities are at most
/// `iot_tree::PRIORITY_LIMIT`, and a walk has at most `iot_tree::WALK_LIMIT` as its limit.
///
/// # Errors
///
/// The fault of the first bad line, exactly if there is one; `NoMemory` if memory runs out.
pub fn parse(alloc: Global, input: &[u8]) -> Result<Vec<Event>, EventFault>
    ensures events { IfOk result (λ events. Gives input.now (Events events.items)) }
    ensures declared { IfOk result (λ events. AreDeclared events.items 0 []) }
    ensures fault { IfErr result (HasFault input.now) }

    // An input gives one outcome, and that is the result unless memory runs out.
    ensures only { (outcome : Outcome) → Gives input.now outcome → UnlessMemory result outcome }
{
    let mut declared = Declared::new(alloc);
    let mut events = Vec::new(alloc);
    let mut number: u64 = 1;
    let mut rest = input;
    while let Some((line, later)) = split_line(rest) {
        let Step {
            event,
            later,
            number: next,
        } = declared.take(alloc, line, later, number)?;
        if let Some(event) = event {
            events.push(event)?;
        }
        rest = later;
        number = next;
    }
    Ok(events)
}
