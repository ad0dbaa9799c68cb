//! The events of a job.
ghost use Rattle.std.specs.Prelude.{◌≡◌, [], IfOk, IfErr, OnOk};
ghost use Rattle.std.specs.Io.KnownBytes.{IsAtEnd};
ghost use Rattle.iot_io.specs.ReadAll.{Took};
ghost use Rattle.iot_event.specs.Declarations.{AreDeclared};
ghost use Rattle.iot_event.specs.Events.{Gives, Events};
ghost use Rattle.iot_gen.specs.Generated.{generated};
ghost use Rattle.iot_app.specs.Input.{InputCounts};
ghost use Rattle.iot_app.specs.Job.{GivesNone};
ghost use Rattle.iot_app.specs.Outputs.{GivesEvents};

use crate::input::{InputFault, read_events};
use iot_event::{Event, EventFault, parse};
use iot_gen::generate;
use iot_io::Source;
use iot_text::NoMemory;
use iot_words::Run;
use std::alloc::Global;

/// The events of a job: those that are left in the source, or those of a generated text, for which nothing is read.
pub(crate) fn events_of<S: Source>(
    alloc: Global,
    job: Run,
    source: &mut S,
) -> Result<Vec<Event>, InputFault>
    ensures events { IfOk result (λ events.
        GivesEvents job (Took S.left S.taken source.old source.new) (IsAtEnd (S.left source.new)) events.items) }
    ensures declared { IfOk result (λ events. AreDeclared events.items 0 []) }
    ensures none { IfErr result (λ fault.
        GivesNone job fault (Took S.left S.taken source.old source.new) (IsAtEnd (S.left source.new))) }
    ensures steady { OnOk result (S.faults source.new ≡ S.faults source.old) }
    ensures cause { IfErr result (λ fault.
        InputCounts fault (record { before = S.faults source.old; after = S.faults source.new })) }
{
    match job {
        Run::Generate(number) => match generated_events(alloc, number) {
            Ok(events) => Ok(events),
            Err(NoMemory) => Err(InputFault::NoMemory),
        },
        Run::Transcript => read_events(alloc, source),
        Run::Json => read_events(alloc, source),
        Run::Save => read_events(alloc, source),
    }
}

/// The events of the text that is generated from this number.
fn generated_events(alloc: Global, number: u64) -> Result<Vec<Event>, NoMemory>
    ensures events { IfOk result (λ events. Gives (generated number) (Events events.items)) }
    ensures declared { IfOk result (λ events. AreDeclared events.items 0 []) }
{
    let text = generate(alloc, number)?;
    match parse(alloc, &text) {
        Ok(events) => Ok(events),
        Err(EventFault::NoMemory) => Err(NoMemory),
        Err(_) => unreachable!(),
    }
}
