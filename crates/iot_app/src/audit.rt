//! Auditing an image of a server's disk against an event script.
ghost use Rattle.std.specs.Prelude.{◌≡◌, IfOk, IfErr};
ghost use Rattle.std.specs.Io.KnownBytes.{Appends, IsAtEnd};
ghost use Rattle.iot_io.specs.ReadAll.{Took};
ghost use Rattle.iot_app.specs.Auditing.{AuditTells, IsRefusal, RefusedEnds};
ghost use Rattle.iot_app.specs.Audits.{Audited, Passes};
ghost use Rattle.iot_app.specs.Status.{SinkCounts, SourceCounts};

use crate::audit_lines::{audit_line, audited_line};
use crate::image::IMAGE_LIMIT;
use crate::input::{INPUT_LIMIT, InputFault};
use crate::parts::{PartsFault, parts_of};
use crate::refusing::refuse;
use crate::status::Status;
use crate::writing::write_text;
use iot_audit::{AuditFault, audit};
use iot_event::{EventFault, parse};
use iot_io::{Sink, Source, read_all};
use std::alloc::Global;

/// How many bytes the input of an audit has at most.
pub(crate) const AUDIT_LIMIT: usize = 8 + INPUT_LIMIT + IMAGE_LIMIT;

/// Why the input of an audit is refused.
#[derive(Debug, Drop)]
pub(crate) enum Refusal {
    /// A part is over its limit, or the script is none; or memory ran out.
    Input(InputFault),

    /// The input ends in the number or in the script.
    Short,

    /// The image is not what the script makes.
    Image(AuditFault),
}

impl From<PartsFault> for Refusal {
    ghost use Rattle.std.specs.Prelude.{◌≡◌};
    ghost use Rattle.iot_app.specs.AuditFaults.{of_parts};

    ghost from_gives = { λ parts refusal. refusal ≡ of_parts parts };

    fn from(fault: PartsFault) -> Refusal {
        match fault {
            PartsFault::TooLong => Refusal::Input(InputFault::TooLong),
            PartsFault::Short => Refusal::Short,
        }
    }
}

impl From<EventFault> for Refusal {
    ghost use Rattle.std.specs.Prelude.{◌≡◌};
    ghost use Rattle.iot_app.specs.AuditFaults.{of_script};

    ghost from_gives = { λ parsed refusal. refusal ≡ of_script parsed };

    fn from(fault: EventFault) -> Refusal {
        Refusal::Input(InputFault::from(fault))
    }
}

impl From<AuditFault> for Refusal {
    ghost use Rattle.std.specs.Prelude.{◌≡◌};
    ghost use Rattle.iot_app.specs.declared.audit.Refusal.TheVariants.{Image};

    ghost from_gives = { λ fault refusal. refusal ≡ Image fault };

    fn from(fault: AuditFault) -> Refusal {
        Refusal::Image(fault)
    }
}

/// Reads the source to its end as the input of an audit, and writes how many commits its image has, or the line that says why the input is
/// refused.
pub(crate) fn audit_source<S: Source, K: Sink>(
    alloc: Global,
    source: &mut S,
    sink: &mut K,
) -> Status
    ensures audited { Audited (Took S.left S.taken source.old source.new) (IsAtEnd (S.left source.new))
        (Appends (K.written sink.old) (K.written sink.new)) result }
    ensures source_faults { SourceCounts result (record { before = S.faults source.old; after = S.faults source.new }) }
    ensures sink_faults { SinkCounts result
        (record { before = K.faults sink.old; after = K.faults sink.new })
        (record { before = K.empties sink.old; after = K.empties sink.new }) }
{
    match read_all(alloc, source, AUDIT_LIMIT) {
        Ok(input) => audit_input(alloc, &input, sink),
        Err(fault) => refuse(alloc, InputFault::from(fault), sink),
    }
}

/// Audits this input, and writes what comes of it.
fn audit_input<K: Sink>(alloc: Global, input: &[u8], sink: &mut K) -> Status
    ensures { AuditTells input.now result
        (Appends (K.written sink.old) (K.written sink.new))
        (record { before = K.faults sink.old; after = K.faults sink.new })
        (record { before = K.empties sink.old; after = K.empties sink.new }) }
{
    match commits_in(alloc, input) {
        Ok(number) => match audited_line(alloc, number) {
            Ok(text) => write_text(sink, text.as_bytes(), Status::Done),
            Err(_) => Status::NoMemory,
        },
        Err(refusal) => refuse_audit(alloc, refusal, sink),
    }
}

/// How many commits the image of this input has, if it is what the script makes.
fn commits_in(alloc: Global, input: &[u8]) -> Result<u64, Refusal>
    ensures passes { IfOk result (Passes input.now) }
    ensures refused { IfErr result (IsRefusal input.now) }
{
    let parts = parts_of(input)?;
    let events = parse(alloc, parts.script)?;
    Ok(audit(alloc, &events, parts.image)?)
}

/// Says why an input is refused.
fn refuse_audit<K: Sink>(alloc: Global, refusal: Refusal, sink: &mut K) -> Status
    ensures { RefusedEnds refusal result
        (Appends (K.written sink.old) (K.written sink.new))
        (record { before = K.faults sink.old; after = K.faults sink.new })
        (record { before = K.empties sink.old; after = K.empties sink.new }) }
{
    match refusal {
        Refusal::Input(fault) => refuse(alloc, fault, sink),
        Refusal::Short => write_text(sink, b"audit: short\n", Status::Refused),
        Refusal::Image(AuditFault::NoMemory) => Status::NoMemory,
        Refusal::Image(fault) => match audit_line(alloc, &fault) {
            Ok(text) => write_text(sink, text.as_bytes(), Status::Refused),
            Err(_) => Status::NoMemory,
        },
    }
}
