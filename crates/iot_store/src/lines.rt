//! The lines that the records on a server's disk keep.
ghost use Rattle.std.specs.Prelude.{◌≡◌, IfOk};
ghost use Rattle.iot_slots.specs.Decoding.{decoded};
ghost use Rattle.iot_slots.specs.declared.version.Version.{Version as VersionValue};
ghost use Rattle.iot_store.specs.Images.{HasRecorded, HaveLines};
ghost use Rattle.iot_store.specs.Records.{AreRecords, IsRecordIn};
ghost use Rattle.iot_store.specs.Rules.{header};
ghost use Rattle.iot_store.specs.Standing.{StandFor};
ghost use Rattle.iot_store.specs.States.{State};
ghost use Rattle.iot_store.specs.declared.commit.Commit.{Commit as CommitValue};

use crate::commits::Commits;
use crate::records::lend_new;
use iot_durable::Recorded;
use iot_records::RecordViews;
use iot_slots::SlotsView;
use iot_text::{NoMemory, Text};
use iot_tree::{Lines, Sequence};
use iot_views::LineViews;
use std::alloc::Global;

/// The lines of each record behind the checkpoint in force, in order, if these bytes stand for a state. They are copied.
pub(crate) fn recorded_lines(alloc: Global, bytes: &[u8]) -> Result<Sequence<Lines>, NoMemory>
    requires { (state : State) × StandFor bytes.now state }
    ensures { IfOk result (HasRecorded (decoded header bytes.now)) }
{
    match SlotsView::of(&Commits::header(), bytes) {
        Ok(Some(view)) => lines_of_all(alloc, view.records),
        Ok(None) => Ok(Sequence::new(alloc)),
        // The bytes stand for a state, so that only memory can be lacking.
        Err(_) => Err(NoMemory),
    }
}

/// The lines of each of these records, in order.
fn lines_of_all(alloc: Global, records: RecordViews<'_>) -> Result<Sequence<Lines>, NoMemory>
    ensures { (version : VersionValue) → AreRecords version records.entry → IfOk result (HaveLines version records.entry) }
{
    let mut recorded = Sequence::new(alloc);
    for body in records {
        recorded.push(lines_of(alloc, body)?)?;
    }
    Ok(recorded)
}

/// What the commit printed whose record the body is, in either version, since a record of version 1 is also one of version 2. The body
/// of no record has no lines.
fn lines_of(alloc: Global, body: &[u8]) -> Result<Lines, NoMemory>
    ensures { (version : VersionValue) (commit : CommitValue) → IsRecordIn version body.now commit
        → IfOk result (λ lines. lines ≡ commit.lines) }
{
    match lend_new(body) {
        Some(commit) => copied(alloc, commit.lines()),
        None => Ok(Sequence::new(alloc)),
    }
}

/// The same lines in memory of their own.
fn copied(alloc: Global, lines: LineViews<'_>) -> Result<Lines, NoMemory>
    ensures { IfOk result (λ copy. copy ≡ lines.entry) }
{
    let mut copy = Sequence::new(alloc);
    for line in lines {
        copy.push(Text::from(line.to_vec(alloc)?))?;
    }
    Ok(copy)
}
