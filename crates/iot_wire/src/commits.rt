//! Requests that a transaction be committed, lent out of their bytes.
ghost use Rattle.std.specs.Prelude.{◌≡◌, slice_get, Some};
ghost use Rattle.iot_views.specs.Outcomes.{IsLent};
ghost use Rattle.iot_wire.specs.Decoding.{commit_at, request_at};
ghost use Rattle.iot_wire.specs.Lent.{IsLentWhole, request_of};
ghost use Rattle.iot_wire.specs.Messages.{whole};

use crate::Effects;
use crate::effects::read_effects;
use iot_text::NoMemory;
use iot_views::{
    AccessView, LabelView, LineViews, Malformed, fault_at, label_at, lines_at, tag_at,
};
use std::alloc::Global;
use std::marker::Model;

/// A request that a transaction be committed, lent out of its bytes. Contracts see it as its label, its access and its lines.
#[derive(Drop)]
pub struct CommitView<'a> {
    bytes: &'a [u8],
    /// Where the label is spelled, and then the others.
    at: usize,
    label: LabelView<'a>,
    access: AccessView<'a>,
    lines: LineViews<'a>,
}

impl<'a> Model for CommitView<'a> {
    ghost use Rattle.iot_wire.specs.Submissions.{Submission};

    ghost Value = { Submission };

    ghost use Rattle.iot_views.specs.Seen.{label_seen};
    ghost use Rattle.iot_wire.specs.Lent.{IsCommitAt};

    ghost view = { λ commit. (label_seen commit.label, (commit.access, commit.lines)) };

    ghost invariant = { λ commit. IsCommitAt commit.bytes.now commit.at (label_seen commit.label, (commit.access, commit.lines)) };
}

impl<'a> CommitView<'a> {
    ghost use Rattle.std.specs.Prelude.{◌≡◌, slice_get, Some, Err, IfOk};
    ghost use Rattle.iot_views.specs.Seen.{label_seen};
    ghost use Rattle.iot_views.specs.declared.parts.Malformed.{Malformed as Fault};
    ghost use Rattle.iot_wire.specs.Decoding.{request_at};
    ghost use Rattle.iot_wire.specs.Lent.{IsLentWhole, request_of};
    ghost use Rattle.iot_wire.specs.Messages.{whole};

    /// Lends the commit that the bytes ask for. Takes no memory.
    ///
    /// # Errors
    ///
    /// `Malformed` exactly if they are the spelling of no request for a commit: `at` is the first fault from the left, or the offset
    /// of the first byte that is left after it.
    pub fn of(bytes: &'a [u8]) -> Result<CommitView<'a>, Malformed>
        // With the tag of a commit they are lent or refused as they are read.
        ensures commit { slice_get bytes.now 0 ≡ Some 2 → IsLentWhole request_of result (whole request_at bytes.now) }

        // With another or with none, as a refresh has, they are refused at the tag.
        ensures other { (slice_get bytes.now 0 ≡ Some 2 → ⊥) → result ≡ Err (record { at = 0 }) }
    {
        match tag_at(bytes, 0) {
            Some(2) => of_commit(bytes),
            _ => Err(fault_at(0)),
        }
    }

    /// Whose commit it is, and of which run.
    pub fn label(&self) -> LabelView<'a>
        ensures { label_seen result ≡ self.now.0 }
    {
        self.label.again()
    }

    /// What the run asked of the tree before it, and its updates.
    pub fn access(&self) -> AccessView<'a>
        ensures { result ≡ self.now.1.0 }
    {
        self.access.again()
    }

    /// What the commit changes, in memory of its own. Its base reads and its lines are not copied.
    pub fn copy_effects(&self, alloc: Global) -> Result<Effects, NoMemory>
        ensures label { IfOk result (λ made. made.label ≡ self.now.0) }
        ensures updates { IfOk result (λ made. made.updates ≡ self.now.1.0.updates) }
    {
        match read_effects(alloc, self.bytes, self.at) {
            Ok((effects, _)) => Ok(effects),
            // A commit is spelled there, so that only memory can be lacking.
            Err(_) => Err(NoMemory),
        }
    }

    /// What the run printed.
    pub fn lines(&self) -> LineViews<'a>
        ensures { result ≡ self.now.1.1 }
    {
        self.lines.again()
    }
}

/// Lends the commit that the bytes ask for, which have its tag.
#[tactic(auto, unfolding(crate::specs::Decoding::request_at))]
fn of_commit(bytes: &[u8]) -> Result<CommitView<'_>, Malformed>
    requires { slice_get bytes.now 0 ≡ Some 2 }
    ensures { IsLentWhole request_of result (whole request_at bytes.now) }
{
    let (commit, end) = commit_after(bytes, 1)?;
    if end != bytes.len() {
        return Err(fault_at(end));
    }
    Ok(commit)
}

/// Lends what follows the tag of a commit.
#[tactic(auto, unfolding(crate::specs::Decoding::commit_at))]
pub(crate) fn commit_after(bytes: &[u8], start: usize) -> Result<(CommitView<'_>, usize), Malformed>
    ensures { IsLent request_of result (commit_at bytes.now start) }
{
    let (label, at) = label_at(bytes, start)?;
    let (access, at) = AccessView::at(bytes, at)?;
    let (lines, end) = lines_at(bytes, at)?;
    let commit = CommitView {
        bytes,
        at: start,
        label,
        access,
        lines,
    };
    Ok((commit, end))
}
