//! Which bytes a write since the last sync covered.
ghost use Rattle.std.specs.Prelude.{◌≡◌, ◌≤◌, ◌-◌, ◌++◌, [], ℕ, true, false, length, replicate, OnOk, OnErr};
ghost use Rattle.iot_disk.specs.Disk.{overwritten};
ghost use Rattle.iot_disk.specs.Unsynced.{Hold, IsIn, TakeIn, AreAlike, Clears, Covers};

use std::alloc::{AllocError, Global};
use std::marker::Model;

/// A part of a disk: from a place on, up to another.
#[derive(Clone, Copy, Debug, PartialEq, Eq)]
pub struct Span {
    pub start: usize,
    pub end: usize,
}

impl Span {
    const EMPTY: Span = Span { start: 0, end: 0 };
}

/// A mark for each byte of a disk that was there at the last sync, in a form whose use costs as much as was marked.
///
/// A byte that was not there is marked without one. Each mark lies in a span that was covered. If there is no memory for
/// one more span, `rest` takes it in.
#[derive(Debug, Drop)]
pub struct Unsynced {
    marks: Vec<bool>,
    spans: Vec<Span>,
    rest: Span,
}

impl Model for Unsynced {
    ghost use Rattle.std.specs.Prelude.{vec_capacity};
    ghost use Rattle.iot_disk.specs.Unsynced.{Marks, Hold};

    ghost Value = { Marks };

    ghost view = { λ u. record { known = u.marks.items; room = vec_capacity u.marks } };

    ghost invariant = { λ u. Hold u.spans.items u.rest u.marks.items };
}

impl Unsynced {
    /// For an empty disk. Does not allocate.
    pub fn new(alloc: Global) -> Self
        ensures { result.known ≡ [] }
    {
        Unsynced {
            marks: Vec::new(alloc),
            spans: Vec::new(alloc),
            rest: Span::EMPTY,
        }
    }

    /// Makes room for the marks of a disk of `count` bytes.
    pub fn reserve(&mut self, count: usize) -> Result<(), AllocError>
        requires { length self.old.known ≤ count }
        ensures known { self.new.known ≡ self.old.known }
        ensures more { self.old.room ≤ self.new.room }
        ensures ok { OnOk result (count ≤ self.new.room) }
        ensures err { OnErr result (self.new ≡ self.old) }
    {
        self.marks.reserve(count - self.marks.len())
    }

    /// Marks a span. It takes memory if there is some, and does without if there is none.
    pub fn cover(&mut self, span: Span)
        requires { span.start ≤ span.end }
        ensures covers { Covers span self.old.known self.new.known }
        ensures room { self.new.room ≡ self.old.room }
    {
        let known = self.marks.len();
        if span.start < known {
            let inside = Span {
                start: span.start,
                end: span.end.min(known),
            };
            note(&mut self.spans, &mut self.rest, inside);
            mark(&mut self.marks, inside);
        }
    }

    /// The marks, one for each byte that was there at the last sync.
    pub fn marks(&self) -> &[bool]
        ensures { result.now ≡ self.now.known }
    {
        &self.marks
    }

    /// Copies the bytes that are marked, of those that were there at the last sync, and takes their marks away.
    pub fn sync(&mut self, written: &[u8], synced: &mut [u8])
        requires written { length written.now ≡ length self.old.known }
        requires synced { length synced.old ≡ length self.old.known }
        requires alike { AreAlike self.old.known synced.old written.now }
        ensures synced { synced.new ≡ written.now }
        ensures marks { self.new.known ≡ replicate (length self.old.known) false }
        ensures room { self.new.room ≡ self.old.room }
    {
        sync_spans(&self.spans, self.rest, written, synced, &mut self.marks);
        self.spans.clear();
        self.rest = Span::EMPTY;
    }

    /// Has a mark from now on for each of `count` bytes, and sets no new one.
    pub fn lengthen(&mut self, count: usize)
        requires known { length self.old.known ≤ count }
        requires room { count ≤ self.old.room }
        ensures known { self.new.known
            ≡ self.old.known ++ replicate (count - length self.old.known) false }
        ensures room { self.old.room ≤ self.new.room }
    {
        self.marks.resize(count, false).unwrap();
    }

    /// Has no mark from now on, for a disk of `count` bytes that are all synced.
    pub fn clear(&mut self, count: usize)
        requires { count ≤ self.old.room }
        ensures known { self.new.known ≡ replicate count false }
        ensures room { self.old.room ≤ self.new.room }
    {
        self.marks.clear();
        self.spans.clear();
        self.rest = Span::EMPTY;
        self.lengthen(count);
    }
}

/// Sets the marks of a span.
fn mark(marks: &mut [bool], span: Span)
    requires ordered { span.start ≤ span.end }
    requires inside { span.end ≤ length marks.old }
    ensures { marks.new
        ≡ overwritten marks.old span.start (replicate (span.end - span.start) true) }
{
    marks[span.start..span.end].fill(true);
}

/// Takes a span in, by itself or, if there is no memory for it, in the rest.
fn note(spans: &mut Vec<Span>, rest: &mut Span, span: Span)
    ensures { TakeIn span spans.old.items rest.old spans.new.items rest.new }
{
    match spans.push(span) {
        Ok(()) => (),
        Err(_) => *rest = joined(*rest, span),
    }
}

/// The span from the start of the first of the two to the end of the last.
fn joined(one: Span, other: Span) -> Span
    ensures one { (k : ℕ) → IsIn one k → IsIn result k }
    ensures other { (k : ℕ) → IsIn other k → IsIn result k }
{
    if one.end <= one.start {
        return other;
    }
    Span {
        start: one.start.min(other.start),
        end: one.end.max(other.end),
    }
}

/// Syncs one span after another, and the rest.
fn sync_spans(spans: &[Span], rest: Span, written: &[u8], synced: &mut [u8], marks: &mut [bool])
    requires written { length written.now ≡ length marks.old }
    requires synced { length synced.old ≡ length marks.old }
    requires alike { AreAlike marks.old synced.old written.now }
    requires hold { Hold spans.now rest marks.old }
    ensures synced { synced.new ≡ written.now }
    ensures marks { marks.new ≡ replicate (length marks.old) false }
{
    for span in spans {
        sync_span(*span, written, synced, marks);
    }
    sync_span(rest, written, synced, marks);
}

/// Copies the bytes of a span, and takes its marks away.
fn sync_span(span: Span, written: &[u8], synced: &mut [u8], marks: &mut [bool])
    requires written { length written.now ≡ length marks.old }
    requires synced { length synced.old ≡ length marks.old }
    requires alike { AreAlike marks.old synced.old written.now }
    ensures synced { length synced.new ≡ length synced.old }
    ensures alike { AreAlike marks.new synced.new written.now }
    ensures marks { Clears span marks.old marks.new }
{
    let end = span.end.min(marks.len());
    let start = span.start.min(end);
    synced[start..end].copy_from_slice(&written[start..end]);
    marks[start..end].fill(false);
}
