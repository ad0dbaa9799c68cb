//! Accesses.
ghost use Rattle.iot_views.specs.Outcomes.{IsLent};
ghost use Rattle.iot_views.specs.Decoding.{base_at, bases_at, parted};
ghost use Rattle.iot_views.specs.Loose.{base_again};
ghost use Rattle.iot_views.specs.Laws.{each, base_looser};
ghost use Rattle.iot_views.specs.Seen.{base_seen};

use crate::lists::{Lent, Views, lend_items};
use crate::parts::{Malformed, number_at};
use crate::questions::{AnswerView, QuestionView, read_again, read_at};
use crate::updates::{UpdateView, UpdateViews};
use iot_tree::{Read, Update};
use std::marker::Model;

/// A base read: a question with its answer, and its place.
#[derive(Drop)]
pub struct BaseView<'a> {
    pub question: QuestionView<'a>,
    pub answer: AnswerView<'a>,
    pub place: u64,
}

/// A list of base reads.
pub type BaseViews<'a> = Views<BaseView<'a>, (Read, u64)>;

/// A base read.
#[tactic(auto, unfolding(crate::specs::Decoding::base_at))]
fn base_at(bytes: &[u8], at: usize) -> Result<(BaseView<'_>, usize), Malformed>
    ensures { IsLent base_seen result (base_at bytes.now at) }
{
    let (read, at) = read_at(bytes, at)?;
    let (place, end) = number_at(bytes, at)?;
    let base = BaseView {
        question: read.question,
        answer: read.answer,
        place,
    };
    Ok((base, end))
}

/// A base read that was looked at before.
#[tactic(auto, unfolding(crate::specs::Loose::base_again))]
fn base_again(bytes: &[u8], at: usize) -> Result<(BaseView<'_>, usize), Malformed>
    ensures { IsLent base_seen result (base_again bytes.now at) }
{
    let (read, at) = read_again(bytes, at)?;
    let (place, end) = number_at(bytes, at)?;
    let base = BaseView {
        question: read.question,
        answer: read.answer,
        place,
    };
    Ok((base, end))
}

impl<'a> Lent<(Read, u64)> for BaseView<'a> {
    type Source = &'a [u8];

    ghost source = { λ bytes. bytes.now };

    ghost seen = { base_seen };

    ghost item = { λ _. base_at };

    ghost again = { base_again };

    ghost looser = { each base_at base_again base_looser };

    fn lend(
        _previous: &Option<BaseView<'a>>,
        bytes: &'a [u8],
        at: usize,
    ) -> Result<(BaseView<'a>, usize), Malformed> {
        base_at(bytes, at)
    }

    fn lend_again(bytes: &'a [u8], at: usize) -> Result<(BaseView<'a>, usize), Malformed> {
        base_again(bytes, at)
    }
}

/// The base reads that are spelled at the offset, and the offset after them.
///
/// # Errors
///
/// `Malformed` exactly if no base reads are spelled there.
pub fn bases_at(bytes: &[u8], at: usize) -> Result<(BaseViews<'_>, usize), Malformed>
    ensures { IsLent parted result (bases_at bytes.now at) }
{
    let (count, at) = number_at(bytes, at)?;
    lend_items(count, bytes, at)
}

/// An access. Contracts see it as one.
#[derive(Drop)]
pub struct AccessView<'a> {
    reads: BaseViews<'a>,
    updates: UpdateViews<'a>,
}

impl<'a> Model for AccessView<'a> {
    ghost use Rattle.iot_tree.specs.declared.access.Access.{Access};

    ghost Value = { Access };

    ghost use Rattle.iot_views.specs.Decoding.{parted};

    ghost view = { λ access. record {
      reads = (parted access.reads).0;
      updates = access.updates;
      places = (parted access.reads).1;
    } };
}

impl<'a> AccessView<'a> {
    ghost use Rattle.std.specs.Prelude.{◌≡◌, length};
    ghost use Rattle.std.specs.List.{zip};
    ghost use Rattle.iot_views.specs.Outcomes.{IsLent};
    ghost use Rattle.iot_views.specs.Decoding.{access_at};

    /// The access that is spelled at the offset, and the offset after it.
    ///
    /// # Errors
    ///
    /// `Malformed` exactly if no access is spelled there.
    #[tactic(auto, unfolding(crate::specs::Decoding::access_at))]
    pub fn at(bytes: &'a [u8], at: usize) -> Result<(AccessView<'a>, usize), Malformed>
        ensures { IsLent (λ access. access) result (access_at bytes.now at) }
    {
        let (reads, at) = bases_at(bytes, at)?;
        let (count, at) = number_at(bytes, at)?;
        let (updates, end) = lend_items::<UpdateView<'a>, Update>(count, bytes, at)?;
        Ok((AccessView { reads, updates }, end))
    }

    /// The base reads, each with its place.
    pub fn reads(&self) -> BaseViews<'a>
        ensures list { result ≡ zip self.now.reads self.now.places }
        ensures even { length self.now.places ≡ length self.now.reads }
    {
        self.reads.again()
    }

    /// The same access once more.
    pub fn again(&self) -> AccessView<'a>
        ensures { result ≡ self.now }
    {
        AccessView {
            reads: self.reads.again(),
            updates: self.updates.again(),
        }
    }

    /// The updates.
    pub fn updates(&self) -> UpdateViews<'a>
        ensures { result ≡ self.now.updates }
    {
        self.updates.again()
    }
}
