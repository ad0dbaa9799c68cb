//! Updates.
ghost use Rattle.std.specs.Prelude.{◌≡◌, option_map};
ghost use Rattle.iot_views.specs.Outcomes.{IsLent};
ghost use Rattle.iot_views.specs.Decoding.{update_at, optional_update_at};
ghost use Rattle.iot_views.specs.Loose.{update_again};
ghost use Rattle.iot_views.specs.Laws.{each, update_looser};
ghost use Rattle.iot_views.specs.Seen.{update_seen};

use crate::lists::{Lent, Views};
use crate::modes::mode_at;
use crate::names::{PathView, path_again, path_at};
use crate::parts::{Malformed, contents_at, counted_at, fault_at, tag_at};
use iot_tree::{Mode, Update};

/// A change of a tree.
#[derive(Drop)]
pub enum UpdateView<'a> {
    Put(PathView<'a>, &'a [u8]),
    MakeDir(PathView<'a>),
    Remove(PathView<'a>),
    Move(PathView<'a>, PathView<'a>),
    SetMode(PathView<'a>, Mode),
}

/// A list of updates.
pub type UpdateViews<'a> = Views<UpdateView<'a>, Update>;

impl<'a> UpdateView<'a> {
    /// The same update once more.
    pub fn again(&self) -> UpdateView<'a>
        ensures { update_seen result ≡ update_seen self.now }
    {
        match self {
            UpdateView::Put(path, contents) => UpdateView::Put(path.again(), *contents),
            UpdateView::MakeDir(path) => UpdateView::MakeDir(path.again()),
            UpdateView::Remove(path) => UpdateView::Remove(path.again()),
            UpdateView::Move(path, other) => UpdateView::Move(path.again(), other.again()),
            UpdateView::SetMode(path, mode) => UpdateView::SetMode(path.again(), *mode),
        }
    }
}

/// An update.
#[tactic(auto, unfolding(crate::specs::Decoding::update_at))]
fn update_at(bytes: &[u8], at: usize) -> Result<(UpdateView<'_>, usize), Malformed>
    ensures { IsLent update_seen result (update_at bytes.now at) }
{
    match tag_at(bytes, at) {
        Some(1) => {
            let (path, after) = path_at(bytes, at + 1)?;
            let (contents, end) = contents_at(bytes, after)?;
            Ok((UpdateView::Put(path, contents), end))
        }
        Some(2) => {
            let (path, end) = path_at(bytes, at + 1)?;
            Ok((UpdateView::MakeDir(path), end))
        }
        Some(3) => {
            let (path, end) = path_at(bytes, at + 1)?;
            Ok((UpdateView::Remove(path), end))
        }
        Some(4) => {
            let (path, after) = path_at(bytes, at + 1)?;
            let (other, end) = path_at(bytes, after)?;
            Ok((UpdateView::Move(path, other), end))
        }
        Some(5) => {
            let (path, after) = path_at(bytes, at + 1)?;
            let (mode, end) = mode_at(bytes, after)?;
            Ok((UpdateView::SetMode(path, mode), end))
        }
        _ => Err(fault_at(at)),
    }
}

/// An update that was looked at before.
#[tactic(auto, unfolding(crate::specs::Loose::update_again))]
fn update_again(bytes: &[u8], at: usize) -> Result<(UpdateView<'_>, usize), Malformed>
    ensures { IsLent update_seen result (update_again bytes.now at) }
{
    match tag_at(bytes, at) {
        Some(1) => {
            let (path, after) = path_again(bytes, at + 1)?;
            let (contents, end) = counted_at(bytes, after)?;
            Ok((UpdateView::Put(path, contents), end))
        }
        Some(2) => {
            let (path, end) = path_again(bytes, at + 1)?;
            Ok((UpdateView::MakeDir(path), end))
        }
        Some(3) => {
            let (path, end) = path_again(bytes, at + 1)?;
            Ok((UpdateView::Remove(path), end))
        }
        Some(4) => {
            let (path, after) = path_again(bytes, at + 1)?;
            let (other, end) = path_again(bytes, after)?;
            Ok((UpdateView::Move(path, other), end))
        }
        Some(5) => {
            let (path, after) = path_again(bytes, at + 1)?;
            let (mode, end) = mode_at(bytes, after)?;
            Ok((UpdateView::SetMode(path, mode), end))
        }
        _ => Err(fault_at(at)),
    }
}

/// An update, or none.
#[tactic(auto, unfolding(crate::specs::Decoding::optional_update_at))]
pub(crate) fn optional_update_at(
    bytes: &[u8],
    at: usize,
) -> Result<(Option<UpdateView<'_>>, usize), Malformed>
    ensures { IsLent (option_map update_seen) result (optional_update_at bytes.now at) }
{
    if let Some(0) = tag_at(bytes, at) {
        return Ok((None, at + 1));
    }
    let (update, end) = update_at(bytes, at)?;
    Ok((Some(update), end))
}

impl<'a> Lent<Update> for UpdateView<'a> {
    type Source = &'a [u8];

    ghost source = { λ bytes. bytes.now };

    ghost seen = { update_seen };

    ghost item = { λ _. update_at };

    ghost again = { update_again };

    ghost looser = { each update_at update_again update_looser };

    fn lend(
        _previous: &Option<UpdateView<'a>>,
        bytes: &'a [u8],
        at: usize,
    ) -> Result<(UpdateView<'a>, usize), Malformed> {
        update_at(bytes, at)
    }

    fn lend_again(bytes: &'a [u8], at: usize) -> Result<(UpdateView<'a>, usize), Malformed> {
        update_again(bytes, at)
    }
}
