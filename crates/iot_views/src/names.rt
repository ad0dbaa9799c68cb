//! Names and paths.
ghost use Rattle.std.specs.Prelude.{◌≡◌, bytes_eq};
ghost use Rattle.iot_views.specs.Outcomes.{IsLent};
ghost use Rattle.iot_views.specs.Decoding.{name_at, path_at};
ghost use Rattle.iot_views.specs.Listed.{counted_at};
ghost use Rattle.iot_views.specs.Loose.{path_again};
ghost use Rattle.iot_views.specs.Laws.{each, name_looser};

use crate::lists::{Lent, Views, lend_items, skip_items};
use crate::parts::{Malformed, counted_at, name_at, number_at};
use iot_text::Name;
use std::cmp::Ordering;
use std::marker::Model;

/// The names of a path, from the root down.
pub type NameViews<'a> = Views<&'a [u8], Name>;

impl<'a> Lent<Name> for &'a [u8] {
    type Source = &'a [u8];

    ghost source = { λ bytes. bytes.now };

    ghost seen = { λ name. name.now };

    ghost item = { λ _. name_at };

    ghost again = { counted_at };

    ghost looser = { each name_at counted_at name_looser };

    fn lend(
        _previous: &Option<&'a [u8]>,
        bytes: &'a [u8],
        at: usize,
    ) -> Result<(&'a [u8], usize), Malformed> {
        name_at(bytes, at)
    }

    fn lend_again(bytes: &'a [u8], at: usize) -> Result<(&'a [u8], usize), Malformed> {
        counted_at(bytes, at)
    }
}

/// Whether the bytes are equal.
fn are_same(one: &[u8], other: &[u8]) -> bool
    ensures { result ≡ bytes_eq one.now other.now }
{
    one == other
}

/// A path. Contracts see it as the list of its names.
#[derive(Drop)]
pub struct PathView<'a> {
    names: NameViews<'a>,
}

impl<'a> Model for PathView<'a> {
    ghost use Rattle.std.specs.Prelude.{ℕ, List};

    ghost Value = { List (List ℕ) };

    ghost view = { λ path. path.names };
}

impl<'a> PathView<'a> {
    ghost use Rattle.std.specs.Prelude.{◌≡◌, bytes_eq};
    ghost use Rattle.std.specs.List.{starts_with};
    ghost use Rattle.iot_text.specs.Paths.{path_cmp};

    /// The names, from the root down.
    pub fn names(&self) -> NameViews<'a>
        ensures { result ≡ self.now }
    {
        self.names.again()
    }

    /// How a path of these names compares with this one.
    pub fn cmp_names(&self, names: &[Name]) -> Ordering
        ensures { result ≡ path_cmp names.now self.now }
    {
        let mut left = names;
        'names: for name in self.names() {
            let Some((first, rest)) = left.split_first() else {
                return Ordering::Less;
            };
            let order = first.as_bytes().cmp(name);
            if !order.is_eq() {
                return order;
            }
            left = rest;
        }
        match left.split_first() {
            Some(_) => Ordering::Greater,
            None => Ordering::Equal,
        }
    }

    /// How this path compares with another one.
    pub fn cmp_path(&self, other: &PathView<'_>) -> Ordering
        ensures { result ≡ path_cmp self.now other.now }
    {
        let mut own = self.names();
        'names: for name in other.names() {
            let Some(first) = own.next() else {
                return Ordering::Less;
            };
            let order = first.cmp(name);
            if !order.is_eq() {
                return order;
            }
        }
        match own.next() {
            Some(_) => Ordering::Greater,
            None => Ordering::Equal,
        }
    }

    /// Whether this path begins with these names.
    pub fn starts_with(&self, names: &[Name]) -> bool
        ensures { result ≡ starts_with bytes_eq self.now names.now }
    {
        let mut left = names;
        'names: for name in self.names() {
            let Some((first, rest)) = left.split_first() else {
                return true;
            };
            if !are_same(name, first.as_bytes()) {
                return false;
            }
            left = rest;
        }
        match left.split_first() {
            Some(_) => false,
            None => true,
        }
    }

    /// The same path once more.
    pub fn again(&self) -> PathView<'a>
        ensures { result ≡ self.now }
    {
        PathView {
            names: self.names.again(),
        }
    }
}

/// A path.
#[tactic(auto, unfolding(crate::specs::Decoding::path_at))]
pub(crate) fn path_at(bytes: &[u8], at: usize) -> Result<(PathView<'_>, usize), Malformed>
    ensures { IsLent (λ path. path) result (path_at bytes.now at) }
{
    let (count, at) = number_at(bytes, at)?;
    let (names, end) = lend_items(count, bytes, at)?;
    Ok((PathView { names }, end))
}

/// A path that was looked at before.
#[tactic(auto, unfolding(crate::specs::Loose::path_again))]
pub(crate) fn path_again(bytes: &[u8], at: usize) -> Result<(PathView<'_>, usize), Malformed>
    ensures { IsLent (λ path. path) result (path_again bytes.now at) }
{
    let (count, at) = number_at(bytes, at)?;
    let (names, end) = skip_items(count, bytes, at)?;
    Ok((PathView { names }, end))
}
