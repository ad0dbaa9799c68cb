//! Lists that are lent.
ghost use Rattle.std.specs.Prelude.{ℕ, List, Option, ◌≡◌, length, None, option_map};
ghost use Rattle.std.specs.Iterator.{YieldsFirstBy, at_most};
ghost use Rattle.iot_views.specs.Decoders.{Decoder, items_at};
ghost use Rattle.iot_views.specs.Outcomes.{IsLent};
ghost use Rattle.iot_views.specs.Listed.{AreLooser};

use crate::Malformed;
use std::marker::{Model, PhantomData};

/// What is lent in the place of a `T`: it is seen as one.
pub trait Lent<T>: Drop {
    /// The bytes that it is lent out of.
    type Source: Copy;

    ghost source: { Self.Source → List ℕ };

    ghost seen: { Self → T };

    /// How it is decoded as an element of a list, after the one before it.
    ghost item: { Option T → Decoder T };

    /// How it is decoded again.
    ghost again: { Decoder T };

    ghost looser: { AreLooser item again };

    /// Lends the value that is spelled at the offset, if it may follow the one before it, and gives the offset after it.
    fn lend(
        previous: &Option<Self>,
        bytes: Self::Source,
        at: usize,
    ) -> Result<(Self, usize), Malformed>
        ensures { IsLent seen result (item (option_map seen previous.now) (source bytes) at) };

    /// The same of a value that was lent before: its bytes are not tested again.
    fn lend_again(bytes: Self::Source, at: usize) -> Result<(Self, usize), Malformed>
        ensures { IsLent seen result (again (source bytes) at) };
}

/// The elements of a list that are left, one of which is lent after the other. Contracts see it as the list of their values.
#[derive(Drop)]
pub struct Views<V: Lent<T>, T> {
    bytes: V::Source,
    at: usize,
    count: u64,
    of: PhantomData<(V, T)>,
}

impl<V: Lent<T>, T> Model for Views<V, T> {
    ghost use Rattle.std.specs.Prelude.{List};

    ghost Value = { List T };

    ghost use Rattle.iot_views.specs.Listed.{listed};

    ghost view = { λ list. listed V.again list.count (V.source list.bytes) list.at };
}

impl<V: Lent<T>, T> Views<V, T> {
    ghost use Rattle.std.specs.Prelude.{◌≡◌};
    ghost use Rattle.iot_views.specs.Listed.{listed};

    /// So many elements from the offset on.
    fn from(bytes: V::Source, at: usize, count: u64) -> Views<V, T>
        ensures { result ≡ listed V.again count (V.source bytes) at }
    {
        Views {
            bytes,
            at,
            count,
            of: PhantomData,
        }
    }

    /// The same elements once more.
    pub fn again(&self) -> Views<V, T>
        ensures { result ≡ self.now }
    {
        Views {
            bytes: self.bytes,
            at: self.at,
            count: self.count,
            of: PhantomData,
        }
    }
}

impl<V: Lent<T>, T> Iterator for Views<V, T> {
    type Item = V;

    ghost next_gives = { YieldsFirstBy V.seen (λ list. list) };

    ghost remaining = { λ list. at_most (length list) };

    fn next(&mut self) -> Option<V> {
        if self.count == 0 {
            return None;
        }
        match V::lend_again(self.bytes, self.at) {
            Ok((view, end)) => {
                self.count -= 1;
                self.at = end;
                Some(view)
            }
            Err(_) => None,
        }
    }
}

/// Looks at so many elements, and lends the list of them.
pub(crate) fn lend_items<V: Lent<T>, T>(
    count: u64,
    bytes: V::Source,
    at: usize,
) -> Result<(Views<V, T>, usize), Malformed>
    ensures { IsLent (λ list. list) result (items_at V.item count None (V.source bytes) at) }
{
    let mut previous = None;
    let mut end = at;
    'items: for _ in 0..count {
        let (view, after) = V::lend(&previous, bytes, end)?;
        previous = Some(view);
        end = after;
    }
    Ok((Views::from(bytes, at, count), end))
}

/// Goes over so many elements that were looked at before, and lends the list of them.
pub(crate) fn skip_items<V: Lent<T>, T>(
    count: u64,
    bytes: V::Source,
    at: usize,
) -> Result<(Views<V, T>, usize), Malformed>
    ensures { IsLent (λ list. list) result (items_at (λ _. V.again) count None (V.source bytes) at) }
{
    let mut end = at;
    'items: for _ in 0..count {
        let (_, after) = V::lend_again(bytes, end)?;
        end = after;
    }
    let list = Views::from(bytes, at, count);
    Ok((list, end))
}
