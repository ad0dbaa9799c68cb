//! What is in a directory: names with the kinds of the objects.
ghost use Rattle.std.specs.Prelude.{◌≡◌, option_map};
ghost use Rattle.std.specs.Ordering.{nat_cmp};
ghost use Rattle.std.specs.Cmp.Lexicographic.{slice_cmp};
ghost use Rattle.iot_views.specs.Outcomes.{IsLent};
ghost use Rattle.iot_views.specs.Decoding.{kind_at, name_at, pair_at, children_at};
ghost use Rattle.iot_views.specs.Rules.{rises};
ghost use Rattle.iot_views.specs.Listed.{counted_at, loose_pair_at};
ghost use Rattle.iot_views.specs.Loose.{children_again};
ghost use Rattle.iot_views.specs.Laws.{same, name_looser, pair_looser};

use crate::lists::{Lent, Views, lend_items, skip_items};
use crate::parts::{Malformed, counted_at, fault_at, name_at, number_at, tag_at};
use iot_text::Name;
use iot_tree::Kind;

/// The names in a directory, rising, each with the kind of what is there.
pub type ChildViews<'a> = Views<(&'a [u8], Kind), (Name, Kind)>;

/// The kind of an object that is there, and the offset after it.
#[tactic(auto, unfolding(crate::specs::Decoding::kind_at))]
pub fn kind_at(bytes: &[u8], at: usize) -> Result<(Kind, usize), Malformed>
    ensures { IsLent (λ kind. kind) result (kind_at bytes.now at) }
{
    match tag_at(bytes, at) {
        Some(3) => Ok((Kind::IsDir, at + 1)),
        Some(4) => Ok((Kind::IsFile, at + 1)),
        _ => Err(fault_at(at)),
    }
}

/// Whether the name is greater than that of the child before it, if there is one.
fn rises(previous: &Option<(&[u8], Kind)>, name: &[u8]) -> bool
    ensures { result ≡ rises (slice_cmp nat_cmp) (option_map (λ child. (child.0.now, child.1)) previous.now) name.now }
{
    match previous {
        Some((before, _)) => (*before).cmp(name).is_lt(),
        None => true,
    }
}

impl<'a> Lent<(Name, Kind)> for (&'a [u8], Kind) {
    type Source = &'a [u8];

    ghost source = { λ bytes. bytes.now };

    ghost seen = { λ child. (child.0.now, child.1) };

    ghost item = { pair_at (slice_cmp nat_cmp) name_at kind_at };

    ghost again = { loose_pair_at counted_at kind_at };

    ghost looser = { pair_looser (slice_cmp nat_cmp) name_at counted_at kind_at kind_at name_looser (same kind_at) };

    #[tactic(auto, unfolding(crate::specs::Decoding::pair_at))]
    fn lend(
        previous: &Option<(&'a [u8], Kind)>,
        bytes: &'a [u8],
        at: usize,
    ) -> Result<((&'a [u8], Kind), usize), Malformed> {
        let (name, after) = name_at(bytes, at)?;
        if !rises(previous, name) {
            return Err(fault_at(at));
        }
        let (kind, end) = kind_at(bytes, after)?;
        Ok(((name, kind), end))
    }

    fn lend_again(bytes: &'a [u8], at: usize) -> Result<((&'a [u8], Kind), usize), Malformed> {
        let (name, at) = counted_at(bytes, at)?;
        let (kind, end) = kind_at(bytes, at)?;
        Ok(((name, kind), end))
    }
}

/// What is in a directory.
#[tactic(auto, unfolding(crate::specs::Decoding::children_at))]
pub(crate) fn children_at(bytes: &[u8], at: usize) -> Result<(ChildViews<'_>, usize), Malformed>
    ensures { IsLent (λ list. list) result (children_at bytes.now at) }
{
    let (count, at) = number_at(bytes, at)?;
    lend_items(count, bytes, at)
}

/// The same, looked at before.
#[tactic(auto, unfolding(crate::specs::Loose::children_again))]
pub(crate) fn children_again(bytes: &[u8], at: usize) -> Result<(ChildViews<'_>, usize), Malformed>
    ensures { IsLent (λ list. list) result (children_again bytes.now at) }
{
    let (count, at) = number_at(bytes, at)?;
    skip_items(count, bytes, at)
}
