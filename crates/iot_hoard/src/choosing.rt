//! What is taken of the rows of a tree.
ghost use Rattle.std.specs.Prelude.{◌≡◌, ◌<◌, ◌≤◌, ◌-◌, [], ◌∷◌, IfOk, filter, length, map, take, drop, slice_index_or};
ghost use Rattle.iot_tree.specs.Ancestors.{proper_prefixes};
ghost use Rattle.iot_tree.specs.Rows.{AreTreeRows, map_of};
ghost use Rattle.iot_tree.specs.Place.{IsRowAt};
ghost use Rattle.iot_tree.specs.Snapshots.{has};
ghost use Rattle.iot_tree.specs.Tree.{Row};
ghost use Rattle.iot_hoard.specs.Choosing.{Taken, IsChoice, take_path, take_paths};
ghost use Rattle.iot_hoard.specs.Picking.{reached, wished};

use crate::sizes::weight;
use iot_text::{Name, NoMemory, Path};
use iot_tree::{Node, Paths, Reach, Wish, count_within, place_of};
use std::alloc::Global;

/// What is taken of the rows of a tree.
#[derive(Drop)]
pub(crate) struct Choice {
    /// Whether the row at each place is taken.
    taken: Vec<bool>,

    /// How much of the limit is left: nothing as soon as a path does not fit, so that none after it is taken.
    left: u64,
}

impl Choice {
    /// No row is taken.
    pub(crate) fn nothing(
        alloc: Global,
        rows: &[(Path, Node)],
        limit: u64,
    ) -> Result<Choice, NoMemory>
        ensures marks { IfOk result (λ choice. length choice.taken.items ≡ length rows.now) }
        ensures nothing { IfOk result (IsChoice rows.now (record { paths = []; left = limit })) }
    {
        Ok(Choice {
            taken: vec![in alloc; false; rows.len()]?,
            left: limit,
        })
    }

    /// Takes the paths of a wish: those above its path from the root down, the path, and if it reaches so far, those below it.
    pub(crate) fn take_wish(&mut self, rows: &[(Path, Node)], wish: &Wish)
        requires tree { AreTreeRows rows.now }
        requires marks { length self.old.taken.items ≡ length rows.now }
        ensures marks { length self.new.taken.items ≡ length rows.now }
        ensures takes { (so_far : Taken) → IsChoice rows.now so_far self.old
            → IsChoice rows.now (take_paths (map_of rows.now) (wished (map_of rows.now) wish.now) so_far) self.new }
    {
        let names = wish.path.names();
        self.take_above(rows, names);
        match place_of(rows, names) {
            Ok(at) => self.take_rows(rows, at, end_of(rows, at, names, wish.reach)),
            // Below a path that the tree lacks it has none either.
            Err(_) => (),
        }
    }

    /// Takes the paths above that of these names, from the root down.
    fn take_above(&mut self, rows: &[(Path, Node)], names: &[Name])
        requires tree { AreTreeRows rows.now }
        requires marks { length self.old.taken.items ≡ length rows.now }
        ensures marks { length self.new.taken.items ≡ length rows.now }
        ensures takes { (so_far : Taken) → IsChoice rows.now so_far self.old
            → IsChoice rows.now (take_paths (map_of rows.now) (proper_prefixes names.now) so_far) self.new }
    {
        'above: for len in 0..names.len() {
            self.take_path(rows, &names[..len]);
        }
    }

    /// Takes the path of these names, if it has a row.
    fn take_path(&mut self, rows: &[(Path, Node)], names: &[Name])
        requires tree { AreTreeRows rows.now }
        requires marks { length self.old.taken.items ≡ length rows.now }
        ensures marks { length self.new.taken.items ≡ length rows.now }
        ensures takes { (so_far : Taken) → IsChoice rows.now so_far self.old
            → IsChoice rows.now (take_path (map_of rows.now) names.now so_far) self.new }
    {
        match place_of(rows, names) {
            Ok(at) => self.take_row(rows, at),
            Err(_) => (),
        }
    }

    /// Takes the rows from one place up to another, in order.
    fn take_rows(&mut self, rows: &[(Path, Node)], from: usize, end: usize)
        requires tree { AreTreeRows rows.now }
        requires marks { length self.old.taken.items ≡ length rows.now }
        requires order { from ≤ end }
        requires end { end ≤ length rows.now }
        ensures marks { length self.new.taken.items ≡ length rows.now }
        ensures takes { (so_far : Taken) → IsChoice rows.now so_far self.old
            → IsChoice rows.now
            (take_paths (map_of rows.now) (map (λ row. row.0) (take (end - from) (drop from rows.now))) so_far) self.new }
    {
        'rows: for at in from..end {
            self.take_row(rows, at);
        }
    }

    /// Takes the row at a place if it is not taken and fits. If it does not fit, nothing is left of the limit.
    fn take_row(&mut self, rows: &[(Path, Node)], at: usize)
        requires tree { AreTreeRows rows.now }
        requires marks { length self.old.taken.items ≡ length rows.now }
        requires at { at < length rows.now }
        ensures marks { length self.new.taken.items ≡ length rows.now }
        ensures takes { (so_far : Taken) (d : Row) → IsChoice rows.now so_far self.old
            → IsChoice rows.now (take_path (map_of rows.now) (slice_index_or rows.now at d).0 so_far) self.new }
    {
        if self.taken[at] {
            return;
        }
        let weight = weight(Some(&rows[at].1));
        if self.left < weight {
            self.left = 0;
            return;
        }
        self.taken[at] = true;
        self.left -= weight;
    }

    /// The paths that are taken, in order.
    pub(crate) fn paths(&self, alloc: Global, rows: &[(Path, Node)]) -> Result<Paths, NoMemory>
        requires { length self.now.taken.items ≡ length rows.now }
        ensures { IfOk result (λ paths. (so_far : Taken) → IsChoice rows.now so_far self.now
            → paths ≡ filter (has so_far.paths) (map (λ row. row.0) rows.now)) }
    {
        let mut paths = Paths::new(alloc);
        'rows: for (at, row) in rows.iter().enumerate() {
            if self.taken[at] {
                paths.push(row.0.copy(alloc)?)?;
            }
        }
        Ok(paths)
    }
}

/// Where the rows end, from the place of the path's own row on, that are taken for a wish which reaches so far.
fn end_of(rows: &[(Path, Node)], at: usize, names: &[Name], reach: Reach) -> usize
    requires tree { AreTreeRows rows.now }
    requires row { IsRowAt rows.now names.now at }
    ensures order { at ≤ result }
    ensures end { result ≤ length rows.now }
    ensures rows { map (λ row. row.0) (take (result - at) (drop at rows.now)) ≡ names.now ∷ reached (map_of rows.now) reach names.now }
{
    match reach {
        Reach::Path => at + 1,
        Reach::Below => at + count_within(rows, at, names),
    }
}
