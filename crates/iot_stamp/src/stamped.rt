//! Trees with stamps.
ghost use Rattle.std.specs.Prelude.{◌≡◌, ◌↔◌, IsTrue, IfOk, IfErr, OnOk, OnErr, map, not, is_some};
ghost use Rattle.std.specs.FinMap.{entries, get};
ghost use Rattle.iot_access.specs.Access.{FitInTurn};
ghost use Rattle.iot_tree.specs.Rows.{AreTreeRows, RefusesRows};
ghost use Rattle.iot_tree.specs.Updates.{Fits, FitsRemove, FitsMove, FitsSetMode, updated};
ghost use Rattle.iot_stamp.specs.Agreement.{Agrees, IsPositive, Keeps};
ghost use Rattle.iot_stamp.specs.Carried.{in_either};
ghost use Rattle.iot_stamp.specs.Lining.{marked, PutsAt};
ghost use Rattle.iot_stamp.specs.Pairing.{AreStamps, paired, stamps_of};
ghost use Rattle.iot_stamp.specs.Stamping.{stamped, is_at, is_parent, changes_names};
ghost use Rattle.iot_stamp.specs.Stamps.{Stamps, nodes_of, stamp_at, with_stamps, unstamped, FarZero};

use crate::nodes::stamp_of;
use crate::stamping::{all_stamps, carry, has_other_mode, shown_same};
use iot_fitting::fit_in_turn;
use iot_text::{NoMemory, Path};
use iot_tree::{Mode, RowFault, Rows, Tree, Update, count_within, place_of};
use std::alloc::Global;
use std::marker::Model;
use std::mem::replace;

/// A tree whose known rows carry stamps; a far row has stamp 0. Contracts see it as a map from paths to nodes with stamps.
#[derive(Drop)]
pub struct Stamped {
    tree: Tree,
    stamps: Vec<u64>,
}

impl Model for Stamped {
    ghost use Rattle.std.specs.Coded.{coded_ℕ, coded_list, coded×};
    ghost use Rattle.std.specs.FinMap.{code, entries};
    ghost use Rattle.iot_stamp.specs.Stamps.{Stamps};
    ghost use Rattle.iot_stamp.specs.Pairing.{AreStamps, stamps_of};
    ghost use Rattle.iot_tree.specs.contracts.nodes.Node as node;

    ghost Value = { Stamps };

    ghost coded = { code (coded_list (coded_list coded_ℕ)) (coded× (node.the_row).coded coded_ℕ) };

    ghost view = { λ t. stamps_of (entries t.tree) t.stamps.items };

    ghost invariant = { λ t. AreStamps (entries t.tree) t.stamps.items };
}

impl Stamped {
    /// The tree of these rows with these stamps. Does not allocate.
    ///
    /// # Errors
    ///
    /// `NoTree`, exactly if the rows are no tree, as `Tree::from_rows` says.
    pub fn from_rows(rows: Rows, stamps: Vec<u64>) -> Result<Stamped, RowFault>
        requires { AreStamps rows stamps.items }
        ensures ok { IfOk result (λ t. (entries t ≡ paired rows stamps.items) × AreTreeRows rows) }
        ensures refused { IfErr result (RefusesRows rows) }
    {
        match Tree::from_rows(rows) {
            Ok(tree) => Ok(Stamped { tree, stamps }),
            Err(fault) => Err(fault),
        }
    }

    /// The tree with these stamps, in the order of its rows. Does not allocate.
    pub fn from_tree(tree: Tree, stamps: Vec<u64>) -> Stamped
        requires { AreStamps (entries tree) stamps.items }
        ensures { result ≡ stamps_of (entries tree) stamps.items }
    {
        Stamped { tree, stamps }
    }

    /// The tree with this stamp on each row that is known.
    pub fn with_stamp(alloc: Global, tree: Tree, stamp: u64) -> Result<Stamped, NoMemory>
        ensures { IfOk result (λ t. t ≡ with_stamps (λ k. stamp) tree) }
    {
        let stamps = all_stamps(alloc, tree.rows().as_slice(), stamp)?;
        Ok(Stamped { tree, stamps })
    }

    /// The tree with stamp 0 at every row, as a client holds it after a restart: it agrees with each tree of a server.
    pub fn unstamped(alloc: Global, tree: Tree) -> Result<Stamped, NoMemory>
        ensures value { IfOk result (λ t. t ≡ unstamped tree) }
        ensures agrees { IfOk result (λ t. (s : Stamps) → IsPositive s → Agrees t s) }
    {
        Stamped::with_stamp(alloc, tree, 0)
    }

    /// Whether each of the updates fits in its turn. No copy of the tree is taken: they are made in place and undone. After an error
    /// nothing is said of the tree.
    pub fn fit_in_turn(&mut self, alloc: Global, updates: &[Update]) -> Result<bool, NoMemory>
        ensures fit { IfOk result (λ fit. IsTrue fit ↔ FitInTurn (nodes_of self.old) updates.now) }
        ensures same { OnOk result (self.new ≡ self.old) }
    {
        let root = Stamped::with_stamp(alloc, Tree::whole_root(alloc)?, 0)?;
        let Stamped { mut tree, stamps } = replace(self, root);
        let fit = fit_in_turn(alloc, &mut tree, updates)?;
        *self = Stamped { tree, stamps };
        Ok(fit)
    }

    /// An equal tree, which shares the rows until one of the two changes.
    pub fn copy(&self, alloc: Global) -> Result<Stamped, NoMemory>
        ensures { IfOk result (λ copy. copy ≡ self.now) }
    {
        Ok(Stamped {
            tree: self.tree.copy(alloc)?,
            stamps: self.stamps.as_slice().to_vec(alloc)?,
        })
    }

    /// The tree without its stamps.
    pub fn tree(&self) -> &Tree
        ensures value { result.now ≡ nodes_of self.now }
        ensures far { FarZero self.now }
    {
        &self.tree
    }

    /// The stamps in the order of the rows.
    pub fn stamps(&self) -> &[u64]
        ensures { result.now ≡ map (λ e. e.1.1) (entries self.now) }
    {
        self.stamps.as_slice()
    }

    /// Makes the update, and puts the stamp on each known row that it names or moves, and on each directory whose names,
    /// or their kinds or modes, it changes. Every other row keeps its stamp. After an error the tree is as it was.
    pub fn apply(&mut self, alloc: Global, u: &Update, stamp: u64) -> Result<(), NoMemory>
        requires { Fits (nodes_of self.old) u.now }
        ensures ok { OnOk result (self.new ≡ stamped self.old u.now stamp) }
        ensures keeps { OnOk result (Keeps self.old self.new stamp) }
        ensures err { OnErr result (self.new ≡ self.old) }
    {
        match u {
            Update::Put(path, _) => {
                if self.put(alloc, u, path, stamp)? {
                    self.mark_parent(path, stamp);
                }
            }
            Update::MakeDir(path) => {
                self.put(alloc, u, path, stamp)?;
                self.mark_parent(path, stamp);
            }
            Update::Remove(path) => {
                self.remove(alloc, u, path)?;
                self.mark_parent(path, stamp);
            }
            Update::Move(from, to) => {
                let same = shown_same(self.tree.node(from.names()), self.tree.node(to.names()));
                self.move_to(alloc, u, from, to, stamp)?;
                self.mark_parent(from, stamp);
                if !same {
                    self.mark_parent(to, stamp);
                }
            }
            Update::SetMode(path, mode) => {
                let other = self.set_mode(alloc, u, path, *mode, stamp)?;
                if other {
                    self.mark_parent(path, stamp);
                }
            }
        }
        Ok(())
    }

    /// Makes an update that puts something at the path, and puts the stamp there. Tells whether nothing was there. After an
    /// error the tree is as it was.
    fn put(&mut self, alloc: Global, u: &Update, path: &Path, stamp: u64) -> Result<bool, NoMemory>
        requires fits { Fits (nodes_of self.old) u.now }
        requires puts { PutsAt u.now path.now }
        ensures ok { OnOk result (self.new ≡ marked self.old (updated (nodes_of self.old) u.now) (λ k. is_at k path.now) stamp) }
        ensures is_new { IfOk result (λ is_new. is_new ≡ not (is_some (get (nodes_of self.old) path.now))) }
        ensures err { OnErr result (self.new ≡ self.old) }
    {
        let place = place_of(self.tree.rows().as_slice(), path.names());
        self.stamps.reserve(1)?;
        self.tree.apply(alloc, u)?;
        match place {
            Ok(at) => {
                self.stamps[at] = stamp;
                Ok(false)
            }
            Err(gap) => {
                self.stamps.insert(gap, stamp)?;
                Ok(true)
            }
        }
    }

    /// Makes an update that takes the path's row away. After an error the tree is as it was.
    fn remove(&mut self, alloc: Global, u: &Update, path: &Path) -> Result<(), NoMemory>
        requires fits { FitsRemove (nodes_of self.old) path.now }
        requires removes { u.now ≡ Update.Remove path.now }
        ensures ok { OnOk result (self.new ≡ with_stamps (stamp_at self.old) (updated (nodes_of self.old) u.now)) }
        ensures err { OnErr result (self.new ≡ self.old) }
    {
        let place = place_of(self.tree.rows().as_slice(), path.names());
        self.tree.apply(alloc, u)?;
        if let Ok(at) = place {
            self.stamps.remove(at);
        }
        Ok(())
    }

    /// Makes an update that moves the first path to the second, and puts the stamp on the rows that move. After an error
    /// the tree is as it was.
    fn move_to(
        &mut self,
        alloc: Global,
        u: &Update,
        from: &Path,
        to: &Path,
        stamp: u64,
    ) -> Result<(), NoMemory>
        requires fits { FitsMove (nodes_of self.old) from.now to.now }
        requires moves { u.now ≡ Update.Move from.now to.now }
        ensures ok { OnOk result (self.new ≡ marked self.old (updated (nodes_of self.old) u.now) (in_either from.now to.now) stamp) }
        ensures err { OnErr result (self.new ≡ self.old) }
    {
        let rows = self.tree.rows().as_slice();
        let Ok(at) = place_of(rows, from.names()) else {
            return Ok(());
        };
        let count = count_within(rows, at, from.names());
        let goes = place_of(rows, to.names()).is_ok();
        self.tree.apply(alloc, u)?;
        let moved = self.tree.rows().as_slice();
        if let Ok(place) = place_of(moved, to.names()) {
            let come = &moved[place..place + count];
            carry(&mut self.stamps, at, place, goes, come, stamp);
        }
        Ok(())
    }

    /// Makes an update that gives the file at the path this mode, and puts the stamp there. Tells whether it had another one.
    /// After an error the tree is as it was.
    fn set_mode(
        &mut self,
        alloc: Global,
        u: &Update,
        path: &Path,
        mode: Mode,
        stamp: u64,
    ) -> Result<bool, NoMemory>
        requires fits { FitsSetMode (nodes_of self.old) path.now }
        requires sets { u.now ≡ Update.SetMode path.now mode }
        ensures ok { OnOk result (self.new ≡ marked self.old (updated (nodes_of self.old) u.now) (λ k. is_at k path.now) stamp) }
        ensures changes { IfOk result (λ changes. changes ≡ changes_names (nodes_of self.old) u.now) }
        ensures err { OnErr result (self.new ≡ self.old) }
    {
        let rows = self.tree.rows().as_slice();
        let Ok(at) = place_of(rows, path.names()) else {
            return Ok(false);
        };
        let node = &rows[at].1;
        let other = has_other_mode(node, mode);
        let own = stamp_of(node, stamp);
        self.tree.apply(alloc, u)?;
        self.stamps[at] = own;
        Ok(other)
    }

    /// Puts the stamp on the row of the path's parent, if there is one.
    fn mark_parent(&mut self, path: &Path, stamp: u64)
        ensures { self.new ≡ marked self.old (nodes_of self.old) (λ k. is_parent k path.now) stamp }
    {
        let rows = self.tree.rows().as_slice();
        let Some(parent) = path.parent_names() else {
            return;
        };
        if let Ok(at) = place_of(rows, parent) {
            self.stamps[at] = stamp_of(&rows[at].1, stamp);
        }
    }
}
