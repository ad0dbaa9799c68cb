//! The held tree.
ghost use Rattle.std.specs.List.{AllByRecursion};
ghost use Rattle.std.specs.Prelude.{◌≡◌, ◌≢◌, [], Bool, IsTrue, IfOk, IfErr, OnOk, OnErr};
ghost use Rattle.std.specs.FinMap.{is_sorted};
ghost use Rattle.iot_text.specs.Paths.{path_cmp};
ghost use Rattle.iot_tree.specs.Snapshots.{ArePathsRising};
ghost use Rattle.iot_tree.specs.Tree.{IsTree, Path, root_alone};
ghost use Rattle.iot_stamp.specs.Acting.{UpdatesFit, stamped_acts};
ghost use Rattle.iot_stamp.specs.Agreement.{Agrees, IsCutTo, IsPositive};
ghost use Rattle.iot_stamp.specs.Refresh.{IsStampedPath, known_with_stamps, merged};
ghost use Rattle.iot_stamp.specs.Stamps.{Stamps, nodes_of, nothing_held, unstamped, pruned, FarZero};

use crate::merging::{MergeFault, merge_changes};
use iot_stamp::Stamped;
use iot_text::NoMemory;
use iot_tree::{Acts, Changes, Known, Node, Tree};
use std::alloc::Global;
use std::marker::Model;

/// The tree that a client holds: what it knows of the server's tree, with the server's stamps, after its own changes, which have stamp 0.
/// Contracts see it as this stamped tree.
#[derive(Drop)]
pub struct Held {
    tree: Stamped,
}

impl Model for Held {
    ghost use Rattle.iot_stamp.specs.Stamps.{Stamps};
    ghost use Rattle.iot_stamp.specs.contracts.stamped.Stamped as stamped;

    ghost Value = { Stamps };

    ghost coded = { (stamped.the_row).coded };

    ghost view = { λ held. held.tree };
}

impl Held {
    /// Nothing is known yet: a root whose names are not known.
    pub fn new(alloc: Global) -> Result<Held, NoMemory>
        ensures value { IfOk result (λ held. held ≡ nothing_held) }
        ensures nodes { IfOk result (λ held. nodes_of held ≡ root_alone Node.FarDir) }
    {
        Held::unstamped(alloc, Tree::far_root(alloc)?)
    }

    /// The tree with stamp 0 at every row, as after a restart: no stamp of a server is known.
    pub fn unstamped(alloc: Global, tree: Tree) -> Result<Held, NoMemory>
        ensures value { IfOk result (λ held. held ≡ unstamped tree) }
        ensures nodes { IfOk result (λ held. nodes_of held ≡ tree) }
        ensures agrees { IfOk result (λ held. (s : Stamps) → IsPositive s → Agrees held s) }
    {
        let tree = Stamped::unstamped(alloc, tree)?;
        Ok(Held { tree })
    }

    /// An equal tree with equal stamps, which shares the rows.
    pub fn copy(&self, alloc: Global) -> Result<Held, NoMemory>
        ensures { IfOk result (λ copy. copy ≡ self.now) }
    {
        Ok(Held {
            tree: self.tree.copy(alloc)?,
        })
    }

    /// The tree without its stamps.
    pub fn tree(&self) -> &Tree
        ensures value { result.now ≡ nodes_of self.now }
        ensures tree { IsTree (nodes_of self.now) }
        ensures far { FarZero self.now }
    {
        let tree = self.tree.tree();
        let _rows = tree.rows();
        tree
    }

    /// Drops the rows at or below the paths that are gone and the far children of each path among the new rows, and sets the
    /// new rows; a far row gets stamp 0. After the changes of a whole tree with which this one agrees, cut down to paths that
    /// include all that this one knows, it is exactly that tree, cut down to them, and agrees with it. Nothing new costs nothing;
    /// else one pass over both lists of rows. After an error the tree is as it was.
    ///
    /// # Errors
    ///
    /// `NoTree`, exactly if the outcome is no tree, and `NoMemory`.
    pub fn merge(&mut self, alloc: Global, changes: Changes) -> Result<(), MergeFault>
        requires rows { IsTrue (is_sorted path_cmp changes.rows) }
        requires gone { ArePathsRising changes.gone }
        ensures ok { OnOk result (self.new ≡ merged self.old changes.rows changes.gone) }
        ensures refreshed { (s : Stamps) (k : Path → Bool) → IsCutTo self.old s k changes.rows changes.gone
            → OnOk result (self.new ≡ pruned s k) }
        ensures agrees { (s : Stamps) (k : Path → Bool) → IsCutTo self.old s k changes.rows changes.gone
            → IsPositive s → OnOk result (Agrees self.new s) }
        ensures only_memory { (s : Stamps) (k : Path → Bool) → IsCutTo self.old s k changes.rows changes.gone
            → IfErr result (λ fault. fault ≡ MergeFault.NoMemory) }
        ensures tree { OnOk result (IsTree (nodes_of self.new)) }
        ensures nothing { changes.rows ≡ [] → changes.gone ≡ [] → self.new ≡ self.old }
        ensures err { OnErr result (self.new ≡ self.old) }
        ensures no_tree { IfErr result
            (λ fault. fault ≢ MergeFault.NoMemory → IsTree (nodes_of (merged self.old changes.rows changes.gone)) → ⊥) }
    {
        // That each is a tree is known of its rows.
        let _before = self.tree();
        let done = merge_changes(alloc, &mut self.tree, changes);
        let _after = self.tree();
        done
    }

    /// The paths that are known, with their stamps.
    pub fn known_with_stamps(&self, alloc: Global) -> Result<Known, NoMemory>
        ensures known { IfOk result (λ known. known ≡ known_with_stamps self.now) }
        ensures rising { IfOk result (λ known. IsTrue (is_sorted path_cmp known)) }
        ensures each { IfOk result (AllByRecursion IsStampedPath) }
    {
        self.tree.known_with_stamps(alloc)
    }

    /// Makes the updates of the client's own acts in turn, on a copy, which shares the rows until the first of them. After an
    /// error the tree is as it was.
    pub fn pass(&mut self, alloc: Global, acts: &Acts) -> Result<(), NoMemory>
        requires { UpdatesFit (nodes_of self.old) acts.now }
        ensures ok { OnOk result (self.new ≡ stamped_acts self.old acts.now 0) }
        ensures err { OnErr result (self.new ≡ self.old) }
    {
        let mut tree = self.tree.copy(alloc)?;
        tree.apply_acts(alloc, acts.as_slice(), 0)?;
        self.tree = tree;
        Ok(())
    }

    /// Makes the updates of the client's own acts in turn, in place: no row is copied that this tree alone has. After an error
    /// nothing is said of it.
    pub fn pass_in_place(&mut self, alloc: Global, acts: &Acts) -> Result<(), NoMemory>
        requires { UpdatesFit (nodes_of self.old) acts.now }
        ensures { OnOk result (self.new ≡ stamped_acts self.old acts.now 0) }
    {
        self.tree.apply_acts(alloc, acts.as_slice(), 0)
    }
}
