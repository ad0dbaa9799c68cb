//! Trees.
ghost use Rattle.std.specs.Prelude.{◌≡◌, ◌↔◌, IsTrue, IfOk, IfErr, OnOk, OnErr};
ghost use Rattle.std.specs.Option.{option_copied};
ghost use Rattle.std.specs.FinMap as map;
ghost use Rattle.iot_tree.specs.Tree.{IsTree, root_alone};
ghost use Rattle.iot_tree.specs.Updates.{Fits, FitsPut, updated};
ghost use Rattle.iot_tree.specs.Rows.{AreTreeRows, RefusesRows};
ghost use Rattle.iot_tree.specs.Questions.{kind_of, content_of, answer_of};

use crate::grown::Grown;
use crate::{Answer, Kind, Node, Question, Read, RowFault, Rows, Update};
use iot_text::{Name, NoMemory, Path};
use std::alloc::Global;
use std::marker::Model;
use std::rc::Rc;

/// A tree of files and directories: a node at each path that has one. Contracts see it as this map.
/// The root is a directory, and each other path is in a directory whose names are known.
///
/// Look-ups are binary searches. Copies share the tree, until one of them changes.
#[derive(Drop)]
pub struct Tree {
    grown: Rc<Grown>,
}

impl Model for Tree {
    ghost use Rattle.std.specs.Coded.{coded_ℕ, coded_list};
    ghost use Rattle.std.specs.FinMap.{code};
    ghost use Rattle.iot_tree.specs.Tree.{Nodes};
    ghost use Rattle.iot_tree.specs.contracts.nodes.Node as node;

    ghost Value = { Nodes };

    ghost coded = { code (coded_list (coded_list coded_ℕ)) (node.the_row).coded };

    ghost view = { λ tree. tree.grown.value };
}

impl Tree {
    /// The tree that has only a root, whose names are known to be none.
    pub fn whole_root(alloc: Global) -> Result<Tree, NoMemory>
        ensures { IfOk result (λ tree. tree ≡ root_alone Node.Dir) }
    {
        Tree::shared(alloc, Grown::whole_root(alloc)?)
    }

    /// The tree that has only a root, whose names are not known.
    pub fn far_root(alloc: Global) -> Result<Tree, NoMemory>
        ensures { IfOk result (λ tree. tree ≡ root_alone Node.FarDir) }
    {
        Tree::shared(alloc, Grown::far_root(alloc)?)
    }

    /// The tree, so that its copies can share it.
    fn shared(alloc: Global, grown: Grown) -> Result<Tree, NoMemory>
        ensures { IfOk result (λ tree. tree ≡ grown) }
    {
        Ok(Tree {
            grown: Rc::new(alloc, grown)?,
        })
    }

    /// The tree of these rows.
    ///
    /// # Errors
    ///
    /// `NoTree`, exactly if the rows are no tree or not in the order of their paths: the rows before
    /// the place `at` make a tree, if there are any, and with the row there they make none.
    /// `NoMemory` if memory runs out.
    pub fn from_rows(rows: Rows) -> Result<Tree, RowFault>
        ensures ok { IfOk result (λ tree. (map.entries tree ≡ rows) × AreTreeRows rows) }
        ensures refused { IfErr result (RefusesRows rows) }
    {
        let alloc = rows.allocator();
        let grown = match Grown::from_rows(rows) {
            Ok(grown) => grown,
            Err(fault) => return Err(fault),
        };
        match Tree::shared(alloc, grown) {
            Ok(tree) => Ok(tree),
            Err(_) => Err(RowFault::NoMemory),
        }
    }

    /// The tree of these rows, which make one: they are not looked at.
    pub fn of_rows(rows: Rows) -> Result<Tree, NoMemory>
        requires { AreTreeRows rows }
        ensures { IfOk result (λ tree. map.entries tree ≡ rows) }
    {
        let alloc = rows.allocator();
        Tree::shared(alloc, Grown::of_rows(rows))
    }

    /// The rows in the order of their paths.
    #[inline]
    pub fn rows(&self) -> &Rows
        ensures rows { result.now ≡ map.entries self.now }
        ensures tree { IsTree self.now }
        ensures valid { AreTreeRows result.now }
    {
        self.grown.rows()
    }

    /// An equal tree, which shares this one's memory until one of them changes. Does not allocate.
    ///
    /// # Errors
    ///
    /// Only if it is shared more often than can be counted.
    #[inline]
    pub fn copy(&self, _alloc: Global) -> Result<Tree, NoMemory>
        ensures { IfOk result (λ copy. copy ≡ self.now) }
    {
        Ok(Tree {
            grown: Rc::clone(&self.grown)?,
        })
    }

    /// What is at the path. Does not allocate.
    pub fn kind(&self, path: &Path) -> Kind
        ensures kind { result ≡ kind_of self.now path.now }
        ensures tree { IsTree self.now }
    {
        self.grown.kind(path)
    }

    /// The contents of the file at the path, lent: Some exactly if a file is there whose contents are
    /// known.
    pub fn content(&self, path: &Path) -> Option<&[u8]>
        ensures content { option_copied result ≡ content_of self.now path.now }
        ensures tree { IsTree self.now }
    {
        self.grown.content(path)
    }

    /// The answer to the question. Allocates for contents and names alone. The question for names
    /// makes a search for each name in the directory.
    pub fn answer(&self, alloc: Global, question: &Question) -> Result<Answer, NoMemory>
        ensures answer { IfOk result (λ answer. answer ≡ answer_of self.now question.now) }
        ensures tree { IsTree self.now }
    {
        self.grown.answer(alloc, question)
    }

    /// Whether the tree answers the question as it was answered in this read. Does not allocate. The
    /// question for names makes a search for each name in the directory.
    pub fn answers(&self, read: &Read) -> bool
        ensures answers { IsTrue result ↔ (answer_of self.now read.now.question ≡ read.now.answer) }
        ensures tree { IsTree self.now }
    {
        self.grown.answers(read)
    }

    /// Whether the update fits the tree. Does not allocate.
    pub fn fits(&self, update: &Update) -> bool
        ensures { IsTrue result ↔ Fits self.now update.now }
    {
        self.grown.fits(update)
    }

    /// Makes the update. After an error the tree is as it was. A tree that shares its memory gets memory
    /// of its own first.
    pub fn apply(&mut self, alloc: Global, update: &Update) -> Result<(), NoMemory>
        requires { Fits self.old update.now }
        ensures ok { OnOk result (self.new ≡ updated self.old update.now) }
        ensures err { OnErr result (self.new ≡ self.old) }
    {
        self.part(alloc)?;
        match Rc::get_mut(&mut self.grown) {
            Some(grown) => grown.apply(alloc, update),
            // It shares its memory with no other.
            None => Err(NoMemory),
        }
    }

    /// Puts a node where a file may be put, in place of the file that is there: so a node that was there comes back
    /// as it was. After an error the tree is as it was.
    pub fn put_node(&mut self, alloc: Global, path: &Path, node: Node) -> Result<(), NoMemory>
        requires { FitsPut self.old path.now }
        ensures ok { OnOk result (self.new ≡ map.insert self.old path.now node) }
        ensures err { OnErr result (self.new ≡ self.old) }
    {
        self.part(alloc)?;
        match Rc::get_mut(&mut self.grown) {
            Some(grown) => grown.put(alloc, path, node),
            // It shares its memory with no other.
            None => Err(NoMemory),
        }
    }

    /// Gives the tree memory of its own, if it shares it.
    fn part(&mut self, alloc: Global) -> Result<(), NoMemory>
        ensures { self.new ≡ self.old }
    {
        if Rc::strong_count(&self.grown) != 1 {
            self.grown = Rc::new(alloc, self.grown.copy(alloc)?)?;
        }
        Ok(())
    }

    /// The node at the path of these names. Does not allocate.
    pub fn node(&self, names: &[Name]) -> Option<&Node>
        ensures { option_copied result ≡ map.get self.now names.now }
    {
        self.grown.node(names)
    }
}
