//! Trees in memory of their own.
ghost use Rattle.std.specs.Prelude.{◌≡◌, ◌≢◌, ◌↔◌, false, Some, IsSome, IsTrue, IfOk, IfErr, OnOk, OnErr};
ghost use Rattle.std.specs.Option.{option_copied};
ghost use Rattle.std.specs.FinMap as map;
ghost use Rattle.iot_tree.specs.Place.{IsPlace};
ghost use Rattle.iot_tree.specs.Tree.{IsTree, root_alone, parent_node};
ghost use Rattle.iot_tree.specs.Updates.{FitsPut, FitsMakeDir, FitsRemove, FitsMove, FitsSetMode, IsLeaf, Fits, moved, updated};
ghost use Rattle.iot_tree.specs.Rows.{AreTreeRows, RefusesRows};
ghost use Rattle.iot_tree.specs.Questions.{is_dir, kind_of, content_of, answer_of, content_answer, names_answer, mode_answer};
ghost use Rattle.iot_tree.specs.Questions.{children_of, is_far_above};

use crate::children::{begins_within, children_of, count_within, is_names};
use crate::moves::{put_last, renamed_paths};
use crate::places::{kind_in_gap, node_at, place_of};
use crate::rows::first_bad_row;
use crate::{Answer, Blob, Duplicate, Kind, Mode, Node, Question, Read, RowFault, Rows, Update};
use iot_text::{Name, NoMemory, Path};
use std::alloc::Global;
use std::marker::Model;

/// A tree in memory of its own, as a [`crate::Tree`] shares it with its copies. Contracts see it as that.
#[derive(Drop)]
pub(crate) struct Grown {
    rows: Rows,
}

impl Model for Grown {
    ghost use Rattle.std.specs.Coded.{coded_ℕ, coded_list};
    ghost use Rattle.std.specs.FinMap.{code};
    ghost use Rattle.iot_tree.specs.Tree.{Nodes};
    ghost use Rattle.iot_tree.specs.contracts.nodes.Node as node;

    ghost Value = { Nodes };

    ghost coded = { code (coded_list (coded_list coded_ℕ)) (node.the_row).coded };

    ghost use Rattle.std.specs.FinMap.{from_sorted};
    ghost use Rattle.iot_tree.specs.Rows.{AreTreeRows};

    ghost view = { λ tree. from_sorted tree.rows };

    ghost invariant = { λ tree. AreTreeRows tree.rows };
}

impl Grown {
    /// The tree that has only a root, whose names are known to be none.
    pub fn whole_root(alloc: Global) -> Result<Grown, NoMemory>
        ensures { IfOk result (λ tree. tree ≡ root_alone Node.Dir) }
    {
        Grown::with_root(alloc, Node::Dir)
    }

    /// The tree that has only a root, whose names are not known.
    pub fn far_root(alloc: Global) -> Result<Grown, NoMemory>
        ensures { IfOk result (λ tree. tree ≡ root_alone Node.FarDir) }
    {
        Grown::with_root(alloc, Node::FarDir)
    }

    /// The tree that has only this root.
    fn with_root(alloc: Global, root: Node) -> Result<Grown, NoMemory>
        requires { IsTrue (is_dir root) }
        ensures { IfOk result (λ tree. tree ≡ root_alone root) }
    {
        let mut rows = Rows::new(alloc);
        rows.push((Path::root(alloc), root))?;
        Ok(Grown { rows })
    }

    /// The tree of these rows. Does not allocate.
    ///
    /// # Errors
    ///
    /// `NoTree`, exactly if the rows are no tree or not in the order of their paths: the rows before
    /// the place `at` make a tree, if there are any, and with the row there they make none.
    pub fn from_rows(rows: Rows) -> Result<Grown, RowFault>
        ensures ok { IfOk result (λ tree. (map.entries tree ≡ rows) × AreTreeRows rows) }
        ensures refused { IfErr result (RefusesRows rows) }
    {
        match first_bad_row(rows.as_slice()) {
            Some(at) => Err(RowFault::NoTree { at: at as u64 }),
            None => Ok(Grown { rows }),
        }
    }

    /// The tree of these rows, which make one: they are not looked at. Does not allocate.
    pub fn of_rows(rows: Rows) -> Grown
        requires { AreTreeRows rows }
        ensures { map.entries result ≡ rows }
    {
        Grown { rows }
    }

    /// The rows in the order of their paths.
    #[inline]
    pub fn rows(&self) -> &Rows
        ensures rows { result.now ≡ map.entries self.now }
        ensures tree { IsTree self.now }
        ensures valid { AreTreeRows result.now }
    {
        &self.rows
    }

    /// An equal tree in memory of its own.
    pub fn copy(&self, alloc: Global) -> Result<Grown, NoMemory>
        ensures { IfOk result (λ copy. copy ≡ self.now) }
    {
        let rows = self.rows.copy(alloc)?;
        Ok(Grown { rows })
    }

    /// What is at the path. Does not allocate.
    pub fn kind(&self, path: &Path) -> Kind
        ensures kind { result ≡ kind_of self.now path.now }
        ensures tree { IsTree self.now }
    {
        let rows = self.rows.as_slice();
        match place_of(rows, path.names()) {
            Ok(at) => rows[at].1.kind(),
            Err(gap) => kind_in_gap(rows, gap, path.names()),
        }
    }

    /// The contents of the file at the path, lent: Some exactly if a file is there whose contents are
    /// known.
    pub fn content(&self, path: &Path) -> Option<&[u8]>
        ensures content { option_copied result ≡ content_of self.now path.now }
        ensures tree { IsTree self.now }
    {
        match node_at(self.rows.as_slice(), path.names()) {
            Some(node) => node.content(),
            None => None,
        }
    }

    /// The answer to the question. Allocates for contents and names alone. The question for names
    /// makes a search for each name in the directory.
    pub fn answer(&self, alloc: Global, question: &Question) -> Result<Answer, NoMemory>
        ensures answer { IfOk result (λ answer. answer ≡ answer_of self.now question.now) }
        ensures tree { IsTree self.now }
    {
        match question {
            Question::Kind(path) => Ok(self.kind(path).into_answer()),
            Question::Content(path) => self.content_answer(alloc, path),
            Question::Names(path) => self.names_answer(alloc, path),
            Question::Mode(path) => Ok(self.mode_answer(path)),
        }
    }

    /// Whether the tree answers the question as it was answered in this read. Does not allocate. The
    /// question for names makes a search for each name in the directory.
    pub fn answers(&self, read: &Read) -> bool
        ensures answers { IsTrue result ↔ (answer_of self.now read.now.question ≡ read.now.answer) }
        ensures tree { IsTree self.now }
    {
        match &read.question {
            Question::Kind(path) => self.kind(path).is_answer(&read.answer),
            Question::Content(path) => self.has_content(path, &read.answer),
            Question::Names(path) => self.has_names(path, &read.answer),
            Question::Mode(path) => self.has_mode(path, &read.answer),
        }
    }

    /// Whether the update fits the tree. Does not allocate.
    pub fn fits(&self, update: &Update) -> bool
        ensures { IsTrue result ↔ Fits self.now update.now }
    {
        match update {
            Update::Put(path, _) => self.fits_put(path),
            Update::MakeDir(path) => self.fits_make_dir(path),
            Update::Remove(path) => self.fits_remove(path),
            Update::Move(from, to) => self.fits_move(from, to),
            Update::SetMode(path, _) => self.fits_set_mode(path),
        }
    }

    /// Makes the update. After an error the tree is as it was.
    pub fn apply(&mut self, alloc: Global, update: &Update) -> Result<(), NoMemory>
        requires { Fits self.old update.now }
        ensures ok { OnOk result (self.new ≡ updated self.old update.now) }
        ensures err { OnErr result (self.new ≡ self.old) }
    {
        match update {
            Update::Put(path, bytes) => self.put_file(alloc, path, bytes.copy(alloc)?),
            Update::MakeDir(path) => self.put(alloc, path, Node::Dir),
            Update::Remove(path) => {
                self.remove(path);
                Ok(())
            }
            Update::Move(from, to) => self.move_to(alloc, from, to),
            Update::SetMode(path, mode) => self.set_mode(path, *mode),
        }
    }

    /// Whether a file can be put at the path.
    fn fits_put(&self, path: &Path) -> bool
        ensures { IsTrue result ↔ FitsPut self.now path.now }
    {
        // Each row but the root is in a known directory, since the rows make a tree.
        let _tree = self.rows();
        match self.node(path.names()) {
            Some(node) => !node.is_dir(),
            None => self.is_in_known_dir(path),
        }
    }

    /// Whether the path's file can get a mode.
    fn fits_set_mode(&self, path: &Path) -> bool
        ensures { IsTrue result ↔ FitsSetMode self.now path.now }
    {
        match self.node(path.names()) {
            Some(node) => matches!(node.kind(), Kind::IsFile),
            None => false,
        }
    }

    /// Whether a directory can be made at the path.
    fn fits_make_dir(&self, path: &Path) -> bool
        ensures { IsTrue result ↔ FitsMakeDir self.now path.now }
    {
        match self.node(path.names()) {
            Some(_) => false,
            None => self.is_in_known_dir(path),
        }
    }

    /// Whether the path is below the root, in a directory whose names are known.
    fn is_in_known_dir(&self, path: &Path) -> bool
        ensures { IsTrue result ↔ (parent_node self.now path.now ≡ Some Node.Dir) }
    {
        let Some(parent) = path.parent_names() else {
            return false;
        };
        match self.node(parent) {
            Some(node) => node.is_known_dir(),
            None => false,
        }
    }

    /// The node at the path of these names. Does not allocate.
    pub fn node(&self, names: &[Name]) -> Option<&Node>
        ensures { option_copied result ≡ map.get self.now names.now }
    {
        node_at(self.rows.as_slice(), names)
    }

    /// Puts the node at the path, in place of one that is there.
    pub fn put(&mut self, alloc: Global, path: &Path, node: Node) -> Result<(), NoMemory>
        requires parent { parent_node self.old path.now ≡ Some Node.Dir }
        requires no_dir { map.get self.old path.now ≢ Some Node.Dir }
        ensures ok { OnOk result (self.new ≡ map.insert self.old path.now node) }
        ensures err { OnErr result (self.new ≡ self.old) }
    {
        let place = place_of(self.rows.as_slice(), path.names());
        self.put_at(alloc, place, path, node)
    }

    /// Puts a file at the path. It keeps the mode of the file that is there; a new one is off.
    fn put_file(&mut self, alloc: Global, path: &Path, bytes: Blob) -> Result<(), NoMemory>
        requires { FitsPut self.old path.now }
        ensures ok { OnOk result (self.new ≡ updated self.old (Update.Put path.now bytes)) }
        ensures err { OnErr result (self.new ≡ self.old) }
    {
        let place = place_of(self.rows.as_slice(), path.names());
        let mode = match place {
            Ok(at) => self.rows.as_slice()[at].1.mode(),
            Err(_) => Mode::Off,
        };
        self.put_at(alloc, place, path, Node::File(bytes, mode))
    }

    /// Puts the node at the path, whose place among the rows this is, in place of one that is there.
    fn put_at(
        &mut self,
        alloc: Global,
        place: Result<usize, usize>,
        path: &Path,
        node: Node,
    ) -> Result<(), NoMemory>
        requires place { IsPlace (map.entries self.old) path.now place }
        requires parent { parent_node self.old path.now ≡ Some Node.Dir }
        requires no_dir { map.get self.old path.now ≢ Some Node.Dir }
        ensures ok { OnOk result (self.new ≡ map.insert self.old path.now node) }
        ensures err { OnErr result (self.new ≡ self.old) }
    {
        match place {
            Ok(at) => {
                self.rows.set_value(at, node);
                Ok(())
            }
            Err(gap) => {
                let copy = path.copy(alloc)?;
                self.rows.insert(gap, (copy, node))
            }
        }
    }

    /// The answer to the question for a file's contents.
    fn content_answer(&self, alloc: Global, path: &Path) -> Result<Answer, NoMemory>
        ensures answer { IfOk result (λ answer. answer ≡ content_answer (map.get self.now path.now) (is_far_above self.now path.now)) }
        ensures tree { IsTree self.now }
    {
        let rows = self.rows.as_slice();
        match place_of(rows, path.names()) {
            Ok(at) => rows[at].1.content_answer(alloc),
            Err(gap) => Ok(kind_in_gap(rows, gap, path.names()).into_answer()),
        }
    }

    /// The answer to the question for the names in a directory.
    fn names_answer(&self, alloc: Global, path: &Path) -> Result<Answer, NoMemory>
        ensures answer { IfOk result
            (λ answer. answer ≡ names_answer (map.get self.now path.now) (is_far_above self.now path.now) (children_of self.now path.now)) }
        ensures tree { IsTree self.now }
    {
        let rows = self.rows.as_slice();
        match place_of(rows, path.names()) {
            Ok(at) => match &rows[at].1 {
                Node::Dir => {
                    let count = count_within(rows, at, path.names());
                    let within = &rows[at..at + count];
                    Ok(Answer::Names(children_of(alloc, within, path.names())?))
                }
                Node::FarDir => Ok(Answer::Away),
                Node::File(..) | Node::FarFile(_) => Ok(Answer::Absent),
            },
            Err(gap) => Ok(kind_in_gap(rows, gap, path.names()).into_answer()),
        }
    }

    /// Whether this is the answer to the question for a file's contents.
    fn has_content(&self, path: &Path, answer: &Answer) -> bool
        ensures answers { IsTrue result ↔ (content_answer (map.get self.now path.now) (is_far_above self.now path.now) ≡ answer.now) }
        ensures tree { IsTree self.now }
    {
        let rows = self.rows.as_slice();
        match place_of(rows, path.names()) {
            Ok(at) => rows[at].1.has_content(answer),
            Err(gap) => kind_in_gap(rows, gap, path.names()).is_answer(answer),
        }
    }

    /// Whether this is the answer to the question for the names in a directory.
    fn has_names(&self, path: &Path, answer: &Answer) -> bool
        ensures answers { IsTrue result
            ↔ (names_answer (map.get self.now path.now) (is_far_above self.now path.now) (children_of self.now path.now) ≡ answer.now) }
        ensures tree { IsTree self.now }
    {
        let rows = self.rows.as_slice();
        match place_of(rows, path.names()) {
            Ok(at) => match &rows[at].1 {
                Node::Dir => {
                    let count = count_within(rows, at, path.names());
                    is_names(&rows[at..at + count], path.names(), answer)
                }
                Node::FarDir => Kind::Away.is_answer(answer),
                Node::File(..) | Node::FarFile(_) => Kind::Absent.is_answer(answer),
            },
            Err(gap) => kind_in_gap(rows, gap, path.names()).is_answer(answer),
        }
    }

    /// The answer to the question for a file's mode. Does not allocate.
    fn mode_answer(&self, path: &Path) -> Answer
        ensures answer { result ≡ mode_answer (map.get self.now path.now) (is_far_above self.now path.now) }
        ensures tree { IsTree self.now }
    {
        let rows = self.rows.as_slice();
        match place_of(rows, path.names()) {
            Ok(at) => rows[at].1.mode_answer(),
            Err(gap) => kind_in_gap(rows, gap, path.names()).into_answer(),
        }
    }

    /// Whether this is the answer to the question for a file's mode.
    fn has_mode(&self, path: &Path, answer: &Answer) -> bool
        ensures answers { IsTrue result ↔ (mode_answer (map.get self.now path.now) (is_far_above self.now path.now) ≡ answer.now) }
        ensures tree { IsTree self.now }
    {
        let rows = self.rows.as_slice();
        match place_of(rows, path.names()) {
            Ok(at) => rows[at].1.has_mode(answer),
            Err(gap) => kind_in_gap(rows, gap, path.names()).is_answer(answer),
        }
    }

    /// Whether what is at the path can go.
    fn fits_remove(&self, path: &Path) -> bool
        ensures { IsTrue result ↔ FitsRemove self.now path.now }
    {
        if path.names().is_empty() {
            return false;
        }
        if !self.has_row(path) {
            return false;
        }
        !self.has_below(path)
    }

    /// Whether what is at the first path can be moved to the second.
    fn fits_move(&self, from: &Path, to: &Path) -> bool
        ensures { IsTrue result ↔ FitsMove self.now from.now to.now }
    {
        // A path that is at or below no other is not the root.
        if from.names().starts_with(to.names()) {
            return false;
        }
        if to.names().starts_with(from.names()) {
            return false;
        }
        if !self.has_row(from) {
            return false;
        }
        if !self.is_in_known_dir(to) {
            return false;
        }
        !self.has_below(to)
    }

    /// Whether the path has a row.
    fn has_row(&self, path: &Path) -> bool
        ensures { IsTrue result ↔ IsSome (map.get self.now path.now) }
    {
        self.node(path.names()).is_some()
    }

    /// Whether a row lies below the path.
    fn has_below(&self, path: &Path) -> bool
        ensures { (result ≡ false) ↔ IsLeaf self.now path.now }
    {
        let rows = self.rows.as_slice();
        match place_of(rows, path.names()) {
            Ok(at) => begins_within(&rows[at + 1..], path.names()),
            // Below a path without a row there is none.
            Err(_) => false,
        }
    }

    /// Gives the file at the path this mode. After an error the tree is as it was.
    fn set_mode(&mut self, path: &Path, mode: Mode) -> Result<(), NoMemory>
        requires { FitsSetMode self.old path.now }
        ensures ok { OnOk result (self.new ≡ updated self.old (Update.SetMode path.now mode)) }
        ensures err { OnErr result (self.new ≡ self.old) }
    {
        if let Ok(at) = place_of(self.rows.as_slice(), path.names()) {
            let node = self.rows.as_slice()[at].1.with_mode(mode)?;
            self.rows.set_value(at, node);
        }
        Ok(())
    }

    /// Takes the path's row away.
    fn remove(&mut self, path: &Path)
        requires { FitsRemove self.old path.now }
        ensures { self.new ≡ map.remove self.old path.now }
    {
        if let Ok(at) = place_of(self.rows.as_slice(), path.names()) {
            self.rows.remove(at);
        }
    }

    /// Moves the rows at or below the first path to the second, in place of the row that is there:
    /// after all others, and then from there into their place. After an error the tree is as it was.
    fn move_to(&mut self, alloc: Global, from: &Path, to: &Path) -> Result<(), NoMemory>
        requires { FitsMove self.old from.now to.now }
        ensures ok { OnOk result (self.new ≡ moved self.old from.now to.now) }
        ensures err { OnErr result (self.new ≡ self.old) }
    {
        let rows = self.rows.as_slice();
        let Ok(at) = place_of(rows, from.names()) else {
            return Ok(());
        };
        let count = count_within(rows, at, from.names());
        let paths = renamed_paths(alloc, &rows[at..at + count], from, to)?;
        self.rows.set_keys(at, paths);
        self.rows.rotate(at, count);
        put_last(&mut self.rows, count, to.names());
        Ok(())
    }
}
