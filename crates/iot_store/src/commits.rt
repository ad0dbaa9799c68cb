//! The commits in memory: the tree that they make, with its stamps, their labels, and the number of each.
ghost use Rattle.std.specs.Prelude.{◌≡◌, ◌↔◌, ◌<◌, ◌+◌, ◌^◌, length, true, None, IsTrue, OnOk, IfOk, IfSome};
ghost use Rattle.iot_access.specs.Access.{FitInTurn};
ghost use Rattle.iot_acts.specs.Traces.{ReadsHold};
ghost use Rattle.iot_stamp.specs.Stamps.{nodes_of};
ghost use Rattle.iot_tree.specs.Tree.{IsWhole};
ghost use Rattle.iot_store.specs.Commits.{IsIndex, MakesAllIf, UpdatesIf};
ghost use Rattle.iot_store.specs.Bodies.{AreApart};

use iot_certify::{Verdict, certify_view};
use iot_stamp::Stamped;
use iot_text::NoMemory;
use iot_tree::{Access, Label, Labels, Tree, Update};
use iot_wire::{CommitView, Effects};
use std::alloc::Global;
use std::collections::BTreeMap;
use std::marker::Model;

/// The commits of a server, as they are on its disk. After an `Err` of a call they are given up.
#[derive(Drop)]
pub(crate) struct Commits {
    pub(crate) tree: Stamped,
    pub(crate) labels: Labels,

    /// The number of each commit, by its client and its transaction.
    pub(crate) numbers: BTreeMap<(u64, u64), u64>,
}

impl Model for Commits {
    ghost use Rattle.iot_stamp.specs.Stamps.{nodes_of};
    ghost use Rattle.iot_store.specs.Commits.{IsIndex};
    ghost use Rattle.iot_store.specs.States.{State, state_code};

    ghost Value = { State };

    ghost coded = { state_code };

    ghost view = { λ c. record { tree = nodes_of c.tree; labels = c.labels; stamps = c.tree } };

    ghost invariant = { λ c. IsIndex c.numbers c.labels };
}

impl Commits {
    ghost use Rattle.std.specs.Prelude.{◌++◌, ◌∷◌, [], false};
    ghost use Rattle.std.specs.List.{list_any};
    ghost use Rattle.iot_store.specs.States.{opening, is_of, CanFollow, after_commit};
    ghost use Rattle.iot_store.specs.Numbers.{number_in};
    ghost use Rattle.iot_store.specs.Commits.{AddsIf};
    ghost use Rattle.iot_store.specs.Reading.{state_with};
    ghost use Rattle.iot_store.specs.Stamps.{next_stamp};

    /// No commits.
    pub(crate) fn new(alloc: Global) -> Result<Commits, NoMemory>
        ensures { IfOk result (λ commits. commits ≡ opening) }
    {
        Ok(Commits {
            tree: Stamped::with_stamp(alloc, Tree::whole_root(alloc)?, 1)?,
            labels: Labels::new(alloc),
            numbers: BTreeMap::new(alloc),
        })
    }

    /// The tree that they make.
    pub(crate) fn tree(&self) -> &Tree
        ensures { result.now ≡ self.now.tree }
    {
        self.tree.tree()
    }

    /// That tree with its stamps.
    pub(crate) fn stamped(&self) -> &Stamped
        ensures stamps { result.now ≡ self.now.stamps }
        ensures tree { nodes_of result.now ≡ self.now.tree }
    {
        &self.tree
    }

    /// Those of this tree with these labels, if no transaction has two of them. `NoMemory` too if the next one could have no stamp.
    pub(crate) fn with_labels(
        alloc: Global,
        tree: Stamped,
        labels: Labels,
    ) -> Result<Option<Commits>, NoMemory>
        ensures made { IfOk result (λ read. IfSome read (λ made. made ≡ state_with tree labels)) }
        ensures apart { IfOk result (λ read. IfSome read (λ _. AreApart labels)) }
        ensures none { IfOk result (λ read. read ≡ None → AreApart labels → ⊥) }
        ensures few { IfOk result (λ read. IfSome read (λ _. length labels + 1 < 2 ^ 64)) }
    {
        let Some(numbers) = numbers_of(alloc, labels.as_slice())? else {
            return Ok(None);
        };
        let commits = Commits {
            tree,
            labels,
            numbers,
        };
        commits.next_stamp()?;
        Ok(Some(commits))
    }

    /// The stamp of the next commit. Stamps end at 64 bits; no list in memory is that long.
    fn next_stamp(&self) -> Result<u64, NoMemory>
        ensures { IfOk result (λ stamp. (stamp ≡ next_stamp (length self.now.labels)) × (length self.now.labels + 2 < 2 ^ 64)) }
    {
        (self.labels.len() as u64).checked_add(2).ok_or(NoMemory)
    }

    /// Their labels.
    pub(crate) fn labels(&self) -> &Labels
        ensures { result.now ≡ self.now.labels }
    {
        &self.labels
    }

    /// The same, without the commits.
    pub(crate) fn into_labels(self) -> Labels
        ensures { result ≡ self.labels }
    {
        self.labels
    }

    /// The number of a client's transaction, if it is among the commits.
    pub(crate) fn number_of(&self, client: u64, tid: u64) -> Option<u64>
        ensures { result ≡ number_in self.now.labels client tid }
    {
        self.numbers.get(&(client, tid)).copied()
    }

    /// Whether each of the updates fits the tree in its turn. Takes no copy of it.
    pub(crate) fn fit_in_turn(
        &mut self,
        alloc: Global,
        updates: &[Update],
    ) -> Result<bool, NoMemory>
        ensures fit { IfOk result (λ fit. IsTrue fit ↔ FitInTurn self.old.tree updates.now) }
        ensures same { OnOk result (self.new ≡ self.old) }
    {
        self.tree.fit_in_turn(alloc, updates)
    }

    /// Adds a commit that can follow.
    pub(crate) fn add(
        &mut self,
        alloc: Global,
        label: Label,
        access: &Access,
    ) -> Result<(), NoMemory>
        requires follows { CanFollow self.old label access.now }
        ensures made { OnOk result (self.new ≡ after_commit self.old label access.now) }
        ensures few { OnOk result (length self.old.labels + 2 < 2 ^ 64) }
    {
        let stamp = self.next_stamp()?;
        self.tree
            .apply_all(alloc, access.updates.as_slice(), stamp)?;
        self.list(label)?;
        Ok(())
    }

    /// Adds the commit that is lent if it can follow, and says whether it can. Only then are its label and its updates copied.
    pub(crate) fn replay(
        &mut self,
        alloc: Global,
        commit: &CommitView<'_>,
    ) -> Result<bool, NoMemory>
        ensures adds { IfOk result (λ follows. AddsIf follows commit.now.0 commit.now.1.0 self.old self.new) }
        ensures few { IfOk result (λ follows. follows ≡ true → length self.old.labels + 2 < 2 ^ 64) }
    {
        if self.has(commit) {
            return Ok(false);
        }
        if !holds(alloc, self.tree(), commit)? {
            return Ok(false);
        }
        let stamp = self.next_stamp()?;
        let Effects { label, updates } = commit.copy_effects(alloc)?;
        if !make_all(alloc, &mut self.tree, updates.as_slice(), stamp)? {
            return Ok(false);
        }
        self.list(label)?;
        Ok(true)
    }

    /// Whether the transaction is among the commits.
    fn has(&self, commit: &CommitView<'_>) -> bool
        ensures { result ≡ list_any (is_of commit.now.0.client commit.now.0.tid) self.now.labels }
    {
        let label = commit.label();
        self.number_of(label.client, label.tid).is_some()
    }

    /// Puts a label after the others.
    fn list(&mut self, label: Label) -> Result<(), NoMemory>
        requires { list_any (is_of label.client label.tid) self.old.labels ≡ false }
        ensures tree { OnOk result (self.new.tree ≡ self.old.tree) }
        ensures stamps { OnOk result (self.new.stamps ≡ self.old.stamps) }
        ensures labels { OnOk result (self.new.labels ≡ self.old.labels ++ label ∷ []) }
    {
        let key = (label.client, label.tid);
        self.labels.push(label)?;
        let number = self.labels.len();
        match self.numbers.insert(key, number as u64) {
            Ok(_) => Ok(()),
            Err(_) => {
                self.labels.remove(number - 1);
                Err(NoMemory)
            }
        }
    }
}

/// The number of each label by its client and its transaction, if no transaction has two labels.
fn numbers_of(
    alloc: Global,
    labels: &[Label],
) -> Result<Option<BTreeMap<(u64, u64), u64>>, NoMemory>
    ensures index { IfOk result (λ read. IfSome read (λ numbers. IsIndex numbers labels.now)) }
    ensures apart { IfOk result (λ read. IfSome read (λ _. AreApart labels.now)) }
    ensures none { IfOk result (λ read. read ≡ None → AreApart labels.now → ⊥) }
{
    let mut numbers = BTreeMap::new(alloc);
    'labels: for place in 0..labels.len() {
        let label = &labels[place];
        let key = (label.client, label.tid);
        if numbers.contains_key(&key) {
            return Ok(None);
        }
        match numbers.insert(key, place as u64 + 1) {
            Ok(_) => (),
            Err(_) => return Err(NoMemory),
        }
    }
    Ok(Some(numbers))
}

/// Makes the updates as long as they fit, and says whether all do.
fn make_all(
    alloc: Global,
    tree: &mut Stamped,
    updates: &[Update],
    stamp: u64,
) -> Result<bool, NoMemory>
    ensures { IfOk result (λ fit. MakesAllIf fit updates.now stamp tree.old tree.new) }
{
    'updates: for update in updates {
        if !make(alloc, tree, update, stamp)? {
            return Ok(false);
        }
    }
    Ok(true)
}

/// Makes an update if it fits, and says whether it did.
fn make(alloc: Global, tree: &mut Stamped, update: &Update, stamp: u64) -> Result<bool, NoMemory>
    ensures { IfOk result (λ fits. UpdatesIf fits update.now stamp tree.old tree.new) }
{
    if !tree.tree().fits(update) {
        return Ok(false);
    }
    tree.apply(alloc, update, stamp)?;
    Ok(true)
}

/// Whether each base read of the commit is the tree's answer.
fn holds(alloc: Global, tree: &Tree, commit: &CommitView<'_>) -> Result<bool, NoMemory>
    ensures { IfOk result (λ holds. IsTrue holds ↔ ReadsHold tree.now commit.now.1.0.reads) }
{
    let verdict = certify_view(alloc, tree, &commit.access())?;
    Ok(matches!(verdict, Verdict::Holds))
}
