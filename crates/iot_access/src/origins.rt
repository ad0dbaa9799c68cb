//! Where the rows of a tree come from, kept while updates are made.
ghost use Rattle.std.specs.Prelude.{◌≡◌, ◌++◌, ◌∷◌, [], List, Option, IfOk, OnOk};
ghost use Rattle.std.specs.Option.{option_map};
ghost use Rattle.iot_text.specs.Paths.{IsPath};
ghost use Rattle.iot_tree.specs.Tree.{Path as TreePath};
ghost use Rattle.iot_tree.specs.declared.updates.Update.{Update as TreeUpdate};
ghost use Rattle.iot_access.specs.Sources.{hidden, carried};
ghost use Rattle.iot_access.specs.BaseReads.{origin};
ghost use Rattle.iot_access.specs.Entries.{Tells, Clears, Carries, NoneBelow, AreApart, IsApart};
ghost use Rattle.iot_access.specs.Origins.{Takes, TellAfter, entries};

use iot_text::{Name, NoMemory, Path};
use iot_tree::{Question, Update};
use std::alloc::Global;
use std::collections::BTreeMap;
use std::ops::Bound;

/// Where rows or modes come from: paths, each with the path of the tree before from which its row or
/// its mode comes, or with None if the updates made what is there, or made it free. A path without an
/// entry comes with its parent.
type Index = BTreeMap<Vec<Name>, Option<Path>>;

/// Where the rows of a tree come from, but for their modes, and where the modes do.
#[derive(Drop)]
pub(crate) struct Origins {
    pub(crate) rows: Index,
    pub(crate) modes: Index,
}

/// The names, and then the others.
fn joined(alloc: Global, names: &[Name], rest: &[Name]) -> Result<Vec<Name>, NoMemory>
    ensures { IfOk result (λ joined. joined.items ≡ names.now ++ rest.now) }
{
    let mut joined = Vec::with_capacity(alloc, names.len() + rest.len())?;
    joined.extend_from_slice(names)?;
    joined.extend_from_slice(rest)?;
    Ok(joined)
}

/// Where a row comes from that is this far below one that comes from `origin`.
fn below(alloc: Global, origin: &Option<Path>, rest: &[Name]) -> Result<Option<Path>, NoMemory>
    requires { IsPath rest.now }
    ensures { IfOk result (λ source. source ≡ option_map (λ o. o ++ rest.now) origin.now) }
{
    match origin {
        Some(origin) => {
            let names = joined(alloc, origin.names(), rest)?;
            Ok(Some(Path::from_names(names)?))
        }
        None => Ok(None),
    }
}

/// The path of the tree before from which the row at the path comes: None if the updates made what is
/// there, or made it free. A binary search for each path at or above it.
fn source_of(alloc: Global, index: &Index, path: &Path) -> Result<Option<Path>, NoMemory>
    ensures { IfOk result (λ source. (s : TreePath → Option TreePath) → Tells (entries index.now) s → source ≡ s path.now) }
{
    let names = path.names();
    let mut above = names.len();
    'above: loop {
        if let Some(origin) = index.get(&names[..above]) {
            return below(alloc, origin, &names[above..]);
        }
        if above == 0 {
            return Ok(Some(path.copy(alloc)?));
        }
        above -= 1;
    }
}

/// Takes the first entry below the path, if there is one.
fn take_below(
    alloc: Global,
    index: &mut Index,
    path: &Vec<Name>,
) -> Result<Option<(Vec<Name>, Option<Path>)>, NoMemory>
    ensures { IfOk result (Takes index.old index.new path.now.items) }
{
    let below = (Bound::Excluded(path), Bound::Unbounded);
    let Some((first, _)) = index.range(below).next() else {
        return Ok(None);
    };
    if !first.as_slice().starts_with(path.as_slice()) {
        return Ok(None);
    }
    let first = Vec::from_slice(alloc, first.as_slice())?;
    Ok(index.remove_entry(first.as_slice()))
}

/// Takes all entries below the path away.
fn clear_below(alloc: Global, index: &mut Index, path: &Vec<Name>) -> Result<(), NoMemory>
    ensures { OnOk result (Clears (entries index.old) (entries index.new) path.now.items) }
{
    'below: while take_below(alloc, index, path)?.is_some() {}
    Ok(())
}

/// Carries all entries below the first path to below the second.
fn carry_below(
    alloc: Global,
    index: &mut Index,
    from: &Vec<Name>,
    to: &[Name],
) -> Result<(), NoMemory>
    requires apart { AreApart from.now.items to.now }
    requires free { NoneBelow (entries index.old) to.now }
    ensures { OnOk result (Carries (entries index.old) (entries index.new) from.now.items to.now) }
{
    'below: while let Some((path, origin)) = take_below(alloc, index, from)? {
        let names = joined(alloc, to, &path[from.len()..])?;
        index.insert(names, origin)?;
    }
    Ok(())
}

/// Keeps in mind that what is at or below the path is new, or gone.
fn hide(alloc: Global, index: &mut Index, path: &Path) -> Result<(), NoMemory>
    ensures { OnOk result
        ((s : TreePath → Option TreePath) → Tells (entries index.old) s → Tells (entries index.new) (hidden path.now s)) }
{
    let names = Vec::from_slice(alloc, path.names())?;
    clear_below(alloc, index, &names)?;
    index.insert(names, None)?;
    Ok(())
}

/// Keeps in mind that what was at or below the first path is at or below the second.
fn carry(alloc: Global, index: &mut Index, from: &Path, to: &Path) -> Result<(), NoMemory>
    requires { AreApart from.now to.now }
    ensures { OnOk result
        ((s : TreePath → Option TreePath) → Tells (entries index.old) s → Tells (entries index.new) (carried from.now to.now s)) }
{
    let source = source_of(alloc, index, from)?;
    let old = Vec::from_slice(alloc, from.names())?;
    let new = Vec::from_slice(alloc, to.names())?;
    clear_below(alloc, index, &new)?;
    carry_below(alloc, index, &old, to.names())?;
    index.insert(new, source)?;
    index.insert(old, None)?;
    Ok(())
}

impl Origins {
    /// Where all comes from before any update: each row and mode from its own path. Does not allocate.
    pub(crate) fn new(alloc: Global) -> Origins
        ensures { TellAfter result [] }
    {
        Origins {
            rows: Index::new(alloc),
            modes: Index::new(alloc),
        }
    }

    /// The path of the tree before from which what the question asks for comes, if it comes from there.
    pub(crate) fn of(&self, alloc: Global, question: &Question) -> Result<Option<Path>, NoMemory>
        ensures { IfOk result (λ found. (done : List TreeUpdate) → TellAfter self.now done → found ≡ origin done question.now) }
    {
        match question {
            Question::Kind(path) | Question::Content(path) | Question::Names(path) => source_of(
                alloc, &self.rows, path,
            ),
            Question::Mode(path) => source_of(alloc, &self.modes, path),
        }
    }

    /// Follows one update more.
    pub(crate) fn follow(&mut self, alloc: Global, update: &Update) -> Result<(), NoMemory>
        requires { IsApart update.now }
        ensures { OnOk result ((done : List TreeUpdate) → TellAfter self.old done → TellAfter self.new (update.now ∷ done)) }
    {
        match update {
            Update::Put(path, _) => hide(alloc, &mut self.rows, path),
            Update::MakeDir(path) | Update::Remove(path) => {
                hide(alloc, &mut self.rows, path)?;
                hide(alloc, &mut self.modes, path)
            }
            Update::Move(from, to) => {
                carry(alloc, &mut self.rows, from, to)?;
                carry(alloc, &mut self.modes, from, to)
            }
            Update::SetMode(path, _) => hide(alloc, &mut self.modes, path),
        }
    }
}
