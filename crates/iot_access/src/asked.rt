//! The questions that were asked so far.
ghost use Rattle.std.specs.Prelude.{◌≡◌, not, true, IfOk, OnOk, if◌then◌else◌};
ghost use Rattle.std.specs.BTreeSet.{contains};
ghost use Rattle.std.specs.Ordering.{is_eq};
ghost use Rattle.iot_text.specs.Paths.{path_cmp};
ghost use Rattle.iot_tree.specs.Tree.{Path as TreePath};
ghost use Rattle.iot_tree.specs.declared.questions.Question.{Question as Asks};

use iot_text::{NoMemory, Path};
use iot_tree::Question;
use std::alloc::Global;
use std::collections::BTreeSet;

/// The questions that were asked so far: the paths, by what is asked about them.
#[derive(Drop)]
pub(crate) struct Asked {
    pub(crate) kinds: BTreeSet<Path>,
    pub(crate) contents: BTreeSet<Path>,
    pub(crate) names: BTreeSet<Path>,
    pub(crate) modes: BTreeSet<Path>,
}

impl Asked {
    ghost use Rattle.iot_access.specs.Asked.{is_asked, none_asked, or_asked};

    /// None was asked yet. Does not allocate.
    pub(crate) fn new(alloc: Global) -> Asked
        ensures { (question : Asks) → is_asked result question ≡ none_asked question }
    {
        Asked {
            kinds: BTreeSet::new(alloc),
            contents: BTreeSet::new(alloc),
            names: BTreeSet::new(alloc),
            modes: BTreeSet::new(alloc),
        }
    }

    /// Takes the question down, and says whether it is asked for the first time. Costs a binary search.
    pub(crate) fn note(&mut self, alloc: Global, question: &Question) -> Result<bool, NoMemory>
        ensures first { IfOk result (λ first. first ≡ not (is_asked self.old question.now)) }
        ensures asked { OnOk result ((other : Asks) → is_asked self.new other ≡ or_asked (is_asked self.old) question.now other) }
    {
        match question {
            Question::Kind(path) => add(alloc, &mut self.kinds, path),
            Question::Content(path) => add(alloc, &mut self.contents, path),
            Question::Names(path) => add(alloc, &mut self.names, path),
            Question::Mode(path) => add(alloc, &mut self.modes, path),
        }
    }
}

/// Adds the path, and says whether it is new.
fn add(alloc: Global, paths: &mut BTreeSet<Path>, path: &Path) -> Result<bool, NoMemory>
    ensures first { IfOk result (λ first. first ≡ not (contains path_cmp paths.old path.now)) }
    ensures added { OnOk result ((other : TreePath) → contains path_cmp paths.new other
        ≡ (if is_eq (path_cmp path.now other) then true else contains path_cmp paths.old other)) }
{
    match paths.insert(path.copy(alloc)?) {
        Ok(first) => Ok(first),
        Err(_) => Err(NoMemory),
    }
}
