//! Whether what a checkpoint holds is a state that a client may have.
ghost use Rattle.std.specs.Prelude.{◌≡◌, ◌↔◌, ◌++◌, None, Some, map, IfOk, IsTrue};
ghost use Rattle.iot_kept.specs.Bodies.{AreNumbered, Allows, tids};
ghost use Rattle.iot_kept.specs.Changes.{stage_by};
ghost use Rattle.iot_kept.specs.Memory.{durable_state};
ghost use Rattle.iot_kept.specs.Reading.{ComesNext, IsAbove, InOrder};
ghost use Rattle.iot_kept.specs.Reading.{AllWait, MayWait, IsViewOf, MadeIf, EachMadeIf};
ghost use Rattle.iot_kept.specs.declared.running.Running.{Running as RunningValue};

use crate::durable::Durable;
use crate::following::suits;
use crate::memory::apply_if_any;
use crate::running::Running;
use iot_queue::{Item, Stage};
use iot_text::NoMemory;
use iot_tree::{Act, OnConflict, Tree};
use std::alloc::Global;

impl Durable {
    /// Whether each transaction has a number of its own, up to the last number, and those that run stand by their numbers.
    pub(crate) fn are_numbered(&self, alloc: Global) -> Result<bool, NoMemory>
        ensures { IfOk result (λ are. IsTrue are ↔ AreNumbered (durable_state self.now)) }
    {
        let run = run_numbers(alloc, self.running.as_slice())?;
        if !do_rise(run.as_slice(), self.last) {
            return Ok(false);
        }
        let mut numbers = all_numbers(alloc, self.queue.items(), run.as_slice())?;
        numbers.sort()?;
        Ok(do_rise(numbers.as_slice(), self.last))
    }

    /// Whether all transactions but the first one are Waiting, and that one is in a stage that its option allows.
    pub(crate) fn may_wait(&self) -> bool
        ensures { IsTrue result ↔ MayWait (durable_state self.now).items }
    {
        match self.queue.items().split_first() {
            Some((first, others)) => allows(first.option, &first.stage) && all_wait(others),
            None => true,
        }
    }

    /// The view, if each act of those that wait is guarded, its update fits, and its reads are the answers of the tree on which it was done.
    pub(crate) fn view(&self, alloc: Global) -> Result<Option<Tree>, NoMemory>
        ensures { IfOk result (IsViewOf (durable_state self.now)) }
    {
        let mut tree = self.held.tree().copy(alloc)?;
        if !make_each(alloc, &mut tree, self.queue.items())? {
            return Ok(None);
        }
        Ok(Some(tree))
    }
}

// ---- numbers

/// The numbers of those that run.
fn run_numbers(alloc: Global, running: &[Running]) -> Result<Vec<u64>, NoMemory>
    ensures { IfOk result (λ numbers. numbers.items ≡ map (λ (it : RunningValue). it.tid) running.now) }
{
    running.iter().map(|it| it.tid).collect(alloc)
}

/// The numbers of those that wait.
fn item_numbers(alloc: Global, items: &[Item]) -> Result<Vec<u64>, NoMemory>
    ensures { IfOk result (λ numbers. numbers.items ≡ tids items.now) }
{
    items.iter().map(|item| item.tid).collect(alloc)
}

/// The numbers of those that wait, and then these.
fn all_numbers(alloc: Global, items: &[Item], run: &[u64]) -> Result<Vec<u64>, NoMemory>
    ensures { IfOk result (λ numbers. numbers.items ≡ tids items.now ++ run.now) }
{
    let mut numbers = item_numbers(alloc, items)?;
    numbers.extend_from_slice(run)?;
    Ok(numbers)
}

/// Whether the numbers rise, and none is above the last one.
fn do_rise(numbers: &[u64], last: u64) -> bool
    ensures { IsTrue result ↔ InOrder last numbers.now None }
{
    let mut previous: Option<u64> = None;
    'numbers: for number in numbers {
        if !comes_next(previous, *number, last) {
            return false;
        }
        previous = Some(*number);
    }
    true
}

/// Whether the number is above the one before it, if there is one, and not above the last one.
fn comes_next(previous: Option<u64>, number: u64, last: u64) -> bool
    ensures { IsTrue result ↔ ComesNext last previous number }
{
    is_above(previous, number) && number <= last
}

fn is_above(previous: Option<u64>, number: u64) -> bool
    ensures { IsTrue result ↔ IsAbove previous number }
{
    match previous {
        Some(previous) => previous < number,
        None => true,
    }
}

// ---- stages

/// Whether a transaction with this option may be in this stage.
fn allows(option: OnConflict, stage: &Stage) -> bool
    ensures { IsTrue result ↔ Allows option stage.now }
{
    match stage {
        Stage::Waiting => true,
        Stage::Conflict => is_resolved(option),
        Stage::Manual => is_by_hand(option),
        Stage::Resolved(_) => is_resolved(option),
    }
}

/// Whether it is resolved by a script if it conflicts.
fn is_resolved(option: OnConflict) -> bool
    ensures { IsTrue result ↔ (stage_by option ≡ Some Stage.Conflict) }
{
    match option {
        OnConflict::Reexec => true,
        OnConflict::Resolver(_) => true,
        OnConflict::Abort => false,
        OnConflict::Manual => false,
    }
}

/// Whether it is decided by hand if it conflicts.
fn is_by_hand(option: OnConflict) -> bool
    ensures { IsTrue result ↔ (stage_by option ≡ Some Stage.Manual) }
{
    match option {
        OnConflict::Reexec => false,
        OnConflict::Resolver(_) => false,
        OnConflict::Abort => false,
        OnConflict::Manual => true,
    }
}

/// Whether each is Waiting.
fn all_wait(items: &[Item]) -> bool
    ensures { IsTrue result ↔ AllWait items.now }
{
    'items: for item in items {
        if !waits(&item.stage) {
            return false;
        }
    }
    true
}

fn waits(stage: &Stage) -> bool
    ensures { IsTrue result ↔ (stage.now ≡ Stage.Waiting) }
{
    match stage {
        Stage::Waiting => true,
        Stage::Conflict => false,
        Stage::Manual => false,
        Stage::Resolved(_) => false,
    }
}

// ---- acts

/// Makes the acts of each transaction in turn, if they suit the tree, and says whether they do. If not, nothing is said of it.
fn make_each(alloc: Global, tree: &mut Tree, items: &[Item]) -> Result<bool, NoMemory>
    ensures { IfOk result (λ made. EachMadeIf made items.now tree.old tree.new) }
{
    'items: for item in items {
        if !make_all(alloc, tree, item.acts.as_slice())? {
            return Ok(false);
        }
    }
    Ok(true)
}

/// Makes the acts in turn, if they suit the tree, and says whether they do. If not, nothing is said of it.
pub(crate) fn make_all(alloc: Global, tree: &mut Tree, acts: &[Act]) -> Result<bool, NoMemory>
    ensures { IfOk result (λ made. MadeIf made acts.now tree.old tree.new) }
{
    'acts: for act in acts {
        if !suits(tree, act) {
            return Ok(false);
        }
        apply_if_any(alloc, tree, &act.update)?;
    }
    Ok(true)
}
