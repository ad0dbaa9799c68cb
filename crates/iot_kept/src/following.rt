//! Whether a change can follow those before it.
ghost use Rattle.std.specs.Prelude.{◌≡◌, ◌↔◌, ◌+◌, ◌<◌, length, [], IsTrue, IfOk};
ghost use Rattle.std.specs.List.{AllByRecursion};
ghost use Rattle.iot_bodies.specs.declared.running.TheConstants.{RUN_LIMIT as run_limit};
ghost use Rattle.iot_acts.specs.Traces.{ReadsHold, ActsHold};
ghost use Rattle.iot_certify.specs.Verdicts.{IsLongest};
ghost use Rattle.iot_kept.specs.States.{view};
ghost use Rattle.iot_kept.specs.Changes.{RunIs, FirstRunIs, CanAct, CanFollow, HeadIs, IsSubmittedIn, IsSubmitted, IsInConflict, IsByHand};
ghost use Rattle.iot_kept.specs.Changes.{MayLeaveIn, MayLeave};
ghost use Rattle.iot_kept.specs.Memory.{transaction, transactions, durable_state, SeesOwn};
ghost use Rattle.iot_kept.specs.Reading.{Suits};

use crate::durable::Durable;
use crate::guards::is_guarded;
use crate::running::Running;
use iot_bodies::RUN_LIMIT;
use iot_certify::{Verdict, certify_acts, longest};
use iot_changes::Change;
use iot_queue::{Queue, Stage};
use iot_text::NoMemory;
use iot_tree::{ACT_LIMIT, Act, Acts, Read, Tree};
use std::alloc::Global;

impl Durable {
    /// Whether the change can follow; the tree is the view of what is durable. An end and a cut take a walk over the acts.
    pub(crate) fn can_follow(
        &self,
        alloc: Global,
        tree: &Tree,
        change: &Change,
    ) -> Result<bool, NoMemory>
        requires view { tree.now ≡ view (durable_state self.now) }
        requires sees { AllByRecursion SeesOwn self.now.running.items }
        ensures { IfOk result (λ follows. IsTrue follows ↔ CanFollow (durable_state self.now) change.now) }
    {
        match change {
            Change::Held(_) => Ok(is_empty(&self.queue)),
            Change::Begun { number, .. } => {
                Ok(has_room(self.running.as_slice()) && is_next(self.last, *number))
            }
            Change::Fetched { number, .. } => Ok(self.runs(*number) && is_empty(&self.queue)),
            Change::Acted { number, act } => Ok(self.can_act(*number, act)),
            Change::Ended { number } => self.holds(alloc, tree, *number),
            Change::Cut { number, acts } => self.can_cut(alloc, tree, *number, *acts),
            Change::Conflicted => Ok(head_is_submitted(&self.queue)),
            Change::Resolved(..) => Ok(head_is_in_conflict(&self.queue)),
            Change::Repaired(_) => Ok(head_is_by_hand(&self.queue)),
            Change::Left => Ok(head_may_leave(&self.queue)),
            Change::Again { number } => self.parts(alloc, tree, *number),
        }
    }

    /// Whether the transaction with this number runs.
    fn runs(&self, number: u64) -> bool
        ensures { IsTrue result ↔ RunIs number (λ it. Unit {0}) (transactions self.now.running.items) }
    {
        match self.place_of(number) {
            Some(_) => true,
            None => false,
        }
    }

    /// Whether it runs, and can do the act.
    fn can_act(&self, number: u64, act: &Act) -> bool
        requires { AllByRecursion SeesOwn self.now.running.items }
        ensures { IsTrue result ↔ RunIs number (CanAct act.now) (transactions self.now.running.items) }
    {
        match self.place_of(number) {
            Some(at) => does_suit(&self.running[at], act),
            None => false,
        }
    }

    /// Whether it runs, and its acts hold on the tree.
    fn holds(&self, alloc: Global, t: &Tree, number: u64) -> Result<bool, NoMemory>
        ensures { IfOk result (λ holds. IsTrue holds
            ↔ RunIs number (λ it. ActsHold t.now it.acts) (transactions self.now.running.items)) }
    {
        match self.place_of(number) {
            Some(at) => acts_hold(alloc, t, &self.running[at].acts),
            None => Ok(false),
        }
    }

    /// Whether it runs, and its acts do not hold on the tree.
    fn parts(&self, alloc: Global, t: &Tree, number: u64) -> Result<bool, NoMemory>
        ensures { IfOk result (λ parts. IsTrue parts
            ↔ RunIs number (λ it. ActsHold t.now it.acts → ⊥) (transactions self.now.running.items)) }
    {
        match self.place_of(number) {
            Some(at) => Ok(!acts_hold(alloc, t, &self.running[at].acts)?),
            None => Ok(false),
        }
    }

    /// Whether it is the first that runs, and this many of its acts, and no more, hold on the tree.
    fn can_cut(&self, alloc: Global, t: &Tree, number: u64, acts: u64) -> Result<bool, NoMemory>
        ensures { IfOk result (λ can. IsTrue can
            ↔ FirstRunIs number (λ it. IsLongest t.now it.acts acts) (transactions self.now.running.items)) }
    {
        match self.running.first() {
            Some(it) => is_cut(alloc, t, it, number, acts),
            None => Ok(false),
        }
    }
}

/// Whether it has this number, and this many of its acts, and no more, hold on the tree.
fn is_cut(alloc: Global, t: &Tree, it: &Running, number: u64, acts: u64) -> Result<bool, NoMemory>
    ensures { IfOk result (λ can. IsTrue can ↔ ((it.now.tid ≡ number) × IsLongest t.now it.now.acts acts)) }
{
    if it.tid != number {
        return Ok(false);
    }
    Ok(longest(alloc, t, &it.acts)? == acts)
}

/// Whether the acts hold on the tree.
fn acts_hold(alloc: Global, t: &Tree, acts: &Acts) -> Result<bool, NoMemory>
    ensures { IfOk result (λ hold. IsTrue hold ↔ ActsHold t.now acts.now) }
{
    match certify_acts(alloc, t, acts)? {
        Verdict::Holds => Ok(true),
        Verdict::Differs { .. } => Ok(false),
    }
}

/// Whether the transaction can do the act.
fn does_suit(it: &Running, act: &Act) -> bool
    requires { SeesOwn it.now }
    ensures { IsTrue result ↔ CanAct act.now (transaction it.now) }
{
    (it.acts.len() as u64) < ACT_LIMIT && suits(it.view(), act)
}

/// Whether one more may run.
fn has_room(running: &[Running]) -> bool
    ensures { IsTrue result ↔ (length (transactions running.now) < run_limit) }
{
    running.len() < RUN_LIMIT
}

/// Whether the number follows the last one.
fn is_next(last: u64, number: u64) -> bool
    ensures { IsTrue result ↔ (number ≡ last + 1) }
{
    match last.checked_add(1) {
        Some(next) => number == next,
        None => false,
    }
}

/// Whether no transaction waits.
fn is_empty(queue: &Queue) -> bool
    ensures { IsTrue result ↔ (queue.now ≡ []) }
{
    queue.items().is_empty()
}

// ---- acts

/// Whether the act is guarded, its update fits the tree, and each read is the tree's answer. What is guarded by a
/// tree's answers fits that tree, so it is not asked.
pub(crate) fn suits(tree: &Tree, act: &Act) -> bool
    ensures { IsTrue result ↔ Suits tree.now act.now }
{
    // The law is about trees, and that this is one is known of its rows.
    let _tree = tree.rows();
    is_guarded(act) && do_hold(tree, act.reads.as_slice())
}

/// Whether each read is the tree's answer.
fn do_hold(tree: &Tree, reads: &[Read]) -> bool
    ensures { IsTrue result ↔ ReadsHold tree.now reads.now }
{
    'reads: for read in reads {
        if !tree.answers(read) {
            return false;
        }
    }
    true
}

// ---- the first transaction that waits

/// Whether there is one, and it is Waiting or Resolved.
fn head_is_submitted(queue: &Queue) -> bool
    ensures { IsTrue result ↔ HeadIs IsSubmitted queue.now }
{
    match queue.head() {
        Some(item) => is_submitted(&item.stage),
        None => false,
    }
}

/// Whether there is one, and it is to be resolved.
fn head_is_in_conflict(queue: &Queue) -> bool
    ensures { IsTrue result ↔ HeadIs IsInConflict queue.now }
{
    match queue.head() {
        Some(item) => is_in_conflict(&item.stage),
        None => false,
    }
}

/// Whether there is one, and it is to be decided by hand.
fn head_is_by_hand(queue: &Queue) -> bool
    ensures { IsTrue result ↔ HeadIs IsByHand queue.now }
{
    match queue.head() {
        Some(item) => is_by_hand(&item.stage),
        None => false,
    }
}

/// Whether there is one, and it may be settled or given up.
fn head_may_leave(queue: &Queue) -> bool
    ensures { IsTrue result ↔ HeadIs MayLeave queue.now }
{
    match queue.head() {
        Some(item) => may_leave(&item.stage),
        None => false,
    }
}

fn is_submitted(stage: &Stage) -> bool
    ensures { IsTrue result ↔ IsSubmittedIn stage.now }
{
    match stage {
        Stage::Waiting => true,
        Stage::Conflict => false,
        Stage::Manual => false,
        Stage::Resolved(_) => true,
    }
}

fn is_in_conflict(stage: &Stage) -> bool
    ensures { IsTrue result ↔ (stage.now ≡ Stage.Conflict) }
{
    match stage {
        Stage::Waiting => false,
        Stage::Conflict => true,
        Stage::Manual => false,
        Stage::Resolved(_) => false,
    }
}

fn is_by_hand(stage: &Stage) -> bool
    ensures { IsTrue result ↔ (stage.now ≡ Stage.Manual) }
{
    match stage {
        Stage::Waiting => false,
        Stage::Conflict => false,
        Stage::Manual => true,
        Stage::Resolved(_) => false,
    }
}

fn may_leave(stage: &Stage) -> bool
    ensures { IsTrue result ↔ MayLeaveIn stage.now }
{
    match stage {
        Stage::Waiting => true,
        Stage::Conflict => false,
        Stage::Manual => true,
        Stage::Resolved(_) => true,
    }
}
