//! A running transaction.
ghost use Rattle.std.specs.Prelude.{◌≡◌, false, [], map, take, IfOk, OnOk};
ghost use Rattle.iot_tree.specs.Tree.{Nodes};
ghost use Rattle.iot_tree.specs.declared.limits.TheConstants.{ACT_LIMIT as acts_limit};
ghost use Rattle.iot_acts.specs.Traces.{ActsHold, FitsIfAny, after_acts};
ghost use Rattle.iot_bodies.specs.Spelling.{running_spelling};
ghost use Rattle.iot_kept.specs.Bodies.{running_of};
ghost use Rattle.iot_kept.specs.Changes.{anew, with_act, waiting};
ghost use Rattle.iot_kept.specs.Memory.{transaction, second, past, SeesOwn, StandsOn};
ghost use Rattle.iot_kept.specs.States.{own_view};

use crate::memory::apply_if_any;
use iot_bodies::{Runs, put_running};
use iot_held::pass;
use iot_queue::{Item, Stage};
use iot_text::{Name, NoMemory, Text};
use iot_tree::{ACT_LIMIT, Act, Acts, OnConflict, Tree};
use std::alloc::Global;

/// A running transaction.
#[derive(Drop)]
pub struct Running {
    /// Its number at its client, from 1.
    pub tid: u64,

    /// The script that is run.
    pub script: Name,

    /// What is done if it conflicts.
    pub option: OnConflict,

    /// Whether it is first class: objects that it misses are fetched for it. No disk keeps this.
    pub first: bool,

    /// What it did so far.
    pub acts: Acts,

    /// The tree on which it began.
    pub base: Tree,

    /// The base after the acts.
    pub(crate) own: Tree,

    pub(crate) on: Ground,
}

/// What the base of a running transaction is now.
#[derive(Clone, Copy)]
pub(crate) enum Ground {
    /// The view.
    View,
    /// A view that may be past.
    Past,
}

impl Running {
    /// The tree that its script reads: the base after the acts.
    pub fn view(&self) -> &Tree
        requires { SeesOwn self.now }
        ensures { result.now ≡ own_view (transaction self.now) }
    {
        &self.own
    }

    /// One that begins on this view, second class. Copies no tree.
    pub(crate) fn begin(
        alloc: Global,
        tid: u64,
        script: Name,
        option: OnConflict,
        view: &Tree,
    ) -> Result<Running, NoMemory>
        ensures is { IfOk result (λ it. transaction it
            ≡ record { number = tid; script = script; option = option; base = view.now; acts = [] }) }
        ensures class { IfOk result (λ it. it.first ≡ false) }
        ensures stands { IfOk result (StandsOn view.now) }
    {
        Ok(Running {
            tid,
            script,
            option,
            first: false,
            acts: Acts::new(alloc),
            base: view.copy(alloc)?,
            own: view.copy(alloc)?,
            on: Ground::View,
        })
    }

    /// It starts again on this view. Copies no tree.
    pub(crate) fn start_again(&mut self, alloc: Global, view: &Tree) -> Result<(), NoMemory>
        ensures is { OnOk result (transaction self.new ≡ anew view.now (transaction self.old)) }
        ensures class { OnOk result (self.new.first ≡ self.old.first) }
        ensures stands { OnOk result (StandsOn view.now self.new) }
    {
        self.acts = Acts::new(alloc);
        self.base = view.copy(alloc)?;
        self.own = view.copy(alloc)?;
        self.on = Ground::View;
        Ok(())
    }

    /// It has done one act more, whose update fits its own view. Costs the act, and a copy of the rows if they are shared.
    pub(crate) fn add(&mut self, alloc: Global, act: Act) -> Result<(), NoMemory>
        requires fits { FitsIfAny (own_view (transaction self.old)) act.update }
        requires sees { SeesOwn self.old }
        ensures is { OnOk result (transaction self.new ≡ with_act act (transaction self.old)) }
        ensures class { OnOk result (self.new.first ≡ self.old.first) }
        ensures stands { OnOk result ((t : Nodes) → StandsOn t self.old → StandsOn t self.new) }
    {
        apply_if_any(alloc, &mut self.own, &act.update)?;
        self.acts.push(act)
    }

    /// Makes its updates on the view, on which its acts hold. If it ran on the view, its own is that already.
    pub(crate) fn pass_on(&self, alloc: Global, view: &mut Tree) -> Result<(), NoMemory>
        requires stands { StandsOn view.old self.now }
        requires hold { ActsHold view.old self.now.acts }
        ensures { OnOk result (view.new ≡ after_acts view.old self.now.acts) }
    {
        match self.on {
            Ground::View => {
                *view = self.own.copy(alloc)?;
                Ok(())
            }
            Ground::Past => pass(alloc, view, self.acts.as_slice()),
        }
    }

    /// As one that waits: it ended, and may do all that its script does.
    pub(crate) fn into_ended(self) -> Item
        ensures { result ≡ waiting acts_limit self.acts (transaction self) }
    {
        Item {
            tid: self.tid,
            script: self.script,
            budget: ACT_LIMIT,
            acts: self.acts,
            option: self.option,
            stage: Stage::Waiting,
        }
    }

    /// As one that waits: it was cut off, and keeps so many of its acts.
    pub(crate) fn into_cut(self, count: u64) -> Item
        ensures { result ≡ waiting count (take count self.acts) (transaction self) }
    {
        let mut acts = self.acts.into_vec();
        acts.truncate(count as usize);
        Item {
            tid: self.tid,
            script: self.script,
            budget: count,
            acts: Acts::from_vec(acts),
            option: self.option,
            stage: Stage::Waiting,
        }
    }
}

impl Runs for Running {
    ghost run = { λ it. running_of (transaction it) };

    fn put(&self, out: &mut Text) -> Result<(), NoMemory> {
        put_running(
            self.tid,
            self.script,
            self.option,
            &self.base,
            self.acts.as_slice(),
            out,
        )
    }
}

/// Makes each of them second class.
pub(crate) fn make_second(running: &mut [Running])
    ensures { running.new ≡ map second running.old }
{
    'running: for it in running.iter_mut() {
        it.first = false;
    }
}

/// The view changes, and each of them began on one that may be past.
pub(crate) fn leave_view(running: &mut [Running])
    ensures { running.new ≡ map past running.old }
{
    'running: for it in running.iter_mut() {
        it.on = Ground::Past;
    }
}
