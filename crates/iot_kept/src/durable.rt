//! What is durable of a client, in memory: the held tree, the transactions that wait, and those that run.
ghost use Rattle.std.specs.Prelude.{◌≡◌, MatchOption, None, OnOk};
ghost use Rattle.std.specs.List.{AllByRecursion};
ghost use Rattle.iot_tree.specs.Tree.{Nodes};
ghost use Rattle.iot_kept.specs.States.{AllHold, numbered};
ghost use Rattle.iot_kept.specs.Changes.{CanFollow, HeadIs, MayLeave, stage_by, after};
ghost use Rattle.iot_kept.specs.Memory.{transactions, durable_state, StandsOn, classes_of, with_class, AreSecond, IsPlace};
ghost use Rattle.iot_kept.specs.Stamps.{stamps_left, stamps_conflicted};

use crate::running::{Running, make_second};
use iot_access::of_nothing;
use iot_changes::Change;
use iot_held::Held;
use iot_queue::{Queue, Resolution, Stage};
use iot_text::{Name, NoMemory};
use iot_tree::{Access, OnConflict};
use std::alloc::Global;

/// What is durable of a client, and beside it the classes and the own views of the running transactions.
#[derive(Drop)]
pub(crate) struct Durable {
    pub(crate) held: Held,
    pub(crate) queue: Queue,

    /// Those that run, by their numbers.
    pub(crate) running: Vec<Running>,

    /// The number of the last transaction, 0 before the first.
    pub(crate) last: u64,

    /// What the resolution of the first one that waits asked of the server's tree, if it was resolved; else nothing.
    pub(crate) access: Access,
}

// Those that run.
impl Durable {
    /// The place of the running transaction with this number, if it runs.
    pub(crate) fn place_of(&self, number: u64) -> Option<usize>
        ensures place { MatchOption result
            (numbered number (transactions self.now.running.items) ≡ None)
            (IsPlace number self.now.running.items) }
    {
        self.running.iter().position(|it| it.tid == number)
    }

    /// All that run are second class from now on.
    pub(crate) fn all_second(&mut self)
        ensures state { durable_state self.new ≡ durable_state self.old }
        ensures class { AreSecond (classes_of self.new.running.items) }
        ensures held { self.new.held ≡ self.old.held }
        ensures sees { (t : Nodes) → AllByRecursion (StandsOn t) self.old.running.items
            → AllByRecursion (StandsOn t) self.new.running.items }
    {
        make_second(&mut self.running);
    }

    /// Puts the running transaction with this number, if it runs, into this class.
    pub(crate) fn set_class(&mut self, number: u64, first: bool)
        ensures state { durable_state self.new ≡ durable_state self.old }
        ensures class { classes_of self.new.running.items
            ≡ with_class number first (durable_state self.old).running (classes_of self.old.running.items) }
        ensures held { self.new.held ≡ self.old.held }
        ensures sees { (t : Nodes) → AllByRecursion (StandsOn t) self.old.running.items
            → AllByRecursion (StandsOn t) self.new.running.items }
    {
        if let Some(at) = self.place_of(number) {
            self.running[at].first = first;
        }
    }
}

// What becomes of the first transaction that waits.
impl Durable {
    pub(crate) fn conflict(&mut self, alloc: Global) -> Result<(), NoMemory>
        requires waits { CanFollow (durable_state self.old) Change.Conflicted }
        requires hold { AllHold (durable_state self.old) }
        ensures state { OnOk result (durable_state self.new ≡ after (durable_state self.old) Change.Conflicted) }
        ensures running { OnOk result (self.new.running ≡ self.old.running) }
        ensures stamps { OnOk result (self.new.held ≡ stamps_conflicted self.old.held self.old.queue) }
    {
        let Some(head) = self.queue.head() else {
            unreachable!();
        };
        match stage_by(head.option) {
            Some(stage) => {
                self.queue.set_stage(stage);
                self.access = of_nothing(alloc);
                Ok(())
            }
            None => self.leave(alloc),
        }
    }

    pub(crate) fn resolve(&mut self, done: Resolution, access: Access)
        requires waits { CanFollow (durable_state self.old) (Change.Resolved done access) }
        ensures state { durable_state self.new ≡ after (durable_state self.old) (Change.Resolved done access) }
        ensures running { self.new.running ≡ self.old.running }
        ensures stamps { self.new.held ≡ self.old.held }
    {
        self.queue.set_stage(Stage::Resolved(done));
        self.access = access;
    }

    pub(crate) fn repair(&mut self, alloc: Global, script: Name)
        requires waits { CanFollow (durable_state self.old) (Change.Repaired script) }
        ensures state { durable_state self.new ≡ after (durable_state self.old) (Change.Repaired script) }
        ensures running { self.new.running ≡ self.old.running }
        ensures stamps { self.new.held ≡ self.old.held }
    {
        self.queue.set_option(OnConflict::Resolver(script));
        self.queue.set_stage(Stage::Conflict);
        self.access = of_nothing(alloc);
    }

    /// Lets the first one leave. Its updates stay in the held tree, as the client's own.
    pub(crate) fn leave(&mut self, alloc: Global) -> Result<(), NoMemory>
        requires waits { HeadIs MayLeave self.old.queue }
        requires hold { AllHold (durable_state self.old) }
        ensures state { OnOk result (durable_state self.new ≡ after (durable_state self.old) Change.Left) }
        ensures running { OnOk result (self.new.running ≡ self.old.running) }
        ensures stamps { OnOk result (self.new.held ≡ stamps_left self.old.held self.old.queue) }
    {
        let Some(head) = self.queue.leave_head() else {
            unreachable!();
        };
        self.held.pass_in_place(alloc, &head.acts)?;
        self.access = of_nothing(alloc);
        Ok(())
    }
}

/// The stage in which a transaction with this option stays if it conflicts; one that is given up leaves.
fn stage_by(option: OnConflict) -> Option<Stage>
    ensures { result ≡ stage_by option }
{
    match option {
        OnConflict::Reexec => Some(Stage::Conflict),
        OnConflict::Resolver(_) => Some(Stage::Conflict),
        OnConflict::Abort => None,
        OnConflict::Manual => Some(Stage::Manual),
    }
}
