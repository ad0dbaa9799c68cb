//! What is durable of a client, in memory, with the trees that scripts read.
ghost use Rattle.std.specs.Prelude.{◌≡◌, true, IfOk, OnOk};
ghost use Rattle.iot_acts.specs.Traces.{FitsIfAny, after_update};
ghost use Rattle.iot_changes.specs.Rules.{IsChange};
ghost use Rattle.iot_durable.specs.Rules.{FollowsIf};
ghost use Rattle.iot_stamp.specs.Stamps.{nodes_of};
ghost use Rattle.iot_kept.specs.States.{opening};
ghost use Rattle.iot_kept.specs.Changes.{CanFollow};
ghost use Rattle.iot_kept.specs.Memory.{memory_state, classes_of, with_class, AreSecond, Sees};
ghost use Rattle.iot_kept.specs.Rules.{rules, IsMemory, IsNoted, IsStarted};
ghost use Rattle.iot_slots.specs.declared.version.Version.TheVariants.{Two};

use crate::durable::Durable;
use crate::running::{Running, leave_view};
use iot_access::of_nothing;
use iot_changes::Change;
use iot_held::{Held, pass};
use iot_queue::Queue;
use iot_text::{Name, NoMemory};
use iot_tree::{Act, OnConflict, Tree, Update};
use std::alloc::Global;

/// What is durable of a client, with its view.
#[derive(Drop)]
pub(crate) struct Memory {
    pub(crate) durable: Durable,

    /// The held tree after all that waits.
    pub(crate) view: Tree,
}

impl Memory {
    /// Nothing is known yet, and nothing runs.
    pub(crate) fn new(alloc: Global) -> Result<Memory, NoMemory>
        ensures state { IfOk result (λ memory. memory_state memory ≡ opening) }
        ensures sound { IfOk result IsMemory }
        ensures fresh { IfOk result IsStarted }
    {
        let durable = Durable {
            held: Held::new(alloc)?,
            queue: Queue::new(alloc),
            running: Vec::new(alloc),
            last: 0,
            access: of_nothing(alloc),
        };
        let view = Tree::far_root(alloc)?;
        Ok(Memory { durable, view })
    }

    /// Makes a change that can follow. A tree that it brings has no stamps of the server, and a transaction that begins is second class.
    /// After an error nothing is said of it.
    pub(crate) fn note(&mut self, alloc: Global, change: Change) -> Result<(), NoMemory>
        requires sound { IsMemory self.old }
        requires follows { CanFollow (memory_state self.old) change }
        ensures { OnOk result (IsNoted self.old change self.new) }
    {
        match change {
            Change::Held(tree) => self.hold(alloc, tree),
            Change::Begun {
                number,
                script,
                option,
            } => self.begin(alloc, number, script, option),
            Change::Fetched { number, tree } => self.fetch(alloc, number, tree),
            Change::Acted { number, act } => self.act(alloc, number, act),
            Change::Ended { number } => self.end(alloc, number),
            Change::Cut { number, acts } => self.cut(alloc, number, acts),
            Change::Conflicted => self.durable.conflict(alloc),
            Change::Resolved(done, access) => {
                self.durable.resolve(done, access);
                Ok(())
            }
            Change::Repaired(script) => {
                self.durable.repair(alloc, script);
                Ok(())
            }
            Change::Left => self.durable.leave(alloc),
            Change::Again { number } => self.start_again(alloc, number),
        }
    }

    /// All that run are second class from now on.
    pub(crate) fn all_second(&mut self)
        ensures state { memory_state self.new ≡ memory_state self.old }
        ensures class { AreSecond (classes_of self.new.durable.running.items) }
        ensures held { self.new.durable.held ≡ self.old.durable.held }
        ensures sound { IsMemory self.old → IsMemory self.new }
    {
        self.durable.all_second();
    }

    /// Puts the running transaction with this number, if it runs, into this class.
    pub(crate) fn set_class(&mut self, number: u64, first: bool)
        ensures state { memory_state self.new ≡ memory_state self.old }
        ensures class { classes_of self.new.durable.running.items
            ≡ with_class number first (memory_state self.old).running (classes_of self.old.durable.running.items) }
        ensures held { self.new.durable.held ≡ self.old.durable.held }
        ensures sound { IsMemory self.old → IsMemory self.new }
    {
        self.durable.set_class(number, first);
    }

    /// Puts the same held tree with other stamps in the place of this one.
    pub(crate) fn set_stamps(&mut self, held: Held)
        requires { nodes_of held ≡ nodes_of self.old.durable.held }
        ensures state { memory_state self.new ≡ memory_state self.old }
        ensures class { classes_of self.new.durable.running.items ≡ classes_of self.old.durable.running.items }
        ensures held { self.new.durable.held ≡ held }
        ensures sound { IsMemory self.old → IsMemory self.new }
    {
        self.durable.held = held;
    }

    /// Makes the change if it can follow, and says whether it can.
    pub(crate) fn replay(&mut self, alloc: Global, change: Change) -> Result<bool, NoMemory>
        requires sound { IsMemory self.old }
        requires change { IsChange change }
        ensures follows { IfOk result (λ follows. FollowsIf (rules Two) follows change (memory_state self.old) (memory_state self.new)) }
        ensures sound { IfOk result (λ follows. follows ≡ true → IsMemory self.new) }
        ensures fresh { IfOk result (λ follows. follows ≡ true → IsStarted self.old → IsStarted self.new) }
    {
        if !self.durable.can_follow(alloc, &self.view, &change)? {
            return Ok(false);
        }
        self.note(alloc, change)?;
        Ok(true)
    }
}

// The changes of the view, and of those that run.
impl Memory {
    /// Nothing waits, so the tree is the view as well.
    fn hold(&mut self, alloc: Global, tree: Tree) -> Result<(), NoMemory>
        requires follows { CanFollow (memory_state self.old) (Change.Held tree) }
        requires sees { Sees self.old }
        ensures { OnOk result (IsNoted self.old (Change.Held tree) self.new) }
    {
        self.view = tree.copy(alloc)?;
        leave_view(&mut self.durable.running);
        self.durable.held = Held::unstamped(alloc, tree)?;
        Ok(())
    }

    fn begin(
        &mut self,
        alloc: Global,
        number: u64,
        script: Name,
        option: OnConflict,
    ) -> Result<(), NoMemory>
        requires sees { Sees self.old }
        ensures { OnOk result (IsNoted self.old (Change.Begun number script option) self.new) }
    {
        let it = Running::begin(alloc, number, script, option, &self.view)?;
        self.durable.running.push(it)?;
        self.durable.last = number;
        Ok(())
    }

    /// Nothing waits, so the tree is the view as well, on which the one with this number starts again.
    fn fetch(&mut self, alloc: Global, number: u64, tree: Tree) -> Result<(), NoMemory>
        requires follows { CanFollow (memory_state self.old) (Change.Fetched number tree) }
        requires sees { Sees self.old }
        ensures { OnOk result (IsNoted self.old (Change.Fetched number tree) self.new) }
    {
        let Some(at) = self.durable.place_of(number) else {
            unreachable!();
        };
        self.view = tree.copy(alloc)?;
        leave_view(&mut self.durable.running);
        self.durable.running[at].start_again(alloc, &self.view)?;
        self.durable.held = Held::unstamped(alloc, tree)?;
        Ok(())
    }

    fn act(&mut self, alloc: Global, number: u64, act: Act) -> Result<(), NoMemory>
        requires follows { CanFollow (memory_state self.old) (Change.Acted number act) }
        requires sees { Sees self.old }
        ensures { OnOk result (IsNoted self.old (Change.Acted number act) self.new) }
    {
        let Some(at) = self.durable.place_of(number) else {
            unreachable!();
        };
        self.durable.running[at].add(alloc, act)?;
        Ok(())
    }

    fn start_again(&mut self, alloc: Global, number: u64) -> Result<(), NoMemory>
        requires follows { CanFollow (memory_state self.old) (Change.Again number) }
        requires sees { Sees self.old }
        ensures { OnOk result (IsNoted self.old (Change.Again number) self.new) }
    {
        let Some(at) = self.durable.place_of(number) else {
            unreachable!();
        };
        self.durable.running[at].start_again(alloc, &self.view)?;
        Ok(())
    }

    fn end(&mut self, alloc: Global, number: u64) -> Result<(), NoMemory>
        requires follows { CanFollow (memory_state self.old) (Change.Ended number) }
        requires sees { Sees self.old }
        ensures { OnOk result (IsNoted self.old (Change.Ended number) self.new) }
    {
        let Some(at) = self.durable.place_of(number) else {
            unreachable!();
        };
        let it = self.durable.running.remove(at);
        it.pass_on(alloc, &mut self.view)?;
        leave_view(&mut self.durable.running);
        match self.durable.queue.push(it.into_ended()) {
            Ok(()) => Ok(()),
            Err(refused) => Err(refused.1),
        }
    }

    fn cut(&mut self, alloc: Global, number: u64, acts: u64) -> Result<(), NoMemory>
        requires follows { CanFollow (memory_state self.old) (Change.Cut number acts) }
        requires sees { Sees self.old }
        ensures { OnOk result (IsNoted self.old (Change.Cut number acts) self.new) }
    {
        if self.durable.running.is_empty() {
            unreachable!();
        }
        let item = self.durable.running.remove(0).into_cut(acts);
        pass(alloc, &mut self.view, item.acts.as_slice())?;
        leave_view(&mut self.durable.running);
        match self.durable.queue.push(item) {
            Ok(()) => Ok(()),
            Err(refused) => Err(refused.1),
        }
    }
}

/// Makes an update, if there is one.
pub(crate) fn apply_if_any(
    alloc: Global,
    tree: &mut Tree,
    update: &Option<Update>,
) -> Result<(), NoMemory>
    requires { FitsIfAny tree.old update.now }
    ensures { OnOk result (tree.new ≡ after_update tree.old update.now) }
{
    match update {
        None => Ok(()),
        Some(update) => tree.apply(alloc, update),
    }
}
