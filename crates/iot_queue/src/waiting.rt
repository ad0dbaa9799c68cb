//! The queue itself.
ghost use Rattle.std.specs.Prelude.{◌≡◌, ◌<◌, ◌++◌, ◌∷◌, [], length, option_to_list, OnOk, OnErr, IfErr};
ghost use Rattle.std.specs.Option.{option_copied};
ghost use Rattle.iot_queue.specs.Queues.{head_of, with_head, staged, optioned};

use crate::{Item, Stage};
use iot_text::NoMemory;
use iot_tree::{Acts, OnConflict};
use std::alloc::Global;
use std::marker::Model;
use std::mem::replace;

/// Transactions in the order in which they ended. Contracts see them as that list.
#[derive(Drop)]
pub struct Queue {
    /// Those that wait, after the places of some that have left.
    items: Vec<Item>,

    /// How many have left whose places are still there: fewer than wait, or none.
    left: usize,
}

impl Model for Queue {
    ghost use Rattle.std.specs.Prelude.{◌≤◌, List, drop, length};
    ghost use Rattle.std.specs.Coded.{coded_list};
    ghost use Rattle.iot_queue.specs.declared.items.Item.{Item as Waiting};
    ghost use Rattle.iot_queue.specs.contracts.items.Item as item;

    ghost Value = { List Waiting };

    ghost coded = { coded_list (item.the_row).coded };

    ghost view = { λ queue. drop queue.left queue.items.items };

    ghost invariant = { λ queue. queue.left ≤ length queue.items.items };
}

impl Queue {
    /// A queue with no transaction. Does not allocate.
    pub fn new(alloc: Global) -> Queue
        ensures { result ≡ [] }
    {
        Queue {
            items: Vec::new(alloc),
            left: 0,
        }
    }

    /// Puts a transaction after the others. An error hands it back, and the queue is as it was.
    pub fn push(&mut self, item: Item) -> Result<(), (Item, NoMemory)>
        ensures ok { OnOk result (self.new ≡ self.old ++ item ∷ []) }
        ensures err { OnErr result (self.new ≡ self.old) }
        ensures back { IfErr result (λ refused. refused.0 ≡ item) }
    {
        match self.items.push(item) {
            Ok(()) => Ok(()),
            Err(refused) => Err((refused.value, NoMemory)),
        }
    }

    /// The first transaction, if there is one. Does not allocate.
    pub fn head(&self) -> Option<&Item>
        ensures { option_copied result ≡ head_of self.now }
    {
        self.items().first()
    }

    /// Puts the first transaction into this stage. Does not allocate.
    pub fn set_stage(&mut self, stage: Stage)
        requires { 0 < length self.old }
        ensures { self.new ≡ with_head (staged stage) self.old }
    {
        self.items[self.left].stage = stage;
    }

    /// Gives the first transaction this option. Does not allocate.
    pub fn set_option(&mut self, option: OnConflict)
        requires { 0 < length self.old }
        ensures { self.new ≡ with_head (optioned option) self.old }
    {
        self.items[self.left].option = option;
    }

    /// Takes the first transaction out, if there is one. Does not allocate.
    pub fn leave_head(&mut self) -> Option<Item>
        ensures head { result ≡ head_of self.old }
        ensures rest { self.old ≡ option_to_list result ++ self.new }
    {
        if self.items().is_empty() {
            return None;
        }
        let place = empty_place(*self.items.allocator(), &self.items[self.left]);
        let head = replace(&mut self.items[self.left], place);
        self.left += 1;
        self.close_up();
        Some(head)
    }

    /// Takes the places of those that have left away, if they are as many as wait. So each that waits moves once for one that has left.
    fn close_up(&mut self)
        ensures { self.new ≡ self.old }
    {
        let waiting = self.items.len() - self.left;
        if waiting <= self.left {
            self.items.rotate_left(self.left);
            self.items.truncate(waiting);
            self.left = 0;
        }
    }

    /// The transactions in their order. Does not allocate.
    pub fn items(&self) -> &[Item]
        ensures { result.now ≡ self.now }
    {
        &self.items[self.left..]
    }
}

/// What stands in the place of a transaction that has left. Does not allocate.
fn empty_place(alloc: Global, item: &Item) -> Item {
    Item {
        tid: item.tid,
        script: item.script,
        budget: item.budget,
        acts: Acts::new(alloc),
        option: item.option,
        stage: Stage::Waiting,
    }
}
