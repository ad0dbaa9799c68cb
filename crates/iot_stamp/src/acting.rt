//! Acts, and updates without them, that are made on a stamped tree.
ghost use Rattle.std.specs.Prelude.{◌≡◌, OnOk};
ghost use Rattle.iot_acts.specs.Traces.{FitsIfAny};
ghost use Rattle.iot_access.specs.Access.{FitInTurn};
ghost use Rattle.iot_stamp.specs.Acting.{UpdatesFit, stamped_acts, stamped_all, stamped_if_any};
ghost use Rattle.iot_stamp.specs.Stamps.{nodes_of};

use crate::Stamped;
use iot_text::NoMemory;
use iot_tree::{Act, Update};
use std::alloc::Global;

impl Stamped {
    /// Makes the updates in turn, all with this stamp, as `apply` makes one. After an error nothing is said of the tree.
    pub fn apply_all(
        &mut self,
        alloc: Global,
        updates: &[Update],
        stamp: u64,
    ) -> Result<(), NoMemory>
        requires { FitInTurn (nodes_of self.old) updates.now }
        ensures { OnOk result (self.new ≡ stamped_all self.old updates.now stamp) }
    {
        'updates: for update in updates {
            self.apply(alloc, update, stamp)?;
        }
        Ok(())
    }

    /// Makes the updates of the acts in turn, all with this stamp, as `apply` makes one. After an error nothing is said of the tree.
    pub fn apply_acts(&mut self, alloc: Global, acts: &[Act], stamp: u64) -> Result<(), NoMemory>
        requires { UpdatesFit (nodes_of self.old) acts.now }
        ensures { OnOk result (self.new ≡ stamped_acts self.old acts.now stamp) }
    {
        'acts: for act in acts {
            self.apply_if_any(alloc, &act.update, stamp)?;
        }
        Ok(())
    }

    /// Makes an update with this stamp, if there is one.
    pub fn apply_if_any(
        &mut self,
        alloc: Global,
        update: &Option<Update>,
        stamp: u64,
    ) -> Result<(), NoMemory>
        requires { FitsIfAny (nodes_of self.old) update.now }
        ensures { OnOk result (self.new ≡ stamped_if_any self.old update.now stamp) }
    {
        match update {
            None => Ok(()),
            Some(update) => self.apply(alloc, update, stamp),
        }
    }
}
