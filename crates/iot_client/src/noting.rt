//! The one place where what is durable of a client changes.
ghost use Rattle.std.specs.Prelude.{◌≡◌, IfErr, OnOk, IsErrOf};
ghost use Rattle.iot_changes.specs.Rules.{IsChange};
ghost use Rattle.iot_kept.specs.Changes.{CanFollow};
ghost use Rattle.iot_kept.specs.Kept.{IsSynced};
ghost use Rattle.iot_kept.specs.Memory.{classes_after};
ghost use Rattle.iot_kept.specs.States.{view};
ghost use Rattle.iot_client.specs.Calls.{Stays, ChangesHead, Notes, CutsOff};
ghost use Rattle.iot_client.specs.Faults.{CountsFault, MayFail};

use crate::client::Client;
use crate::fault::ClientFault;
use iot_disk::Disk;
use iot_kept::Change;
use std::alloc::Global;

impl<D: Disk> Client<D> {
    ghost use Rattle.iot_client.specs.Ties.{state_of, disk_of, records_of, classes_in, live_of, IsTied};

    /// Makes a change that can follow, and appends its record.
    pub(crate) fn note(&mut self, alloc: Global, change: Change) -> Result<(), ClientFault>
        requires synced { IsSynced D.medium self.old.kept }
        requires change { IsChange change }
        requires follows { CanFollow (state_of self.old) change }
        ensures notes { OnOk result (Notes change self.old self.new) }
        ensures classes { OnOk result
            (classes_in self.new ≡ classes_after change (state_of self.old).running (classes_in self.old)) }
        ensures synced { OnOk result (IsSynced D.medium self.new.kept) }
        ensures interpreters { self.new.interpreters ≡ self.old.interpreters }
        ensures fails { IfErr result MayFail }
        ensures counts { CountsFault result (D.medium.faults (disk_of self.old)) (D.medium.faults (disk_of self.new)) }
        ensures arms { D.medium.arms (disk_of self.new) ≡ D.medium.arms (disk_of self.old) }
        ensures stopped { IsErrOf result ClientFault.Stopped → CutsOff change
            (state_of self.old) (records_of self.old) (D.medium.may_leave (disk_of self.new)) }
        ensures no_memory { IsErrOf result ClientFault.NoMemory → Stays D.medium self.old self.new }
    {
        self.kept.note(alloc, change)?;
        Ok(())
    }

    /// Makes a change of the first transaction that waits.
    pub(crate) fn change_head(&mut self, alloc: Global, change: Change) -> Result<(), ClientFault>
        requires tied { IsTied D.medium self.old }
        requires change { IsChange change }
        requires follows { CanFollow (state_of self.old) change }
        requires head { ChangesHead change }
        ensures notes { OnOk result (Notes change self.old self.new) }
        ensures view { OnOk result (view (state_of self.new) ≡ view (state_of self.old)) }
        ensures live { OnOk result (live_of self.new ≡ live_of self.old) }
        ensures tied { OnOk result (IsTied D.medium self.new) }
        ensures fails { IfErr result MayFail }
        ensures counts { CountsFault result (D.medium.faults (disk_of self.old)) (D.medium.faults (disk_of self.new)) }
        ensures arms { D.medium.arms (disk_of self.new) ≡ D.medium.arms (disk_of self.old) }
        ensures stopped { IsErrOf result ClientFault.Stopped → CutsOff change
            (state_of self.old) (records_of self.old) (D.medium.may_leave (disk_of self.new)) }
        ensures no_memory { IsErrOf result ClientFault.NoMemory → Stays D.medium self.old self.new }
    {
        self.note(alloc, change)
    }
}
