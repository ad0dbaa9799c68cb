//! Asking for objects, and holding what a reply brings.
ghost use Rattle.std.specs.Prelude.{◌≡◌, ◌≤◌, Ok, IfOk, OnOk, IsErrOf};
ghost use Rattle.iot_kept.specs.Bringing.{base_for, brought_for};
ghost use Rattle.iot_kept.specs.Changes.{CanFollow};
ghost use Rattle.iot_kept.specs.Kept.{IsSynced};
ghost use Rattle.iot_client.specs.Calls.{Stays, pending, RefusesFor, RefusesReply, EndsBy, Brings, CutsOffByTree};
ghost use Rattle.iot_client.specs.Faults.{CountsFault};
ghost use Rattle.iot_tree.specs.Profiles.{IsProfile, IsWalkLimit};
ghost use Rattle.iot_wire.specs.Meanings.{IsRefresh, IsWalk};
ghost use Rattle.iot_client.specs.Messages.{objects_in, MakesTree, ReadsObjects};
ghost use Rattle.iot_stamp.specs.Stamps.{nothing_held};
ghost use Rattle.iot_wire.specs.Messages.{IsMessage};
ghost use Rattle.iot_wire.specs.Rules.{IsReply};
ghost use Rattle.iot_wire.specs.Spelling.{reply_spelling};
ghost use Rattle.iot_wire.specs.declared.replies.Reply.TheVariants.{Objects};

use crate::client::Client;
use crate::fault::ClientFault;
use crate::replies::{bad_at_its_end, objects};
use crate::requests::{refresh, walk};
use iot_disk::Disk;
use iot_kept::{BringFault, Purpose};
use iot_text::{NoMemory, Text};
use iot_tree::{Changes, Duplicate, Profile, Want};
use std::alloc::Global;

impl<D: Disk> Client<D> {
    ghost use Rattle.iot_client.specs.Ties.{state_of, stamps_of, place_of, disk_of, records_of, classes_in, live_of, IsTied};

    /// The request for what is wanted, and for what is known of the held tree. It changes nothing.
    ///
    /// # Errors
    ///
    /// `Pending` if a transaction waits, `NoMemory`.
    pub fn ask(&self, alloc: Global, want: &Want) -> Result<Vec<u8>, ClientFault>
        requires { place_of self.now ≤ 7 }
        ensures request { IfOk result (λ bytes. IsRefresh (place_of self.now) (stamps_of self.now) want.now bytes.items) }
        ensures refuses { RefusesFor (pending (state_of self.now).items) result }
    {
        match self.pending() {
            Some(fault) => Err(fault),
            None => Ok(self.request_for(alloc, want.copy(alloc)?)?.into_bytes()),
        }
    }

    /// The request for what the profile wishes, as much as fits into the limit. It changes nothing.
    ///
    /// # Errors
    ///
    /// `Pending` if a transaction waits, `NoMemory`.
    pub fn ask_walk(
        &self,
        alloc: Global,
        profile: &Profile,
        limit: u64,
    ) -> Result<Vec<u8>, ClientFault>
        requires place { place_of self.now ≤ 7 }
        requires profile { IsProfile profile.now }
        requires limit { IsWalkLimit limit }
        ensures request { IfOk result (λ bytes. IsWalk (place_of self.now) profile.now limit bytes.items) }
        ensures refuses { RefusesFor (pending (state_of self.now).items) result }
    {
        match self.pending() {
            Some(fault) => Err(fault),
            None => Ok(walk(alloc, self.me, profile, limit)?.into_bytes()),
        }
    }

    /// Merges the changes that the reply brings into the held tree; what runs goes on, on its own view. Appends one record, as long as
    /// that tree; a reply that brings nothing costs no more than to append it.
    ///
    /// # Errors
    ///
    /// `Pending` if a transaction waits, `BadReply` if the bytes are no reply that brings changes, or, at their end, if these make no tree
    /// of the held one, `NoMemory`, `Stopped`.
    pub fn take_objects(&mut self, alloc: Global, reply: &[u8]) -> Result<(), ClientFault>
        requires { IsTied D.medium self.old }
        ensures brings { OnOk result (Brings Purpose.Hold reply.now self.old self.new) }
        ensures only { ReadsObjects reply.now }
        ensures live { OnOk result (live_of self.new ≡ live_of self.old) }
        ensures tied { OnOk result (IsTied D.medium self.new) }
        ensures refuses { RefusesReply (pending (state_of self.old).items)
            (MakesTree (stamps_of self.old) reply.now) self.old self.new result }
        ensures counts { CountsFault result (D.medium.faults (disk_of self.old)) (D.medium.faults (disk_of self.new)) }
        ensures arms { D.medium.arms (disk_of self.new) ≡ D.medium.arms (disk_of self.old) }
        ensures stopped { IsErrOf result ClientFault.Stopped → CutsOffByTree Purpose.Hold reply.now
            (stamps_of self.old) (state_of self.old) (records_of self.old) (D.medium.may_leave (disk_of self.new)) }
        ensures no_memory { IsErrOf result ClientFault.NoMemory → Stays D.medium self.old self.new }
    {
        match self.pending() {
            Some(refusal) => Err(refusal),
            None => {
                let changes = objects(alloc, reply)?;
                self.bring(alloc, changes, Purpose::Hold, reply)
            }
        }
    }

    /// Holds the tree that the reply's changes make of nothing, in place of the held one; what runs goes on, on its own view. Appends one
    /// record, as long as that tree.
    ///
    /// # Errors
    ///
    /// `Pending` if a transaction waits, `BadReply` if the bytes are no reply that brings changes, or, at their end, if these make no tree
    /// of nothing, `NoMemory`, `Stopped`.
    pub fn take_walk(&mut self, alloc: Global, reply: &[u8]) -> Result<(), ClientFault>
        requires { IsTied D.medium self.old }
        ensures brings { OnOk result (Brings Purpose.Walk reply.now self.old self.new) }
        ensures only { ReadsObjects reply.now }
        ensures live { OnOk result (live_of self.new ≡ live_of self.old) }
        ensures tied { OnOk result (IsTied D.medium self.new) }
        ensures refuses { RefusesReply (pending (state_of self.old).items)
            (MakesTree nothing_held reply.now) self.old self.new result }
        ensures counts { CountsFault result (D.medium.faults (disk_of self.old)) (D.medium.faults (disk_of self.new)) }
        ensures arms { D.medium.arms (disk_of self.new) ≡ D.medium.arms (disk_of self.old) }
        ensures stopped { IsErrOf result ClientFault.Stopped → CutsOffByTree Purpose.Walk reply.now
            (stamps_of self.old) (state_of self.old) (records_of self.old) (D.medium.may_leave (disk_of self.new)) }
        ensures no_memory { IsErrOf result ClientFault.NoMemory → Stays D.medium self.old self.new }
    {
        match self.pending() {
            Some(refusal) => Err(refusal),
            None => {
                let changes = objects(alloc, reply)?;
                self.bring(alloc, changes, Purpose::Walk, reply)
            }
        }
    }

    /// The request for what is known, and for what is wanted.
    pub(crate) fn request_for(&self, alloc: Global, want: Want) -> Result<Text, NoMemory>
        requires { place_of self.now ≤ 7 }
        ensures { IfOk result (IsRefresh (place_of self.now) (stamps_of self.now) want) }
    {
        let known = self.kept.known_with_stamps(alloc)?;
        refresh(alloc, self.me, known, want)
    }

    /// Merges the changes that the reply brings into the held tree, or for a walk into nothing.
    pub(crate) fn bring(
        &mut self,
        alloc: Global,
        changes: Changes,
        purpose: Purpose,
        reply: &[u8],
    ) -> Result<(), ClientFault>
        requires synced { IsSynced D.medium self.old.kept }
        requires read { objects_in reply.now ≡ Ok changes }
        requires spelled { IsMessage IsReply reply_spelling reply.now (Objects changes) }
        requires follows { CanFollow (state_of self.old) (brought_for purpose (state_of self.old).held) }
        ensures brings { OnOk result (Brings purpose reply.now self.old self.new) }
        ensures classes { OnOk result (classes_in self.new ≡ classes_in self.old) }
        ensures synced { OnOk result (IsSynced D.medium self.new.kept) }
        ensures interpreters { self.new.interpreters ≡ self.old.interpreters }
        ensures ends { EndsBy (MakesTree (base_for purpose (stamps_of self.old)) reply.now) self.old self.new result }
        ensures counts { CountsFault result (D.medium.faults (disk_of self.old)) (D.medium.faults (disk_of self.new)) }
        ensures arms { D.medium.arms (disk_of self.new) ≡ D.medium.arms (disk_of self.old) }
        ensures stopped { IsErrOf result ClientFault.Stopped → CutsOffByTree purpose reply.now
            (stamps_of self.old) (state_of self.old) (records_of self.old) (D.medium.may_leave (disk_of self.new)) }
        ensures no_memory { IsErrOf result ClientFault.NoMemory → Stays D.medium self.old self.new }
    {
        match self.kept.bring(alloc, changes, purpose) {
            Ok(()) => Ok(()),
            Err(BringFault::NoMemory) => Err(ClientFault::NoMemory),
            Err(BringFault::Stopped) => Err(ClientFault::Stopped),
            Err(BringFault::NoTree) => Err(bad_at_its_end(reply)),
        }
    }
}
