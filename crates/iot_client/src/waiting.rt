//! The calls on the first transaction that waits.
ghost use Rattle.std.specs.Prelude.{◌≡◌, ◌≤◌, Ok, IfOk, IfErr, OnOk, IsErrOf, true};
ghost use Rattle.iot_acts.specs.Guards.{AllGuarded};
ghost use Rattle.iot_acts.specs.Traces.{ActsHold, after_acts};
ghost use Rattle.iot_changes.specs.Rules.{IsResolution};
ghost use Rattle.iot_views.specs.Rules.{IsTreeOfRows};
ghost use Rattle.iot_stamp.specs.Acting.{UpdatesFit};
ghost use Rattle.iot_kept.specs.Changes.{HeadIs, IsSubmitted};
ghost use Rattle.iot_kept.specs.States.{view};
ghost use Rattle.iot_client.specs.Calls.{Stays, empty_queue, not_manual, RefusesFor, Refuses, RefusesReply, Notes};
ghost use Rattle.iot_client.specs.Calls.{CutsOff, CutsOffByVerdict};
ghost use Rattle.iot_client.specs.Calls.{HeadIsIfAny, verdict_change, IsPlanned, IsHeadsRun, Reruns, Resolves, CutsOffRerun, CutsOffByRun};
ghost use Rattle.iot_client.specs.Faults.{CountsFault, MayFail};
ghost use Rattle.iot_client.specs.Messages.{IsSubmission, MakesWhole, ReadsObjects, noted_in, ReadsNoted, IsToldBy};

use crate::asks::Ask;
use crate::client::Client;
use crate::fault::ClientFault;
use crate::noted::Noted;
use crate::replies::{noted, whole};
use crate::requests::ask_for;
use iot_disk::Disk;
use iot_held::pass;
use iot_kept::Change;
use iot_lang::Script;
use iot_queue::Resolution;
use iot_resolve::{plan_of, resolve};
use iot_text::{Name, NoMemory};
use iot_tree::{Acts, Duplicate, Tree};
use std::alloc::Global;
use std::rc::Rc;

impl<D: Disk> Client<D> {
    ghost use Rattle.iot_client.specs.Ties.{state_of, place_of, disk_of, records_of, live_of, IsTied};

    /// What the first transaction that waits needs of the server: that it be committed with the acts of its run or of its resolution,
    /// or the whole tree on which it is to be resolved, or nothing if it is to be decided by hand. Of a run it tells what it asked of the
    /// tree before it, its updates and its lines, which are copied once.
    ///
    /// # Errors
    ///
    /// `Nothing` if none waits, `NoMemory`.
    pub fn submission(&self, alloc: Global) -> Result<Ask, ClientFault>
        requires tied { IsTied D.medium self.now }
        requires place { place_of self.now ≤ 7 }
        ensures request { IfOk result
            (IsSubmission (place_of self.now) (state_of self.now).held (state_of self.now).access (state_of self.now).items) }
        ensures refuses { RefusesFor (empty_queue (state_of self.now).items) result }
    {
        match self.kept.queue().head() {
            Some(item) => {
                let held = self.kept.held();
                let access = self.kept.access();
                Ok(ask_for(alloc, self.me, item, held, access)?)
            }
            None => Err(ClientFault::Nothing),
        }
    }

    /// Takes the reply to the submission of the first transaction that waits, and tells what that says of it. It leaves if it is
    /// settled, or given up since it conflicts: its changes stay in the held tree, committed or not, which costs its updates. Else it
    /// conflicts, and is to be resolved or to be decided by hand.
    ///
    /// # Errors
    ///
    /// `Nothing` if none waits, `BadReply` if the bytes are no reply to a submission, `NoMemory`, `Stopped`.
    pub fn take_verdict(&mut self, alloc: Global, reply: &[u8]) -> Result<Noted, ClientFault>
        requires tied { IsTied D.medium self.old }
        requires submitted { HeadIsIfAny IsSubmitted (state_of self.old).items }
        ensures noted { IfOk result (λ noted. noted_in reply.now ≡ Ok noted) }
        ensures told { IfOk result (IsToldBy reply.now) }
        ensures only { ReadsNoted reply.now }
        ensures notes { IfOk result (λ noted. Notes (verdict_change noted) self.old self.new) }
        ensures view { OnOk result (view (state_of self.new) ≡ view (state_of self.old)) }
        ensures live { OnOk result (live_of self.new ≡ live_of self.old) }
        ensures tied { OnOk result (IsTied D.medium self.new) }
        ensures refuses { RefusesReply (empty_queue (state_of self.old).items) (λ read. noted_in reply.now ≡ read)
            self.old self.new result }
        ensures counts { CountsFault result (D.medium.faults (disk_of self.old)) (D.medium.faults (disk_of self.new)) }
        ensures arms { D.medium.arms (disk_of self.new) ≡ D.medium.arms (disk_of self.old) }
        ensures stopped { IsErrOf result ClientFault.Stopped → CutsOffByVerdict reply.now
            (state_of self.old) (records_of self.old) (D.medium.may_leave (disk_of self.new)) }
        ensures no_memory { IsErrOf result ClientFault.NoMemory → Stays D.medium self.old self.new }
    {
        match self.empty_queue() {
            Some(fault) => Err(fault),
            None => {
                let noted = noted(alloc, reply)?;
                self.change_head(alloc, verdict_change(&noted))?;
                Ok(noted)
            }
        }
    }

    /// Runs this script, which is the one that is planned for the first transaction that waits, on the whole tree that the reply
    /// makes of nothing: the transaction is to be submitted with that run. Copies the held tree and the server's once.
    ///
    /// # Errors
    ///
    /// `Nothing` if none waits, `BadReply` if the bytes are no reply that makes one, at their end if what it makes is not whole,
    /// `NoMemory`, `Stopped`.
    pub fn resolve(
        &mut self,
        alloc: Global,
        reply: &[u8],
        script: Rc<Script>,
    ) -> Result<(), ClientFault>
        requires tied { IsTied D.medium self.old }
        requires planned { HeadIsIfAny IsPlanned (state_of self.old).items }
        ensures resolves { OnOk result (Resolves reply.now script.value self.old self.new) }
        ensures only { ReadsObjects reply.now }
        ensures view { OnOk result (view (state_of self.new) ≡ view (state_of self.old)) }
        ensures live { OnOk result (live_of self.new ≡ live_of self.old) }
        ensures tied { OnOk result (IsTied D.medium self.new) }
        ensures refuses { RefusesReply (empty_queue (state_of self.old).items) (MakesWhole reply.now) self.old self.new result }
        ensures counts { CountsFault result (D.medium.faults (disk_of self.old)) (D.medium.faults (disk_of self.new)) }
        ensures arms { D.medium.arms (disk_of self.new) ≡ D.medium.arms (disk_of self.old) }
        ensures stopped { IsErrOf result ClientFault.Stopped → CutsOffByRun reply.now script.value
            (state_of self.old) (records_of self.old) (D.medium.may_leave (disk_of self.new)) }
        ensures no_memory { IsErrOf result ClientFault.NoMemory → Stays D.medium self.old self.new }
    {
        match self.empty_queue() {
            Some(fault) => Err(fault),
            None => {
                let server = whole(alloc, reply)?;
                self.run_again(alloc, script, server.tree())
            }
        }
    }

    /// Has the first transaction that waits resolved by the script of this name.
    ///
    /// # Errors
    ///
    /// `Nothing` if none waits, `NotManual` if the first is not to be decided by hand, `NoMemory`, `Stopped`.
    pub fn repair(&mut self, alloc: Global, script: &Name) -> Result<(), ClientFault>
        requires tied { IsTied D.medium self.old }
        ensures notes { OnOk result (Notes (Change.Repaired script.now) self.old self.new) }
        ensures view { OnOk result (view (state_of self.new) ≡ view (state_of self.old)) }
        ensures live { OnOk result (live_of self.new ≡ live_of self.old) }
        ensures tied { OnOk result (IsTied D.medium self.new) }
        ensures refuses { Refuses (not_manual (state_of self.old).items) self.old self.new result }
        ensures counts { CountsFault result (D.medium.faults (disk_of self.old)) (D.medium.faults (disk_of self.new)) }
        ensures arms { D.medium.arms (disk_of self.new) ≡ D.medium.arms (disk_of self.old) }
        ensures stopped { IsErrOf result ClientFault.Stopped → CutsOff (Change.Repaired script.now)
            (state_of self.old) (records_of self.old) (D.medium.may_leave (disk_of self.new)) }
        ensures no_memory { IsErrOf result ClientFault.NoMemory → Stays D.medium self.old self.new }
    {
        // A `Name` is always one, as its bytes say.
        let _ = script.as_bytes();
        match self.not_manual() {
            Some(fault) => Err(fault),
            None => self.change_head(alloc, Change::Repaired(*script)),
        }
    }

    /// Gives the first transaction that waits up: it leaves, and its changes stay in the held tree. Costs its updates.
    ///
    /// # Errors
    ///
    /// `Nothing` if none waits, `NotManual` if the first is not to be decided by hand, `NoMemory`, `Stopped`.
    pub fn discard(&mut self, alloc: Global) -> Result<(), ClientFault>
        requires tied { IsTied D.medium self.old }
        ensures notes { OnOk result (Notes Change.Left self.old self.new) }
        ensures view { OnOk result (view (state_of self.new) ≡ view (state_of self.old)) }
        ensures live { OnOk result (live_of self.new ≡ live_of self.old) }
        ensures tied { OnOk result (IsTied D.medium self.new) }
        ensures refuses { Refuses (not_manual (state_of self.old).items) self.old self.new result }
        ensures counts { CountsFault result (D.medium.faults (disk_of self.old)) (D.medium.faults (disk_of self.new)) }
        ensures arms { D.medium.arms (disk_of self.new) ≡ D.medium.arms (disk_of self.old) }
        ensures stopped { IsErrOf result ClientFault.Stopped → CutsOff Change.Left
            (state_of self.old) (records_of self.old) (D.medium.may_leave (disk_of self.new)) }
        ensures no_memory { IsErrOf result ClientFault.NoMemory → Stays D.medium self.old self.new }
    {
        match self.not_manual() {
            Some(fault) => Err(fault),
            None => self.change_head(alloc, Change::Left),
        }
    }

    /// Runs the planned script for the first transaction that waits.
    fn run_again(
        &mut self,
        alloc: Global,
        script: Rc<Script>,
        server: &Tree,
    ) -> Result<(), ClientFault>
        requires tied { IsTied D.medium self.old }
        requires planned { HeadIs IsPlanned (state_of self.old).items }
        requires spelled { IsTreeOfRows server.now }
        ensures reruns { OnOk result (Reruns script.value server.now self.old self.new) }
        ensures view { OnOk result (view (state_of self.new) ≡ view (state_of self.old)) }
        ensures live { OnOk result (live_of self.new ≡ live_of self.old) }
        ensures tied { OnOk result (IsTied D.medium self.new) }
        ensures fails { IfErr result MayFail }
        ensures counts { CountsFault result (D.medium.faults (disk_of self.old)) (D.medium.faults (disk_of self.new)) }
        ensures arms { D.medium.arms (disk_of self.new) ≡ D.medium.arms (disk_of self.old) }
        ensures stopped { IsErrOf result ClientFault.Stopped → CutsOffRerun script.value server.now
            (state_of self.old) (records_of self.old) (D.medium.may_leave (disk_of self.new)) }
        ensures no_memory { IsErrOf result ClientFault.NoMemory → Stays D.medium self.old self.new }
    {
        let done = self.resolution(alloc, script, server)?;
        let access = iot_access::of(alloc, &done.acts, server)?;
        self.change_head(alloc, Change::Resolved(done, access))
    }

    fn resolution(
        &self,
        alloc: Global,
        script: Rc<Script>,
        server: &Tree,
    ) -> Result<Resolution, NoMemory>
        requires tied { IsTied D.medium self.now }
        requires planned { HeadIs IsPlanned (state_of self.now).items }
        requires spelled { IsTreeOfRows server.now }
        ensures run { IfOk result (IsHeadsRun (state_of self.now).held (state_of self.now).items script.value server.now) }
        ensures spelled { IfOk result IsResolution }
        ensures holds { IfOk result (λ done. ActsHold server.now done.acts) }
        ensures guarded { IfOk result (λ done. AllGuarded done.acts) }
    {
        let Some(head) = self.kept.queue().head() else {
            unreachable!();
        };
        let Some(plan) = plan_of(head) else {
            unreachable!();
        };
        let local = local_tree(alloc, self.kept.held(), plan.keeps, &head.acts)?;
        let _block = script.block();
        resolve(alloc, &plan, script, &local, server)
    }
}

/// The held tree after the acts, if a run keeps files of it. Any other run does not look at it, and then it is the held one as it is.
fn local_tree(alloc: Global, held: &Tree, keeps: bool, acts: &Acts) -> Result<Tree, NoMemory>
    requires { UpdatesFit held.now acts.now }
    ensures { IfOk result (λ local. keeps ≡ true → local ≡ after_acts held.now acts.now) }
{
    let mut local = held.copy(alloc)?;
    if !keeps {
        return Ok(local);
    }
    pass(alloc, &mut local, acts.as_slice())?;
    Ok(local)
}

/// The change by what is said of the first transaction that waits.
fn verdict_change(noted: &Noted) -> Change
    ensures { result ≡ verdict_change noted.now }
{
    match noted {
        Noted::Settled { .. } => Change::Left,
        Noted::Conflict { .. } => Change::Conflicted,
    }
}
