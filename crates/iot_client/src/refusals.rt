//! Why a call is refused.
ghost use Rattle.std.specs.Prelude.{◌≡◌, IfSome};
ghost use Rattle.iot_exec.specs.Execs.{place, act_count};
ghost use Rattle.iot_exec.specs.Places.{is_over};
ghost use Rattle.iot_client.specs.Calls.{busy, pending, may_end_if_any, live_numbered, unended, not_at_end, empty_queue};
ghost use Rattle.iot_client.specs.Calls.{not_manual_in, not_manual};
ghost use Rattle.iot_kept.specs.States.{numbered};
ghost use Rattle.iot_client.specs.Faults.{IsNoStop};

use crate::client::Client;
use crate::fault::ClientFault;
use iot_disk::Disk;
use iot_exec::Exec;
use iot_kept::RUN_LIMIT;
use iot_queue::Stage;

impl<D: Disk> Client<D> {
    ghost use Rattle.iot_client.specs.Ties.{state_of, live_of, IsTied, AreBegun};

    pub(crate) fn busy(&self) -> Option<ClientFault>
        ensures cause { result ≡ busy (state_of self.now).running }
        ensures fault { IfSome result IsNoStop }
    {
        if self.kept.running().len() < RUN_LIMIT {
            None
        } else {
            Some(ClientFault::Busy)
        }
    }

    pub(crate) fn pending(&self) -> Option<ClientFault>
        ensures cause { result ≡ pending (state_of self.now).items }
        ensures fault { IfSome result IsNoStop }
    {
        match self.kept.queue().head() {
            Some(_) => Some(ClientFault::Pending),
            None => None,
        }
    }

    pub(crate) fn unended(&self, number: u64) -> Option<ClientFault>
        requires tied { IsTied D.medium self.now }
        requires begun { AreBegun (live_of self.now) }
        ensures cause { result ≡ unended (numbered number (state_of self.now).running)
            (may_end_if_any (numbered number (state_of self.now).running)
            (live_numbered number (state_of self.now).running (live_of self.now))) }
        ensures fault { IfSome result IsNoStop }
    {
        let Some(at) = self.place_of(number) else {
            return Some(ClientFault::Idle);
        };
        match &self.interpreters[at] {
            Some(interpreter) => not_at_end(&interpreter.exec),
            None => Some(ClientFault::Idle),
        }
    }

    pub(crate) fn empty_queue(&self) -> Option<ClientFault>
        ensures cause { result ≡ empty_queue (state_of self.now).items }
        ensures fault { IfSome result IsNoStop }
    {
        match self.kept.queue().head() {
            Some(_) => None,
            None => Some(ClientFault::Nothing),
        }
    }

    pub(crate) fn not_manual(&self) -> Option<ClientFault>
        ensures cause { result ≡ not_manual (state_of self.now).items }
        ensures fault { IfSome result IsNoStop }
    {
        match self.kept.queue().head() {
            Some(item) => not_manual_in(&item.stage),
            None => Some(ClientFault::Nothing),
        }
    }
}

/// `NotAtEnd` unless the script has ended or may do no more acts.
fn not_at_end(exec: &Exec) -> Option<ClientFault>
    ensures cause { result ≡ not_at_end (is_over (place exec.now)) (act_count exec.now) }
    ensures fault { IfSome result IsNoStop }
{
    if exec.at_end() {
        return None;
    }
    if exec.at_limit() {
        return None;
    }
    Some(ClientFault::NotAtEnd)
}

/// `NotManual` unless the transaction is to be decided by hand.
fn not_manual_in(stage: &Stage) -> Option<ClientFault>
    ensures cause { result ≡ not_manual_in stage.now }
    ensures fault { IfSome result IsNoStop }
{
    match stage {
        Stage::Manual => None,
        Stage::Waiting | Stage::Conflict | Stage::Resolved(_) => Some(ClientFault::NotManual),
    }
}
