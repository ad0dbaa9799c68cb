//! The first transaction that waits: what it needs of the server, and what is planned for it.
ghost use Rattle.std.specs.Prelude.{◌≡◌, ◌≤◌};
ghost use Rattle.iot_laptop.specs.Below.{HeadIs, IfOk, IsSubmitted, in_conflict, true, ℕ};
ghost use Rattle.iot_laptop.specs.{Calls.acts_in, Calls.label_in, Messages.IsVerdict};

use crate::laptop::{Laptop, memory};
use crate::needs::{Need, Submitted, Undecided};
use crate::texts::output_of;
use crate::verdict::{Told, verdict_in};
use iot_client::Ask;
use iot_disk::Disk;
use iot_node::{Printed, Transaction};
use iot_queue::{Item, Stage};
use iot_resolve::{Plan, plan_of};
use iot_text::NoMemory;
use iot_tree::{Act, OnConflict, Way};
use std::alloc::Global;

impl<D: Disk> Laptop<D> {
    ghost use Rattle.iot_laptop.specs.{Below.waits_of, Calls.IsHeadPlan, Calls.IsNeed};
    ghost use Rattle.iot_laptop.specs.{Calls.IsTold, Calls.decision, Calls.head_name, Calls.head_reads, Laptops.Stands, Laptops.state_in};

    /// The name of the first that waits.
    pub fn head(&self) -> Option<Transaction>
        requires { Stands D.medium self.now }
        ensures { result ≡ head_name self.now (state_in self.now).items }
    {
        let item = self.client().queue().head()?;
        Some(self.transaction(item.tid))
    }

    /// The first that waits, if it is to be decided by hand.
    pub fn decision(&self) -> Result<Transaction, Undecided>
        requires { Stands D.medium self.now }
        ensures { result ≡ decision self.now (state_in self.now).items }
    {
        let item = self.client().queue().head().ok_or(Undecided::Nothing)?;
        match &item.stage {
            Stage::Manual => Ok(self.transaction(item.tid)),
            Stage::Waiting | Stage::Conflict | Stage::Resolved(_) => Err(Undecided::NotManual),
        }
    }

    /// What the first that waits needs of the server.
    pub fn need(&self, alloc: Global) -> Result<Need, NoMemory>
        requires stands { Stands D.medium self.now }
        requires place { self.now.place ≤ 7 }
        requires waits { waits_of (state_in self.now).items ≡ true }
        ensures { IfOk result (λ need. HeadIs (λ item. IsNeed self.now item need) (state_in self.now).items) }
    {
        let Some(item) = self.client().queue().head() else {
            unreachable!();
        };
        match self.client().submission(alloc) {
            Ok(Ask::Commit(request)) => Ok(Need::Verdict(Submitted {
                request: request.into_bytes(),
                printed: Printed {
                    transaction: self.transaction(item.tid),
                    output: output_of(alloc, submitted(item))?,
                },
                way: way_of(item),
            })),
            Ok(Ask::Whole(request)) => Ok(Need::Tree(request.into_bytes())),
            Ok(Ask::Manual) => Ok(Need::Decision),
            Err(fault) => Err(memory(fault)),
        }
    }

    /// What the reply to the submission of the first that waits says of it.
    pub(crate) fn told(&self, alloc: Global, reply: &[u8]) -> Result<Told, NoMemory>
        requires stands { Stands D.medium self.now }
        requires submitted { HeadIs IsSubmitted (state_in self.now).items }
        requires told { IsVerdict (head_reads (state_in self.now).items) reply.now }
        ensures { IfOk result (λ said. IsTold reply.now self.now said) }
    {
        let Some(item) = self.client().queue().head() else {
            unreachable!();
        };
        Ok(Told {
            verdict: verdict_in(alloc, submitted(item), reply)?,
            option: item.option,
        })
    }

    /// What is planned for the first that waits, which conflicts.
    pub fn plan(&self) -> Plan
        requires stands { Stands D.medium self.now }
        requires conflict { HeadIs (λ item. item.stage ≡ in_conflict) (state_in self.now).items }
        ensures { IsHeadPlan (state_in self.now).items result }
    {
        let Some(item) = self.client().queue().head() else {
            unreachable!();
        };
        match plan_of(item) {
            Some(plan) => plan,
            None => unreachable!(),
        }
    }
}

/// The acts that a transaction submits: those of its resolution, or of its own run.
fn submitted(item: &Item) -> &[Act]
    ensures { result.now ≡ acts_in item.now item.now.stage }
{
    match &item.stage {
        Stage::Resolved(done) => done.acts.as_slice(),
        Stage::Waiting | Stage::Conflict | Stage::Manual => item.acts.as_slice(),
    }
}

/// The way on which a transaction is committed that is submitted so.
fn way_of(item: &Item) -> Way
    ensures { (place : ℕ) → result ≡ (label_in place item.now item.now.stage).way }
{
    match (&item.stage, item.option) {
        (Stage::Resolved(_), OnConflict::Reexec) => Way::Reexecuted,
        (Stage::Resolved(_), _other) => Way::Resolved,
        _unresolved => Way::Certified,
    }
}
