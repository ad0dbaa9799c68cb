//! The calls of a client that append a record. It is alive before each; if its disk fails in one, it has stopped.
ghost use Rattle.std.specs.Prelude.{◌<◌, ◌≡◌, ◌≤◌};
ghost use Rattle.{iot_client.specs.Faults.MayFail, iot_kept.specs.Changes.IsByHand, iot_lang.specs.Scripts.IsScript};
ghost use Rattle.iot_laptop.specs.{Alone.CertifiesAlone, Below.Declared, Below.HeadIs, Below.IfErr, Below.IfOk, Below.IsErrOf};
ghost use Rattle.iot_laptop.specs.Below.{IsSome, IsSubmitted, KeepsDisk, List, Nodes, OnOk, Plan, Some, acts_output, false, in_conflict};
ghost use Rattle.iot_laptop.specs.Below.{length, live_numbered, may_end_if_any, most_running, nothing_held, numbered, true, []};
ghost use Rattle.iot_laptop.specs.{Calls.acts_by, Calls.appended, Calls.certified_if, Calls.compared_if, Calls.done, Messages.BringsTree};
ghost use Rattle.{iot_judging.specs.Errands.base_of, iot_laptop.specs.Messages.IsVerdict, iot_laptop.specs.Messages.SpellsTree};
ghost use Rattle.{iot_machine.specs.Clients.leave, iot_tree.specs.Tree.IsWhole};

use crate::errand::Errand;
use crate::laptop::Laptop;
use crate::needs::{Certified, Gone};
use crate::texts::output_of;
use crate::verdict::Told;
use iot_client::{ClientFault, Ended, Step};
use iot_disk::{Disk, JournalFault};
use iot_lang::Script;
use iot_node::{Doubt, Halt, Printed, Transaction};
use iot_text::{Name, NoMemory, Text};
use iot_tree::OnConflict;
use std::alloc::Global;
use std::rc::Rc;

impl<D: Disk> Laptop<D> {
    ghost use Rattle.iot_laptop.specs.Calls.{Begins, Changes, EndsAlone, GoesOn, IsGoneIfAny, IsNoFetch, IsTold, Keeps, MayTake};
    ghost use Rattle.iot_laptop.specs.Calls.{NextIs, Plans, Repairs, Resolves, TakesReply, TakesStep, TakesVerdict, errand_of, head_reads};
    ghost use Rattle.iot_laptop.specs.{Calls.held_for, Laptops.ClientStands, Laptops.IsFirst, Laptops.KeepsTrails};
    ghost use Rattle.iot_laptop.specs.Laptops.{LaptopStands, SamePlace, Stands, disk_in, is_alive, live_in, stamps_in, state_in};

    /// Holds what the reply brings for it. What runs goes on, but for a transaction for which it was fetched, which begins anew.
    #[tactic(auto, using(crate::proofs::CallsLaws::none_bad, crate::proofs::FindingLaws::first_runs))]
    pub fn take(
        &mut self,
        alloc: Global,
        errand: Errand<'_>,
        reply: &[u8],
        out: &mut Text,
    ) -> Result<(), Halt>
        requires stands { Stands D.medium self.old }
        requires may { MayTake errand self.old }
        requires none { (state_in self.old).items ≡ [] }
        requires brings { BringsTree (base_of (stamps_in self.old) (errand_of errand)) reply.now }
        ensures takes { TakesReply D.medium (held_for errand.entry) (base_of (stamps_in self.old) (errand_of errand.entry)) reply.now
            self.old self.new out.old out.new result }
        ensures running { IsNoFetch errand.entry → OnOk result ((state_in self.new).running ≡ (state_in self.old).running) }
    {
        let count = self.records();
        match errand {
            Errand::Refresh(_) => {
                let answer = self.client_mut().take_objects(alloc, reply);
                self.goes_on(alloc, answer, count, out)
            }
            Errand::Fetch { number, .. } => {
                let answer = self.client_mut().fetched(alloc, number, reply);
                self.goes_on(alloc, answer, count, out)
            }
            Errand::Walk { .. } => {
                let answer = self.client_mut().take_walk(alloc, reply);
                self.goes_on(alloc, answer, count, out)
            }
        }
    }

    /// Begins its next transaction, which does this if it conflicts, first class or not, and gives its number.
    #[tactic(auto, using(crate::proofs::FindingLaws::unrefused))]
    pub fn begin(
        &mut self,
        alloc: Global,
        name: &Name,
        script: Rc<Script>,
        option: OnConflict,
        first: bool,
        out: &mut Text,
    ) -> Result<u64, Halt>
        requires stands { Stands D.medium self.old }
        requires room { length (state_in self.old).running < most_running }
        requires script { IsScript script.value }
        ensures does { Begins D.medium (record { name = name.now; code = script.value }) option first
            self.old self.new out.old out.new result }
        ensures keeps { Keeps D.medium self.old self.new result }
    {
        let count = self.records();
        let answer = self.client_mut().begin(alloc, name, script, option, first);
        self.goes_on(alloc, answer, count, out)
    }

    /// Does the next act of the transaction with this number, or gives why none is done. It is second class if transactions wait.
    #[tactic(auto, using(crate::proofs::FindingLaws::unrefused))]
    pub fn step(&mut self, alloc: Global, number: u64, out: &mut Text) -> Result<Step, Halt>
        requires stands { Stands D.medium self.old }
        requires place { self.old.place ≤ 7 }
        requires runs { IsSome (numbered number (state_in self.old).running) }
        ensures next { NextIs D.medium number self.old result }
        ensures does { TakesStep D.medium number self.old self.new out.old out.new result }
        ensures keeps { Keeps D.medium self.old self.new (done result) }
    {
        let count = self.records();
        let answer = self.client_mut().step(alloc, number);
        self.goes_on(alloc, answer, count, out)
    }

    /// Ends the transaction with this number, whose script has ended or may do no more acts: it waits, or starts again on the view.
    #[tactic(auto, using(crate::proofs::FindingLaws::unrefused))]
    pub fn end(&mut self, alloc: Global, number: u64, out: &mut Text) -> Result<Certified, Halt>
        requires stands { Stands D.medium self.old }
        requires over { may_end_if_any (numbered number (state_in self.old).running)
            (live_numbered number (state_in self.old).running (live_in self.old)) ≡ true }
        ensures does { (scripts : List Declared)
            → EndsAlone D.medium scripts (CertifiesAlone number) self.old self.new out.old out.new (compared_if result) }
        ensures gone { IfOk result (IsGoneIfAny D.medium number self.old) }
        ensures keeps { Keeps D.medium self.old self.new (compared_if result) }
    {
        let output = self.output(alloc, number)?;
        let name = self.name;
        let count = self.records();
        let answer = self.client_mut().end(alloc, number);
        certified(name, output, self.goes_on(alloc, answer, count, out))
    }

    /// What the transaction with this number has printed.
    fn output(&self, alloc: Global, number: u64) -> Result<Text, NoMemory>
        requires { Stands D.medium self.now }
        ensures { IfOk result (λ output. output ≡ acts_output (acts_by (numbered number (state_in self.now).running))) }
    {
        match self.run(number) {
            Some(running) => output_of(alloc, running.acts.as_slice()),
            None => Ok(Text::new(alloc)),
        }
    }

    /// Takes the reply to the submission of the first that waits, and tells what that says of it.
    pub fn take_verdict(
        &mut self,
        alloc: Global,
        reply: &[u8],
        out: &mut Text,
    ) -> Result<Told, Halt>
        requires stands { Stands D.medium self.old }
        requires submitted { HeadIs IsSubmitted (state_in self.old).items }
        requires told { IsVerdict (head_reads (state_in self.old).items) reply.now }
        ensures does { TakesVerdict D.medium reply.now self.old self.new out.old out.new (done result) }
        ensures told { IfOk result (IsTold reply.now self.old) }
        ensures keeps { Keeps D.medium self.old self.new (done result) }
    {
        let told = self.told(alloc, reply)?;
        let count = self.records();
        let answer = self.client_mut().take_verdict(alloc, reply);
        match self.goes_on(alloc, answer, count, out) {
            Ok(_) => Ok(told),
            Err(halt) => Err(halt),
        }
    }

    /// Resolves the first that waits by the script that is planned for it, on the whole tree that the reply brings.
    #[tactic(auto, using(crate::proofs::CallsLaws::none_bad))]
    pub fn resolve(
        &mut self,
        alloc: Global,
        reply: &[u8],
        script: Rc<Script>,
        out: &mut Text,
    ) -> Result<(), Halt>
        requires stands { Stands D.medium self.old }
        requires conflict { HeadIs (λ item. item.stage ≡ in_conflict) (state_in self.old).items }
        requires brings { BringsTree nothing_held reply.now }
        requires whole { (t : Nodes) → SpellsTree nothing_held reply.now t → IsWhole t }
        requires script { IsScript script.value }
        ensures does { Resolves D.medium reply.now script.value self.old self.new out.old out.new result }
        ensures keeps { Keeps D.medium self.old self.new result }
    {
        let count = self.records();
        let answer = self.client_mut().resolve(alloc, reply, script);
        self.goes_on(alloc, answer, count, out)
    }

    /// Has the first that waits, which is to be decided by hand, resolved by the script of this name.
    pub fn repair(&mut self, alloc: Global, script: &Name, out: &mut Text) -> Result<(), Halt>
        requires stands { Stands D.medium self.old }
        requires manual { HeadIs IsByHand (state_in self.old).items }
        ensures does { Repairs D.medium script.now self.old self.new out.old out.new result }
        ensures keeps { Keeps D.medium self.old self.new result }
    {
        let count = self.records();
        let answer = self.client_mut().repair(alloc, script);
        self.goes_on(alloc, answer, count, out)
    }

    /// Lets the first that waits, which is to be decided by hand, leave.
    pub fn discard(&mut self, alloc: Global, out: &mut Text) -> Result<(), Halt>
        requires stands { Stands D.medium self.old }
        requires manual { HeadIs IsByHand (state_in self.old).items }
        ensures does { Changes D.medium leave self.old self.new out.old out.new result }
        ensures keeps { Keeps D.medium self.old self.new result }
    {
        let count = self.records();
        let answer = self.client_mut().discard(alloc);
        self.goes_on(alloc, answer, count, out)
    }

    /// What a call of its client answered that was to append a record after so many others. If its disk failed in that, it has stopped.
    pub(crate) fn goes_on<T>(
        &mut self,
        alloc: Global,
        answer: Result<T, ClientFault>,
        count: u64,
        out: &mut Text,
    ) -> Result<T, Halt>
        requires alive { is_alive self.old ≡ true }
        requires fault { IfErr answer MayFail }
        ensures goes { GoesOn D.medium self.old self.new count answer out.old out.new result }
        ensures place { SamePlace self.old self.new }
        ensures disk { disk_in self.new ≡ disk_in self.old }
    {
        let lines = Text::new(alloc);
        let doubt = Doubt { count, lines };
        self.post
            .take(journaled(answer), doubt, self.name.as_bytes(), out)
    }
}

/// What became of a transaction of the client of this name that was to end, and has printed this.
fn certified(client: Name, output: Text, answer: Result<Ended, Halt>) -> Result<Certified, Halt>
    ensures { result ≡ certified_if client output answer }
{
    match answer {
        Ok(Ended::Joined { tid: number, first }) => Ok(Certified::Joined(Gone {
            printed: Printed {
                transaction: Transaction { client, number },
                output,
            },
            first,
        })),
        Ok(Ended::Again { read, question }) => Ok(Certified::Again { read, question }),
        Err(halt) => Err(halt),
    }
}

/// An answer of a client's call that was not refused, as one of an append.
fn journaled<T>(answer: Result<T, ClientFault>) -> Result<T, JournalFault>
    requires { IfErr answer MayFail }
    ensures { result ≡ appended answer }
{
    match answer {
        Ok(done) => Ok(done),
        Err(ClientFault::NoMemory) => Err(JournalFault::NoMemory),
        Err(ClientFault::Stopped) => Err(JournalFault::Stopped),
        Err(_refusal) => unreachable!(),
    }
}
