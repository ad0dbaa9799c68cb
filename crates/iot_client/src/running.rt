//! The calls on the transactions that run.
ghost use Rattle.std.specs.Prelude.{◌≡◌, ◌<◌, ◌≤◌, ◌+◌, ◌++◌, ◌∷◌, [], ℕ, true, None, Some, length, drop, map};
ghost use Rattle.std.specs.Prelude.{IfSome, IfNone, MatchOption, IfOk, IfErr, OnOk, IsErrOf, Ok};
ghost use Rattle.iot_views.specs.Rules.{IsOption};
ghost use Rattle.iot_text.specs.Names.{IsName};
ghost use Rattle.iot_kept.specs.Changes.{CanFollow};
ghost use Rattle.iot_kept.specs.States.{numbered};
ghost use Rattle.iot_client.specs.Calls.{Stays, busy, idle, live_numbered, may_end, may_end_if_any, unended};
ghost use Rattle.iot_client.specs.Calls.{Refuses, RefusesReply, EndsBy, Notes, Brings, CutsOff, CutsOffByTree, CutsOffNext};
ghost use Rattle.iot_client.specs.Calls.{IsFirstIfAny, second_class, yielded, ChangesClasses, StepIs, IsSoOfRun, EndIs, lives_after};
ghost use Rattle.iot_client.specs.Calls.{CutsIfAny, CutsOffEnd, CutsOffCut};
ghost use Rattle.iot_client.specs.Doing.{IsAt, IsSoOfOne, GoesOn};
ghost use Rattle.iot_client.specs.Faults.{CountsFault, MayFail};
ghost use Rattle.iot_client.specs.Messages.{objects_in, MakesTree, ReadsObjects};
ghost use Rattle.iot_wire.specs.Messages.{IsMessage};
ghost use Rattle.iot_wire.specs.Rules.{IsReply};
ghost use Rattle.iot_wire.specs.Spelling.{reply_spelling};
ghost use Rattle.iot_wire.specs.declared.replies.Reply.TheVariants.{Objects};

use crate::client::Client;
use crate::ended::Ended;
use crate::fault::ClientFault;
use crate::interpreter::{Decided, Interpreter, again_by, decide_by};
use crate::questions::question_at;
use crate::replies::objects;
use crate::steps::Step;
use iot_certify::{Verdict, certify_acts, longest};
use iot_disk::Disk;
use iot_kept::{Change, Purpose};
use iot_lang::Script;
use iot_text::{Name, NoMemory};
use iot_tree::{Changes, Duplicate, OnConflict, Want};
use std::alloc::Global;
use std::rc::Rc;

impl<D: Disk> Client<D> {
    ghost use Rattle.iot_client.specs.Ties.{state_of, stamps_of, place_of, disk_of, records_of, live_of, IsTied, AreBegun};

    /// Begins a transaction of this script on the view, and gives its number.
    ///
    /// # Errors
    ///
    /// `Busy` if as many transactions run as may, `NoMemory`, also if there were more transactions than can be counted, `Stopped`.
    pub fn begin(
        &mut self,
        alloc: Global,
        name: &Name,
        script: Rc<Script>,
        option: OnConflict,
        first: bool,
    ) -> Result<u64, ClientFault>
        requires { IsTied D.medium self.old }
        ensures number { IfOk result (λ number. number ≡ (state_of self.old).last + 1) }
        ensures notes { IfOk result (λ number. Notes (Change.Begun number name.now option) self.old self.new) }
        ensures live { OnOk result
            (live_of self.new ≡ live_of self.old ++ record { first = first; code = Some script.value } ∷ []) }
        ensures begun { AreBegun (live_of self.old) → OnOk result (AreBegun (live_of self.new)) }
        ensures tied { OnOk result (IsTied D.medium self.new) }
        ensures refuses { Refuses (busy (state_of self.old).running) self.old self.new result }
        ensures counts { CountsFault result (D.medium.faults (disk_of self.old)) (D.medium.faults (disk_of self.new)) }
        ensures arms { D.medium.arms (disk_of self.new) ≡ D.medium.arms (disk_of self.old) }
        ensures stopped { IsErrOf result ClientFault.Stopped → CutsOff (Change.Begun ((state_of self.old).last + 1) name.now option)
            (state_of self.old) (records_of self.old) (D.medium.may_leave (disk_of self.new)) }
        ensures no_memory { IsErrOf result ClientFault.NoMemory → Stays D.medium self.old self.new }
    {
        match self.busy() {
            Some(fault) => Err(fault),
            None => self.run(alloc, *name, script, option, first),
        }
    }

    /// Does the next act of the transaction with this number on its own view, or says why none is done: the script has ended, it may do no
    /// more, or the transaction is first class and the act asks about something that its view does not know. If transactions wait, it is
    /// second class from now on. Costs what the act costs; a request costs what is known of the held tree.
    ///
    /// # Errors
    ///
    /// `Idle` if it does not run, `NoMemory`, `Stopped`.
    pub fn step(&mut self, alloc: Global, number: u64) -> Result<Step, ClientFault>
        requires tied { IsTied D.medium self.old }
        requires begun { AreBegun (live_of self.old) }
        requires place { place_of self.old ≤ 7 }
        ensures step { IfOk result (λ step. IsSoOfRun (λ it first code. StepIs self.old it first code step self.new)
            number (state_of self.old) (live_of self.old)) }
        ensures live { OnOk result (live_of self.new ≡ yielded number (state_of self.old) (live_of self.old)) }
        ensures begun { OnOk result (AreBegun (live_of self.new)) }
        ensures tied { OnOk result (IsTied D.medium self.new) }
        ensures refuses { Refuses (idle (numbered number (state_of self.old).running)) self.old self.new result }
        ensures counts { CountsFault result (D.medium.faults (disk_of self.old)) (D.medium.faults (disk_of self.new)) }
        ensures arms { D.medium.arms (disk_of self.new) ≡ D.medium.arms (disk_of self.old) }
        ensures stopped { IsErrOf result ClientFault.Stopped → IsSoOfRun (λ it first code. CutsOffNext it first code
            (state_of self.old) (records_of self.old) (D.medium.may_leave (disk_of self.new)))
            number (state_of self.old) (live_of self.old) }
        ensures no_memory { IsErrOf result ClientFault.NoMemory → Stays D.medium self.old self.new }
    {
        let Some(at) = self.place_of(number) else {
            return Err(ClientFault::Idle);
        };
        self.yields(number);
        self.go_on(alloc, number, at)
    }

    /// Merges the changes that the reply brings into the held tree, for the transaction with this number, which is first class and starts
    /// again on the view. Appends one record, as long as that tree.
    ///
    /// # Errors
    ///
    /// `Idle` if it does not run, `BadReply` if the bytes are no reply that brings changes, or, at their end, if these make no tree of the
    /// held one, `NoMemory`, `Stopped`.
    pub fn fetched(&mut self, alloc: Global, number: u64, reply: &[u8]) -> Result<(), ClientFault>
        requires tied { IsTied D.medium self.old }
        requires begun { AreBegun (live_of self.old) }
        requires first { IsFirstIfAny (live_numbered number (state_of self.old).running (live_of self.old)) }
        requires alone { (state_of self.old).items ≡ [] }
        ensures brings { OnOk result (Brings (Purpose.Fetch number) reply.now self.old self.new) }
        ensures only { ReadsObjects reply.now }
        ensures live { OnOk result (live_of self.new ≡ live_of self.old) }
        ensures begun { OnOk result (AreBegun (live_of self.new)) }
        ensures tied { OnOk result (IsTied D.medium self.new) }
        ensures refuses { RefusesReply (idle (numbered number (state_of self.old).running)) (MakesTree (stamps_of self.old) reply.now)
            self.old self.new result }
        ensures counts { CountsFault result (D.medium.faults (disk_of self.old)) (D.medium.faults (disk_of self.new)) }
        ensures arms { D.medium.arms (disk_of self.new) ≡ D.medium.arms (disk_of self.old) }
        ensures stopped { IsErrOf result ClientFault.Stopped → CutsOffByTree (Purpose.Fetch number) reply.now
            (stamps_of self.old) (state_of self.old) (records_of self.old) (D.medium.may_leave (disk_of self.new)) }
        ensures no_memory { IsErrOf result ClientFault.NoMemory → Stays D.medium self.old self.new }
    {
        let Some(at) = self.place_of(number) else {
            return Err(ClientFault::Idle);
        };
        let changes = objects(alloc, reply)?;
        self.begin_again(alloc, number, at, changes, reply)
    }

    /// Makes every running transaction second class. Writes nothing, and does not allocate.
    pub fn second(&mut self)
        requires { IsTied D.medium self.old }
        ensures same { ChangesClasses self.old self.new }
        ensures live { live_of self.new ≡ map second_class (live_of self.old) }
        ensures begun { AreBegun (live_of self.old) → AreBegun (live_of self.new) }
        ensures tied { IsTied D.medium self.new }
    {
        self.kept.all_second();
    }

    /// Ends the transaction with this number. It is certified on the view: if all that it has read is what it would read there, it waits
    /// from now on; else it starts again there, of the class that it has. If transactions wait, it is second class. Costs a walk over its
    /// acts.
    ///
    /// # Errors
    ///
    /// `Idle` if it does not run, `NotAtEnd` if its script has not ended and may do more acts, `NoMemory`, `Stopped`.
    pub fn end(&mut self, alloc: Global, number: u64) -> Result<Ended, ClientFault>
        requires tied { IsTied D.medium self.old }
        requires begun { AreBegun (live_of self.old) }
        ensures ends { IfOk result (λ ended. IsSoOfRun (λ it first code. EndIs self.old it first code ended self.new)
            number (state_of self.old) (live_of self.old)) }
        ensures live { IfOk result (λ ended. live_of self.new
            ≡ lives_after ended number (state_of self.old).running (yielded number (state_of self.old) (live_of self.old))) }
        ensures begun { OnOk result (AreBegun (live_of self.new)) }
        ensures tied { OnOk result (IsTied D.medium self.new) }
        ensures refuses { Refuses (unended (numbered number (state_of self.old).running)
            (may_end_if_any (numbered number (state_of self.old).running)
            (live_numbered number (state_of self.old).running (live_of self.old)))) self.old self.new result }
        ensures counts { CountsFault result (D.medium.faults (disk_of self.old)) (D.medium.faults (disk_of self.new)) }
        ensures arms { D.medium.arms (disk_of self.new) ≡ D.medium.arms (disk_of self.old) }
        ensures stopped { IsErrOf result ClientFault.Stopped → IsSoOfRun (λ it first code. CutsOffEnd it code
            (state_of self.old) (records_of self.old) (D.medium.may_leave (disk_of self.new)))
            number (state_of self.old) (live_of self.old) }
        ensures no_memory { IsErrOf result ClientFault.NoMemory → Stays D.medium self.old self.new }
    {
        match self.unended(number) {
            Some(fault) => Err(fault),
            None => {
                self.yields(number);
                self.certify(alloc, number)
            }
        }
    }

    /// Cuts the transaction off that has the least number: it waits from now on with as many of its first acts as hold on the view, and may
    /// do no more. Gives its number and how many acts it keeps, and `None` if none runs. What else a start finds of a transaction is lost
    /// with its interpreter.
    ///
    /// # Errors
    ///
    /// `NoMemory`, `Stopped`.
    pub fn cut(&mut self, alloc: Global) -> Result<Option<(u64, u64)>, ClientFault>
        requires { IsTied D.medium self.old }
        ensures cuts { IfOk result (λ told. CutsIfAny (state_of self.old).running told self.old self.new) }
        ensures live { OnOk result (live_of self.new ≡ drop 1 (live_of self.old)) }
        ensures begun { IfOk result (λ told. told ≡ None → AreBegun (live_of self.new)) }
        ensures tied { OnOk result (IsTied D.medium self.new) }
        ensures refuses { Refuses None self.old self.new result }
        ensures counts { CountsFault result (D.medium.faults (disk_of self.old)) (D.medium.faults (disk_of self.new)) }
        ensures arms { D.medium.arms (disk_of self.new) ≡ D.medium.arms (disk_of self.old) }
        ensures stopped { IsErrOf result ClientFault.Stopped → CutsOffCut (state_of self.old).running
            (state_of self.old) (records_of self.old) (D.medium.may_leave (disk_of self.new)) }
        ensures no_memory { IsErrOf result ClientFault.NoMemory → Stays D.medium self.old self.new }
    {
        let Some(it) = self.kept.running().first() else {
            return Ok(None);
        };
        let number = it.tid;
        let acts = longest(alloc, self.kept.view(), &it.acts)?;
        self.note(alloc, Change::Cut { number, acts })?;
        self.interpreters.remove(0);
        Ok(Some((number, acts)))
    }

    /// The place of the transaction with this number among those that run.
    pub(crate) fn place_of(&self, number: u64) -> Option<usize>
        ensures { MatchOption result
            (numbered number (state_of self.now).running ≡ None)
            (IsAt number (state_of self.now).running) }
    {
        self.kept.running().iter().position(|it| it.tid == number)
    }

    /// Makes it second class if transactions wait.
    fn yields(&mut self, number: u64)
        requires { IsTied D.medium self.old }
        ensures same { ChangesClasses self.old self.new }
        ensures live { live_of self.new ≡ yielded number (state_of self.old) (live_of self.old) }
        ensures tied { IsTied D.medium self.new }
    {
        if self.kept.queue().head().is_some() {
            self.kept.set_class(number, false);
        }
    }
}

// What a call does that is not refused.
impl<D: Disk> Client<D> {
    ghost use Rattle.iot_client.specs.Ties.{state_of, stamps_of, place_of, disk_of, records_of, live_of, IsTied, AreBegun};

    fn run(
        &mut self,
        alloc: Global,
        script: Name,
        code: Rc<Script>,
        option: OnConflict,
        first: bool,
    ) -> Result<u64, ClientFault>
        requires tied { IsTied D.medium self.old }
        requires room { busy (state_of self.old).running ≡ None }
        ensures number { IfOk result (λ number. number ≡ (state_of self.old).last + 1) }
        ensures notes { IfOk result (λ number. Notes (Change.Begun number script option) self.old self.new) }
        ensures live { OnOk result
            (live_of self.new ≡ live_of self.old ++ record { first = first; code = Some code.value } ∷ []) }
        ensures tied { OnOk result (IsTied D.medium self.new) }
        ensures fails { IfErr result MayFail }
        ensures counts { CountsFault result (D.medium.faults (disk_of self.old)) (D.medium.faults (disk_of self.new)) }
        ensures arms { D.medium.arms (disk_of self.new) ≡ D.medium.arms (disk_of self.old) }
        ensures stopped { IsErrOf result ClientFault.Stopped → CutsOff (Change.Begun ((state_of self.old).last + 1) script option)
            (state_of self.old) (records_of self.old) (D.medium.may_leave (disk_of self.new)) }
        ensures no_memory { IsErrOf result ClientFault.NoMemory → Stays D.medium self.old self.new }
    {
        names_are_names(&script, &option);
        let interpreter = Interpreter::start(alloc, code)?;
        let number = next_number(self.kept.last())?;
        match self.interpreters.push(Some(interpreter)) {
            Ok(()) => (),
            Err(_) => return Err(ClientFault::NoMemory),
        }
        self.note(
            alloc,
            Change::Begun {
                number,
                script,
                option,
            },
        )?;
        self.kept.set_class(number, first);
        Ok(number)
    }

    fn begin_again(
        &mut self,
        alloc: Global,
        number: u64,
        at: usize,
        changes: Changes,
        reply: &[u8],
    ) -> Result<(), ClientFault>
        requires tied { IsTied D.medium self.old }
        requires at { IsAt number (state_of self.old).running at }
        requires read { objects_in reply.now ≡ Ok changes }
        requires spelled { IsMessage IsReply reply_spelling reply.now (Objects changes) }
        requires follows { CanFollow (state_of self.old) (Change.Fetched number (state_of self.old).held) }
        ensures brings { OnOk result (Brings (Purpose.Fetch number) reply.now self.old self.new) }
        ensures live { OnOk result (live_of self.new ≡ live_of self.old) }
        ensures tied { OnOk result (IsTied D.medium self.new) }
        ensures ends { EndsBy (MakesTree (stamps_of self.old) reply.now) self.old self.new result }
        ensures counts { CountsFault result (D.medium.faults (disk_of self.old)) (D.medium.faults (disk_of self.new)) }
        ensures arms { D.medium.arms (disk_of self.new) ≡ D.medium.arms (disk_of self.old) }
        ensures stopped { IsErrOf result ClientFault.Stopped → CutsOffByTree (Purpose.Fetch number) reply.now
            (stamps_of self.old) (state_of self.old) (records_of self.old) (D.medium.may_leave (disk_of self.new)) }
        ensures no_memory { IsErrOf result ClientFault.NoMemory → Stays D.medium self.old self.new }
    {
        let again = again_by(&self.interpreters[at], alloc)?;
        self.bring(alloc, changes, Purpose::Fetch { number }, reply)?;
        self.interpreters[at] = again;
        Ok(())
    }

    fn go_on(&mut self, alloc: Global, number: u64, at: usize) -> Result<Step, ClientFault>
        requires tied { IsTied D.medium self.old }
        requires begun { AreBegun (live_of self.old) }
        requires place { place_of self.old ≤ 7 }
        requires at { IsAt number (state_of self.old).running at }
        ensures step { IfOk result (λ step. IsSoOfOne (λ it first code. StepIs self.old it first code step self.new)
            number (state_of self.old).running (live_of self.old)) }
        ensures live { OnOk result (live_of self.new ≡ live_of self.old) }
        ensures tied { OnOk result (IsTied D.medium self.new) }
        ensures fails { IfErr result MayFail }
        ensures counts { CountsFault result (D.medium.faults (disk_of self.old)) (D.medium.faults (disk_of self.new)) }
        ensures arms { D.medium.arms (disk_of self.new) ≡ D.medium.arms (disk_of self.old) }
        ensures stopped { IsErrOf result ClientFault.Stopped → IsSoOfOne (λ it first code. CutsOffNext it first code
            (state_of self.old) (records_of self.old) (D.medium.may_leave (disk_of self.new)))
            number (state_of self.old).running (live_of self.old) }
        ensures no_memory { IsErrOf result ClientFault.NoMemory → Stays D.medium self.old self.new }
    {
        match self.pause(at) {
            Some(step) => Ok(step),
            None => self.act(alloc, number, at),
        }
    }

    /// Why no act is done, whatever it asks, if that is so.
    fn pause(&self, at: usize) -> Option<Step>
        requires tied { IsTied D.medium self.now }
        requires begun { AreBegun (live_of self.now) }
        requires within { at < length (state_of self.now).running }
        ensures pauses { (number : ℕ) → IsAt number (state_of self.now).running at → IfSome result (λ step.
            IsSoOfOne (λ it first code. StepIs self.now it first code step self.now)
            number (state_of self.now).running (live_of self.now)) }
        ensures goes { (number : ℕ) → IsAt number (state_of self.now).running at → IfNone result
            (IsSoOfOne GoesOn number (state_of self.now).running (live_of self.now)) }
    {
        let exec = match &self.interpreters[at] {
            Some(interpreter) => &interpreter.exec,
            None => unreachable!(),
        };
        if exec.at_end() {
            return Some(Step::AtEnd { acts: exec.acts() });
        }
        if exec.at_limit() {
            return Some(Step::AtLimit { acts: exec.acts() });
        }
        None
    }

    fn act(&mut self, alloc: Global, number: u64, at: usize) -> Result<Step, ClientFault>
        requires tied { IsTied D.medium self.old }
        requires place { place_of self.old ≤ 7 }
        requires at { IsAt number (state_of self.old).running at }
        requires goes { IsSoOfOne GoesOn number (state_of self.old).running (live_of self.old) }
        ensures step { IfOk result (λ step. IsSoOfOne (λ it first code. StepIs self.old it first code step self.new)
            number (state_of self.old).running (live_of self.old)) }
        ensures live { OnOk result (live_of self.new ≡ live_of self.old) }
        ensures tied { OnOk result (IsTied D.medium self.new) }
        ensures fails { IfErr result MayFail }
        ensures counts { CountsFault result (D.medium.faults (disk_of self.old)) (D.medium.faults (disk_of self.new)) }
        ensures arms { D.medium.arms (disk_of self.new) ≡ D.medium.arms (disk_of self.old) }
        ensures stopped { IsErrOf result ClientFault.Stopped → IsSoOfOne (λ it first code. CutsOffNext it first code
            (state_of self.old) (records_of self.old) (D.medium.may_leave (disk_of self.new)))
            number (state_of self.old).running (live_of self.old) }
        ensures no_memory { IsErrOf result ClientFault.NoMemory → Stays D.medium self.old self.new }
    {
        let running = &self.kept.running()[at];
        let decided = decide_by(
            &mut self.interpreters[at],
            alloc,
            running.view(),
            running.first,
        )?;
        match decided {
            Decided::Did(done) => {
                let act = done.act;
                self.note(alloc, Change::Acted { number, act })?;
                Ok(Step::Acted {
                    acts: done.acts,
                    ended: done.ended,
                })
            }
            Decided::Missed(path) => {
                let want = Want::Path(path.copy(alloc)?);
                let request = self.request_for(alloc, want)?;
                Ok(Step::Fetch { request, path })
            }
        }
    }

    /// It is certified on the view, and waits, or starts again.
    fn certify(&mut self, alloc: Global, number: u64) -> Result<Ended, ClientFault>
        requires tied { IsTied D.medium self.old }
        requires may { IsSoOfOne (λ it first code. may_end it code ≡ true) number (state_of self.old).running (live_of self.old) }
        ensures ends { IfOk result (λ ended. IsSoOfOne (λ it first code. EndIs self.old it first code ended self.new)
            number (state_of self.old).running (live_of self.old)) }
        ensures live { IfOk result (λ ended.
            live_of self.new ≡ lives_after ended number (state_of self.old).running (live_of self.old)) }
        ensures tied { OnOk result (IsTied D.medium self.new) }
        ensures fails { IfErr result MayFail }
        ensures counts { CountsFault result (D.medium.faults (disk_of self.old)) (D.medium.faults (disk_of self.new)) }
        ensures arms { D.medium.arms (disk_of self.new) ≡ D.medium.arms (disk_of self.old) }
        ensures stopped { IsErrOf result ClientFault.Stopped → IsSoOfOne (λ it first code. CutsOffEnd it code
            (state_of self.old) (records_of self.old) (D.medium.may_leave (disk_of self.new)))
            number (state_of self.old).running (live_of self.old) }
        ensures no_memory { IsErrOf result ClientFault.NoMemory → Stays D.medium self.old self.new }
    {
        let Some(at) = self.place_of(number) else {
            unreachable!();
        };
        let running = &self.kept.running()[at];
        match certify_acts(alloc, self.kept.view(), &running.acts)? {
            Verdict::Holds => self.join(alloc, number, at),
            Verdict::Differs { read, .. } => {
                let question = question_at(alloc, running.acts.as_slice(), read)?;
                self.start_again(alloc, number, at)?;
                Ok(Ended::Again { read, question })
            }
        }
    }

    /// It ends, and waits.
    fn join(&mut self, alloc: Global, number: u64, at: usize) -> Result<Ended, ClientFault>
        requires tied { IsTied D.medium self.old }
        requires at { IsAt number (state_of self.old).running at }
        requires may { IsSoOfOne (λ it first code. may_end it code ≡ true) number (state_of self.old).running (live_of self.old) }
        requires follows { CanFollow (state_of self.old) (Change.Ended number) }
        ensures ends { IfOk result (λ ended. IsSoOfOne (λ it first code. EndIs self.old it first code ended self.new)
            number (state_of self.old).running (live_of self.old)) }
        ensures live { IfOk result (λ ended.
            live_of self.new ≡ lives_after ended number (state_of self.old).running (live_of self.old)) }
        ensures tied { OnOk result (IsTied D.medium self.new) }
        ensures fails { IfErr result MayFail }
        ensures counts { CountsFault result (D.medium.faults (disk_of self.old)) (D.medium.faults (disk_of self.new)) }
        ensures arms { D.medium.arms (disk_of self.new) ≡ D.medium.arms (disk_of self.old) }
        ensures stopped { IsErrOf result ClientFault.Stopped → CutsOff (Change.Ended number)
            (state_of self.old) (records_of self.old) (D.medium.may_leave (disk_of self.new)) }
        ensures no_memory { IsErrOf result ClientFault.NoMemory → Stays D.medium self.old self.new }
    {
        let first = self.kept.running()[at].first;
        self.note(alloc, Change::Ended { number })?;
        self.interpreters.remove(at);
        Ok(Ended::Joined { tid: number, first })
    }

    /// It starts again on the view.
    fn start_again(&mut self, alloc: Global, number: u64, at: usize) -> Result<(), ClientFault>
        requires tied { IsTied D.medium self.old }
        requires at { IsAt number (state_of self.old).running at }
        requires follows { CanFollow (state_of self.old) (Change.Again number) }
        ensures notes { OnOk result (Notes (Change.Again number) self.old self.new) }
        ensures live { OnOk result (live_of self.new ≡ live_of self.old) }
        ensures tied { OnOk result (IsTied D.medium self.new) }
        ensures fails { IfErr result MayFail }
        ensures counts { CountsFault result (D.medium.faults (disk_of self.old)) (D.medium.faults (disk_of self.new)) }
        ensures arms { D.medium.arms (disk_of self.new) ≡ D.medium.arms (disk_of self.old) }
        ensures stopped { IsErrOf result ClientFault.Stopped → CutsOff (Change.Again number)
            (state_of self.old) (records_of self.old) (D.medium.may_leave (disk_of self.new)) }
        ensures no_memory { IsErrOf result ClientFault.NoMemory → Stays D.medium self.old self.new }
    {
        let again = again_by(&self.interpreters[at], alloc)?;
        self.note(alloc, Change::Again { number })?;
        self.interpreters[at] = again;
        Ok(())
    }
}

/// The number of the transaction after this one.
fn next_number(last: u64) -> Result<u64, NoMemory>
    ensures { IfOk result (λ number. number ≡ last + 1) }
{
    match last.checked_add(1) {
        Some(number) => Ok(number),
        None => Err(NoMemory),
    }
}

/// A `Name` is always one, as its bytes say; so is that of an option, if it has one.
fn names_are_names(script: &Name, option: &OnConflict)
    ensures script { IsName script.now }
    ensures option { IsOption option.now }
{
    let _ = script.as_bytes();
    match option {
        OnConflict::Resolver(resolver) => {
            let _ = resolver.as_bytes();
        }
        OnConflict::Reexec | OnConflict::Abort | OnConflict::Manual => (),
    }
}
