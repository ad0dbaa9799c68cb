//! The interpreter of the running transaction.
ghost use Rattle.std.specs.Prelude.{◌≡◌, IfOk, Some};
ghost use Rattle.iot_exec.specs.Execs.{act_count, place};
ghost use Rattle.iot_exec.specs.Places.{is_over};
ghost use Rattle.iot_lang.specs.Scripts.{IsScript};
ghost use Rattle.iot_client.specs.Doing.{Starts, IsAgain, IsAgainIfAny, IsAble, Decides, DecidesIfAny};

use iot_exec::{Exec, Tried};
use iot_lang::Script;
use iot_text::{NoMemory, Path};
use iot_tree::{Act, Files, Tree};
use std::alloc::Global;
use std::rc::Rc;

/// A script that is being run as a transaction. Nothing is kept for its `keep`.
#[derive(Drop)]
pub(crate) struct Interpreter {
    pub(crate) script: Rc<Script>,
    pub(crate) exec: Exec,
}

/// An act that was done.
#[derive(Drop)]
pub(crate) struct Done {
    pub(crate) act: Act,

    /// How many acts are done now.
    pub(crate) acts: u64,

    /// Whether the script has ended now.
    pub(crate) ended: bool,
}

/// What came of the next act.
#[derive(Drop)]
pub(crate) enum Decided {
    /// It was done.
    Did(Done),

    /// It was not done: the tree does not know what is at this path.
    Missed(Path),
}

impl Interpreter {
    /// At the first act of a script.
    pub(crate) fn start(alloc: Global, script: Rc<Script>) -> Result<Interpreter, NoMemory>
        ensures same { IfOk result (λ interpreter. interpreter.script.value ≡ script.value) }
        ensures starts { IfOk result (Starts script.value) }
        ensures script { IsScript script.value }
    {
        let _block = script.block();
        let shared = shared(&script)?;
        Ok(Interpreter {
            script,
            exec: Exec::new(alloc, shared, Files::new(alloc)),
        })
    }

    /// At the first act of the same script.
    fn again(&self, alloc: Global) -> Result<Interpreter, NoMemory>
        ensures { IfOk result (IsAgain self.now) }
    {
        Interpreter::start(alloc, shared(&self.script)?)
    }

    /// Does the next act on the tree, but for its update. A first-class one is not done if the tree does not know all that it asks.
    fn decide(&mut self, alloc: Global, view: &Tree, first: bool) -> Result<Decided, NoMemory>
        requires { IsAble (Some self.old) }
        ensures { IfOk result (λ decided. Decides first self.old view.now decided self.new) }
    {
        if !first {
            let act = self.exec.decide(alloc, view)?;
            return Ok(Decided::Did(self.done(act)));
        }
        match self.exec.decide_if_known(alloc, view)? {
            Tried::Acted(act) => Ok(Decided::Did(self.done(act))),
            Tried::Missed(path) => Ok(Decided::Missed(path)),
        }
    }

    /// This act as one that was done now.
    fn done(&self, act: Act) -> Done
        ensures { result ≡ record { act = act; acts = act_count self.now.exec; ended = is_over (place self.now.exec) } }
    {
        Done {
            act,
            acts: self.exec.acts(),
            ended: self.exec.at_end(),
        }
    }
}

/// One at the first act of the same script, if there is one.
pub(crate) fn again_by(
    interpreter: &Option<Interpreter>,
    alloc: Global,
) -> Result<Option<Interpreter>, NoMemory>
    ensures { IfOk result (IsAgainIfAny interpreter.now) }
{
    match interpreter {
        Some(interpreter) => Ok(Some(interpreter.again(alloc)?)),
        None => Ok(None),
    }
}

/// Has the interpreter do the next act on the tree, but for its update, unless that is first class and misses something.
pub(crate) fn decide_by(
    interpreter: &mut Option<Interpreter>,
    alloc: Global,
    view: &Tree,
    first: bool,
) -> Result<Decided, NoMemory>
    requires { IsAble interpreter.old }
    ensures { IfOk result (λ decided. DecidesIfAny first interpreter.old view.now decided interpreter.new) }
{
    match interpreter {
        Some(interpreter) => interpreter.decide(alloc, view, first),
        None => unreachable!(),
    }
}

/// The same script.
fn shared(script: &Rc<Script>) -> Result<Rc<Script>, NoMemory>
    ensures { IfOk result (λ shared. shared.value ≡ script.now.value) }
{
    Rc::clone(script)
}
