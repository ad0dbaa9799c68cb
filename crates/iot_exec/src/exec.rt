//! The interpreter, one act at a time.
ghost use Rattle.std.specs.Prelude.{◌≡◌, ◌<◌, ◌≤◌, ◌+◌, ◌++◌, ◌∷◌, [], ◌↔◌, ℕ, List, IsTrue, IfOk, OnOk, IfSome, IfNone, true, false, ◌^◌};
ghost use Rattle.iot_tree.specs.Tree.{Nodes};
ghost use Rattle.iot_tree.specs.declared.acts.Act.{Act};
ghost use Rattle.iot_lang.specs.Code.{Code};
ghost use Rattle.iot_exec.specs.Commands.{Kept, kept_files};
ghost use Rattle.iot_exec.specs.Places.{is_over, start};
ghost use Rattle.iot_acts.specs.Guards.{IsGuarded};
ghost use Rattle.iot_acts.specs.Fitting.{FitsByReads};
ghost use Rattle.iot_acts.specs.Traces.{FitsIfAny, ActsHold, after_update};
ghost use Rattle.iot_exec.specs.Misses.{first_away, path_of_question};

use crate::env::Env;
use crate::finding::found;
use crate::going::go_on;
use crate::kept::KeptFiles;
use crate::performing::perform;
use crate::position::Position;
use iot_lang::Script;
use iot_text::{NoMemory, Path};
use iot_tree::{ACT_LIMIT, Act, Answer, Files, Question, Read, Tree, Update};
use std::alloc::Global;
use std::rc::Rc;

/// A script that is being done on a tree, one act at a time.
///
/// After an act that answers `NoMemory` use neither it nor the tree.
#[derive(Drop)]
pub struct Exec {
    script: Rc<Script>,
    kept: KeptFiles,
    env: Env,
    position: Position,
    acts: u64,
}

/// What came of the next act on a tree that may not know all that the act asks.
#[derive(Drop)]
pub enum Tried {
    /// It was done.
    Acted(Act),

    /// It was not done, and nothing has changed: this is the path of its first question that is answered `Away`.
    Missed(Path),
}

/// The path of the first question that is answered `Away`.
fn first_away(alloc: Global, reads: &[Read]) -> Result<Option<Path>, NoMemory>
    ensures { IfOk result (λ path. path ≡ first_away reads.now) }
{
    'reads: for read in reads {
        if matches!(read.answer, Answer::Away) {
            return Ok(Some(question_path(&read.question).copy(alloc)?));
        }
    }
    Ok(None)
}

/// The path that a question is about.
fn question_path(question: &Question) -> &Path
    ensures { result.now ≡ path_of_question question.now }
{
    match question {
        Question::Kind(path)
        | Question::Content(path)
        | Question::Names(path)
        | Question::Mode(path) => path,
    }
}

/// Makes the update of an act, if it has one.
fn apply(alloc: Global, t: &mut Tree, update: &Option<Update>) -> Result<(), NoMemory>
    requires { FitsIfAny t.old update.now }
    ensures { OnOk result (t.new ≡ after_update t.old update.now) }
{
    match update {
        Some(update) => t.apply(alloc, update),
        None => Ok(()),
    }
}

impl Exec {
    ghost use Rattle.iot_exec.specs.Finding.{next_found};
    ghost use Rattle.iot_exec.specs.Execs.{place, kept_by, act_count, next_miss, IsNextAt, IsRunning, RunsOn};
    ghost use Rattle.iot_exec.specs.Execs.{missed_in, IfActed, IfMissed};

    /// At the first act of a script. `keep` reads the kept files. Does not allocate.
    pub fn new(alloc: Global, script: Rc<Script>, kept: Files) -> Exec
        ensures { (t : Nodes) → IsRunning script.value (kept_files kept) t 0 [] result t }
    {
        let kept = KeptFiles::new(kept);
        Exec {
            script,
            kept,
            env: Env::new(alloc),
            position: Position::start(alloc),
            acts: 0,
        }
    }

    /// The same as `new`, and says at which place the script begins. Does not allocate.
    pub(crate) fn at_start(alloc: Global, script: Rc<Script>, kept: Files) -> Exec
        ensures runs { (t : Nodes) → IsRunning script.value (kept_files kept) t 0 [] result t }
        ensures place { place result ≡ start script.value }
    {
        let kept = KeptFiles::new(kept);
        Exec {
            script,
            kept,
            env: Env::new(alloc),
            position: Position::start(alloc),
            acts: 0,
        }
    }

    /// How many acts were done. Does not allocate.
    pub fn acts(&self) -> u64
        ensures { result ≡ act_count self.now }
    {
        self.acts
    }

    /// Whether the script has ended: `stop` was done, or no statement is left. Does not allocate.
    pub fn at_end(&self) -> bool
        ensures { result ≡ is_over (place self.now) }
    {
        self.position.statement(self.script.block()).is_none()
    }

    /// Whether as many acts were done as a transaction may have. Does not allocate.
    pub fn at_limit(&self) -> bool
        ensures { IsTrue result ↔ (ACT_LIMIT ≤ act_count self.now) }
    {
        self.acts >= ACT_LIMIT
    }

    /// The path of the first question of the next act that the tree answers by `Away`, if there is one.
    pub fn next_miss(&self, alloc: Global, t: &Tree) -> Result<Option<Path>, NoMemory>
        ensures { IfOk result (λ path. path ≡ next_miss (kept_by self.now) (place self.now) t.now) }
    {
        match self.position.statement(self.script.block()) {
            Some(statement) => {
                let done = perform(alloc, t, &self.env, &self.kept, statement)?;
                first_away(alloc, done.act.reads.as_slice())
            }
            None => Ok(None),
        }
    }

    /// The path at which the next act finds a kept file: it is a `keep`, both its operands are paths, and a file is kept at the
    /// first one.
    pub fn next_found(&self, alloc: Global) -> Result<Option<Path>, NoMemory>
        ensures { IfOk result (λ path. path ≡ next_found (kept_by self.now) (place self.now)) }
    {
        match self.position.statement(self.script.block()) {
            Some(statement) => found(alloc, &self.env, &self.kept, statement),
            None => Ok(None),
        }
    }

    /// Does the next act on the tree, but for its update.
    pub fn decide(&mut self, alloc: Global, t: &Tree) -> Result<Act, NoMemory>
        requires statement { is_over (place self.old) ≡ false }
        requires limit { act_count self.old < ACT_LIMIT }
        ensures next { IfOk result
            (λ act. IsNextAt (kept_by self.old) (place self.old) t.now act (place self.new) (after_update t.now act.update)) }
        ensures runs { IfOk result (λ act. RunsOn self.old t.now act self.new (after_update t.now act.update)) }
        ensures holds { IfOk result (λ act. ActsHold t.now (act ∷ [])) }
        ensures guarded { IfOk result IsGuarded }

        // Its reads alone show that its update fits: it fits every tree that answers them.
        ensures fits { IfOk result FitsByReads }
    {
        match self.advance(alloc, t)? {
            Some(act) => Ok(act),
            None => unreachable!(),
        }
    }

    /// Does the next act on the tree, but for its update, unless the tree answers one of its questions by `Away`. Asks each question once.
    pub fn decide_if_known(&mut self, alloc: Global, t: &Tree) -> Result<Tried, NoMemory>
        requires statement { is_over (place self.old) ≡ false }
        requires limit { act_count self.old < ACT_LIMIT }

        // It is done exactly if it misses nothing.
        ensures misses { IfOk result (λ tried. missed_in tried ≡ next_miss (kept_by self.old) (place self.old) t.now) }
        ensures stays { IfOk result (λ tried. IfMissed tried (λ path. self.new ≡ self.old)) }
        ensures next { IfOk result (λ tried. IfActed tried
            (λ act. IsNextAt (kept_by self.old) (place self.old) t.now act (place self.new) (after_update t.now act.update))) }
        ensures runs { IfOk result (λ tried. IfActed tried (λ act. RunsOn self.old t.now act self.new (after_update t.now act.update))) }
        ensures holds { IfOk result (λ tried. IfActed tried (λ act. ActsHold t.now (act ∷ []))) }
        ensures guarded { IfOk result (λ tried. IfActed tried IsGuarded) }

        // Its reads alone show that its update fits: it fits every tree that answers them.
        ensures fits { IfOk result (λ tried. IfActed tried FitsByReads) }
    {
        let block = self.script.block();
        let statements = self.position.statements(block);
        let Some(statement) = self.position.next_of(statements) else {
            unreachable!();
        };
        let done = perform(alloc, t, &self.env, &self.kept, statement)?;
        if let Some(path) = first_away(alloc, done.act.reads.as_slice())? {
            return Ok(Tried::Missed(path));
        }
        go_on(
            alloc,
            block,
            statements,
            &mut self.position,
            &mut self.env,
            done.goes,
        )?;
        self.acts += 1;
        Ok(Tried::Acted(done.act))
    }

    /// Does the next act on the tree.
    pub fn act(&mut self, alloc: Global, t: &mut Tree) -> Result<Act, NoMemory>
        requires statement { is_over (place self.old) ≡ false }
        requires limit { act_count self.old < ACT_LIMIT }
        ensures next { IfOk result (λ act. IsNextAt (kept_by self.old) (place self.old) t.old act (place self.new) t.new) }
        ensures runs { IfOk result (λ act. RunsOn self.old t.old act self.new t.new) }
        ensures holds { IfOk result (λ act. ActsHold t.old (act ∷ [])) }
        ensures makes { IfOk result (λ act. t.new ≡ after_update t.old act.update) }
        ensures guarded { IfOk result IsGuarded }

        // Its reads alone show that its update fits: it fits every tree that answers them.
        ensures fits { IfOk result FitsByReads }
    {
        match self.step(alloc, t)? {
            Some(act) => Ok(act),
            None => unreachable!(),
        }
    }

    /// Does the next act, also past the limit of a transaction, unless the script has ended.
    pub(crate) fn step(&mut self, alloc: Global, t: &mut Tree) -> Result<Option<Act>, NoMemory>
        requires { act_count self.old + 1 < 2 ^ 64 }
        ensures next { IfOk result
            (λ done. IfSome done (λ act. IsNextAt (kept_by self.old) (place self.old) t.old act (place self.new) t.new)) }
        ensures runs { IfOk result (λ done. IfSome done (λ act. RunsOn self.old t.old act self.new t.new)) }
        ensures holds { IfOk result (λ done. IfSome done (λ act. ActsHold t.old (act ∷ []))) }
        ensures makes { IfOk result (λ done. IfSome done (λ act. t.new ≡ after_update t.old act.update)) }
        ensures guarded { IfOk result (λ done. IfSome done IsGuarded) }
        ensures fits { IfOk result (λ done. IfSome done FitsByReads) }
        ensures over { IfOk result (λ done. IfNone done (is_over (place self.old) ≡ true)) }
        ensures stays { IfOk result (λ done. IfNone done ((self.new ≡ self.old) × (t.new ≡ t.old))) }
    {
        let Some(act) = self.advance(alloc, t)? else {
            return Ok(None);
        };
        apply(alloc, t, &act.update)?;
        Ok(Some(act))
    }

    /// Does the next act but for its update, also past the limit of a transaction, unless the script has ended.
    fn advance(&mut self, alloc: Global, t: &Tree) -> Result<Option<Act>, NoMemory>
        requires { act_count self.old + 1 < 2 ^ 64 }
        ensures next { IfOk result
            (λ done. IfSome done
            (λ act. IsNextAt (kept_by self.old) (place self.old) t.now act (place self.new) (after_update t.now act.update))) }
        ensures runs { IfOk result (λ done. IfSome done (λ act. RunsOn self.old t.now act self.new (after_update t.now act.update))) }
        ensures holds { IfOk result (λ done. IfSome done (λ act. ActsHold t.now (act ∷ []))) }
        ensures guarded { IfOk result (λ done. IfSome done IsGuarded) }
        ensures fits { IfOk result (λ done. IfSome done FitsByReads) }
        ensures over { IfOk result (λ done. IfNone done (is_over (place self.old) ≡ true)) }
        ensures stays { IfOk result (λ done. IfNone done (self.new ≡ self.old)) }
    {
        let block = self.script.block();
        let statements = self.position.statements(block);
        let Some(statement) = self.position.next_of(statements) else {
            return Ok(None);
        };
        let done = perform(alloc, t, &self.env, &self.kept, statement)?;
        go_on(
            alloc,
            block,
            statements,
            &mut self.position,
            &mut self.env,
            done.goes,
        )?;
        self.acts += 1;
        Ok(Some(done.act))
    }
}
