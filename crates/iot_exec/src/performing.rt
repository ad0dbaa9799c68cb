//! Doing one statement, but not its update, nor going on after it.
ghost use Rattle.std.specs.Prelude.{◌≡◌, IfOk, List};
ghost use Rattle.iot_tree.specs.Tree.{IsTree};
ghost use Rattle.iot_lang.specs.Code.{Code};
ghost use Rattle.iot_exec.specs.Commands.{kept_files};
ghost use Rattle.iot_exec.specs.Places.{Frame};
ghost use Rattle.iot_exec.specs.Going.{IsDone, IsBranch, IsLoop, Finishes, done_well, silent_act, refused_act};

use crate::asking::Asking;
use crate::endings::{Refusal, Stop, Success};
use crate::env::Env;
use crate::kept::KeptFiles;
use crate::refusals::name_of;
use iot_lang::{Command, Cond, Stmt, Word};
use iot_text::{Name, NoMemory, Text};
use iot_tree::{Act, Lines, Reads, Sequence, Tree};
use std::alloc::Global;

/// What a script goes on with after an act.
#[derive(Drop)]
pub(crate) enum Goes {
    /// A command succeeded or not.
    Does(bool),

    /// A command succeeded, and sets a variable to a value.
    Sets(Text, Text),

    /// `stop` was done.
    Stops,

    /// A condition holds or not.
    Branches(bool),

    /// A loop goes through these names with its variable; it succeeded or not.
    Loops(Text, Sequence<Name>, bool),
}

/// An act that was done, and what the script goes on with.
#[derive(Drop)]
pub(crate) struct Done {
    pub(crate) act: Act,
    pub(crate) goes: Goes,
}

/// An act without an update and lines.
fn silent(alloc: Global, reads: Reads, goes: Goes) -> Done
    ensures act { result.act ≡ silent_act reads }
    ensures goes { result.goes ≡ goes }
{
    Done {
        act: Act {
            reads,
            update: None,
            lines: Lines::new(alloc),
        },
        goes,
    }
}

/// An act that was refused, and so prints one line.
fn refused(
    alloc: Global,
    reads: Reads,
    command: &[u8],
    refusal: &Refusal,
    goes: Goes,
) -> Result<Done, NoMemory>
    ensures act { IfOk result (λ done. done.act ≡ refused_act reads command.now refusal.now) }
    ensures goes { IfOk result (λ done. done.goes ≡ goes) }
{
    let mut lines = Lines::new(alloc);
    lines.push(refusal.line(alloc, command)?)?;
    Ok(Done {
        act: Act {
            reads,
            update: None,
            lines,
        },
        goes,
    })
}

/// The act of a command that is not refused.
fn succeeded(alloc: Global, reads: Reads, success: Success) -> Done
    ensures { result ≡ done_well reads success }
{
    let (update, lines, goes) = match success {
        Success::Makes(update) => (Some(update), Lines::new(alloc), Goes::Does(true)),
        Success::Prints(lines) => (None, lines, Goes::Does(true)),
        Success::Sets(variable, value) => (None, Lines::new(alloc), Goes::Sets(variable, value)),
    };
    Done {
        act: Act {
            reads,
            update,
            lines,
        },
        goes,
    }
}

/// The act of a command that came to this end.
fn finish(
    alloc: Global,
    reads: Reads,
    command: &[u8],
    end: Result<Success, Stop>,
) -> Result<Done, NoMemory>
    ensures { IfOk result (Finishes reads command.now end) }
{
    match end {
        Ok(success) => Ok(succeeded(alloc, reads, success)),
        Err(Stop::Refused(refusal)) => refused(alloc, reads, command, &refusal, Goes::Does(false)),
        Err(Stop::NoMemory) => Err(NoMemory),
    }
}

/// Does a command.
fn do_command(
    alloc: Global,
    tree: &Tree,
    env: &Env,
    kept: &KeptFiles,
    command: &Command,
) -> Result<Done, NoMemory>
    ensures { IfOk result
        (λ done. (rest : Code) (frames : List Frame)
        → IsDone (kept_files kept.now) tree.now (Stmt.Do command.now) rest frames env.now done) }
{
    let mut asking = Asking::new(alloc, tree);
    let end = asking.command(env, kept, command);
    finish(alloc, asking.reads, name_of(command), end)
}

/// Asks a condition.
fn do_condition(alloc: Global, tree: &Tree, env: &Env, condition: &Cond) -> Result<Done, NoMemory>
    ensures { IfOk result (IsBranch tree.now env.now condition.now) }
{
    let mut asking = Asking::new(alloc, tree);
    let holds = asking.holds(env, condition)?;
    Ok(silent(alloc, asking.reads, Goes::Branches(holds)))
}

/// Asks the names of a loop.
fn do_loop(
    alloc: Global,
    tree: &Tree,
    env: &Env,
    variable: &Text,
    path: &Word,
) -> Result<Done, NoMemory>
    ensures { IfOk result (IsLoop tree.now env.now variable.now path.now) }
{
    let mut asking = Asking::new(alloc, tree);
    let variable = variable.copy(alloc)?;
    match asking.turns(env, path) {
        Ok(names) => Ok(silent(alloc, asking.reads, Goes::Loops(variable, names, true))),
        Err(Stop::Refused(refusal)) => {
            let goes = Goes::Loops(variable, Sequence::new(alloc), false);
            refused(alloc, asking.reads, b"for", &refusal, goes)
        }
        Err(Stop::NoMemory) => Err(NoMemory),
    }
}

/// Does a statement.
pub(crate) fn perform(
    alloc: Global,
    tree: &Tree,
    env: &Env,
    kept: &KeptFiles,
    statement: &Stmt,
) -> Result<Done, NoMemory>
    ensures done { IfOk result
        (λ done. (rest : Code) (frames : List Frame) → IsDone (kept_files kept.now) tree.now statement.now rest frames env.now done) }
    ensures tree { IsTree tree.now }
{
    let _rows = tree.rows();
    match statement {
        Stmt::Do(command) => do_command(alloc, tree, env, kept, command),
        Stmt::Stop => Ok(silent(alloc, Reads::new(alloc), Goes::Stops)),
        Stmt::If { condition, .. } => do_condition(alloc, tree, env, condition),
        Stmt::For { variable, path, .. } => do_loop(alloc, tree, env, variable, path),
    }
}
