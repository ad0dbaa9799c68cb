//! Passing over what has no statement left, and beginning turns.
ghost use Rattle.std.specs.Prelude.{◌≡◌, ◌<◌, ◌+◌, ◌++◌, ◌∷◌, OnOk, IfOk};
ghost use Rattle.iot_lang.specs.Code.{Code, End};
ghost use Rattle.iot_exec.specs.Places.{Rest, reached};
ghost use Rattle.iot_exec.specs.Positions.{here, around, round_it, weight, role_weight, place_of, AreInnermost};
ghost use Rattle.iot_exec.specs.Passing.{GoesOn};

use crate::env::Env;
use crate::lines::text_of;
use crate::position::{Position, Role};
use iot_lang::{Block, Stmt};
use iot_text::{Name, NoMemory, Text};
use iot_tree::Sequence;
use std::alloc::Global;

/// Begins the next turn of a loop that is the next statement, or goes past the loop if no turn is left.
pub(crate) fn begin_turn(
    alloc: Global,
    statements: &[Stmt],
    position: &mut Position,
    env: &mut Env,
    variable: Text,
    names: Sequence<Name>,
    next: usize,
) -> Result<(), NoMemory>
    ensures reaches { OnOk result ((script : Code) → AreInnermost script statements.now position.old
        → reached (Rest (here script position.new) ∷ around script position.new) env.new
        ≡ reached (round_it (here script position.old) (Role.Turn variable names next) ++ around script position.old) env.old) }
    ensures weight { OnOk result (weight position.new < weight position.old + role_weight (Role.Turn variable names next)) }
{
    match names.as_slice().get(next) {
        Some(name) => {
            let value = text_of(alloc, name.as_bytes())?;
            env.set(variable.copy(alloc)?, value)?;
            position.enter(Role::Turn {
                variable,
                names,
                next: next + 1,
            })
        }
        None => {
            position.advance(statements);
            Ok(())
        }
    }
}

/// Leaves the innermost block, or begins its next turn. False if no other block is round it.
fn pass(
    alloc: Global,
    script: &Block,
    position: &mut Position,
    env: &mut Env,
) -> Result<bool, NoMemory>
    requires { here script.now position.old ≡ End }
    ensures { IfOk result (λ on. GoesOn on script.now position.old env.old position.new env.new) }
{
    match position.leave() {
        None => Ok(false),
        Some(
            Role::Turn {
                variable,
                names,
                next,
            },
        ) => {
            let statements = position.statements(script);
            begin_turn(alloc, statements, position, env, variable, names, next)?;
            Ok(true)
        }
        Some(_) => {
            position.advance(position.statements(script));
            Ok(true)
        }
    }
}

/// Goes to the next statement, at first among those of the innermost block: passes over blocks without one left, and begins
/// turns.
pub(crate) fn reach(
    alloc: Global,
    script: &Block,
    statements: &[Stmt],
    position: &mut Position,
    env: &mut Env,
) -> Result<(), NoMemory>
    requires { AreInnermost script.now statements.now position.old }
    ensures { OnOk result
        (place_of script.now position.new env.new
        ≡ reached (Rest (here script.now position.old) ∷ around script.now position.old) env.old) }
{
    let mut statements = statements;
    'passing: while position.rest(statements).is_empty() {
        if !pass(alloc, script, position, env)? {
            return Ok(());
        }
        statements = position.statements(script);
    }
    Ok(())
}
