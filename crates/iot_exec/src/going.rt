//! Going on after an act.
ghost use Rattle.std.specs.Prelude.{◌≡◌, OnOk};
ghost use Rattle.iot_lang.specs.Code.{End};
ghost use Rattle.iot_exec.specs.Positions.{here, around, place_of, AreInnermost};
ghost use Rattle.iot_exec.specs.Going.{goes_to};

use crate::env::Env;
use crate::performing::Goes;
use crate::position::{Position, Role};
use crate::turns::{begin_turn, reach};
use iot_lang::{Block, Stmt};
use iot_text::NoMemory;
use std::alloc::Global;

/// Goes to the place after an act. The statements are those of the innermost block, for which the act has looked.
pub(crate) fn go_on(
    alloc: Global,
    script: &Block,
    statements: &[Stmt],
    position: &mut Position,
    env: &mut Env,
    goes: Goes,
) -> Result<(), NoMemory>
    requires { AreInnermost script.now statements.now position.old }
    ensures { OnOk result
        (place_of script.now position.new env.new ≡ goes_to (here script.now position.old) (around script.now position.old) env.old goes) }
{
    match goes {
        Goes::Does(ok) => {
            env.ok = ok;
            position.advance(statements);
            reach(alloc, script, statements, position, env)
        }
        Goes::Sets(variable, value) => {
            env.ok = true;
            env.set(variable, value)?;
            position.advance(statements);
            reach(alloc, script, statements, position, env)
        }
        Goes::Stops => {
            *position = Position::after(alloc, script);
            Ok(())
        }
        Goes::Branches(true) => {
            position.enter(Role::Body)?;
            reach(alloc, script, position.statements(script), position, env)
        }
        Goes::Branches(false) => {
            position.enter(Role::Otherwise)?;
            reach(alloc, script, position.statements(script), position, env)
        }
        Goes::Loops(variable, names, ok) => {
            env.ok = ok;
            begin_turn(alloc, statements, position, env, variable, names, 0)?;
            reach(alloc, script, position.statements(script), position, env)
        }
    }
}
