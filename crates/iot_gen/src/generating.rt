//! The whole text.
ghost use Rattle.std.specs.Prelude.{List, ◌≡◌, ◌++◌, IfOk, OnOk, map};
ghost use Rattle.iot_event.specs.Events.{Gives, Events};
ghost use Rattle.iot_event.specs.declared.event.Event.{Event};
ghost use Rattle.iot_gen.specs.Turns.{turns, turn_line};
ghost use Rattle.iot_gen.specs.Generated.{text_of, turn_lines, generated};

use crate::draws::Draws;
use crate::lines::{put_declarations, put_end, put_start};
use crate::turns::draw_turn;
use iot_text::{NoMemory, Text};
use std::alloc::Global;

/// How many turns a text has.
pub const TURNS: u64 = 2000;

/// Appends the turns that are drawn from this number.
fn put_turns(start: u64, out: &mut Text) -> Result<(), NoMemory>
    ensures { OnOk result (out.new ≡ out.old ++ text_of (turn_lines TURNS start)) }
{
    let mut draws = Draws::new(start);
    'turns: for _ in 0..TURNS {
        draw_turn(&mut draws).write_to(out)?;
    }
    Ok(())
}

/// A long event script: clients that go away, come back, and add to the same files. It is made of the number alone.
pub fn generate(alloc: Global, n: u64) -> Result<Vec<u8>, NoMemory>
    ensures text { IfOk result (λ text. text.items ≡ generated n) }
    ensures script { IfOk result (λ text. (events : List Event) × Gives text.items (Events events)) }
{
    let mut out = Text::new(alloc);
    put_declarations(&mut out)?;
    put_start(&mut out)?;
    put_turns(n, &mut out)?;
    put_end(&mut out)?;
    Ok(out.into_bytes())
}
