//! Turns: what one client does next.
ghost use Rattle.std.specs.Prelude.{◌≡◌, ◌++◌, OnOk};
ghost use Rattle.iot_gen.specs.Turns.{turn_from, after_turn, turn_line};
ghost use Rattle.iot_gen.specs.Generated.{line};

use crate::draws::Draws;
use crate::lines::put_numbered;
use iot_text::{NoMemory, Text};

/// What one client does next. Clients count from 1, files from 0.
#[derive(Clone, Copy)]
pub(crate) enum Turn {
    /// Its link goes down.
    Disconnect { client: u64 },

    /// Its link comes up.
    Connect { client: u64 },

    /// It sends what it has queued.
    Drain { client: u64 },

    /// It looks at the directory.
    Look { client: u64 },

    /// It adds to a file.
    Add { client: u64, file: u64 },
}

/// Draws a turn: which one, then whose, and then the file if there is one.
pub(crate) fn draw_turn(draws: &mut Draws) -> Turn
    ensures turn { result ≡ turn_from draws.old }
    ensures after { draws.new ≡ after_turn draws.old }
{
    let choice = draws.draw(10);
    let client = draws.draw(4) + 1;
    if choice == 0 {
        Turn::Disconnect { client }
    } else if choice == 1 {
        Turn::Connect { client }
    } else if choice == 2 {
        Turn::Drain { client }
    } else if choice == 3 {
        Turn::Look { client }
    } else {
        Turn::Add {
            client,
            file: draws.draw(8),
        }
    }
}

impl Turn {
    /// Appends the line of the turn.
    pub(crate) fn write_to(self, out: &mut Text) -> Result<(), NoMemory>
        ensures { OnOk result (out.new ≡ out.old ++ line (turn_line self)) }
    {
        match self {
            Turn::Disconnect { client } => put_numbered(b"disconnect c", client, b"", out),
            Turn::Connect { client } => put_numbered(b"connect c", client, b"", out),
            Turn::Drain { client } => put_numbered(b"drain c", client, b"", out),
            Turn::Look { client } => put_numbered(b"run c", client, b" look reexec", out),
            Turn::Add { client, file } => {
                out.append(b"run c")?;
                out.append_number(client)?;
                put_numbered(b" add", file, b" reexec", out)
            }
        }
    }
}
