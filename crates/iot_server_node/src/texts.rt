//! The lines that the server prints.
ghost use Rattle.std.specs.Prelude.{◌++◌, ◌≡◌};
ghost use Rattle.iot_machine.specs.Texts.{way_text};
ghost use Rattle.iot_server_node.specs.Prelude.{OnOk, commit_line, name_of};

use crate::message::Handed;
use iot_text::{NoMemory, Text};
use iot_tree::Way;

/// What a commit says under this number: its line, `commit N TID WAY`, and what its script printed.
pub(crate) fn say_commit(number: u64, handed: &Handed, out: &mut Text) -> Result<(), NoMemory>
    ensures { OnOk result (out.new ≡ out.old
        ++ (commit_line number (name_of handed.now.printed.transaction) handed.now.way ++ handed.now.printed.output)) }
{
    out.append(b"commit ")?;
    out.append_number(number)?;
    out.push(b' ')?;
    handed.printed.transaction.write_to(out)?;
    out.push(b' ')?;
    say_way(handed.way, out)?;
    out.push(b'\n')?;
    out.append_text(&handed.printed.output)
}

fn say_way(way: Way, out: &mut Text) -> Result<(), NoMemory>
    ensures { OnOk result (out.new ≡ out.old ++ way_text way) }
{
    out.append(match way {
        Way::Certified => b"certified",
        Way::Reexecuted => b"reexecuted",
        Way::Resolved => b"resolved",
    })
}
