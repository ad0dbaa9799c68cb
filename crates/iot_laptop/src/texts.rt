//! The lines of a client alone.
ghost use Rattle.std.specs.Prelude.{◌++◌, ◌≡◌};
ghost use Rattle.iot_laptop.specs.Below.{IfOk, OnOk, acts_output, cut_line, name_of};
ghost use Rattle.iot_machine.specs.Texts.{line, lose_line, output, output_line};

use iot_link::Loss;
use iot_node::Transaction;
use iot_text::{Name, NoMemory, Text};
use iot_tree::Act;
use std::alloc::Global;

/// A line of a word and a client's name.
pub(crate) fn say_named(word: &[u8], name: &Name, out: &mut Text) -> Result<(), NoMemory>
    ensures { OnOk result (out.new ≡ out.old ++ line (word.now ++ name.now)) }
{
    out.append(word)?;
    out.append(name.as_bytes())?;
    out.push(b'\n')
}

/// `lose C request`, or `reply`
pub(crate) fn say_lose(name: &Name, loss: Loss, out: &mut Text) -> Result<(), NoMemory>
    ensures { OnOk result (out.new ≡ out.old ++ lose_line name.now loss) }
{
    out.append(b"lose ")?;
    out.append(name.as_bytes())?;
    out.append(match loss {
        Loss::Request => b" request\n",
        Loss::Reply => b" reply\n",
    })
}

/// `cut TID K acts`
pub(crate) fn say_cut(transaction: &Transaction, acts: u64, out: &mut Text) -> Result<(), NoMemory>
    ensures { OnOk result (out.new ≡ out.old ++ cut_line (name_of transaction.now) acts) }
{
    out.append(b"cut ")?;
    transaction.write_to(out)?;
    out.push(b' ')?;
    out.append_number(acts)?;
    out.append(b" acts\n")
}

/// The lines that one act printed, each after its bar.
fn say_lines(lines: &[Text], out: &mut Text) -> Result<(), NoMemory>
    ensures { OnOk result (out.new ≡ out.old ++ output lines.now) }
{
    for line in lines {
        out.push(b'|')?;
        out.append_text(line)?;
        out.push(b'\n')?;
    }
    Ok(())
}

/// What a run printed, by itself.
pub(crate) fn output_of(alloc: Global, acts: &[Act]) -> Result<Text, NoMemory>
    ensures { IfOk result (λ output. output ≡ acts_output acts.now) }
{
    let mut output = Text::new(alloc);
    for act in acts {
        say_lines(act.lines.as_slice(), &mut output)?;
    }
    Ok(output)
}
