//! What was committed.
ghost use Rattle.std.specs.Prelude.{◌≡◌, ◌++◌, ◌<◌, length, OnOk, OnErr};
ghost use Rattle.iot_text.specs.Texts.{AppendsPart};
ghost use Rattle.iot_inspect.specs.Texts.{way_text, log_line, log_from, log_text, AreOf};

use crate::pieces::{put_empty, put_numbered, put_subject};
use iot_text::{Name, NoMemory, Text};
use iot_tree::{Label, Labels, Way};

/// How a transaction was committed.
pub(crate) fn put_way(way: Way, out: &mut Text) -> Result<(), NoMemory>
    ensures ok { OnOk result (out.new ≡ out.old ++ way_text way) }
    ensures err { OnErr result (AppendsPart out.old out.new (way_text way)) }
{
    match way {
        Way::Certified => out.append(b"certified"),
        Way::Reexecuted => out.append(b"reexecuted"),
        Way::Resolved => out.append(b"resolved"),
    }
}

/// One commit, of this number.
fn put_commit(number: u64, label: &Label, clients: &[Name], out: &mut Text) -> Result<(), NoMemory>
    requires { label.now.client < length clients.now }
    ensures ok { OnOk result (out.new ≡ out.old ++ log_line clients.now number label.now) }
    ensures err { OnErr result (AppendsPart out.old out.new (log_line clients.now number label.now)) }
{
    put_numbered(b"log ", number, out)?;
    put_subject(
        &clients[label.client as usize],
        label.tid,
        &label.script,
        out,
    )?;
    put_way(label.way, out)?;
    out.push(b'\n')
}

/// Commits, of which the first has the number 1.
fn put_commits(labels: &[Label], clients: &[Name], out: &mut Text) -> Result<(), NoMemory>
    requires { AreOf clients.now labels.now }
    ensures ok { OnOk result (out.new ≡ out.old ++ log_from clients.now 1 labels.now) }
    ensures err { OnErr result (AppendsPart out.old out.new (log_from clients.now 1 labels.now)) }
{
    for (place, label) in labels.iter().enumerate() {
        put_commit(place as u64 + 1, label, clients, out)?;
    }
    Ok(())
}

/// Appends what was committed, in order, by clients of these names; `empty` if nothing was.
pub fn log(labels: &Labels, clients: &[Name], out: &mut Text) -> Result<(), NoMemory>
    requires { AreOf clients.now labels.now }
    ensures ok { OnOk result (out.new ≡ out.old ++ log_text clients.now labels.now) }
    ensures err { OnErr result (AppendsPart out.old out.new (log_text clients.now labels.now)) }
{
    let before = out.len();
    put_commits(labels.as_slice(), clients, out)?;
    put_empty(before, out)
}
