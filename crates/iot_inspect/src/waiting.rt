//! The transactions of a client: those that wait, and the one that runs.
ghost use Rattle.std.specs.Prelude.{◌≡◌, [], ◌∷◌, ◌++◌, OnOk, OnErr, codes, decimal};
ghost use Rattle.std.specs.List.{flat_map};
ghost use Rattle.iot_text.specs.Texts.{AppendsPart};
ghost use Rattle.iot_inspect.specs.Texts.{transaction_name, option_text, stage_text, cut_text, item_line, class_text};
ghost use Rattle.iot_inspect.specs.Texts.{running_line, queue_text};

use crate::pieces::{put_empty, put_subject};
use iot_queue::{Item, Queue, Stage};
use iot_text::{Name, NoMemory, Text};
use iot_tree::{ACT_LIMIT, OnConflict};

/// A transaction that runs.
#[derive(Clone, Copy)]
pub struct RunLine {
    /// Its number at its client, from 1.
    pub tid: u64,
    /// The script that runs.
    pub script: Name,
    /// Whether it is first class.
    pub first: bool,
    /// How many acts were done.
    pub acts: u64,
}

/// What is done with a transaction that conflicts.
pub(crate) fn put_option(option: &OnConflict, out: &mut Text) -> Result<(), NoMemory>
    ensures ok { OnOk result (out.new ≡ out.old ++ option_text option.now) }
    ensures err { OnErr result (AppendsPart out.old out.new (option_text option.now)) }
{
    match option {
        OnConflict::Reexec => out.append(b"reexec"),
        OnConflict::Resolver(script) => {
            out.append(b"resolver ")?;
            out.append(script.as_bytes())
        }
        OnConflict::Abort => out.append(b"abort"),
        OnConflict::Manual => out.append(b"manual"),
    }
}

/// How far a transaction is.
pub(crate) fn put_stage(stage: &Stage, out: &mut Text) -> Result<(), NoMemory>
    ensures ok { OnOk result (out.new ≡ out.old ++ stage_text stage.now) }
    ensures err { OnErr result (AppendsPart out.old out.new (stage_text stage.now)) }
{
    match stage {
        Stage::Waiting => out.append(b"waiting"),
        Stage::Conflict => out.append(b"conflict"),
        Stage::Manual => out.append(b"manual"),
        Stage::Resolved(_) => out.append(b"resolved"),
    }
}

/// Whether a transaction was cut: fewer acts were allowed than there may be.
fn put_cut(budget: u64, out: &mut Text) -> Result<(), NoMemory>
    ensures ok { OnOk result (out.new ≡ out.old ++ cut_text budget) }
    ensures err { OnErr result (AppendsPart out.old out.new (cut_text budget)) }
{
    if budget == ACT_LIMIT {
        return Ok(());
    }
    out.append(b" cut")
}

/// What is done with a transaction that waits if it conflicts, and how far it is, before more words.
fn put_state(item: &Item, out: &mut Text) -> Result<(), NoMemory>
    ensures ok { OnOk result (out.new ≡ out.old ++ (option_text item.now.option ++ 32 ∷ stage_text item.now.stage ++ 32 ∷ [])) }
    ensures err { OnErr result (AppendsPart out.old out.new (option_text item.now.option ++ 32 ∷ stage_text item.now.stage ++ 32 ∷ [])) }
{
    put_option(&item.option, out)?;
    out.push(b' ')?;
    put_stage(&item.stage, out)?;
    out.push(b' ')
}

/// How many acts were done.
fn put_count(acts: u64, out: &mut Text) -> Result<(), NoMemory>
    ensures ok { OnOk result (out.new ≡ out.old ++ (decimal acts ++ codes " acts")) }
    ensures err { OnErr result (AppendsPart out.old out.new (decimal acts ++ codes " acts")) }
{
    out.append_number(acts)?;
    out.append(b" acts")
}

/// A transaction that waits.
fn put_item(client: &Name, item: &Item, out: &mut Text) -> Result<(), NoMemory>
    ensures ok { OnOk result (out.new ≡ out.old ++ item_line client.now item.now) }
    ensures err { OnErr result (AppendsPart out.old out.new (item_line client.now item.now)) }
{
    out.append(b"item ")?;
    put_subject(client, item.tid, &item.script, out)?;
    put_state(item, out)?;
    put_count(item.acts.len() as u64, out)?;
    put_cut(item.budget, out)?;
    out.push(b'\n')
}

/// The transactions that wait.
fn put_items(client: &Name, items: &[Item], out: &mut Text) -> Result<(), NoMemory>
    ensures ok { OnOk result (out.new ≡ out.old ++ flat_map (item_line client.now) items.now) }
    ensures err { OnErr result (AppendsPart out.old out.new (flat_map (item_line client.now) items.now)) }
{
    for item in items {
        put_item(client, item, out)?;
    }
    Ok(())
}

/// The class of a transaction.
fn put_class(first: bool, out: &mut Text) -> Result<(), NoMemory>
    ensures ok { OnOk result (out.new ≡ out.old ++ class_text first) }
    ensures err { OnErr result (AppendsPart out.old out.new (class_text first)) }
{
    out.append(if first { b"first" } else { b"second" })
}

/// A transaction that runs.
fn put_running(client: &Name, run: &RunLine, out: &mut Text) -> Result<(), NoMemory>
    ensures ok { OnOk result (out.new ≡ out.old ++ running_line client.now run.now) }
    ensures err { OnErr result (AppendsPart out.old out.new (running_line client.now run.now)) }
{
    out.append(b"running ")?;
    put_subject(client, run.tid, &run.script, out)?;
    put_class(run.first, out)?;
    out.push(b' ')?;
    put_count(run.acts, out)?;
    out.push(b'\n')
}

/// The transactions that run.
fn put_runs(client: &Name, running: &[RunLine], out: &mut Text) -> Result<(), NoMemory>
    ensures ok { OnOk result (out.new ≡ out.old ++ flat_map (running_line client.now) running.now) }
    ensures err { OnErr result (AppendsPart out.old out.new (flat_map (running_line client.now) running.now)) }
{
    for run in running {
        put_running(client, run, out)?;
    }
    Ok(())
}

/// Appends the transactions of a client that wait, in their order, and then those that run; `empty` if there is neither.
pub fn queue(client: &Name, q: &Queue, running: &[RunLine], out: &mut Text) -> Result<(), NoMemory>
    ensures ok { OnOk result (out.new ≡ out.old ++ queue_text client.now q.now running.now) }
    ensures err { OnErr result (AppendsPart out.old out.new (queue_text client.now q.now running.now)) }
{
    let before = out.len();
    put_items(client, q.items(), out)?;
    put_runs(client, running, out)?;
    put_empty(before, out)
}
