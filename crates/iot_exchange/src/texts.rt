//! The lines of a client's transactions.
ghost use Rattle.std.specs.Prelude.{decimal, ◌++◌, ◌∷◌, ◌≡◌};
ghost use Rattle.iot_exchange.specs.{Saying.place_said, Saying.resolver_said, Saying.told_text, Words.OnOk, Words.codes, Words.name_of};
ghost use Rattle.{iot_laptop.specs.Messages.verdict_of, iot_machine.specs.Texts.begin_line, iot_machine.specs.Texts.fetch_line};
ghost use Rattle.iot_machine.specs.Texts.{hoard_line, line, pending_line, question_text, refresh_line, resolve_line, step_line, walk_line};

use iot_hoard::size_of;
use iot_inspect::put_question;
use iot_laptop::{Told, Verdict};
use iot_node::{Printed, Transaction};
use iot_prune::known;
use iot_resolve::Plan;
use iot_text::{Name, NoMemory, Path, Text};
use iot_tree::{ACT_LIMIT, OnConflict, Question, Tree};
use std::alloc::Global;

/// How it went to say a line.
pub(crate) type Said = Result<(), NoMemory>;

/// `hoard C P`
pub(crate) fn say_hoard(name: &Name, path: &Path, out: &mut Text) -> Said
    ensures { OnOk result (out.new ≡ out.old ++ hoard_line name.now path.now) }
{
    out.append(b"hoard ")?;
    out.append(name.as_bytes())?;
    out.push(b' ')?;
    path.write_to(out)?;
    out.push(b'\n')
}

/// `refresh C`
pub(crate) fn say_refresh(name: &Name, out: &mut Text) -> Said
    ensures { OnOk result (out.new ≡ out.old ++ refresh_line name.now) }
{
    out.append(b"refresh ")?;
    out.append(name.as_bytes())?;
    out.push(b'\n')
}

/// `walk C K paths B bytes`: how many paths of the tree are known, and how much of a limit these take.
pub(crate) fn say_walk(alloc: Global, name: &Name, held: &Tree, out: &mut Text) -> Said
    ensures { OnOk result (out.new ≡ out.old ++ walk_line name.now held.now) }
{
    let known = known(alloc, held)?;
    out.append(b"walk ")?;
    out.append(name.as_bytes())?;
    out.push(b' ')?;
    out.append_number(known.len() as u64)?;
    out.append(b" paths ")?;
    out.append_number(size_of(held, &known))?;
    out.append(b" bytes\n")
}

/// `begin TID S first`, or `second`
pub(crate) fn say_begin(transaction: &Transaction, name: &Name, first: bool, out: &mut Text) -> Said
    ensures { OnOk result (out.new ≡ out.old ++ begin_line (name_of transaction.now) name.now first) }
{
    out.append(b"begin ")?;
    transaction.write_to(out)?;
    out.push(b' ')?;
    out.append(name.as_bytes())?;
    out.append(if first { b" first\n" } else { b" second\n" })
}

/// `fetch P`, or `fetch P away` if nothing came.
pub(crate) fn say_fetch(path: &Path, away: bool, out: &mut Text) -> Said
    ensures { OnOk result (out.new ≡ out.old ++ fetch_line path.now away) }
{
    out.append(b"fetch ")?;
    path.write_to(out)?;
    out.append(if away { b" away\n" } else { b"\n" })
}

/// `step TID K acts`, and whether it is at its end or at its limit.
pub(crate) fn say_step(transaction: &Transaction, acts: u64, at_end: bool, out: &mut Text) -> Said
    ensures { OnOk result (out.new ≡ out.old ++ step_line (name_of transaction.now) acts (place_said at_end acts)) }
{
    out.append(b"step ")?;
    transaction.write_to(out)?;
    out.push(b' ')?;
    out.append_number(acts)?;
    out.append(b" acts")?;
    out.append(if at_end {
        b", at end"
    } else if acts >= ACT_LIMIT {
        b", at limit"
    } else {
        b""
    })?;
    out.push(b'\n')
}

/// This word of a transaction, as `end TID`.
pub(crate) fn say_of(word: &[u8], transaction: &Transaction, out: &mut Text) -> Said
    ensures { OnOk result (out.new ≡ out.old ++ line (word.now ++ name_of transaction.now)) }
{
    out.append(word)?;
    transaction.write_to(out)?;
    out.push(b'\n')
}

/// What a client is told of its transaction, and what becomes of it.
pub(crate) fn say_told(transaction: &Transaction, told: &Told, out: &mut Text) -> Said
    ensures { OnOk result (out.new ≡ out.old ++ told_text (name_of transaction.now) (verdict_of told.now.verdict) told.now.option) }
{
    match &told.verdict {
        Verdict::Settled { number } => {
            out.append(b"settled ")?;
            transaction.write_to(out)?;
            out.push(b' ')?;
            out.append_number(*number)?;
            out.push(b'\n')
        }
        Verdict::Conflict { read, question } => {
            say_read(b"conflict ", transaction, *read, question, out)?;
            match told.option {
                OnConflict::Reexec | OnConflict::Resolver(_) => Ok(()),
                OnConflict::Abort => say_of(b"abort ", transaction, out),
                OnConflict::Manual => say_of(b"manual ", transaction, out),
            }
        }
    }
}

/// This word of a transaction, and which read of it has another answer now, as `again TID read I QUESTION`.
pub(crate) fn say_read(
    word: &[u8],
    transaction: &Transaction,
    read: u64,
    question: &Question,
    out: &mut Text,
) -> Said
    ensures { OnOk result (out.new ≡ out.old ++ line (word.now ++ name_of transaction.now ++ codes " read " ++ decimal read
        ++ 32 ∷ question_text question.now)) }
{
    out.append(word)?;
    transaction.write_to(out)?;
    out.append(b" read ")?;
    out.append_number(read)?;
    out.push(b' ')?;
    put_question(question, out)?;
    out.push(b'\n')
}

/// `resolve TID S`, or `resolve TID reexec`
pub(crate) fn say_resolve(transaction: &Transaction, plan: &Plan, out: &mut Text) -> Said
    ensures { OnOk result (out.new ≡ out.old ++ resolve_line (name_of transaction.now) (resolver_said plan.now)) }
{
    let by = if plan.keeps {
        plan.script.as_bytes()
    } else {
        b"reexec"
    };
    say_by(b"resolve ", transaction, by, out)
}

/// This word of a transaction, and by which script, as `repair TID S`.
pub(crate) fn say_by(word: &[u8], transaction: &Transaction, script: &[u8], out: &mut Text) -> Said
    ensures { OnOk result (out.new ≡ out.old ++ line (word.now ++ name_of transaction.now ++ 32 ∷ script.now)) }
{
    out.append(word)?;
    transaction.write_to(out)?;
    out.push(b' ')?;
    out.append(script)?;
    out.push(b'\n')
}

/// `pending TID`, and what it printed.
pub(crate) fn say_pending(printed: &Printed, out: &mut Text) -> Said
    ensures { OnOk result (out.new ≡ out.old ++ (pending_line (name_of printed.now.transaction) ++ printed.now.output)) }
{
    say_of(b"pending ", &printed.transaction, out)?;
    out.append_text(&printed.output)
}
