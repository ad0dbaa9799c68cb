//! What a transaction read.
ghost use Rattle.std.specs.Prelude.{◌≡◌, ◌+◌, ◌∷◌, ◌++◌, length, IfOk, OnOk, OnErr};
ghost use Rattle.iot_text.specs.Texts.{AppendsPart};
ghost use Rattle.iot_inspect.specs.Texts.{child_text, others_text, children_text, answer_text, read_line, reads_from, reads_text, reads_of};

use crate::pieces::{put_empty, put_numbered, put_question};
use iot_queue::Item;
use iot_text::{Name, NoMemory, Text, quote};
use iot_tree::{Act, Answer, Kind, Read};

/// A name in a directory, with a `/` after that of a directory.
fn put_child(child: &(Name, Kind), out: &mut Text) -> Result<(), NoMemory>
    ensures ok { OnOk result (out.new ≡ out.old ++ child_text child.now) }
    ensures err { OnErr result (AppendsPart out.old out.new (child_text child.now)) }
{
    out.append(child.0.as_bytes())?;
    match child.1 {
        Kind::IsDir => out.push(b'/'),
        Kind::IsFile | Kind::Absent | Kind::Away => Ok(()),
    }
}

/// A name after a space.
fn put_other(child: &(Name, Kind), out: &mut Text) -> Result<(), NoMemory>
    ensures ok { OnOk result (out.new ≡ out.old ++ 32 ∷ child_text child.now) }
    ensures err { OnErr result (AppendsPart out.old out.new (32 ∷ child_text child.now)) }
{
    out.push(b' ')?;
    put_child(child, out)
}

/// Names, each after a space.
fn put_others(children: &[(Name, Kind)], out: &mut Text) -> Result<(), NoMemory>
    ensures ok { OnOk result (out.new ≡ out.old ++ others_text children.now) }
    ensures err { OnErr result (AppendsPart out.old out.new (others_text children.now)) }
{
    for child in children {
        put_other(child, out)?;
    }
    Ok(())
}

/// Names, with a space between them.
fn put_children(children: &[(Name, Kind)], out: &mut Text) -> Result<(), NoMemory>
    ensures ok { OnOk result (out.new ≡ out.old ++ children_text children.now) }
    ensures err { OnErr result (AppendsPart out.old out.new (children_text children.now)) }
{
    if let Some((first, others)) = children.split_first() {
        put_child(first, out)?;
        put_others(others, out)?;
    }
    Ok(())
}

/// An answer.
fn put_answer(answer: &Answer, out: &mut Text) -> Result<(), NoMemory>
    ensures ok { OnOk result (out.new ≡ out.old ++ answer_text answer.now) }
    ensures err { OnErr result (AppendsPart out.old out.new (answer_text answer.now)) }
{
    match answer {
        Answer::Away => out.append(b"away"),
        Answer::Absent => out.append(b"none"),
        Answer::IsDir => out.append(b"dir"),
        Answer::IsFile => out.append(b"file"),
        Answer::Bytes(bytes) => quote(bytes.as_slice(), out),
        Answer::Names(children) => {
            out.push(b'[')?;
            put_children(children.as_slice(), out)?;
            out.push(b']')
        }
        Answer::On => out.append(b"on"),
        Answer::Off => out.append(b"off"),
    }
}

/// One read, of this number.
fn put_read(number: u64, read: &Read, out: &mut Text) -> Result<(), NoMemory>
    ensures ok { OnOk result (out.new ≡ out.old ++ read_line number read.now) }
    ensures err { OnErr result (AppendsPart out.old out.new (read_line number read.now)) }
{
    put_numbered(b"read ", number, out)?;
    put_question(&read.question, out)?;
    out.append(b" = ")?;
    put_answer(&read.answer, out)?;
    out.push(b'\n')
}

/// The number after this one. Numbers end at 64 bits; no list in memory is that long.
fn number_after(number: u64) -> Result<u64, NoMemory>
    ensures { IfOk result (λ next. next ≡ number + 1) }
{
    match number.checked_add(1) {
        Some(next) => Ok(next),
        None => Err(NoMemory),
    }
}

/// Reads, of which the first has this number. Gives the number after them.
fn put_reads(first: u64, reads: &[Read], out: &mut Text) -> Result<u64, NoMemory>
    ensures next { IfOk result (λ next. next ≡ first + length reads.now) }
    ensures ok { OnOk result (out.new ≡ out.old ++ reads_from first reads.now) }
    ensures err { OnErr result (AppendsPart out.old out.new (reads_from first reads.now)) }
{
    let mut number = first;
    for read in reads {
        put_read(number, read, out)?;
        number = number_after(number)?;
    }
    Ok(number)
}

/// The reads of acts.
fn put_acts(acts: &[Act], out: &mut Text) -> Result<(), NoMemory>
    ensures ok { OnOk result (out.new ≡ out.old ++ reads_from 1 (reads_of acts.now)) }
    ensures err { OnErr result (AppendsPart out.old out.new (reads_from 1 (reads_of acts.now))) }
{
    let mut number = 1;
    for act in acts {
        number = put_reads(number, act.reads.as_slice(), out)?;
    }
    Ok(())
}

/// Appends what a transaction read in its first run, with the answers; `empty` if it read nothing.
pub fn reads(item: &Item, out: &mut Text) -> Result<(), NoMemory>
    ensures ok { OnOk result (out.new ≡ out.old ++ reads_text item.now) }
    ensures err { OnErr result (AppendsPart out.old out.new (reads_text item.now)) }
{
    let before = out.len();
    put_acts(item.acts.as_slice(), out)?;
    put_empty(before, out)
}
