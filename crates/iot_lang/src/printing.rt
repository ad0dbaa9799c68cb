//! Printing scripts.
ghost use Rattle.std.specs.Prelude.{◌≡◌, [], ◌∷◌, ◌++◌, OnOk, IfOk};
ghost use Rattle.iot_lines.specs.Lines.{lines};
ghost use Rattle.iot_lang.specs.Words.{piece_text, word_text};
ghost use Rattle.iot_lang.specs.Lines.{command_words, condition_words};
ghost use Rattle.iot_lang.specs.Code.{script_lines};
ghost use Rattle.iot_lang.specs.Scripts.{Spell};
ghost use Rattle.iot_lang.specs.Print.{after_spaces, joined, printed, otherwise_lines, statement_lines};
ghost use Rattle.iot_lang.specs.declared.lines.Line.TheVariants as says;

use crate::NoMemory;
use crate::blocks::{Block, Stmt};
use crate::scripts::Script;
use crate::words::{Command, Cond, Piece, Switch, Word};
use iot_text::{Text, quote};
use std::alloc::Global;

/// Appends a piece as it is written.
fn put_piece(piece: &Piece, out: &mut Text) -> Result<(), NoMemory>
    ensures { OnOk result (out.new ≡ out.old ++ piece_text piece.now) }
{
    match piece {
        Piece::Plain(bytes) => out.append_text(bytes),
        Piece::Quoted(bytes) => quote(bytes.as_bytes(), out),
        Piece::Var(name) => {
            out.push(b'$')?;
            out.append_text(name)
        }
    }
}

/// Appends a space and a word.
fn put_word(word: &Word, out: &mut Text) -> Result<(), NoMemory>
    ensures { OnOk result (out.new ≡ out.old ++ after_spaces (word_text word.now ∷ [])) }
{
    out.push(b' ')?;
    'pieces: for piece in word.pieces() {
        put_piece(piece, out)?;
    }
    Ok(())
}

/// Appends a name and a word.
fn put_one(name: &[u8], word: &Word, out: &mut Text) -> Result<(), NoMemory>
    ensures { OnOk result (out.new ≡ out.old ++ joined (name.now ∷ word_text word.now ∷ [])) }
{
    out.append(name)?;
    put_word(word, out)
}

/// Appends a name and two words.
fn put_two(name: &[u8], first: &Word, second: &Word, out: &mut Text) -> Result<(), NoMemory>
    ensures { OnOk result (out.new ≡ out.old ++ joined (name.now ∷ word_text first.now ∷ word_text second.now ∷ [])) }
{
    put_one(name, first, out)?;
    put_word(second, out)
}

/// Appends a name, a variable's name and a word.
fn put_named(name: &[u8], variable: &Text, word: &Word, out: &mut Text) -> Result<(), NoMemory>
    ensures { OnOk result (out.new ≡ out.old ++ joined (name.now ∷ variable.now ∷ word_text word.now ∷ [])) }
{
    out.append(name)?;
    out.push(b' ')?;
    out.append_text(variable)?;
    put_word(word, out)
}

/// Appends a command, without a newline.
fn put_command(command: &Command, out: &mut Text) -> Result<(), NoMemory>
    ensures { OnOk result (out.new ≡ out.old ++ joined (command_words command.now)) }
{
    match command {
        Command::Echo(word) => put_one(b"echo", word, out),
        Command::Set(variable, word) => put_named(b"set", variable, word, out),
        Command::Read(variable, path) => put_named(b"read", variable, path, out),
        Command::MakeDir(path) => put_one(b"mkdir", path, out),
        Command::RemoveDir(path) => put_one(b"rmdir", path, out),
        Command::Remove(path) => put_one(b"rm", path, out),
        Command::Write(path, word) => put_two(b"write", path, word, out),
        Command::Append(path, word) => put_two(b"append", path, word, out),
        Command::Copy(from, to) => put_two(b"copy", from, to, out),
        Command::Concat(to, first, second) => {
            put_two(b"concat", to, first, out)?;
            put_word(second, out)
        }
        Command::Move(from, to) => put_two(b"mv", from, to, out),
        Command::Cat(path) => put_one(b"cat", path, out),
        Command::List(path) => put_one(b"ls", path, out),
        Command::Keep(from, to) => put_two(b"keep", from, to, out),
        Command::Chmod(Switch::Off, path) => put_one(b"chmod -x", path, out),
        Command::Chmod(Switch::On, path) => put_one(b"chmod +x", path, out),
    }
}

/// Appends a condition, without what is around it.
fn put_condition(condition: &Cond, out: &mut Text) -> Result<(), NoMemory>
    ensures { OnOk result (out.new ≡ out.old ++ joined (condition_words condition.now)) }
{
    match condition {
        Cond::File(path) => put_one(b"file", path, out),
        Cond::Dir(path) => put_one(b"dir", path, out),
        Cond::Exec(path) => put_one(b"exec", path, out),
        Cond::Same(first, second) => put_two(b"same", first, second, out),
        Cond::Ok => out.append(b"ok"),
    }
}

/// Appends the first line of an `if`.
fn put_if(condition: &Cond, out: &mut Text) -> Result<(), NoMemory>
    ensures { OnOk result (out.new ≡ out.old ++ printed (says.If condition.now ∷ [])) }
{
    out.append(b"if ")?;
    put_condition(condition, out)?;
    out.append(b" {\n")
}

/// Appends the first line of a `for`.
fn put_for(variable: &Text, path: &Word, out: &mut Text) -> Result<(), NoMemory>
    ensures { OnOk result (out.new ≡ out.old ++ printed (says.For variable.now path.now ∷ [])) }
{
    out.append(b"for ")?;
    out.append_text(variable)?;
    put_one(b" in", path, out)?;
    out.append(b" {\n")
}

/// Appends an else block with the line before it, if there is one.
#[cycle(print)]
fn put_otherwise(otherwise: &Option<Block>, out: &mut Text) -> Result<(), NoMemory>
    ensures { OnOk result (out.new ≡ out.old ++ printed (otherwise_lines otherwise.now)) }
{
    match otherwise {
        None => Ok(()),
        Some(other) => {
            out.append(b"} else {\n")?;
            put_block(other, out)
        }
    }
}

/// Appends the lines of a statement.
#[cycle(print)]
fn put_statement(statement: &Stmt, out: &mut Text) -> Result<(), NoMemory>
    ensures { OnOk result (out.new ≡ out.old ++ printed (statement_lines statement.now)) }
{
    match statement {
        Stmt::Do(command) => {
            put_command(command, out)?;
            out.push(b'\n')
        }
        Stmt::Stop => out.append(b"stop\n"),
        Stmt::If {
            condition,
            body,
            otherwise,
        } => {
            put_if(condition, out)?;
            put_block(body, out)?;
            put_otherwise(otherwise, out)?;
            out.append(b"}\n")
        }
        Stmt::For {
            variable,
            path,
            body,
        } => {
            put_for(variable, path, out)?;
            put_block(body, out)?;
            out.append(b"}\n")
        }
    }
}

/// Appends the lines of a block's statements.
#[cycle(print)]
fn put_block(block: &Block, out: &mut Text) -> Result<(), NoMemory>
    ensures { OnOk result (out.new ≡ out.old ++ printed (script_lines block.now)) }
{
    'statements: for statement in block.statements() {
        put_statement(statement, out)?;
    }
    Ok(())
}

/// The text of a script: lines that spell it, each ended by a newline.
pub fn print(alloc: Global, script: &Script) -> Result<Text, NoMemory>
    ensures { IfOk result (λ text. Spell (lines text) script.now) }
{
    let mut out = Text::new(alloc);
    put_block(script.block(), &mut out)?;
    Ok(out)
}
