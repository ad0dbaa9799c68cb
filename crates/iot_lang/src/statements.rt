//! Parsing one line.
ghost use Rattle.std.specs.Prelude.{◌≡◌};
ghost use Rattle.iot_lang.specs.Words.{is_variable};
ghost use Rattle.iot_lang.specs.Parsing.{Parses};
ghost use Rattle.iot_lang.specs.Statements.{ended, run_of, past_run, past, opened, variable_name, switch_name, one_word, two_words};
ghost use Rattle.iot_lang.specs.Statements.{three_words, variable_and_word, switch_and_word, operands_at, condition_at, turns_at};
ghost use Rattle.iot_lang.specs.Statements.{closing_at, line_at, line_of, said_by};

use crate::bytes::{are_blank, is_variable};
use crate::faults::PartFault;
use crate::keywords::{Keyword, Test, keyword_of, switch_of, test_of};
use crate::lines::Line;
use crate::pieces::{text_of, word};
use crate::words::{Command, Cond, Switch, Word};
use iot_lines::{front_word, is_skipped, without_blanks};
use iot_text::Text;
use std::alloc::Global;

/// Wants nothing but blanks.
fn end(text: &[u8]) -> Result<(), PartFault>
    ensures { Parses (λ u. u) result (ended tt text.now) }
{
    if are_blank(text) {
        Ok(())
    } else {
        Err(PartFault::Malformed)
    }
}

/// The bytes up to the next blank, and what comes after them.
fn run(text: &[u8]) -> (&[u8], &[u8])
    ensures run { result.0.now ≡ run_of text.now }
    ensures rest { result.1.now ≡ past_run text.now }
{
    front_word(without_blanks(text))
}

/// What comes after this very word.
fn past<'a>(word: &[u8], text: &'a [u8]) -> Result<&'a [u8], PartFault>
    ensures { Parses (λ rest. rest.now) result (past word.now text.now) }
{
    let (found, rest) = run(text);
    if found == word {
        Ok(rest)
    } else {
        Err(PartFault::Malformed)
    }
}

/// Wants a `{`, and nothing after it.
fn open(text: &[u8]) -> Result<(), PartFault>
    ensures { Parses (λ u. u) result (opened tt text.now) }
{
    end(past(b"{", text)?)
}

/// A variable's name, and what comes after it.
fn variable(alloc: Global, text: &[u8]) -> Result<(Text, &[u8]), PartFault>
    ensures { Parses (λ part. (part.0, part.1.now)) result (variable_name text.now) }
{
    let (name, rest) = run(text);
    if !is_variable(name) {
        return Err(PartFault::Malformed);
    }
    Ok((text_of(alloc, name)?, rest))
}

/// A switch, and what comes after it.
fn switch(text: &[u8]) -> Result<(Switch, &[u8]), PartFault>
    ensures { Parses (λ part. (part.0, part.1.now)) result (switch_name text.now) }
{
    let (name, rest) = run(text);
    let switch = switch_of(name).ok_or(PartFault::Malformed)?;
    Ok((switch, rest))
}

/// One word, and nothing after it.
#[tactic(auto, unfolding(crate::specs::Statements::one_word))]
fn one_word(alloc: Global, text: &[u8]) -> Result<Word, PartFault>
    ensures { Parses (λ w. w) result (one_word text.now) }
{
    let (word, rest) = word(alloc, text)?;
    end(rest)?;
    Ok(word)
}

/// Two words, and nothing after them.
#[tactic(auto, unfolding(crate::specs::Statements::two_words))]
fn two_words(alloc: Global, text: &[u8]) -> Result<(Word, Word), PartFault>
    ensures { Parses (λ ws. ws) result (two_words text.now) }
{
    let (first, rest) = word(alloc, text)?;
    let (second, rest) = word(alloc, rest)?;
    end(rest)?;
    Ok((first, second))
}

/// Three words, and nothing after them.
#[tactic(auto, unfolding(crate::specs::Statements::three_words))]
fn three_words(alloc: Global, text: &[u8]) -> Result<(Word, Word, Word), PartFault>
    ensures { Parses (λ ws. ((ws.0, ws.1), ws.2)) result (three_words text.now) }
{
    let (first, rest) = word(alloc, text)?;
    let (second, rest) = word(alloc, rest)?;
    let (third, rest) = word(alloc, rest)?;
    end(rest)?;
    Ok((first, second, third))
}

/// A variable's name and a word, and nothing after them.
#[tactic(auto, unfolding(crate::specs::Statements::variable_and_word))]
fn variable_and_word(alloc: Global, text: &[u8]) -> Result<(Text, Word), PartFault>
    ensures { Parses (λ xw. xw) result (variable_and_word text.now) }
{
    let (variable, rest) = variable(alloc, text)?;
    let (word, rest) = word(alloc, rest)?;
    end(rest)?;
    Ok((variable, word))
}

/// A switch and a word, and nothing after them.
#[tactic(auto, unfolding(crate::specs::Statements::switch_and_word))]
fn switch_and_word(alloc: Global, text: &[u8]) -> Result<(Switch, Word), PartFault>
    ensures { Parses (λ sp. sp) result (switch_and_word text.now) }
{
    let (switch, rest) = switch(text)?;
    let (path, rest) = word(alloc, rest)?;
    end(rest)?;
    Ok((switch, path))
}

/// The operands of a condition of this test, and a `{`.
fn operands(alloc: Global, test: Test, text: &[u8]) -> Result<Cond, PartFault>
    ensures { Parses (λ c. c) result (operands_at test text.now) }
{
    match test {
        Test::File => {
            let (path, rest) = word(alloc, text)?;
            open(rest)?;
            Ok(Cond::File(path))
        }
        Test::Dir => {
            let (path, rest) = word(alloc, text)?;
            open(rest)?;
            Ok(Cond::Dir(path))
        }
        Test::Exec => {
            let (path, rest) = word(alloc, text)?;
            open(rest)?;
            Ok(Cond::Exec(path))
        }
        Test::Same => {
            let (first, rest) = word(alloc, text)?;
            let (second, rest) = word(alloc, rest)?;
            open(rest)?;
            Ok(Cond::Same(first, second))
        }
        Test::Ok => {
            open(text)?;
            Ok(Cond::Ok)
        }
    }
}

/// A condition and a `{`, after `if`.
#[tactic(auto, unfolding(crate::specs::Statements::condition_at))]
fn condition(alloc: Global, text: &[u8]) -> Result<Cond, PartFault>
    ensures { Parses (λ c. c) result (condition_at text.now) }
{
    let (name, rest) = run(text);
    let test = test_of(name).ok_or(PartFault::Malformed)?;
    operands(alloc, test, rest)
}

/// A variable's name, `in`, a word and a `{`, after `for`.
#[tactic(auto, unfolding(crate::specs::Statements::turns_at))]
fn turns(alloc: Global, text: &[u8]) -> Result<(Text, Word), PartFault>
    ensures { Parses (λ xw. xw) result (turns_at text.now) }
{
    let (variable, rest) = variable(alloc, text)?;
    let rest = past(b"in", rest)?;
    let (path, rest) = word(alloc, rest)?;
    open(rest)?;
    Ok((variable, path))
}

/// The end of a block, after `}`.
#[tactic(auto, unfolding(crate::specs::Statements::closing_at))]
fn closing(text: &[u8]) -> Result<Line, PartFault>
    ensures { Parses (λ l. l) result (closing_at text.now) }
{
    if are_blank(text) {
        return Ok(Line::Close);
    }
    open(past(b"else", text)?)?;
    Ok(Line::Else)
}

/// A line that begins with this keyword, given what comes after it.
fn keyword_line(alloc: Global, name: Keyword, text: &[u8]) -> Result<Line, PartFault>
    ensures { Parses (λ l. l) result (line_at name text.now) }
{
    match name {
        Keyword::One(one) => Ok(Line::Do(one.with(one_word(alloc, text)?))),
        Keyword::Two(two) => {
            let (first, second) = two_words(alloc, text)?;
            Ok(Line::Do(two.with(first, second)))
        }
        Keyword::Named(named) => {
            let (variable, word) = variable_and_word(alloc, text)?;
            Ok(Line::Do(named.with(variable, word)))
        }
        Keyword::Concat => {
            let (target, first, second) = three_words(alloc, text)?;
            Ok(Line::Do(Command::Concat(target, first, second)))
        }
        Keyword::Chmod => {
            let (switch, path) = switch_and_word(alloc, text)?;
            Ok(Line::Do(Command::Chmod(switch, path)))
        }
        Keyword::If => Ok(Line::If(condition(alloc, text)?)),
        Keyword::For => {
            let (variable, path) = turns(alloc, text)?;
            Ok(Line::For(variable, path))
        }
        Keyword::Stop => {
            end(text)?;
            Ok(Line::Stop)
        }
        Keyword::Close => closing(text),
    }
}

/// What a line says, or nothing if it is empty or a comment.
#[tactic(auto, unfolding(crate::specs::Statements::line_of))]
pub(crate) fn line(alloc: Global, text: &[u8]) -> Result<Option<Line>, PartFault>
    ensures { Parses (λ l. l) result (said_by text.now) }
{
    if is_skipped(text) {
        return Ok(None);
    }
    let (name, rest) = run(text);
    let name = keyword_of(name).ok_or(PartFault::Malformed)?;
    Ok(Some(keyword_line(alloc, name, rest)?))
}
