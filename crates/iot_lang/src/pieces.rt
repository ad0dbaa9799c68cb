//! Parsing words, piece by piece.
ghost use Rattle.std.specs.Prelude.{◌≡◌, ◌<◌, ◌≤◌, IfOk, length};
ghost use Rattle.iot_lang.specs.Parsing.{Parses, escaped, quoted_byte_at, quoted_at, plain_at, variable_at, piece_at, word_at};

use crate::bytes::{is_end, is_quoted_byte, name_len, plain_len};
use crate::faults::PartFault;
use crate::words::{Piece, Word};
use iot_lines::without_blanks;
use iot_text::{NoMemory, Text};
use std::alloc::Global;

/// These bytes as a text of its own.
pub(crate) fn text_of(alloc: Global, bytes: &[u8]) -> Result<Text, NoMemory>
    ensures { IfOk result (λ text. text ≡ bytes.now) }
{
    Ok(Text::from(Vec::from_slice(alloc, bytes)?))
}

/// What the byte after a backslash means.
fn escaped(byte: u8) -> Option<u8>
    ensures { result ≡ escaped byte }
{
    match byte {
        b'n' => Some(b'\n'),
        b'"' | b'\\' => Some(byte),
        _ => None,
    }
}

/// What `byte`, the next byte of a quoted text and not its end, means, and what comes after it.
fn quoted_byte(byte: u8, after: &[u8]) -> Result<(u8, &[u8]), PartFault>
    ensures parses { Parses (λ part. (part.0, part.1.now)) result (quoted_byte_at byte after.now) }
    ensures shorter { IfOk result (λ part. length part.1.now ≤ length after.now) }
{
    if byte == b'\\' {
        let (code, after) = after.split_first().ok_or(PartFault::Malformed)?;
        let byte = escaped(*code).ok_or(PartFault::Malformed)?;
        return Ok((byte, after));
    }
    if is_quoted_byte(byte) {
        return Ok((byte, after));
    }
    Err(PartFault::Malformed)
}

/// A quoted text after its first quote.
fn quoted(alloc: Global, text: &[u8]) -> Result<(Text, &[u8]), PartFault>
    ensures parses { Parses (λ part. (part.0, part.1.now)) result (quoted_at text.now) }
    ensures shorter { IfOk result (λ part. length part.1.now < length text.now) }
{
    let mut bytes = Vec::new(alloc);
    let mut rest = text;
    'bytes: while let Some((byte, after)) = rest.split_first() {
        if *byte == b'"' {
            return Ok((Text::from(bytes), after));
        }
        let (byte, after) = quoted_byte(*byte, after)?;
        bytes.push(byte)?;
        rest = after;
    }
    Err(PartFault::Malformed)
}

/// A run of bytes that mean themselves.
fn plain(alloc: Global, text: &[u8]) -> Result<(Piece, &[u8]), PartFault>
    ensures parses { Parses (λ part. (part.0, part.1.now)) result (plain_at text.now) }
    ensures shorter { IfOk result (λ part. length part.1.now < length text.now) }
{
    let len = plain_len(text);
    if len == 0 {
        return Err(PartFault::Malformed);
    }
    let (run, after) = text.split_at(len);
    Ok((Piece::Plain(text_of(alloc, run)?), after))
}

/// A variable, after its `$`.
fn variable(alloc: Global, text: &[u8]) -> Result<(Piece, &[u8]), PartFault>
    ensures parses { Parses (λ part. (part.0, part.1.now)) result (variable_at text.now) }
    ensures shorter { IfOk result (λ part. length part.1.now < length text.now) }
{
    let len = name_len(text);
    if len == 0 {
        return Err(PartFault::Malformed);
    }
    let (name, after) = text.split_at(len);
    Ok((Piece::Var(text_of(alloc, name)?), after))
}

/// The piece that the text begins with, and what comes after it.
fn piece(alloc: Global, text: &[u8]) -> Result<(Piece, &[u8]), PartFault>
    ensures parses { Parses (λ part. (part.0, part.1.now)) result (piece_at text.now) }
    ensures shorter { IfOk result (λ part. length part.1.now < length text.now) }
{
    let (first, after) = text.split_first().ok_or(PartFault::Malformed)?;
    match *first {
        b'"' => {
            let (bytes, after) = quoted(alloc, after)?;
            Ok((Piece::Quoted(bytes), after))
        }
        b'$' => variable(alloc, after),
        _ => plain(alloc, text),
    }
}

/// The word that the text begins with after blanks, and what comes after it.
pub(crate) fn word(alloc: Global, text: &[u8]) -> Result<(Word, &[u8]), PartFault>
    ensures { Parses (λ part. (part.0, part.1.now)) result (word_at text.now) }
{
    let mut pieces = Vec::new(alloc);
    let mut rest = without_blanks(text);
    'pieces: while !is_end(rest) {
        let (piece, after) = piece(alloc, rest)?;
        pieces.push(piece)?;
        rest = after;
    }
    if pieces.is_empty() {
        return Err(PartFault::Malformed);
    }
    Ok((Word::of(pieces), rest))
}
