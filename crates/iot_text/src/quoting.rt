//! Quoted bytes.
ghost use Rattle.std.specs.Prelude.{[], ◌∷◌, ◌++◌, ◌≡◌, OnOk, OnErr, IfSome, IfNone};
ghost use Rattle.iot_text.specs.Texts.{AppendsPart};
ghost use Rattle.iot_text.specs.Quotes.{quoted_byte, quoted};

use crate::{NoMemory, Text};

const BACKSLASH: u8 = b'\\';

/// The letter that is written after a backslash for this byte, if the byte needs an escape.
fn escape(byte: u8) -> Option<u8>
    ensures plain { IfNone result (quoted_byte byte ≡ byte ∷ []) }
    ensures escaped { IfSome result (λ letter. quoted_byte byte ≡ BACKSLASH ∷ letter ∷ []) }
{
    match byte {
        b'\n' => Some(b'n'),
        b'"' | BACKSLASH => Some(byte),
        _ => None,
    }
}

/// Appends bytes that need no escape, and an escaped byte after them.
fn append_run(run: &[u8], letter: u8, out: &mut Text) -> Result<(), NoMemory>
    ensures ok { OnOk result (out.new ≡ out.old ++ (run.now ++ BACKSLASH ∷ letter ∷ [])) }
    ensures err { OnErr result (AppendsPart out.old out.new (run.now ++ BACKSLASH ∷ letter ∷ [])) }
{
    out.append(run)?;
    out.append(&[BACKSLASH, letter])
}

/// Appends the bytes in quotes, with `\n`, `\"` and `\\` for newline, quote and backslash.
pub fn quote(bytes: &[u8], out: &mut Text) -> Result<(), NoMemory>
    ensures ok { OnOk result (out.new ≡ out.old ++ quoted bytes.now) }
    ensures err { OnErr result (AppendsPart out.old out.new (quoted bytes.now)) }
{
    out.push(b'"')?;
    let mut done = 0;
    'bytes: for (at, byte) in bytes.iter().enumerate() {
        if let Some(letter) = escape(*byte) {
            append_run(&bytes[done..at], letter, out)?;
            done = at + 1;
        }
    }
    out.append(&bytes[done..])?;
    out.push(b'"')
}
