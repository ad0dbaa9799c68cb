//! Lines: the pieces of a text between its newlines.
ghost use Rattle.std.specs.Prelude.{◌≡◌, ◌↔◌, ◌<◌, ◌≤◌, [], ◌∷◌, length, IsNone, IfSome};
ghost use Rattle.std.specs.Iterator.{YieldsFirstRef, item_count};
ghost use Rattle.iot_lines.specs.Lines.{lines, IsJoined};

use memchr::memchr;
use std::marker::Model;

/// Splits off the first line of a text: the line without its newline, and the text after that newline.
/// `None` exactly for the empty text: a newline at the very end begins no further line.
pub fn split_line(text: &[u8]) -> Option<(&[u8], &[u8])>
    ensures none { IsNone result ↔ (text.now ≡ []) }
    ensures first { IfSome result (λ parts. lines text.now ≡ parts.0.now ∷ lines parts.1.now) }
    ensures joined { IfSome result (λ parts. IsJoined text.now parts.0.now parts.1.now) }
    ensures shorter { IfSome result (λ parts. length parts.1.now < length text.now) }
{
    if text.is_empty() {
        return None;
    }
    match memchr(b'\n', text) {
        None => Some((text, &text[text.len()..])),
        Some(end) => Some((&text[..end], &text[end + 1..])),
    }
}

/// The lines of a text, one after another, as `split_line` splits them off.
/// Contracts see it as the list of those that are left.
#[derive(Drop)]
pub struct SplitLines<'a> {
    rest: &'a [u8],
}

impl<'a> Model for SplitLines<'a> {
    ghost use Rattle.std.specs.Prelude.{ℕ, List};
    ghost use Rattle.iot_lines.specs.Lines.{lines};

    ghost Value = { List (List ℕ) };

    ghost view = { λ left. lines left.rest.now };
}

/// The lines of a text, one after another. Does not allocate.
pub fn split_lines(text: &[u8]) -> SplitLines<'_>
    ensures lines { result ≡ lines text.now }
    ensures few { length result ≤ length text.now }
{
    SplitLines { rest: text }
}

impl<'a> Iterator for SplitLines<'a> {
    type Item = &'a [u8];

    ghost next_gives = { YieldsFirstRef (λ left. left) };

    ghost remaining = { item_count (λ left. left) };

    fn next(&mut self) -> Option<&'a [u8]> {
        let (line, rest) = split_line(self.rest)?;
        self.rest = rest;
        Some(line)
    }
}
