//! Words: the pieces of a line between its blanks.
#![tactic(auto, using(crate::proofs::FrontsLaws::fronts))]

ghost use Rattle.std.specs.Prelude.{◌≡◌, ◌↔◌, ◌<◌, ◌≤◌, ◌++◌, [], ◌∷◌, length, IsNone, IfSome};
ghost use Rattle.std.specs.List.{prefix_len};
ghost use Rattle.std.specs.Iterator.{YieldsFirstRef, item_count};
ghost use Rattle.iot_lines.specs.Words.{is_blank, is_solid, words, without_blanks, front_word, after_word, is_skipped};

use std::marker::Model;

/// Whether a byte is a blank: a space or a tab.
#[inline]
pub fn is_blank(byte: u8) -> bool
    ensures { result ≡ is_blank byte }
{
    byte == b' ' || byte == b'\t'
}

/// How many blanks a line begins with.
fn blank_len(line: &[u8]) -> usize
    ensures len { result ≡ prefix_len is_blank line.now }
    ensures within { result ≤ length line.now }
{
    line.iter().take_while(|byte| is_blank(**byte)).count()
}

/// How many bytes come before the first blank.
fn solid_len(line: &[u8]) -> usize
    ensures len { result ≡ prefix_len is_solid line.now }
    ensures within { result ≤ length line.now }
{
    line.iter().take_while(|byte| !is_blank(**byte)).count()
}

/// The line without the blanks that it begins with.
pub fn without_blanks(line: &[u8]) -> &[u8]
    ensures rest { result.now ≡ without_blanks line.now }
    ensures length { length result.now ≤ length line.now }
{
    &line[blank_len(line)..]
}

/// The bytes up to the first blank, and those from it on.
pub fn front_word(line: &[u8]) -> (&[u8], &[u8])
    ensures front { result.0.now ≡ front_word line.now }
    ensures after { result.1.now ≡ after_word line.now }
    ensures whole { line.now ≡ result.0.now ++ result.1.now }
{
    line.split_at(solid_len(line))
}

/// Splits off the first word of a line: the word, and what comes after it. `None` exactly if the line has no word.
pub fn next_word(line: &[u8]) -> Option<(&[u8], &[u8])>
    ensures none { IsNone result ↔ (words line.now ≡ []) }
    ensures first { IfSome result (λ parts. words line.now ≡ parts.0.now ∷ words parts.1.now) }
    ensures shorter { IfSome result (λ parts. length parts.1.now < length line.now) }
{
    let text = without_blanks(line);
    if text.is_empty() {
        return None;
    }
    Some(front_word(text))
}

/// Whether a line says nothing: it has blanks alone, or its first byte after blanks is `#`.
pub fn is_skipped(line: &[u8]) -> bool
    ensures { result ≡ is_skipped line.now }
{
    match without_blanks(line).first() {
        None => true,
        Some(byte) => *byte == b'#',
    }
}

/// The words of a line, one after another, as `next_word` splits them off.
/// Contracts see it as the list of those that are left.
#[derive(Drop)]
pub struct SplitWords<'a> {
    rest: &'a [u8],
}

impl<'a> Model for SplitWords<'a> {
    ghost use Rattle.std.specs.Prelude.{ℕ, List};
    ghost use Rattle.iot_lines.specs.Words.{words};

    ghost Value = { List (List ℕ) };

    ghost view = { λ left. words left.rest.now };
}

/// The words of a line, one after another. Does not allocate.
pub fn split_words(line: &[u8]) -> SplitWords<'_>
    ensures words { result ≡ words line.now }
    ensures few { length result ≤ length line.now }
{
    SplitWords { rest: line }
}

impl<'a> Iterator for SplitWords<'a> {
    type Item = &'a [u8];

    ghost next_gives = { YieldsFirstRef (λ left. left) };

    ghost remaining = { item_count (λ left. left) };

    fn next(&mut self) -> Option<&'a [u8]> {
        let (word, rest) = next_word(self.rest)?;
        self.rest = rest;
        Some(word)
    }
}
