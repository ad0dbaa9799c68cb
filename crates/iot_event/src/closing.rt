//! Where a script or a profile ends.
ghost use Rattle.std.specs.Prelude.{◌≡◌, ◌+◌, ◌<◌, ◌≤◌, ◌^◌, length, option_map, IfSome};
ghost use Rattle.iot_lines.specs.Lines.{lines};
ghost use Rattle.iot_lines.specs.Words.{words};
ghost use Rattle.iot_event.specs.Closing.{is_closing, opens_block, blocks_after, closed_by, first_closing};
ghost use Rattle.iot_event.specs.Results.{closed_of};

use iot_lines::{next_word, split_line};

/// A script or a profile whose closing line was found.
#[derive(Clone, Copy)]
pub(crate) struct Closed<'a> {
    /// The lines inside, each with its newline.
    pub(crate) inside: &'a [u8],

    /// The closing line.
    pub(crate) closing: &'a [u8],

    /// What comes after the closing line.
    pub(crate) later: &'a [u8],

    /// How many lines are inside.
    pub(crate) count: u64,
}

/// Whether the only word of a line is `}`.
fn is_closing(line: &[u8]) -> bool
    ensures { result ≡ is_closing (words line.now) }
{
    match next_word(line) {
        Some((word, rest)) => word == b"}".as_slice() && next_word(rest).is_none(),
        None => false,
    }
}

/// Whether the first word of a line is `if` or `for`.
fn opens_block(line: &[u8]) -> bool
    ensures { result ≡ opens_block (words line.now) }
{
    match next_word(line) {
        Some((word, _)) => word == b"if".as_slice() || word == b"for".as_slice(),
        None => false,
    }
}

/// How many blocks are open after a line, if so many are open before it. `None` if the line closes the script.
fn blocks_after(line: &[u8], blocks: u64) -> Option<u64>
    requires { blocks + 1 < 2 ^ 64 }
    ensures after { result ≡ blocks_after (words line.now) blocks }
    ensures few { IfSome result (λ after. after ≤ blocks + 1) }
{
    if is_closing(line) {
        if blocks == 0 {
            return None;
        }
        return Some(blocks - 1);
    }
    if opens_block(line) {
        return Some(blocks + 1);
    }
    Some(blocks)
}

/// Finds the line that closes the script which is open before a text.
pub(crate) fn find_closing(text: &[u8]) -> Option<Closed<'_>>
    ensures closed { option_map closed_of result ≡ closed_by (lines text.now) 0 }
    ensures count { IfSome result (λ script. script.count ≡ length (lines script.inside.now)) }
    ensures inside { IfSome result (λ script. length script.inside.now ≤ length text.now) }
    ensures shorter { IfSome result (λ script. script.count + length script.later.now < length text.now) }
{
    let mut blocks: u64 = 0;
    let mut count: u64 = 0;
    let mut rest = text;
    while let Some((line, later)) = split_line(rest) {
        let Some(open) = blocks_after(line, blocks) else {
            return Some(Closed {
                inside: &text[..text.len() - rest.len()],
                closing: line,
                later,
                count,
            });
        };
        blocks = open;
        count += 1;
        rest = later;
    }
    None
}

/// Finds the line that closes the profile which is open before a text. No blocks are counted.
pub(crate) fn find_first_closing(text: &[u8]) -> Option<Closed<'_>>
    ensures closed { option_map closed_of result ≡ first_closing (lines text.now) }
    ensures count { IfSome result (λ block. block.count ≡ length (lines block.inside.now)) }
    ensures inside { IfSome result (λ block. length block.inside.now ≤ length text.now) }
    ensures shorter { IfSome result (λ block. block.count + length block.later.now < length text.now) }
{
    let mut count: u64 = 0;
    let mut rest = text;
    while let Some((line, later)) = split_line(rest) {
        if is_closing(line) {
            return Some(Closed {
                inside: &text[..text.len() - rest.len()],
                closing: line,
                later,
                count,
            });
        }
        count += 1;
        rest = later;
    }
    None
}
