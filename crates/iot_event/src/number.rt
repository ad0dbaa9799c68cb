//! Numbers as words of a line.
ghost use Rattle.std.specs.Prelude.{◌≡◌};
ghost use Rattle.std.specs.Char.{is_ascii_digit};
ghost use Rattle.std.specs.List.{list_all};
ghost use Rattle.iot_event.specs.Numbers.{is_number, number_of, byte_of};

use std::str;

/// How many digits a number has at most.
const DIGIT_LIMIT: usize = 7;

/// The greatest byte.
const BYTE_LIMIT: u64 = 255;

/// Whether each byte is a digit.
fn are_digits(word: &[u8]) -> bool
    ensures { result ≡ list_all is_ascii_digit word.now }
{
    word.iter().all(|byte| byte.is_ascii_digit())
}

/// Whether a word is one to seven digits, the first of which is no 0.
fn is_number(word: &[u8]) -> bool
    ensures { result ≡ is_number word.now }
{
    !word.is_empty() && word.len() <= DIGIT_LIMIT && !word.starts_with(b"0") && are_digits(word)
}

/// The number that a word is, if it is at least 1 and at most the limit.
pub(crate) fn number_of(word: &[u8], limit: u64) -> Option<u64>
    ensures { result ≡ number_of word.now limit }
{
    if !is_number(word) {
        return None;
    }
    let number = str::from_utf8(word).ok()?.parse().ok()?;
    if (1..=limit).contains(&number) {
        Some(number)
    } else {
        None
    }
}

/// The byte that a word is; here `0` is a number.
pub(crate) fn byte_of(word: &[u8]) -> Option<u8>
    ensures { result ≡ byte_of word.now }
{
    if word == b"0".as_slice() {
        return Some(0);
    }
    let number = number_of(word, BYTE_LIMIT)?;
    u8::try_from(number).ok()
}
