//! Which bytes may be where, and how many of them a text begins with.
#![tactic(auto, using(iot_lines::proofs::FrontsLaws::fronts))]

ghost use Rattle.std.specs.Prelude.{◌≡◌, ◌≤◌, length};
ghost use Rattle.std.specs.List.{list_all, prefix_len};
ghost use Rattle.iot_lang.specs.Words.{is_variable};
ghost use Rattle.iot_lines.specs.Words.{is_blank};
ghost use Rattle.iot_lang.specs.Bytes.{is_plain_byte, is_quoted_byte, is_variable_byte};
ghost use Rattle.iot_lang.specs.Lines.{is_end};
ghost use Rattle.iot_lang.specs.Parsing.{name_len};

use iot_lines::is_blank;

/// How many bytes a variable's name has at most.
pub const VARIABLE_LIMIT: usize = 32;

/// Whether the byte is a letter, a digit or `_`.
#[inline]
pub(crate) fn is_variable_byte(byte: u8) -> bool
    ensures { result ≡ is_variable_byte byte }
{
    byte.is_ascii_alphanumeric() || byte == b'_'
}

/// Whether the byte means itself outside quotes.
#[inline]
pub(crate) fn is_plain_byte(byte: u8) -> bool
    ensures { result ≡ is_plain_byte byte }
{
    (b'!'..=b'~').contains(&byte) && !matches!(byte, b'"' | b'$' | b'\\' | b'{' | b'}')
}

/// Whether the byte means itself in quotes.
#[inline]
pub(crate) fn is_quoted_byte(byte: u8) -> bool
    ensures { result ≡ is_quoted_byte byte }
{
    (b' '..=b'~').contains(&byte) && !matches!(byte, b'"' | b'\\')
}

/// Whether the text ends here, or a blank follows.
#[inline]
pub(crate) fn is_end(text: &[u8]) -> bool
    ensures { result ≡ is_end text.now }
{
    match text.first() {
        None => true,
        Some(byte) => is_blank(*byte),
    }
}

/// How many bytes that mean themselves the text begins with.
pub(crate) fn plain_len(text: &[u8]) -> usize
    ensures len { result ≡ prefix_len is_plain_byte text.now }
    ensures within { result ≤ length text.now }
{
    text.iter().take_while(|byte| is_plain_byte(**byte)).count()
}

/// How many letters, digits and `_` the text begins with.
fn variable_len(text: &[u8]) -> usize
    ensures len { result ≡ prefix_len is_variable_byte text.now }
    ensures within { result ≤ length text.now }
{
    text.iter()
        .take_while(|byte| is_variable_byte(**byte))
        .count()
}

/// How long the longest variable's name is that the text begins with.
pub(crate) fn name_len(text: &[u8]) -> usize
    ensures len { result ≡ name_len text.now }
    ensures within { result ≤ length text.now }
{
    variable_len(text).min(VARIABLE_LIMIT)
}

/// Whether there are blanks alone.
pub(crate) fn are_blank(text: &[u8]) -> bool
    ensures { result ≡ list_all is_blank text.now }
{
    text.iter().all(|byte| is_blank(*byte))
}

/// Whether there are letters, digits and `_` alone.
fn are_variable_bytes(text: &[u8]) -> bool
    ensures { result ≡ list_all is_variable_byte text.now }
{
    text.iter().all(|byte| is_variable_byte(*byte))
}

/// Whether the text is a variable's name.
pub(crate) fn is_variable(text: &[u8]) -> bool
    ensures { result ≡ is_variable text.now }
{
    !text.is_empty() && text.len() <= VARIABLE_LIMIT && are_variable_bytes(text)
}
