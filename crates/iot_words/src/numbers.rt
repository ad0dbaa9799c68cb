//! The number that `--gen` takes.
ghost use Rattle.std.specs.Prelude.{◌≡◌};
ghost use Rattle.std.specs.Char.{is_ascii_digit};
ghost use Rattle.std.specs.List.{list_all};
ghost use Rattle.iot_words.specs.Numbers.{is_number, number_of};

/// The largest number that `--gen` takes.
const LARGEST: u64 = 1_000_000;

/// Whether each byte is a digit.
fn are_digits(text: &[u8]) -> bool
    ensures { result ≡ list_all is_ascii_digit text.now }
{
    text.iter().all(|byte| byte.is_ascii_digit())
}

/// Whether a text is digits, the first of which is no 0 unless it is the only one.
fn is_number(text: &[u8]) -> bool
    ensures { result ≡ is_number text.now }
{
    !text.is_empty() && are_digits(text) && (text.len() == 1 || !text.starts_with(b"0"))
}

/// The number that a text spells, if it is at most the largest one.
pub(crate) fn number_of(text: &str) -> Option<u64>
    ensures { result ≡ number_of text.now }
{
    if !is_number(text.as_bytes()) {
        return None;
    }
    let number = text.parse().ok()?;
    if number <= LARGEST {
        Some(number)
    } else {
        None
    }
}
