//! Whether a file may be one of the program that opens it.
ghost use Rattle.std.specs.Prelude.{◌≡◌, ◌==◌, ◌||◌};
ghost use Rattle.iot_file.specs.Own.{is_begun, is_part, is_started, may_be_ours};

/// How many bytes tell what wrote a file: the gate, and the header.
const MARK: usize = 9;

/// Whether a file with these bytes may be one of a program, by the bytes of a disk that it has just started: it begins as that does, and is
/// no shorter, or is what the start leaves that was cut short. If none are given, any file may.
pub(crate) fn is_ours(first: &[u8], bytes: &[u8]) -> bool
    ensures { result ≡ may_be_ours first.now bytes.now }
{
    was_started(first, bytes) || was_begun(first, bytes)
}

/// Whether it begins as a disk does that was started, and is no shorter.
fn was_started(first: &[u8], bytes: &[u8]) -> bool
    ensures { result ≡ is_started first.now bytes.now }
{
    bytes.len() >= first.len() && bytes.starts_with(&first[..first.len().min(MARK)])
}

/// Whether it is what a start leaves that was cut short.
fn was_begun(first: &[u8], bytes: &[u8]) -> bool
    ensures { result ≡ is_begun first.now bytes.now }
{
    match bytes.split_first() {
        None => true,
        Some((gate, rest)) => *gate == 0 && are_part(&first[first.len().min(1)..], rest),
    }
}

/// Whether each byte is 0, or the one that a start writes there.
fn are_part(first: &[u8], bytes: &[u8]) -> bool
    ensures { result ≡ is_part first.now bytes.now }
{
    if bytes.len() > first.len() {
        return false;
    }
    for k in 0..bytes.len() {
        if !is_put(bytes[k], first[k]) {
            return false;
        }
    }
    true
}

/// Whether a byte is 0, or the other one.
fn is_put(byte: u8, wanted: u8) -> bool
    ensures { result ≡ (byte == 0 || byte == wanted) }
{
    byte == 0 || byte == wanted
}
