//! Which call is which: they are numbered from 1.
ghost use Rattle.std.specs.Prelude.{◌+◌, ◌↔◌, IsTrue, Contains};

use iot_count::Count;

/// Whether the call that comes after `calls` others is one of these.
pub(crate) fn is_next_among(numbers: &[u64], calls: Count) -> bool
    ensures { IsTrue result ↔ Contains numbers.now (calls + 1) }
{
    match calls.get().checked_add(1) {
        Some(number) => numbers.contains(&number),
        None => false,
    }
}
