//! The first disk, or the first and the last, apart from the others and among them again.
ghost use Rattle.std.specs.Prelude.{◌+◌, ◌<◌, ◌∷◌, ◌≡◌, ◌≤◌};
ghost use Rattle.iot_world.specs.{Disks.with_ends, Prelude.length, Prelude.vec_capacity, Prelude.vec_len};

/// Takes the first disk out of the others, and leaves room for it.
pub(crate) fn take_first<D>(disks: &mut Vec<D>) -> D
    requires { 0 < length disks.old.items }
    ensures items { disks.old.items ≡ result ∷ disks.new.items }
    ensures len { vec_len disks.new + 1 ≡ vec_len disks.old }
    ensures capacity { vec_capacity disks.new ≡ vec_capacity disks.old }
{
    disks.remove(0)
}

/// Puts the first disk before the others. Room was left for it.
pub(crate) fn put_first<D>(disks: &mut Vec<D>, disk: D)
    requires { vec_len disks.old < vec_capacity disks.old }
    ensures items { disks.new.items ≡ disk ∷ disks.old.items }
    ensures len { vec_len disks.new ≡ vec_len disks.old + 1 }
    ensures capacity { vec_capacity disks.new ≡ vec_capacity disks.old }
{
    disks.push_reserved(disk);
    disks.rotate_right(1);
}

/// Takes the first disk and the last out of the others, and leaves room for them.
pub(crate) fn take_ends<D>(disks: &mut Vec<D>) -> (D, D)
    requires { 2 ≤ length disks.old.items }
    ensures items { disks.old.items ≡ with_ends result.0 result.1 disks.new.items }
    ensures room { vec_len disks.new + 2 ≤ vec_capacity disks.new }
{
    let first = take_first(disks);
    match disks.pop() {
        Some(last) => (first, last),
        None => unreachable!(),
    }
}

/// Puts the first disk before the others, and the last behind them. Room was left for both.
pub(crate) fn put_ends<D>(disks: &mut Vec<D>, first: D, last: D)
    requires { vec_len disks.old + 2 ≤ vec_capacity disks.old }
    ensures { disks.new.items ≡ with_ends first last disks.old.items }
{
    disks.push_reserved(last);
    put_first(disks, first);
}
