//! A count that never falls.
ghost use Rattle.std.specs.Prelude.{◌≡◌, ◌≤◌};
ghost use Rattle.iot_count.specs.Counts.{one_more};

use std::marker::Model;

/// How often something happened. It stops at 2^64 - 1, the last value of its counter.
#[derive(Clone, Copy, Debug, PartialEq, Eq)]
pub struct Count {
    value: u64,
}

impl Model for Count {
    ghost use Rattle.std.specs.Prelude.{ℕ};

    ghost Value = { ℕ };

    ghost view = { λ count. count.value };

    ghost inverse = { λ value. record { value = value } };
}

impl Count {
    /// Of what has not happened yet.
    pub const NONE: Count = Count { value: 0 };

    /// Counts one more.
    pub fn rise(&mut self)
        ensures one_more { self.new ≡ one_more self.old }
        ensures never_falls { self.old ≤ self.new }
    {
        self.value = self.value.saturating_add(1);
    }

    /// How often it happened, up to 2^64 - 1.
    pub fn get(self) -> u64
        ensures { result ≡ self }
    {
        self.value
    }
}
