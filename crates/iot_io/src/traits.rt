//! The outside, as far as the program reads and writes it.
ghost use Rattle.std.specs.Prelude.{◌≡◌, ℕ, ◌+◌, ◌<◌, ◌≤◌, List, Option, None, length, IfOk, OnOk, OnErr, MatchResult};
ghost use Rattle.std.specs.Io.KnownBytes.{ReadConsumes, WriteAppends};
ghost use Rattle.iot_count.specs.Counts.{Rose};

use super::faults::Failed;

/// Where input comes from.
pub trait Source {
    /// The bytes that are left, if the source tells them.
    ghost left: { Self → Option (List ℕ) } = { λ _. None };

    /// How many bytes were taken so far.
    ghost taken: { Self → ℕ };

    /// How many calls failed so far, up to the last value of the counter.
    ghost faults: { Self → ℕ };

    /// Takes the next bytes into the front of `buf`, and answers how many. 0 for a `buf` that is not
    /// empty is the end of input. A call that answers `Failed` has taken nothing.
    fn read(&mut self, buf: &mut [u8]) -> Result<usize, Failed>
        ensures bound { IfOk result (λ n. n ≤ length buf.new) }
        ensures bytes { ReadConsumes (left self.old) (left self.new) result buf.new }
        ensures count { MatchResult result
            (λ n. taken self.new ≡ taken self.old + n) (λ _. taken self.new ≡ taken self.old) }

        // The count of faults rises in a call that fails, and only there.
        ensures steady { OnOk result (faults self.new ≡ faults self.old) }
        ensures failed { OnErr result (Rose (faults self.old) (faults self.new)) }
        ensures never_falls { faults self.old ≤ faults self.new };
}

/// Where output goes to.
pub trait Sink {
    /// What was written so far, if the sink tells it.
    ghost written: { Self → Option (List ℕ) } = { λ _. None };

    /// How many calls failed so far, up to the last value of the counter.
    ghost faults: { Self → ℕ };

    /// How many calls took nothing of a piece that is not empty, up to the last value of the counter.
    ghost empties: { Self → ℕ };

    /// Writes a prefix of the piece, and answers how long it is. 0 for a piece that is not empty is a
    /// fault of the sink. A call that answers `Failed` has written nothing.
    fn write(&mut self, piece: &[u8]) -> Result<usize, Failed>
        ensures bound { IfOk result (λ n. n ≤ length piece.now) }
        ensures bytes { WriteAppends (written self.old) (written self.new) result piece.now }

        // The count of faults rises in a call that fails, and only there.
        ensures steady { OnOk result (faults self.new ≡ faults self.old) }
        ensures failed { OnErr result (Rose (faults self.old) (faults self.new)) }
        ensures never_falls { faults self.old ≤ faults self.new }

        // The count of empty writes rises in a call that takes nothing of a piece that has something.
        ensures empty { IfOk result
            (λ n. n ≡ 0 → 0 < length piece.now → Rose (empties self.old) (empties self.new)) }
        ensures empties_never_fall { empties self.old ≤ empties self.new }

        // No other call changes it.
        ensures took { IfOk result (λ n. 0 < n → empties self.new ≡ empties self.old) }
        ensures given_nothing { length piece.now ≡ 0 → empties self.new ≡ empties self.old }
        ensures failed_keeps { OnErr result (empties self.new ≡ empties self.old) };
}
