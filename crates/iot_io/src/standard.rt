//! Standard input and output. They tell nothing of content.
use super::faults::Failed;
use super::traits::{Sink, Source};
use iot_count::Count;
use std::io::{Read, Stdin, Stdout, Write};
use std::marker::Model;

/// Standard input, one system call for each read.
///
/// A read that could take it past 2^64 - 1 bytes fails, so that the count of bytes is exact.
#[derive(Drop)]
pub struct StdSource {
    input: Stdin,
    taken: u64,
    faults: Count,
}

impl Model for StdSource {
    ghost use Rattle.iot_io.specs.Standard.{InputCounts};

    ghost Value = { InputCounts };

    ghost view = { λ s. record { taken = s.taken; faults = s.faults } };
}

impl StdSource {
    ghost use Rattle.std.specs.Prelude.{◌≡◌};

    /// Standard input, of which nothing was taken.
    pub fn new(input: Stdin) -> StdSource
        ensures { result ≡ record { taken = 0; faults = 0 } }
    {
        StdSource {
            input,
            taken: 0,
            faults: Count::NONE,
        }
    }
}

impl Source for StdSource {
    ghost taken = { λ s. s.taken };

    ghost faults = { λ s. s.faults };

    fn read(&mut self, buf: &mut [u8]) -> Result<usize, Failed> {
        let is_countable = self.taken.checked_add(buf.len() as u64).is_some();
        if is_countable && let Ok(count) = self.input.read(buf) {
            self.taken += count as u64;
            return Ok(count);
        }
        self.faults.rise();
        Err(Failed)
    }
}

/// Standard output, one system call for each write.
#[derive(Drop)]
pub struct StdSink {
    output: Stdout,
    faults: Count,
    empties: Count,
}

impl Model for StdSink {
    ghost use Rattle.iot_io.specs.Standard.{OutputCounts};

    ghost Value = { OutputCounts };

    ghost view = { λ s. record { faults = s.faults; empties = s.empties } };
}

impl StdSink {
    ghost use Rattle.std.specs.Prelude.{◌≡◌};

    /// Standard output, to which nothing was written.
    pub fn new(output: Stdout) -> StdSink
        ensures { result ≡ record { faults = 0; empties = 0 } }
    {
        StdSink {
            output,
            faults: Count::NONE,
            empties: Count::NONE,
        }
    }
}

impl Sink for StdSink {
    ghost faults = { λ s. s.faults };

    ghost empties = { λ s. s.empties };

    fn write(&mut self, piece: &[u8]) -> Result<usize, Failed> {
        match self.output.write(piece) {
            Ok(count) => {
                if count == 0 && !piece.is_empty() {
                    self.empties.rise();
                }
                Ok(count)
            }
            Err(_) => {
                self.faults.rise();
                Err(Failed)
            }
        }
    }
}
