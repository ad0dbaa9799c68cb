//! A source in memory, for tests.
use super::faults::Failed;
use super::numbers::is_next_among;
use super::traits::Source;
use iot_count::Count;
use std::marker::Model;

/// Gives its bytes in order, as many in each call as are wanted and left. Its calls are numbered from
/// 1, and those whose number is listed answer `Failed`.
#[derive(Drop)]
pub struct MemSource {
    bytes: Vec<u8>,
    taken: usize,
    fails: Vec<u64>,
    calls: Count,
    faults: Count,
}

impl Model for MemSource {
    ghost use Rattle.std.specs.Prelude.{◌≤◌, drop, length};
    ghost use Rattle.iot_io.specs.MemSource.{MemInput};

    ghost Value = { MemInput };

    ghost view = { λ s. record {
      left = drop s.taken s.bytes.items;
      taken = s.taken;
      fails = s.fails.items;
      calls = s.calls;
      faults = s.faults;
    } };

    ghost invariant = { λ s. s.taken ≤ length s.bytes.items };
}

impl MemSource {
    ghost use Rattle.std.specs.Prelude.{◌≡◌};

    /// A source of these bytes, whose calls with these numbers fail.
    pub fn new(bytes: Vec<u8>, fails: Vec<u64>) -> MemSource
        ensures { result ≡ record {
          left = bytes.items;
          taken = 0;
          fails = fails.items;
          calls = 0;
          faults = 0;
        } }
    {
        MemSource {
            bytes,
            taken: 0,
            fails,
            calls: Count::NONE,
            faults: Count::NONE,
        }
    }
}

impl Source for MemSource {
    ghost use Rattle.std.specs.Prelude.{◌≡◌, ◌+◌, ◌≤◌, ◌↔◌, Some, length, take, min, Contains, IsErr, IfOk, MatchResult};
    ghost use Rattle.iot_io.specs.MemSource.{after_read, after_failed_read};

    ghost left = { λ s. Some s.left };

    ghost taken = { λ s. s.taken };

    ghost faults = { λ s. s.faults };

    fn read(&mut self, buf: &mut [u8]) -> Result<usize, Failed>
        ensures fails { IsErr result ↔ Contains self.old.fails (self.old.calls + 1) }
        ensures most { IfOk result (λ n. n ≡ min (length buf.new) (length self.old.left)) }
        ensures given { IfOk result (λ n. take n buf.new ≡ take n self.old.left) }
        ensures after { MatchResult result
            (λ n. self.new ≡ after_read n self.old) (λ _. self.new ≡ after_failed_read self.old) }
        ensures never_falls { self.old.faults ≤ self.new.faults }
    {
        let fails = is_next_among(&self.fails, self.calls);
        self.calls.rise();
        if fails {
            self.faults.rise();
            return Err(Failed);
        }
        let rest = &self.bytes[self.taken..];
        let count = buf.len().min(rest.len());
        buf[..count].copy_from_slice(&rest[..count]);
        self.taken += count;
        Ok(count)
    }
}
