//! What a disk asks of its file.
ghost use Rattle.std.specs.Prelude.{◌≡◌, List, ◌∷◌, OnOk, OnErr};
ghost use Rattle.iot_noted.specs.Events.{Event, Opened, Wrote, Synced};

use std::io;

/// A file, or whatever else keeps bytes.
///
/// A type of one's own makes the calls that it notes in its `Record`: that it does is to be read, and no check sees it. What the record says
/// holds of the bytes only if each event is true as it is noted, and nobody else writes them.
pub trait Calls {
    /// What it was asked so far, the newest first.
    ghost history: { Self → List Event };

    /// Reads as many bytes as `buf` has, from a place on.
    fn read(&mut self, at: u64, buf: &mut [u8]) -> io::Result<()>
        ensures { history self.new ≡ history self.old };

    /// Writes bytes from a place on. If this fails, some of them may have been written.
    fn write(&mut self, at: u64, bytes: &[u8]) -> io::Result<()>
        ensures { history self.new ≡ Wrote at bytes.now ∷ history self.old };

    /// Makes durable what was written.
    fn sync(&mut self) -> io::Result<()>
        ensures kept { OnOk result (history self.new ≡ Synced ∷ history self.old) }
        ensures failed { OnErr result (history self.new ≡ history self.old) };
}
