//! The disk that the layers above stand on: its device calls may fail.
ghost use Rattle.std.specs.Prelude.{◌≡◌, ◌<◌, ◌≤◌, ◌+◌, ◌^◌, List, ℕ, length, slice_range, OnOk, OnErr, IsErrOf};
ghost use Rattle.iot_disk.specs.Disk.{Medium, armed_with, CountsFault, overwritten, IsTornFrom, Only, SameImages};
ghost use Rattle.iot_disk.specs.declared.disk.DiskFault.TheVariants.{NoMemory};

use std::alloc::AllocError;
use thiserror::Error;

/// The greatest number of bytes that a disk holds.
pub const LIMIT: u64 = 1 << 62;

/// Which of its images a disk that failed has after the restart.
#[derive(Clone, Copy, Debug, PartialEq, Eq)]
pub enum Pick {
    /// The bytes of the last sync.
    Old,
    /// The bytes as they were written.
    New,
    /// The length that was written, with this byte wherever a write since the last sync went.
    Fill(u8),
}

/// Which device call of a disk is to fail, counted from 1, and what the restart after it leaves.
#[derive(Clone, Copy, Debug, PartialEq, Eq)]
pub struct Arm {
    pub calls: u64,
    pub pick: Pick,
}

/// Why a device call did not succeed.
#[derive(Clone, Copy, Debug, PartialEq, Eq, Error)]
pub enum DiskFault {
    #[error("out of memory")]
    NoMemory,
    #[error("the disk failed")]
    Failed,
}

impl From<AllocError> for DiskFault {
    ghost from_gives = { λ _ fault. fault ≡ NoMemory };

    fn from(_: AllocError) -> Self {
        DiskFault::NoMemory
    }
}

/// A disk: a list of bytes that grows, of which a crash leaves one of several images.
///
/// `read_at`, `write_at` and `sync` are its device calls, each of which may fail. No call shortens a disk.
///
/// # A crash inside a call
///
/// The trait has no clock: a contract speaks only of the moment at which a call returns. It covers a crash inside a
/// function all the same. Every device call may fail, and a function that returns right after a failed call shows that
/// moment: `may_leave` has each image that a crash there leaves. A write that fails may have done any part of its work,
/// or none: any bytes in its range, and any length from the old one up to its end. A sync that fails changes no image.
/// So the images after a failed call include those of a crash inside that call, and of one just before it.
///
/// A contract over every `Disk` holds for a disk that fails at its first, second or any other device call. What it says
/// of each image, however the function returns, is therefore true of a crash at every moment inside the function,
/// provided that the function makes no device call after a failed one.
pub trait Disk {
    /// What a read gives, what a crash now may leave, how often a device call has failed, and how the disk was armed.
    ghost medium: { Medium Self };

    /// The number of bytes, at most `LIMIT`.
    fn len(&self) -> u64
        ensures length { result ≡ length (medium.reads self.now) }
        ensures limit { result ≤ 2 ^ 62 };

    /// Reads as many bytes as `buf` has, from a place on.
    fn read_at(&mut self, at: u64, buf: &mut [u8]) -> Result<(), DiskFault>
        requires { at + length buf.old ≤ length (medium.reads self.old) }
        ensures bytes { OnOk result
            (buf.new ≡ slice_range (medium.reads self.old) at (at + length buf.old)) }
        ensures reads { OnOk result (medium.reads self.new ≡ medium.reads self.old) }
        ensures images { SameImages (medium.may_leave self.old) (medium.may_leave self.new) }
        ensures no_memory { IsErrOf result DiskFault.NoMemory → ⊥ }
        ensures faults { CountsFault result (medium.faults self.old) (medium.faults self.new) }
        ensures arms { medium.arms self.new ≡ medium.arms self.old };

    /// Writes bytes over those that are there, and past the end. Until a sync a crash may leave any bytes in the
    /// range that was written, also if the call failed. It writes nothing if the range ends past `LIMIT`.
    fn write_at(&mut self, at: u64, bytes: &[u8]) -> Result<(), DiskFault>
        requires { at ≤ length (medium.reads self.old) }
        ensures written { OnOk result (medium.reads self.new ≡ overwritten (medium.reads self.old) at bytes.now) }
        ensures images { IsTornFrom at (at + length bytes.now)
            (medium.may_leave self.old) (medium.may_leave self.new) }

        // Only a write that makes the disk longer takes memory, and without memory it changes nothing.
        ensures longer { IsErrOf result DiskFault.NoMemory
            → length (medium.reads self.old) < at + length bytes.now }
        ensures no_memory_reads { IsErrOf result DiskFault.NoMemory
            → medium.reads self.new ≡ medium.reads self.old }
        ensures no_memory_images { IsErrOf result DiskFault.NoMemory
            → SameImages (medium.may_leave self.old) (medium.may_leave self.new) }

        // A disk does not grow past its limit.
        ensures limit { 2 ^ 62 < at + length bytes.now → IsErrOf result DiskFault.Failed }
        ensures limit_reads { 2 ^ 62 < at + length bytes.now → medium.reads self.new ≡ medium.reads self.old }
        ensures limit_images { 2 ^ 62 < at + length bytes.now
            → SameImages (medium.may_leave self.old) (medium.may_leave self.new) }

        ensures faults { CountsFault result (medium.faults self.old) (medium.faults self.new) }
        ensures arms { medium.arms self.new ≡ medium.arms self.old };

    /// Makes what was written durable: after it a crash leaves what a read gives.
    fn sync(&mut self) -> Result<(), DiskFault>
        ensures durable { OnOk result (Only (medium.reads self.new) (medium.may_leave self.new)) }
        ensures reads { OnOk result (medium.reads self.new ≡ medium.reads self.old) }
        ensures images { OnErr result (SameImages (medium.may_leave self.old) (medium.may_leave self.new)) }
        ensures no_memory { IsErrOf result DiskFault.NoMemory → ⊥ }
        ensures faults { CountsFault result (medium.faults self.old) (medium.faults self.new) }
        ensures arms { medium.arms self.new ≡ medium.arms self.old };

    /// Makes a later device call fail: the one with this number, counted from 1. How a real disk takes it is its own
    /// affair; it is no device call, and changes neither bytes nor images.
    fn arm(&mut self, calls: u64, pick: Pick)
        ensures arms { medium.arms self.new ≡ armed_with (medium.arms self.old) calls pick }
        ensures reads { medium.reads self.new ≡ medium.reads self.old }
        ensures images { SameImages (medium.may_leave self.old) (medium.may_leave self.new) }
        ensures faults { medium.faults self.new ≡ medium.faults self.old };

    /// Starts the disk again, as after a crash: it reads as one of its images, which is then the only one.
    fn restart(&mut self)
        ensures image { medium.may_leave self.old (medium.reads self.new) }
        ensures only { Only (medium.reads self.new) (medium.may_leave self.new) }
        ensures faults { medium.faults self.new ≡ medium.faults self.old }
        ensures arms { medium.arms self.new ≡ medium.arms self.old };

    /// A disk as it reads is one of its images.
    ghost reads_is_image: { (disk : Self) → medium.may_leave disk (medium.reads disk) };
}
