//! When the calls of a disk in memory fail.
ghost use Rattle.std.specs.Prelude.{◌≡◌};
ghost use Rattle.iot_disk.specs.Failures.{answer, after_call, after_fault, after_arm, after_restart};

use crate::{Arm, DiskFault, Pick};
use iot_count::Count;

/// Which call of a disk in memory is to fail, whether one has failed, and how often.
#[derive(Clone, Copy, Debug, PartialEq, Eq)]
pub struct Failures {
    /// How many device calls have failed.
    pub faults: Count,
    /// How often the disk was armed, modulo 2^64.
    pub count: u64,
    /// With what it was armed the last time.
    pub last: Option<Arm>,
    /// The armed call that has not come, counted from the next call on.
    pub armed: Option<Arm>,
    /// The pick of the armed call that came, until the restart.
    pub failed: Option<Pick>,
}

impl Failures {
    /// Never armed, and without a fault.
    pub const NONE: Failures = Failures {
        faults: Count::NONE,
        count: 0,
        last: None,
        armed: None,
        failed: None,
    };

    /// Takes one more device call, and answers whether it fails.
    pub fn call(&mut self) -> Result<(), DiskFault>
        ensures answer { result ≡ answer self.old }
        ensures state { self.new ≡ after_call self.old }
    {
        if self.failed.is_some() {
            self.fault();
            return Err(DiskFault::Failed);
        }
        match self.armed {
            None => Ok(()),
            Some(arm) if arm.calls == 1 => {
                self.armed = None;
                self.failed = Some(arm.pick);
                self.fault();
                Err(DiskFault::Failed)
            }
            Some(arm) => {
                self.armed = Some(Arm {
                    calls: arm.calls.saturating_sub(1),
                    pick: arm.pick,
                });
                Ok(())
            }
        }
    }

    /// Counts a fault that is not the armed one.
    pub fn fault(&mut self)
        ensures { self.new ≡ after_fault self.old }
    {
        self.faults.rise();
    }

    /// Makes a later call fail, in place of an armed one that has not come.
    pub fn arm(&mut self, calls: u64, pick: Pick)
        ensures { self.new ≡ after_arm calls pick self.old }
    {
        let arm = Arm { calls, pick };
        self.count = self.count.wrapping_add(1);
        self.last = Some(arm);
        self.armed = Some(arm);
    }

    /// Forgets the failure, and gives its pick. An armed call that has not come stays armed.
    pub fn restart(&mut self) -> Option<Pick>
        ensures pick { result ≡ self.old.failed }
        ensures state { self.new ≡ after_restart self.old }
    {
        self.failed.take()
    }
}
