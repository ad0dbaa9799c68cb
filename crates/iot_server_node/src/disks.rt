//! The server's disks.
ghost use Rattle.std.specs.Prelude.{◌≡◌};
ghost use Rattle.iot_node.specs.{Disks.KeepsImages, Disks.OnlyImage, Keeping.Armed};
ghost use Rattle.iot_server_node.specs.Prelude.{Some, false, is_some};

use iot_disk::{Disk, Pick};
use std::mem;

/// The server's disks: its own and the backup of that; or, since the backup was promoted, that alone, and the one that was given up.
#[derive(Drop)]
pub struct Disks<D> {
    /// The one from which it starts.
    pub disk: D,

    /// The backup of that, if it has one.
    pub backup: Option<D>,

    /// The one that it had before, if it gave one up.
    pub given_up: Option<D>,
}

impl<D: Disk> Disks<D> {
    ghost use Rattle.iot_server_node.specs.Disks.{ArmsOther, HavePlaces, on_both, placed, sides_of, turned};

    /// Starts the disk and its backup again, as after a crash: they read as one of their images, which is then the only one.
    #[tactic(auto, using(crate::proofs::DisksLaws::both_only))]
    pub(crate) fn restart(&mut self)
        ensures image { (on_both D.medium).may_leave self.old ((on_both D.medium).reads self.new) }
        ensures only { OnlyImage ((on_both D.medium).reads self.new) ((on_both D.medium).may_leave self.new) }
        ensures faults { (on_both D.medium).faults self.new ≡ (on_both D.medium).faults self.old }
        ensures arms { D.medium.arms self.new.disk ≡ D.medium.arms self.old.disk }
        ensures beside { sides_of D.medium self.new ≡ sides_of D.medium self.old }
    {
        self.disk.restart();
        match &mut self.backup {
            Some(backup) => backup.restart(),
            None => (),
        }
    }

    /// Makes a later device call of the disk fail.
    pub(crate) fn arm(&mut self, calls: u64, pick: Pick)
        ensures counts { Armed (on_both D.medium) calls pick self.old self.new }
        ensures images { KeepsImages ((on_both D.medium).may_leave self.old) ((on_both D.medium).may_leave self.new) }
        ensures beside { sides_of D.medium self.new ≡ sides_of D.medium self.old }
    {
        self.disk.arm(calls, pick);
    }

    /// Makes a later device call of the backup fail, or of the disk if there is none.
    pub(crate) fn arm_other(&mut self, calls: u64, pick: Pick)
        ensures arms { ArmsOther D.medium calls pick self.old self.new }
        ensures images { KeepsImages ((on_both D.medium).may_leave self.old) ((on_both D.medium).may_leave self.new) }
    {
        match &mut self.backup {
            Some(backup) => backup.arm(calls, pick),
            None => self.disk.arm(calls, pick),
        }
    }

    /// Gives the disk up for its backup, if it has one.
    pub(crate) fn turn(&mut self)
        ensures { self.new ≡ turned self.old }
    {
        match &mut self.backup {
            Some(backup) => {
                mem::swap(&mut self.disk, backup);
                mem::swap(&mut self.backup, &mut self.given_up);
            }
            None => (),
        }
    }

    /// The first disk and the last.
    pub(crate) fn into_places(self) -> (D, D)
        requires { HavePlaces (Some self) }
        ensures { self ≡ placed (is_some self.given_up) result.0 result.1 }
    {
        match (self.backup, self.given_up) {
            (Some(backup), None) => (self.disk, backup),
            (None, Some(given_up)) => (given_up, self.disk),
            (Some(_), Some(_)) | (None, None) => unreachable!(),
        }
    }
}
