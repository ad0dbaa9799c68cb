//! What changed in a server's tree.
ghost use Rattle.std.specs.Prelude.{◌≡◌, [], IsTrue, IfOk};
ghost use Rattle.std.specs.FinMap.{is_sorted};
ghost use Rattle.std.specs.List.{AllByRecursion};
ghost use Rattle.iot_text.specs.Paths.{IsPath, path_cmp};
ghost use Rattle.iot_tree.specs.Snapshots.{has, ArePathsRising};
ghost use Rattle.iot_stamp.specs.Refresh.{changes_for, changes_on, IsStampedRow};

use crate::Stamped;
use crate::sending::changes_in;
use iot_text::{NoMemory, Path};
use iot_tree::{Changes, Want};
use std::alloc::Global;

impl Stamped {
    /// What changed for a client that knows these paths, which rise, with these stamps: the rows of this tree, cut down to
    /// those paths and the wanted ones, that are new to the client, and the paths that are no rows of it.
    pub fn changed(
        &self,
        alloc: Global,
        known: &[(Path, u64)],
        want: &Want,
    ) -> Result<Changes, NoMemory>
        requires { IsTrue (is_sorted path_cmp known.now) }
        ensures value { IfOk result (λ changes. changes ≡ changes_for self.now known.now want.now) }
        ensures rising { IfOk result (λ changes. IsTrue (is_sorted path_cmp changes.rows) × ArePathsRising changes.gone) }
        ensures each { IfOk result (λ changes. AllByRecursion IsStampedRow changes.rows × AllByRecursion IsPath changes.gone) }
    {
        let rows = self.tree().rows().as_slice();
        changes_in(alloc, rows, self.stamps(), known, want, &[])
    }

    /// What a client gets that takes along these paths, which rise, and sends none: the rows of this tree, cut down to them.
    pub fn listed(&self, alloc: Global, paths: &[Path]) -> Result<Changes, NoMemory>
        requires { ArePathsRising paths.now }
        ensures value { IfOk result (λ changes. changes ≡ changes_on self.now [] (has paths.now)) }
        ensures rising { IfOk result (λ changes. IsTrue (is_sorted path_cmp changes.rows) × ArePathsRising changes.gone) }
        ensures each { IfOk result (λ changes. AllByRecursion IsStampedRow changes.rows × AllByRecursion IsPath changes.gone) }
    {
        let rows = self.tree().rows().as_slice();
        changes_in(alloc, rows, self.stamps(), &[], &Want::Nothing, paths)
    }
}
