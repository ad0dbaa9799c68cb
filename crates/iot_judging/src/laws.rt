//! A law of runs. The function does nothing: its contract is the law.
ghost use Rattle.iot_judging.specs.Told.{ARunIsToldByItsAccess};

/// A run is told by its access and its lines, on every whole tree: the base reads hold there exactly if the same script, with the same
/// kept files and budget, reads there what it has read; then the updates make there what that run makes, and it prints the same lines.
/// So it is of each record on a server's disk, and of the access that a client keeps with a resolution.
pub fn a_run_is_told_by_its_access()
    ensures { ARunIsToldByItsAccess }
{}
