//! Laws of what is durable of a client. The functions do nothing: their contracts are the laws.
ghost use Rattle.iot_kept.specs.Continuing.{PendingReadsStay, ACutIsItsPrefix};
ghost use Rattle.iot_kept.specs.Standing.{StandsForOne};

/// No pending transaction's reads change while it waits: after whatever change can follow, each that waited waits on, with the
/// acts that it had, and the tree on which it ran is the same; but the first may have left, and one may have joined them.
pub fn pending_reads_stay()
    ensures { PendingReadsStay }
{}

/// A transaction that was cut is its prefix: it waits with the first of the acts that it had done, in their order, and its budget is their
/// number.
pub fn a_cut_is_its_prefix()
    ensures { ACutIsItsPrefix }
{}

/// The bytes of a disk stand for one state at most.
pub fn a_disk_stands_for_one()
    ensures { StandsForOne }
{}
