//! Disks for a run.
ghost use Rattle.std.specs.Prelude.{IfOk};
ghost use Rattle.iot_app.specs.Disks.{AreEmptyDisks, AreUnarmed, AreFaultless};

use iot_disk::MemDisk;
use iot_text::NoMemory;
use std::alloc::Global;

/// How many disks a run takes.
const COUNT: usize = 10;

/// Ten empty disks in memory, as a run takes them: never armed, and without a fault.
pub fn empty_disks(alloc: Global) -> Result<Vec<MemDisk>, NoMemory>
    ensures empty { IfOk result (λ disks. AreEmptyDisks disks.items) }
    ensures arms { IfOk result (λ disks. AreUnarmed disks.items) }
    ensures faults { IfOk result (λ disks. AreFaultless disks.items) }
{
    let mut disks = Vec::with_capacity(alloc, COUNT)?;
    'disks: for _ in 0..COUNT {
        disks.push(MemDisk::new(alloc))?;
    }
    Ok(disks)
}
