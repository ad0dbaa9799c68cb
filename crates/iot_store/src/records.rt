//! The records on the server's disk.
ghost use Rattle.std.specs.Prelude.{IfOk};
ghost use Rattle.iot_store.specs.Records.{IsDecodedAs};
ghost use Rattle.iot_slots.specs.declared.version.Version.TheVariants.{Two};

use iot_slots::Version;
use iot_text::NoMemory;
use iot_versions::is_old_commit;
use iot_wire::CommitView;
use std::alloc::Global;

/// The commit whose record the body is in this version, lent out of it, if it is one. Takes memory in version 1 alone.
pub(crate) fn lend(
    alloc: Global,
    version: Version,
    body: &[u8],
) -> Result<Option<CommitView<'_>>, NoMemory>
    ensures { IfOk result (IsDecodedAs version body.now) }
{
    let Some(commit) = lend_new(body) else {
        return Ok(None);
    };
    if version.is_old() {
        if !is_old_commit(alloc, body)? {
            return Ok(None);
        }
    }
    Ok(Some(commit))
}

/// The same in version 2.
pub(crate) fn lend_new(body: &[u8]) -> Option<CommitView<'_>>
    ensures { IsDecodedAs Two body.now result }
{
    CommitView::of(body).ok()
}
