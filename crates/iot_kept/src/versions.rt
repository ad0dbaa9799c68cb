//! What a client's disk holds, read in its version of the format.
ghost use Rattle.std.specs.Prelude.{IfOk};
ghost use Rattle.iot_kept.specs.Versions.{ReadsAs, SpellsChange, SpellsClient};

use iot_bodies::{self, ClientBody};
use iot_changes::{self, Change};
use iot_codec::CodecFault;
use iot_slots::Version;
use iot_text::NoMemory;
use std::alloc::Global;

/// The client's body that the bytes spell in this version, if they spell one.
pub(crate) fn read_client(
    alloc: Global,
    version: Version,
    bytes: &[u8],
) -> Result<Option<ClientBody>, NoMemory>
    ensures { IfOk result (ReadsAs (SpellsClient version bytes.now)) }
{
    match version {
        Version::One => Ok(None),
        Version::Two => match iot_bodies::read_client(alloc, bytes) {
            Ok(body) => Ok(Some(body)),
            Err(CodecFault::Malformed { .. }) => Ok(None),
            Err(CodecFault::NoMemory) => Err(NoMemory),
        },
    }
}

/// The change that they spell in this version, if they spell one.
pub(crate) fn read_change(
    alloc: Global,
    version: Version,
    bytes: &[u8],
) -> Result<Option<Change>, NoMemory>
    ensures { IfOk result (ReadsAs (SpellsChange version bytes.now)) }
{
    match version {
        Version::One => Ok(None),
        Version::Two => match iot_changes::read_change(alloc, bytes) {
            Ok(change) => Ok(Some(change)),
            Err(CodecFault::Malformed { .. }) => Ok(None),
            Err(CodecFault::NoMemory) => Err(NoMemory),
        },
    }
}
