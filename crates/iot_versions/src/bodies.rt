//! Bodies of checkpoints.
ghost use Rattle.std.specs.Prelude.{IfOk};
ghost use Rattle.iot_versions.specs.Versions.{ReadsAs, SpellsServer};

use crate::servers;
use iot_bodies::ServerBody;
use iot_slots::Version;
use iot_text::NoMemory;
use std::alloc::Global;

/// The server's body that the bytes spell in this version, if they spell one.
pub fn read_server(
    alloc: Global,
    version: Version,
    bytes: &[u8],
) -> Result<Option<ServerBody>, NoMemory>
    ensures { IfOk result (ReadsAs (SpellsServer version bytes.now)) }
{
    match version {
        Version::One => servers::read_old(alloc, bytes),
        Version::Two => servers::read_new(alloc, bytes),
    }
}
