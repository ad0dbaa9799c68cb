//! A server's body in version 1.
ghost use Rattle.std.specs.Prelude.{◌≡◌, IfOk};
ghost use Rattle.iot_versions.specs.Values.{is_old_server};
ghost use Rattle.iot_versions.specs.Versions.{ReadsAs, SpellsServer};
ghost use Rattle.iot_slots.specs.declared.version.Version.TheVariants.{One, Two};

use crate::respell::respell;
use crate::values::{are_old_labels, are_old_rows};
use iot_bodies::{self, ServerBody};
use iot_codec::CodecFault;
use iot_text::{NoMemory, Text};
use std::alloc::Global;

/// The body that the bytes spell in version 2, if they spell one.
pub(crate) fn read_new(alloc: Global, bytes: &[u8]) -> Result<Option<ServerBody>, NoMemory>
    ensures { IfOk result (ReadsAs (SpellsServer Two bytes.now)) }
{
    match iot_bodies::read_server(alloc, bytes) {
        Ok(body) => Ok(Some(body)),
        Err(CodecFault::Malformed { .. }) => Ok(None),
        Err(CodecFault::NoMemory) => Err(NoMemory),
    }
}

/// The body that they spell in version 1, if they spell one.
pub(crate) fn read_old(alloc: Global, bytes: &[u8]) -> Result<Option<ServerBody>, NoMemory>
    ensures { IfOk result (ReadsAs (SpellsServer One bytes.now)) }
{
    let mut text = Text::new(alloc);
    if !respell(alloc, bytes, &mut text)? {
        return Ok(None);
    }
    let Some(body) = read_new(alloc, text.as_bytes())? else {
        return Ok(None);
    };
    if !is_old(&body) {
        return Ok(None);
    }
    Ok(Some(body))
}

/// Whether version 1 has a spelling for it.
fn is_old(body: &ServerBody) -> bool
    ensures { result ≡ is_old_server body.now }
{
    are_old_rows(body.tree.rows().as_slice()) && are_old_labels(body.labels.as_slice())
}
