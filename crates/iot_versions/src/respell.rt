//! Trees of version 1, spelled in version 2.
ghost use Rattle.std.specs.Prelude.{◌≡◌, ◌++◌, IfOk, OnOk};
ghost use Rattle.iot_codec.specs.Spelling.{rows_spelling};
ghost use Rattle.iot_views.specs.Decoders.{list_at};
ghost use Rattle.iot_versions.specs.Decoding.{old_row_at};
ghost use Rattle.iot_versions.specs.Respelling.{IsTaken, RespellsIf};

use crate::rows::OldRow;
use iot_codec::{CodecFault, Spelled, read_list};
use iot_text::{NoMemory, Text};
use iot_tree::Sequence;
use std::alloc::Global;

/// Appends the bytes with the rows of version 1 that come first in them spelled in version 2, and says whether rows do. If not, nothing is
/// said of the text. Whether the rows are those of a tree is for a reader of version 2 to say.
pub(crate) fn respell(alloc: Global, bytes: &[u8], out: &mut Text) -> Result<bool, NoMemory>
    ensures { IfOk result (λ is. RespellsIf is bytes.now out.old out.new) }
{
    let Some((rows, end)) = take_rows(alloc, bytes)? else {
        return Ok(false);
    };
    put_rows(rows.as_slice(), out)?;
    out.append(&bytes[end..])?;
    Ok(true)
}

/// The rows that come first in the bytes, and the offset after them, if rows do.
fn take_rows(alloc: Global, bytes: &[u8]) -> Result<Option<(Sequence<OldRow>, usize)>, NoMemory>
    ensures { IfOk result (IsTaken (list_at old_row_at bytes.now 0)) }
{
    match read_list(alloc, bytes, 0) {
        Ok(taken) => Ok(Some(taken)),
        Err(CodecFault::Malformed { .. }) => Ok(None),
        Err(CodecFault::NoMemory) => Err(NoMemory),
    }
}

/// Appends the rows in version 2.
fn put_rows(rows: &[OldRow], out: &mut Text) -> Result<(), NoMemory>
    ensures { OnOk result (out.new ≡ out.old ++ rows_spelling rows.now) }
{
    (rows.len() as u64).put(out)?;
    'rows: for row in rows {
        row.put_new(out)?;
    }
    Ok(())
}
