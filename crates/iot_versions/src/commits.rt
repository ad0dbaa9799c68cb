//! Commits of a server.
ghost use Rattle.std.specs.Prelude.{◌≡◌, ℕ, List, IfOk};
ghost use Rattle.iot_tree.specs.declared.access.Access.{Access as AccessValue};
ghost use Rattle.iot_tree.specs.declared.labels.Label.{Label as LabelValue};
ghost use Rattle.iot_wire.specs.Messages.{IsMessage};
ghost use Rattle.iot_wire.specs.Rules.{IsRequest};
ghost use Rattle.iot_wire.specs.Spelling.{request_spelling};
ghost use Rattle.iot_wire.specs.declared.requests.Request.TheVariants.{Commit};
ghost use Rattle.iot_versions.specs.Values.{is_old_commit};

use crate::values::{is_old_access, is_old_label};
use iot_codec::CodecFault;
use iot_text::NoMemory;
use iot_wire::{Request, read_request};
use std::alloc::Global;

/// Whether the commit whose record the bytes are has a spelling in version 1. Both versions spell it alike.
pub fn is_old_commit(alloc: Global, bytes: &[u8]) -> Result<bool, NoMemory>
    ensures { (label : LabelValue) (access : AccessValue) (lines : List (List ℕ))
        → IsMessage IsRequest request_spelling bytes.now (Commit label access lines)
        → IfOk result (λ is. is ≡ is_old_commit label access) }
{
    match read_request(alloc, bytes) {
        Ok(Request::Commit { label, access, .. }) => {
            Ok(is_old_label(&label) && is_old_access(&access))
        }
        Ok(Request::Refresh { .. } | Request::Walk { .. }) | Err(CodecFault::Malformed { .. }) => {
            Ok(false)
        }
        Err(CodecFault::NoMemory) => Err(NoMemory),
    }
}
