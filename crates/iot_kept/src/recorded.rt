//! What the disk keeps of a client: the whole of it in a checkpoint, and each change in a record.
ghost use Rattle.std.specs.Prelude.{◌≡◌, Some, IfOk, IfSome};
ghost use Rattle.iot_changes.specs.declared.changes.Change.{Change as ChangeValue};
ghost use Rattle.iot_kept.specs.Memory.{memory_state};
ghost use Rattle.iot_kept.specs.Rules.{rules as of_client, ChangesMemory, IsMemory, IsStarted};
ghost use Rattle.iot_kept.specs.States.{State};

use crate::body::read_body;
use crate::memory::Memory;
use crate::versions::read_change;
use iot_bodies::put_client;
use iot_changes::{Change, put_change};
use iot_durable::Recorded;
use iot_slots::Version;
use iot_text::{NoMemory, Text};
use std::alloc::Global;

impl Recorded for Memory {
    type Change = Change;

    ghost Kept = { State };

    ghost kept = { memory_state };

    ghost rules = { of_client };

    ghost IsSound = { IsMemory };

    ghost IsFresh = { IsStarted };

    ghost Makes = { ChangesMemory };

    fn header() -> [u8; 8] {
        *b"IOTSLOT2"
    }

    fn opening(alloc: Global) -> Result<Memory, NoMemory> {
        Memory::new(alloc)
    }

    fn spell(&self, out: &mut Text) -> Result<(), NoMemory> {
        out.clear();
        let durable = &self.durable;
        put_client(
            durable.held.tree(),
            durable.queue.items(),
            &durable.access,
            durable.running.as_slice(),
            durable.last,
            out,
        )
    }

    fn read(alloc: Global, version: Version, body: &[u8]) -> Result<Option<Memory>, NoMemory> {
        read_body(alloc, version, body)
    }

    fn spell_change(change: &Change, out: &mut Text) -> Result<(), NoMemory> {
        out.clear();
        put_change(change, out)
    }

    fn follow(&mut self, alloc: Global, version: Version, body: &[u8]) -> Result<bool, NoMemory> {
        match read(alloc, version, body)? {
            Some(change) => self.replay(alloc, change),
            None => Ok(false),
        }
    }

    fn apply(&mut self, alloc: Global, change: Change) -> Result<(), NoMemory> {
        self.note(alloc, change)
    }
}

/// The change that the body spells in this version, if it spells one.
fn read(alloc: Global, version: Version, body: &[u8]) -> Result<Option<Change>, NoMemory>
    ensures found { IfOk result (λ read. IfSome read ((of_client version).IsRecord body.now)) }

    // The bytes spell no other change, and if they spell one it is given.
    ensures only { (change : ChangeValue) → (of_client version).IsRecord body.now change → IfOk result (λ read. read ≡ Some change) }
    ensures change { IfOk result (λ read. IfSome read (of_client version).IsChange) }
{
    read_change(alloc, version, body)
}
