//! What the disk keeps of the commits: the whole of them in a checkpoint, and each in a record.
ghost use Rattle.iot_store.specs.Bodies.{IsState};
ghost use Rattle.iot_store.specs.Rules.{rules as of_commits};
ghost use Rattle.iot_store.specs.States.{State};

use crate::Commit;
use crate::body::read_body;
use crate::commits::Commits;
use crate::records::lend;
use iot_bodies::put_server;
use iot_durable::Recorded;
use iot_slots::Version;
use iot_text::{NoMemory, Text};
use iot_wire::put_commit;
use std::alloc::Global;

impl Recorded for Commits {
    type Change = Commit;

    ghost Kept = { State };

    ghost kept = { λ commits. commits };

    ghost rules = { of_commits };

    ghost IsSound = { IsState };

    // All of it is kept.
    ghost IsFresh = { λ commits. Unit {0} };

    ghost Makes = { λ old commit new. Unit {0} };

    fn header() -> [u8; 8] {
        *b"IOTSLOT1"
    }

    fn opening(alloc: Global) -> Result<Commits, NoMemory> {
        Commits::new(alloc)
    }

    fn spell(&self, out: &mut Text) -> Result<(), NoMemory> {
        out.clear();
        put_server(self.tree(), self.labels(), self.stamped().stamps(), out)
    }

    fn read(alloc: Global, version: Version, body: &[u8]) -> Result<Option<Commits>, NoMemory> {
        read_body(alloc, version, body)
    }

    fn spell_change(commit: &Commit, out: &mut Text) -> Result<(), NoMemory> {
        out.clear();
        put_commit(&commit.label, &commit.access, &commit.lines, out)
    }

    fn follow(&mut self, alloc: Global, version: Version, body: &[u8]) -> Result<bool, NoMemory> {
        match lend(alloc, version, body)? {
            Some(commit) => self.replay(alloc, &commit),
            None => Ok(false),
        }
    }

    fn apply(&mut self, alloc: Global, commit: Commit) -> Result<(), NoMemory> {
        self.add(alloc, commit.label, &commit.access)
    }
}
