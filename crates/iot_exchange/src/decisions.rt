//! Decisions by hand, of which the server knows nothing.
ghost use Rattle.std.specs.Prelude.{◌≡◌};
ghost use Rattle.iot_exchange.specs.{Pairs.Does, Pairs.IsReady, Pairs.two, Words.Declared, Words.List, Words.ServerNode, Words.Stands};
ghost use Rattle.{iot_machine.specs.Events.Discards, iot_machine.specs.Events.Repairs, iot_standing.specs.Scripts.IsNamed};

use crate::texts::{say_by, say_of};
use iot_disk::Disk;
use iot_laptop::Laptop;
use iot_node::{Halt, say};
use iot_text::{Name, Text};
use std::alloc::Global;

/// Has the first transaction that waits, if that is for a decision by hand, resolved by the script of this name.
pub(crate) fn repair<D: Disk>(
    laptop: &mut Laptop<D>,
    alloc: Global,
    script: &Name,
    out: &mut Text,
) -> Result<(), Halt>
    requires { Stands D.medium laptop.old }
    ensures { (server : ServerNode D) → IsReady D.medium (two laptop.old server) → (scripts : List Declared) (declared : Declared)
        → IsNamed scripts declared → declared.name ≡ script.now
        → Does D.medium scripts (Repairs declared) (two laptop.old server) (two laptop.new server) out.old out.new result }
{
    match laptop.decision() {
        Ok(transaction) => {
            laptop.repair(alloc, script, out)?;
            Ok(say_by(b"repair ", &transaction, script.as_bytes(), out)?)
        }
        Err(undecided) => {
            say(undecided.word(), out)?;
            Err(Halt::Over)
        }
    }
}

/// Gives the first transaction that waits up, if that is for a decision by hand.
pub(crate) fn discard<D: Disk>(
    laptop: &mut Laptop<D>,
    alloc: Global,
    out: &mut Text,
) -> Result<(), Halt>
    requires { Stands D.medium laptop.old }
    ensures { (server : ServerNode D) → IsReady D.medium (two laptop.old server) → (scripts : List Declared)
        → Does D.medium scripts Discards (two laptop.old server) (two laptop.new server) out.old out.new result }
{
    match laptop.decision() {
        Ok(transaction) => {
            laptop.discard(alloc, out)?;
            Ok(say_of(b"discard ", &transaction, out)?)
        }
        Err(undecided) => {
            say(undecided.word(), out)?;
            Err(Halt::Over)
        }
    }
}
