//! A client's declaration, and its events among all.
ghost use Rattle.std.specs.Prelude.{◌++◌, ◌<◌, ◌∷◌, ◌≡◌};
ghost use Rattle.iot_event.specs.declared.event.Event.TheVariants.{At, Client};
ghost use Rattle.iot_world.specs.Prelude.{Event};
ghost use Rattle.{iot_laptop.specs.Laptops.IsUnopened, iot_machine.specs.Events.Declares};
ghost use Rattle.iot_world.specs.{Allowed.MayBefall, Allowed.stops_client, Deciding.DecidesIn};
ghost use Rattle.iot_world.specs.Prelude.{Extends, KeepsDisk, List, OnOk, SamePlace, client_line, disk_in, event_part, false, length, true};
ghost use Rattle.iot_world.specs.World.{DeclaredOn, IsWorldOfSome, LeavesDisks, MakesStep, Starts, client_count};

use crate::disks::take_first;
use crate::nodes::{befall, relink};
use crate::world::World;
use iot_disk::Disk;
use iot_event::{ClientEvent, SharedProfile};
use iot_exchange::perform;
use iot_laptop::Laptop;
use iot_text::{Name, NoMemory, Text};
use std::alloc::Global;

impl<D: Disk> World<D> {
    /// A client joins, and starts on the next disk.
    pub(crate) fn declare_client(
        &mut self,
        alloc: Global,
        name: &Name,
        out: &mut Text,
    ) -> Result<(), NoMemory>
        requires stands { IsWorldOfSome D.medium self.old }
        requires few { client_count self.old < 8 }
        ensures step { OnOk result (MakesStep D.medium (Declares name.now) self.old self.new out.old out.new tt) }
        ensures declared { OnOk result ((later : List Event) → DeclaredOn (Client name.now ∷ later) self.old → DeclaredOn later self.new) }
        ensures disks { LeavesDisks D.medium false 1 false result self.old self.new }
    {
        self.clients.reserve(1)?;
        let place = self.clients.len() as u64;
        let disk = take_first(&mut self.spare);
        let mut laptop = Laptop::unopened(*name, place, disk);
        let started = start(&mut laptop, alloc, name, out);
        self.clients.push_reserved(laptop);
        started
    }

    /// An event of the client at this place.
    #[tactic(auto, using(crate::proofs::WorldsLaws::of_some, crate::proofs::DecidingLaws::decides_here))]
    pub(crate) fn at(
        &mut self,
        alloc: Global,
        client: u64,
        what: &ClientEvent<u64, SharedProfile>,
        out: &mut Text,
    ) -> Result<(), NoMemory>
        requires stands { IsWorldOfSome D.medium self.old }
        requires inside { client < client_count self.old }
        requires may { MayBefall what.now (length self.old.scripts.items) }
        ensures step { OnOk result (MakesStep D.medium (event_part (At client what.now)) self.old self.new out.old out.new tt) }
        ensures decided { OnOk result (DecidesIn D.medium (At client what.now) self.old self.new out.old out.new) }
        ensures declared { (later : List Event) → DeclaredOn (At client what.now ∷ later) self.old → DeclaredOn later self.new }
        ensures disks { LeavesDisks D.medium (stops_client what.now) 0 false result self.old self.new }
        ensures text { stops_client what.now ≡ true → Extends out.old out.new }
    {
        let laptop = &mut self.clients[client as usize];
        match what {
            ClientEvent::Node(event) => befall(laptop, alloc, *event, out),
            ClientEvent::Link(event) => relink(laptop, *event, out),
            ClientEvent::Task(task) => perform(
                laptop,
                &mut self.server,
                alloc,
                self.scripts.as_slice(),
                task,
                out,
            ),
        }
    }
}

/// The client starts, which is said. If its disk fails in that, it has stopped, which is said in place of its line.
fn start<D: Disk>(
    laptop: &mut Laptop<D>,
    alloc: Global,
    name: &Name,
    out: &mut Text,
) -> Result<(), NoMemory>
    requires { IsUnopened D.medium laptop.old }
    ensures step { OnOk result (Starts D.medium name.now laptop.old laptop.new out.old out.new) }
    ensures place { SamePlace laptop.old laptop.new }
    ensures disk { KeepsDisk D.medium (disk_in laptop.old) (disk_in laptop.new) }
{
    if laptop.open(alloc, out)? {
        say_client(name, out)?;
    }
    Ok(())
}

/// `client N`
fn say_client(name: &Name, out: &mut Text) -> Result<(), NoMemory>
    ensures { OnOk result (out.new ≡ out.old ++ client_line name.now) }
{
    out.append(b"client ")?;
    out.append(name.as_bytes())?;
    out.push(b'\n')
}
