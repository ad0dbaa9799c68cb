//! The world: the server and its clients, as they are between two events.
ghost use Rattle.std.specs.{Option.option_copied, Prelude.IfErr, Prelude.◌∷◌, Prelude.◌≡◌};
ghost use Rattle.iot_world.specs.Prelude.{IfSome};
ghost use Rattle.{iot_client.specs.Ties.disk_of as client_disk, iot_event.specs.declared.event.Event.Event as Happens};
ghost use Rattle.iot_world.specs.Prelude.{AreDeclared, IfOk, List, Machine, OnOk, disk_in, disk_of, event_part, true, []};
ghost use Rattle.iot_server_node.specs.Servers as servers;
ghost use Rattle.iot_world.specs.Allowed.{IsAllowed, arms_a_disk, promotes};
ghost use Rattle.iot_world.specs.{Disks.AreFresh, Disks.place_of, Prelude.Extends};

use crate::disks::{put_ends, put_first, take_ends};
use crate::nodes::arms;
use iot_client::Client;
use iot_disk::Disk;
use iot_event::{Event, NodeEvent};
use iot_exchange::DeclaredScript;
use iot_laptop::Laptop;
use iot_server::Server;
use iot_server_node::ServerNode;
use iot_text::{NoMemory, Text};
use std::alloc::Global;

/// What an event works on. After an error only `into_disks` is of use.
#[derive(Drop)]
pub struct World<D: Disk> {
    pub(crate) server: ServerNode<D>,

    /// In order of declaration, as the scripts are.
    pub(crate) clients: Vec<Laptop<D>>,
    pub(crate) scripts: Vec<DeclaredScript>,

    /// The disks that no node has yet, and room for those of the nodes.
    pub(crate) spare: Vec<D>,
}

impl<D: Disk> World<D> {
    ghost use Rattle.iot_world.specs.{Deciding.Decides, Deciding.DecidesIn, Disks.AreUnarmed};
    ghost use Rattle.iot_world.specs.World.{ClientIs, DeclaredOn, EventSteps};
    ghost use Rattle.iot_world.specs.World.{GivesBack, HasDisks, IsReady, IsWorldOfSome, KeepsDisks, LeavesDisks, LendsClient, LendsServer};
    ghost use Rattle.iot_world.specs.World.{MakesStep, Opens, SameArms, StandsFor, client_count, disks_of, joined_by, script_names};

    /// The world before any event, with a server on the first of the disks, of which the last is the backup. Each client that is declared
    /// takes the next one of the others. If one of the server's disks fails in its start, the server has stopped, which is said.
    ///
    /// # Errors
    ///
    /// The disks come back if memory runs out.
    pub fn new(alloc: Global, disks: Vec<D>, out: &mut Text) -> Result<World<D>, Vec<D>>
        requires { AreFresh D.medium disks.items }
        ensures opens { IfOk result (Opens D.medium disks.items out.old out.new) }

        // So it can be used: events of which one input is made may come in their order.
        ensures stands { IfOk result (λ world. IsWorldOfSome D.medium world) }
        ensures has { IfOk result (λ world. HasDisks world) }
        ensures declared { IfOk result (λ world. (events : List Happens) → AreDeclared events 0 [] → DeclaredOn events world) }

        ensures arms { IfOk result (λ world. AreUnarmed D.medium disks.items (disks_of world)) }
        ensures refused { IfErr result (λ back. GivesBack D.medium disks.items back.items) }

        // What was said before stays, also if memory runs out.
        ensures text { Extends out.old out.new }
    {
        let mut spare = disks;
        let (first, backup) = take_ends(&mut spare);
        let mut world = World {
            server: ServerNode::unopened(first, backup),
            clients: Vec::new(alloc),
            scripts: Vec::new(alloc),
            spare,
        };
        match world.server.open(alloc, out) {
            Ok(_on) => Ok(world),
            Err(_no_memory) => Err(world.into_disks()),
        }
    }

    /// Does one event, and appends what it says.
    ///
    /// # Errors
    ///
    /// If memory runs out.
    #[tactic(auto, using(crate::proofs::WorldsLaws::of_some, crate::proofs::DecidingLaws::added))]
    pub fn apply(&mut self, alloc: Global, event: &Event, out: &mut Text) -> Result<(), NoMemory>
        requires allowed { IsAllowed event.now (client_count self.old) (script_names self.old) }
        requires stands { IsWorldOfSome D.medium self.old }

        // Each machine of which this was the world does this event, with the text that was added, and this is its world then: the
        // nodes that are lent are the machine's, and so is what its disks may hold after a crash and what they count; and what is in
        // its list goes together with the queues. A node may stop in it, but only if its disk failed.
        ensures step { OnOk result (EventSteps D.medium event.now self.old self.new out.old out.new) }
        ensures stands { OnOk result (IsWorldOfSome D.medium self.new) }

        // If all images of a disk have the record that is in doubt, or none has it, this decides whether it is kept; and so does the
        // image that a node came back from.
        ensures decided { OnOk result (Decides D.medium event.now self.old self.new out.old out.new) }

        // The disks are those of before. If memory ran out, none was armed, and the server's still begin with the commits of its list.
        ensures disks { KeepsDisks self.old self.new }
        ensures arms { IfErr result (λ _. SameArms D.medium (joined_by event.now) (promotes event.now) self.old self.new) }

        // For the events after it.
        ensures declared { OnOk result ((later : List Happens) → DeclaredOn (event.now ∷ later) self.old → DeclaredOn later self.new) }

        // What was said before stays, also if memory runs out.
        ensures text { Extends out.old out.new }
    {
        if out.is_empty() {
            return self.act(alloc, event, out);
        }

        // No disk is armed unless that is said.
        if arms(event) {
            return self.act(alloc, event, out);
        }
        let mut said = Text::new(alloc);
        self.act(alloc, event, &mut said)?;
        out.append_text(&said)
    }

    /// The server, if it is alive. Its disk is the one at `server_place` of those that `into_disks` gives back, and its backup, if it has
    /// one, the last of them. Does not allocate.
    pub fn server(&self) -> Option<&Server<D>>
        // Its tree, its labels and its count of requests are those of each machine for which the world stands.
        ensures lent { (m : Machine) → StandsFor D.medium self.now m → LendsServer (option_copied result) m }
        ensures disk { IfSome (option_copied result) (λ it. servers.HasDisks it (disk_of self.now.server)) }
    {
        self.server.lent()
    }

    /// The place of the server's disk among those that `into_disks` gives back: 0, or 9 since its backup was promoted. Does not allocate.
    #[tactic(auto, using(crate::proofs::PlacesLaws::promoted_is))]
    pub fn server_place(&self) -> usize
        ensures { (m : Machine) → StandsFor D.medium self.now m → result ≡ place_of m.promoted }
    {
        if self.server.is_promoted() {
            return 9;
        }
        0
    }

    /// The client at this place, counted from 0 in order of declaration, if it is declared and alive. Its disk is the one after the first
    /// and those of the clients before it, of those that `into_disks` gives back. Does not allocate.
    pub fn client(&self, place: u64) -> Option<&Client<D>>
        // Its tree, its view, its queue and its running transactions are those of each machine for which the world stands. It can be
        // looked at: it meets what `view`, `running`, `at_end` and `submission` of a client ask for.
        ensures lent { (m : Machine) → StandsFor D.medium self.now m → LendsClient D.medium (option_copied result) place m }
        ensures ready { IsWorldOfSome D.medium self.now → IfSome (option_copied result) (λ it. IsReady D.medium place it) }
        ensures disk { IfSome (option_copied result) (λ it. ClientIs (λ laptop. disk_in laptop ≡ Some (client_disk it)) place self.now) }
    {
        self.clients.get(place as usize)?.lent()
    }

    /// Does one event, and says what it does. One that arms a disk says so before that; another one is to have a text of its own.
    fn act(&mut self, alloc: Global, event: &Event, out: &mut Text) -> Result<(), NoMemory>
        requires allowed { IsAllowed event.now (client_count self.old) (script_names self.old) }
        requires stands { IsWorldOfSome D.medium self.old }
        ensures step { OnOk result (MakesStep D.medium (event_part event.now) self.old self.new out.old out.new tt) }
        ensures decided { OnOk result (DecidesIn D.medium event.now self.old self.new out.old out.new) }
        ensures disks { LeavesDisks D.medium (arms_a_disk event.now) (joined_by event.now) (promotes event.now) result self.old self.new }
        ensures text { arms_a_disk event.now ≡ true → Extends out.old out.new }
        ensures declared { OnOk result ((later : List Happens) → DeclaredOn (event.now ∷ later) self.old → DeclaredOn later self.new) }
    {
        match event {
            Event::Client(name) => self.declare_client(alloc, name, out),
            Event::Script(name, script) => {
                self.scripts.push(DeclaredScript {
                    name: *name,
                    script: script.share()?,
                })?;
                Ok(())
            }
            Event::Profile(_, _) => Ok(()),
            Event::At { client, what } => self.at(alloc, *client, what, out),
            Event::Server(what) => match what {
                NodeEvent::Show => self.server.show(out),
                NodeEvent::Stop { calls, pick } => self.server.arm(*calls, *pick, out),
                NodeEvent::Crash => self.server.crash(out),
                NodeEvent::Restart => self.server.restart(alloc, out),
            },
            Event::Promote => self.server.promote(alloc, out),
            Event::StopBackup { calls, pick } => self.server.arm_backup(*calls, *pick, out),
            Event::Log => self.log(alloc, out),
        }
    }

    /// Gives the ten disks back, in the order in which they were handed in. Does not allocate.
    #[tactic(auto, using(crate::proofs::DisksLaws::last_has))]
    pub fn into_disks(self) -> Vec<D>
        requires { HasDisks self }
        ensures { result.items ≡ disks_of self }
    {
        let World {
            server,
            mut spare,
            mut clients,
            scripts: _,
        } = self;
        'laptops: while let Some(laptop) = clients.pop() {
            put_first(&mut spare, laptop.into_disk());
        }
        clients.destroy_empty();
        let (first, last) = server.into_disks();
        put_ends(&mut spare, first, last);
        spare
    }
}
