//! Looking in at the server's list, and at what all nodes hold.
ghost use Rattle.std.specs.Prelude.{◌≡◌};
ghost use Rattle.iot_machine.specs.{Events.Logs, Json.json_text, Json.row_count};
ghost use Rattle.iot_world.specs.{Looks.HasTold, Looks.Tells, Looks.client_names, Prelude.IfOk, Prelude.Machine};
ghost use Rattle.iot_world.specs.{Prelude.OnOk, Prelude.StandsAnyhow, World.IsWorldOfSome, World.MakesStep, World.StandsFor};

use crate::world::World;
use iot_disk::Disk;
use iot_inspect::{Json, log};
use iot_laptop::Laptop;
use iot_node::say;
use iot_text::{Name, NoMemory, Text};
use iot_tree::Labels;
use std::alloc::Global;

impl<D: Disk> World<D> {
    /// Says what was committed, unless the server is down.
    pub(crate) fn log(&self, alloc: Global, out: &mut Text) -> Result<(), NoMemory>
        requires sound { IsWorldOfSome D.medium self.now }
        ensures { OnOk result (MakesStep D.medium Logs self.now self.now out.old out.new tt) }
    {
        match self.server() {
            Some(server) => {
                let names = self.names(alloc)?;
                log(server.store().labels(), names.as_slice(), out)?;
            }
            None => say(b"down", out)?,
        }
        Ok(())
    }

    /// The names of its clients, in order of declaration.
    fn names(&self, alloc: Global) -> Result<Vec<Name>, NoMemory>
        ensures { IfOk result (λ names. names.items ≡ client_names self.now) }
    {
        self.clients
            .iter()
            .map(|laptop| *laptop.name())
            .collect(alloc)
    }

    /// How many rows the server's tree has, or 0 if the server is down. Does not allocate.
    pub fn server_rows(&self) -> u64
        ensures { (m : Machine) → StandsFor D.medium self.now m → result ≡ row_count m }
    {
        match self.server() {
            Some(server) => server.store().tree().rows().len() as u64,
            None => 0,
        }
    }

    /// What all nodes hold, as one JSON text: of each client that is alive its queue and its view, and of the server its commits and
    /// its tree.
    pub fn json(&self, alloc: Global) -> Result<Text, NoMemory>
        requires { IsWorldOfSome D.medium self.now }
        ensures { IfOk result (λ text. (m : Machine) → StandsFor D.medium self.now m → text ≡ json_text m) }
    {
        let json = self.told(alloc)?;
        match self.server() {
            Some(server) => json.finish(server.store().labels(), Some(server.store().tree())),
            None => json.finish(&Labels::new(alloc), None),
        }
    }

    /// What is told of its clients.
    #[tactic(auto, using(crate::proofs::WorldsLaws::some_stands))]
    fn told(&self, alloc: Global) -> Result<Json, NoMemory>
        requires { IsWorldOfSome D.medium self.now }
        ensures { IfOk result (λ json. (m : Machine) → StandsFor D.medium self.now m → HasTold m.clients json) }
    {
        let mut json = Json::new(alloc);
        for laptop in &self.clients {
            tell(laptop, &mut json)?;
        }
        Ok(json)
    }
}

/// Tells a client's queue and its view, or that it is down.
#[tactic(auto, using(iot_laptop::proofs::NodesLaws::some_awake))]
fn tell<D: Disk>(laptop: &Laptop<D>, json: &mut Json) -> Result<(), NoMemory>
    requires { StandsAnyhow D.medium laptop.now }
    ensures { OnOk result (Tells D.medium laptop.now json.old json.new) }
{
    if !laptop.is_alive() {
        return json.down(laptop.name());
    }
    json.live(laptop.name(), laptop.client().queue(), laptop.view())
}
