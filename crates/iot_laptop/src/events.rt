//! The events of a client alone: its link, and what may befall its node.
ghost use Rattle.std.specs.Prelude.{◌≡◌};
ghost use Rattle.iot_laptop.specs.Below.{Declared, IfErr, IfOk, IsSome, KeepsDisk, List, OnOk, Some, true};
ghost use Rattle.iot_node.specs.Posts.{is_fallen};
ghost use Rattle.iot_machine.specs.Machine as machine;
ghost use Rattle.iot_text.specs.Texts.{Extends};

use crate::laptop::Laptop;
use crate::texts::{say_cut, say_lose, say_named};
use iot_disk::{Disk, Pick};
use iot_link::Loss;
use iot_node::{Comeback, Halt, Post, say};
use iot_text::{NoMemory, Text};
use std::alloc::Global;

impl<D: Disk> Laptop<D> {
    ghost use Rattle.iot_laptop.specs.Alone.{OpensClient};
    ghost use Rattle.iot_laptop.specs.Calls.{Befalls, Came, CutsAll, CutsFirst, Keeps, Returned, RunFewer};
    ghost use Rattle.iot_laptop.specs.Laptops.{ClientStands, IsUnopened, KeepsTrails, SamePlace, StandsAnyhow, disk_in, is_alive, state_in};
    ghost use Rattle.iot_machine.specs.Events.{ArmsClient, Connects, CrashesClient, Disconnects, Loses, RestartsClient};

    // ---- its link

    /// Makes its link up.
    #[tactic(auto, using(iot_stamp::proofs::TrailsLaws::same_stamps))]
    pub fn connect(&mut self, out: &mut Text) -> Result<(), NoMemory>
        ensures step { OnOk result (Befalls D.medium Connects self.old self.new out.old out.new tt) }
        ensures trails { KeepsTrails self.old self.new }
        ensures place { SamePlace self.old self.new }
        ensures disk { disk_in self.new ≡ disk_in self.old }
    {
        self.link.connect();
        say_named(b"connect ", &self.name, out)
    }

    /// Makes its link not up. What runs is second class from then on.
    #[tactic(auto, using(iot_stamp::proofs::TrailsLaws::same_stamps, crate::proofs::RestartLaws::disconnects))]
    pub fn disconnect(&mut self, out: &mut Text) -> Result<(), NoMemory>
        requires { StandsAnyhow D.medium self.old }
        ensures step { OnOk result (Befalls D.medium Disconnects self.old self.new out.old out.new tt) }
        ensures trails { KeepsTrails self.old self.new }
        ensures place { SamePlace self.old self.new }
        ensures disk { disk_in self.new ≡ disk_in self.old }
    {
        self.cut_link();
        say_named(b"disconnect ", &self.name, out)
    }

    /// Arms its link to lose a message.
    #[tactic(auto, using(iot_stamp::proofs::TrailsLaws::same_stamps))]
    pub fn lose(&mut self, loss: Loss, out: &mut Text) -> Result<(), NoMemory>
        ensures step { OnOk result (Befalls D.medium (Loses loss) self.old self.new out.old out.new tt) }
        ensures trails { KeepsTrails self.old self.new }
        ensures place { SamePlace self.old self.new }
        ensures disk { disk_in self.new ≡ disk_in self.old }
    {
        self.link.arm(loss);
        say_lose(&self.name, loss, out)
    }

    // ---- its node

    /// Starts for the first time, and tells whether it did. It knows nothing yet. Else it has stopped, which is said.
    #[tactic(auto, using(crate::proofs::RestartLaws::opens_standing, crate::proofs::RestartLaws::opens_ready))]
    pub fn open(&mut self, alloc: Global, out: &mut Text) -> Result<bool, NoMemory>
        requires { IsUnopened D.medium self.old }
        ensures step { IfOk result (λ on. Befalls D.medium OpensClient self.old self.new out.old out.new on) }
        ensures trails { OnOk result (KeepsTrails self.old self.new) }
        ensures place { SamePlace self.old self.new }
        ensures disk { KeepsDisk D.medium (disk_in self.old) (disk_in self.new) }
    {
        self.post.open(alloc, self.place, self.name.as_bytes(), out)
    }

    /// Loses its memory: what is not on its disk is gone.
    pub fn crash(&mut self, out: &mut Text) -> Result<(), NoMemory>
        ensures step { OnOk result (Befalls D.medium CrashesClient self.old self.new out.old out.new tt) }
        ensures trails { OnOk result (KeepsTrails self.old self.new) }
        ensures place { SamePlace self.old self.new }
        ensures disk { disk_in self.new ≡ disk_in self.old }
    {
        self.post.crash(self.name.as_bytes(), out)
    }

    /// Comes back from one of the images that its disk may have, and cuts off what ran: each waits from now on with as many of
    /// its first acts as hold on the view. Or it stops again, which is said.
    #[tactic(auto, using(crate::proofs::RestartLaws::is_standing, crate::proofs::RestartLaws::keeps_then))]
    pub fn restart(&mut self, alloc: Global, out: &mut Text) -> Result<(), NoMemory>
        requires { StandsAnyhow D.medium self.old }
        ensures step { OnOk result (Befalls D.medium RestartsClient self.old self.new out.old out.new tt) }

        // The image that it came back from decides whether the record in doubt was kept.
        ensures came { is_fallen self.old.post ≡ true → OnOk result ((scripts : List Declared) (m : machine.Client)
            → ClientStands D.medium scripts self.old m → Came D.medium self.old out.old out.new m) }
        ensures trails { OnOk result (KeepsTrails self.old self.new) }
        ensures place { SamePlace self.old self.new }
        ensures disk { KeepsDisk D.medium (disk_in self.old) (disk_in self.new) }
    {
        if self.is_alive() {
            say(b"up", out)?;
            return Ok(());
        }
        let by = Comeback::Restart;
        let name = self.name.as_bytes();
        if !self.post.come_back(alloc, by, self.place, name, out)? {
            return Ok(());
        }
        self.cut_off(alloc, out)
    }

    /// Cuts off what ran when it lost its memory, one after the other, and says so of each. Or it stops in that, which is said.
    #[tactic(auto, using(crate::proofs::RestartLaws::keeps_then))]
    fn cut_off(&mut self, alloc: Global, out: &mut Text) -> Result<(), NoMemory>
        requires { Returned D.medium self.old }
        ensures cuts { OnOk result (CutsAll D.medium self.old self.new out.old out.new) }
        ensures trails { OnOk result (KeepsTrails self.old self.new) }
        ensures place { SamePlace self.old self.new }
        ensures disk { KeepsDisk D.medium (disk_in self.old) (disk_in self.new) }
    {
        match self.cut(alloc, out) {
            Ok(Some((number, acts))) => {
                say_cut(&self.transaction(number), acts, out)?;
                self.cut_off(alloc, out)
            }
            Ok(None) => Ok(()),
            Err(Halt::Over) => Ok(()),
            Err(Halt::NoMemory) => Err(NoMemory),
        }
    }

    /// Cuts off the one that has the least number, if one runs, and tells that and how many acts it keeps.
    fn cut(&mut self, alloc: Global, out: &mut Text) -> Result<Option<(u64, u64)>, Halt>
        requires { Returned D.medium self.old }
        ensures cuts { CutsFirst D.medium self.old self.new out.old out.new result }
        ensures returned { OnOk result (Returned D.medium self.new) }
        ensures fewer { IfOk result (λ told. RunFewer told (state_in self.old).running (state_in self.new).running) }
        ensures keeps { Keeps D.medium self.old self.new result }
    {
        let count = self.records();
        let answer = match &mut self.post {
            Post::Up(seated) => seated.client.cut(alloc),
            Post::Down(_) | Post::Between => unreachable!(),
        };
        self.goes_on(alloc, answer, count, out)
    }

    /// Makes a later call of its disk fail, and says so.
    pub fn arm(&mut self, calls: u64, pick: Pick, out: &mut Text) -> Result<(), NoMemory>
        ensures step { OnOk result (Befalls D.medium (ArmsClient calls pick) self.old self.new out.old out.new tt) }
        ensures trails { KeepsTrails self.old self.new }
        ensures place { SamePlace self.old self.new }
        ensures same { IfErr result (λ _. self.new ≡ self.old) }
        ensures text { Extends out.old out.new }
    {
        self.post.arm(calls, pick, self.name.as_bytes(), out)
    }

    /// Gives its disk back.
    pub fn into_disk(self) -> D
        requires { IsSome (disk_in self) }
        ensures { disk_in self ≡ Some result }
    {
        self.post.into_disk()
    }
}
