//! The link of a client with the server.
ghost use Rattle.std.specs.Prelude.{◌≡◌};
ghost use Rattle.iot_link.specs.{Links.passage, declared.passages.Passage.TheVariants.Both};

use crate::laptop::Laptop;
use iot_disk::Disk;
use iot_link::Passage;

impl<D: Disk> Laptop<D> {
    ghost use Rattle.iot_laptop.specs.Below.{break};
    ghost use Rattle.iot_laptop.specs.Laptops.{IsCutLink, Reclassed, Stands, StandsAnyhow, after_passage, all_second};

    /// Whether its link is up.
    pub fn is_connected(&self) -> bool
        ensures { result ≡ self.now.link.up }
    {
        self.link.is_up()
    }

    /// Makes its link not up, and all that run second class, if it is alive.
    pub(crate) fn cut_link(&mut self)
        requires { StandsAnyhow D.medium self.old }
        ensures { IsCutLink D.medium self.old self.new }
    {
        self.link.disconnect();
        if self.is_alive() {
            self.second();
        }
    }

    /// Takes one exchange with a server that is alive or not, and tells how far it gets. What runs is second class after one that
    /// did not get through.
    #[tactic(auto, using(crate::proofs::RestartLaws::stands_over))]
    pub fn pass(&mut self, server_up: bool) -> Passage
        requires { Stands D.medium self.old }
        ensures passage { result ≡ passage self.old.link server_up }
        ensures after { Reclassed D.medium (after_passage result) self.old self.new }
        ensures both { result ≡ Both → self.new ≡ self.old }
    {
        let passage = self.link.outcome(server_up);
        match passage {
            Passage::Both => (),
            _missed => self.second(),
        }
        passage
    }

    /// Its link is broken, since the server stopped in an exchange. What runs is second class from then on.
    #[tactic(auto, using(crate::proofs::RestartLaws::stands_over))]
    pub fn broke(&mut self)
        requires { Stands D.medium self.old }
        ensures { Reclassed D.medium break self.old self.new }
    {
        self.link.broke();
        self.second();
    }

    /// All that run are second class from now on.
    #[tactic(auto, using(crate::proofs::NodesLaws::all_reclassed))]
    fn second(&mut self)
        requires { Stands D.medium self.old }
        ensures { Reclassed D.medium all_second self.old self.new }
    {
        self.client_mut().second();
    }
}
