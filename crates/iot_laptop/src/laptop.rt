//! A client that was declared, by its name and its place, and its link with the server.
ghost use Rattle.std.specs.{Borrow.sem, Option.option_copied};
ghost use Rattle.std.specs.Prelude.{map, nat_lt, not, ◌&&◌, ◌*◌, ◌≡◌, ◌≤◌};
ghost use Rattle.iot_client.specs.{Calls.is_over_if_any, declared.fault.ClientFault.TheVariants.NoMemory as no_memory};
ghost use Rattle.iot_kept.specs.Memory.{classes_of, transaction, transactions};
ghost use Rattle.iot_laptop.specs.Below.{Declared, IfOk, IsEmpty, List, None, Some};
ghost use Rattle.iot_laptop.specs.Below.{has_any, length, live_numbered, may_end_if_any, most_running, numbered, option_map, true, []};
ghost use Rattle.{iot_judging.specs.Errands.IsErrand, iot_node.specs.Disks.counts_on};
ghost use Rattle.iot_laptop.specs.Calls.{MayAsk, errand_of, meant_in};

use crate::errand::Errand;
use crate::seated::Seated;
use iot_client::{Client, ClientFault, Running};
use iot_disk::Disk;
use iot_kept::RUN_LIMIT;
use iot_link::Link;
use iot_node::{Fallen, Post, Transaction};
use iot_text::{Name, NoMemory};
use iot_tree::{ACT_LIMIT, Tree, Want};
use std::alloc::Global;

/// A client, its name, its place in the order of declaration, and its link.
#[derive(Drop)]
pub struct Laptop<D: Disk> {
    pub(crate) name: Name,
    pub(crate) place: u64,
    pub(crate) post: Post<Seated<D>, D>,
    pub(crate) link: Link,
}

impl<D: Disk> Laptop<D> {
    ghost use Rattle.iot_laptop.specs.Below.{waits_of};
    ghost use Rattle.iot_laptop.specs.Laptops.{ClientStands, IsLent, IsUnopened, IsView, LendsClient, Stands, StandsAnyhow};
    ghost use Rattle.iot_laptop.specs.Laptops.{disk_in, is_alive, lent_by, live_in, records_in, stamps_in, state_in, unopened_laptop};

    /// The client of this name at this place, on an empty disk. It was never started.
    pub fn unopened(name: Name, place: u64, disk: D) -> Laptop<D>
        requires { IsEmpty D.medium disk }
        ensures stands { (scripts : List Declared) → ClientStands D.medium scripts result (unopened_laptop name (counts_on D.medium disk)) }
        ensures unopened { IsUnopened D.medium result }
        ensures place { result.place ≡ place }
        ensures disk { disk_in result ≡ Some disk }
    {
        Laptop {
            name,
            place,
            post: Post::Down(Fallen { disk, doubt: None }),
            link: Link::new(),
        }
    }

    /// Its name.
    pub fn name(&self) -> &Name
        ensures { result.now ≡ self.now.name }
    {
        &self.name
    }

    /// Whether it is alive.
    pub fn is_alive(&self) -> bool
        ensures { result ≡ is_alive self.now }
    {
        matches!(self.post, Post::Up(_))
    }

    /// The client, if it is alive.
    pub fn lent(&self) -> Option<&Client<D>>
        ensures lent { option_copied result ≡ lent_by self.now.post }
    {
        match &self.post {
            Post::Up(seated) => Some(&seated.client),
            Post::Down(_) | Post::Between => None,
        }
    }

    /// The client, which is alive.
    #[tactic(auto, using(crate::proofs::NodesLaws::lent_at))]
    pub fn client(&self) -> &Client<D>
        requires { Stands D.medium self.now }
        ensures { IsLent D.medium self.now result.now }
    {
        match &self.post {
            Post::Up(seated) => &seated.client,
            Post::Down(_) | Post::Between => unreachable!(),
        }
    }

    /// The client, which is alive, for a call that may change it.
    #[tactic(auto, using(crate::proofs::NodesLaws::lent_at))]
    pub(crate) fn client_mut(&mut self) -> &mut Client<D>
        requires { Stands D.medium self.old }
        ensures* writes_back { sem 𝓛 (LendsClient D.row self.entry result) }
        ensures lent { IsLent D.medium self.old result.now }
    {
        match &mut self.post {
            Post::Up(seated) => &mut seated.client,
            Post::Down(_) | Post::Between => unreachable!(),
        }
    }

    /// Whether a transaction runs.
    pub fn runs(&self) -> bool
        requires { Stands D.medium self.now }
        ensures { result ≡ has_any (state_in self.now).running }
    {
        !self.running().is_empty()
    }

    /// Whether as many transactions run as may.
    pub fn is_full(&self) -> bool
        requires { Stands D.medium self.now }
        ensures { result ≡ not (nat_lt (length (state_in self.now).running) most_running) }
    {
        self.running().len() >= RUN_LIMIT
    }

    /// Whether transactions wait.
    pub fn waits(&self) -> bool
        requires { Stands D.medium self.now }
        ensures { result ≡ waits_of (state_in self.now).items }
    {
        self.client().queue().head().is_some()
    }

    /// Whether the transaction with this number runs and may end.
    pub fn may_end(&self, number: u64) -> bool
        requires { Stands D.medium self.now }
        ensures { result ≡ may_end_if_any (numbered number (state_in self.now).running)
            (live_numbered number (state_in self.now).running (live_in self.now)) }
    {
        if self.at_end(number) {
            return true;
        }
        match self.run(number) {
            Some(running) => running.acts.len() as u64 >= ACT_LIMIT,
            None => false,
        }
    }

    /// The transactions that run, in the order of their numbers.
    pub fn running(&self) -> &[Running]
        requires { Stands D.medium self.now }
        ensures running { transactions result.now ≡ (state_in self.now).running }
        ensures classes { classes_of result.now ≡ map (λ live. live.first) (live_in self.now) }
    {
        self.client().running()
    }

    /// The running transaction with this number, if it runs.
    pub fn run(&self, number: u64) -> Option<&Running>
        requires { Stands D.medium self.now }
        ensures running { option_map transaction (option_copied result) ≡ numbered number (state_in self.now).running }
        ensures class { option_map (λ it. it.first) (option_copied result)
            ≡ option_map (λ live. live.first) (live_numbered number (state_in self.now).running (live_in self.now)) }
    {
        self.running().iter().find(|it| it.tid == number)
    }

    /// The number of the running transaction that is meant: this one, if it runs; without a number, the least one.
    pub fn meant(&self, which: Option<u64>) -> Option<u64>
        requires { Stands D.medium self.now }
        ensures { result ≡ meant_in which (state_in self.now).running }
    {
        match which {
            Some(number) => self.run(number).map(|it| it.tid),
            None => self.running().first().map(|it| it.tid),
        }
    }

    /// Whether the transaction with this number runs, and its script has ended.
    pub fn at_end(&self, number: u64) -> bool
        requires { Stands D.medium self.now }
        ensures { result ≡ is_over_if_any (numbered number (state_in self.now).running)
            (live_numbered number (state_in self.now).running (live_in self.now)) }
    {
        self.client().at_end(number)
    }

    /// The name of its transaction of this number.
    pub fn transaction(&self, number: u64) -> Transaction
        ensures { result ≡ record { client = self.now.name; number = number } }
    {
        let client = self.name;
        Transaction { client, number }
    }

    /// The tree that it sees.
    #[tactic(auto, using(iot_standing::proofs::StatesLaws::view_is))]
    pub fn view(&self) -> &Tree
        requires { Stands D.medium self.now }
        ensures { IsView D.medium result.now self.now }
    {
        self.client().view()
    }

    /// The held tree.
    pub fn held(&self) -> &Tree
        requires { Stands D.medium self.now }
        ensures { result.now ≡ (state_in self.now).held }
    {
        self.client().held()
    }

    /// How many transactions wait, three times: how often one drain syncs at most.
    pub fn most_syncs(&self) -> Result<u64, NoMemory>
        requires { Stands D.medium self.now }
        ensures { IfOk result (λ most. most ≡ 3 * length (state_in self.now).items) }
    {
        let waiting = self.client().queue().items().len() as u64;
        waiting.checked_mul(3).ok_or(NoMemory)
    }

    /// Whether it is alive, its link is up, and nothing waits or runs.
    #[tactic(auto, using(crate::proofs::NodesLaws::some_awake))]
    pub fn is_drained(&self) -> bool
        requires { StandsAnyhow D.medium self.now }
        ensures { result ≡ is_alive self.now && not (waits_of (state_in self.now).items) && not (has_any (state_in self.now).running)
            && self.now.link.up }
    {
        self.is_alive() && !self.waits() && !self.runs() && self.link.is_up()
    }

    /// How many records were ever appended to its disk, modulo 2^64, if it is alive.
    pub fn records(&self) -> u64
        ensures { result ≡ records_in self.now }
    {
        match &self.post {
            Post::Up(seated) => seated.client.records(),
            Post::Down(_) | Post::Between => 0,
        }
    }

    /// The request for it.
    pub fn ask(&self, alloc: Global, errand: Errand<'_>) -> Result<Vec<u8>, NoMemory>
        requires stands { Stands D.medium self.now }
        requires place { self.now.place ≤ 7 }
        requires none { (state_in self.now).items ≡ [] }
        requires may { MayAsk errand }
        ensures { IfOk result (λ request. IsErrand self.now.place (stamps_in self.now) (errand_of errand.entry) request.items) }
    {
        let client = self.client();
        match errand {
            Errand::Refresh(want) => client.ask(alloc, want).map_err(memory),
            Errand::Fetch { path, .. } => client
                .ask(alloc, &Want::Path(path.copy(alloc)?))
                .map_err(memory),
            Errand::Walk { profile, limit } => client
                .ask_walk(alloc, profile, limit)
                .map_err(memory),
        }
    }
}

/// The one fault of a client's call that is not refused and appends nothing.
pub(crate) fn memory(fault: ClientFault) -> NoMemory
    requires { fault ≡ no_memory }
{
    match fault {
        ClientFault::NoMemory => NoMemory,
        _refusal => unreachable!(),
    }
}
