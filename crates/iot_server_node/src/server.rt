//! The server as a node: it answers requests as long as it is alive.
ghost use Rattle.std.specs.Option.{option_copied};
ghost use Rattle.std.specs.Prelude.{IfSome, IsSome, codes, ◌++◌, ◌+◌, ◌<◌, ◌^◌, ◌≡◌, ◌⊎◌};
ghost use Rattle.{iot_disk.specs.declared.faults.JournalFault.TheVariants.Stopped, iot_judging.specs.Errands.IsErrand};
ghost use Rattle.iot_machine.specs.{Machine.add_commit, Nodes.doubting, Nodes.paired, Nodes.unopened, Serving.Judges, Serving.Lends};
ghost use Rattle.iot_machine.specs.{Serving.backup_name, Stops.ArmsDisk, Stops.Crashes, Stops.OpensNode, Stops.Restarts, Stops.Shows};
ghost use Rattle.iot_machine.specs.Texts.{line, stop_line, tree_text};
ghost use Rattle.iot_node.specs.{Disks.counts_on, Posts.CameIf, Posts.Lasts};
ghost use Rattle.iot_node.specs.declared.comeback.Comeback.TheVariants.{Promote, Restart};
ghost use Rattle.iot_server_node.specs.Prelude.{Bool, Commit, Errand, IfErr, IfOk, IsEmpty, KeepsDisk, List, Node, OnOk};
ghost use Rattle.iot_server_node.specs.Prelude.{Some, StepsTo, Submission, false, is_some, kept_text, server_name, tree_after, true, ℕ, []};
ghost use Rattle.iot_server.specs.Servers as servers;
ghost use Rattle.iot_server_node.specs.{Disks.on_both, Disks.placed, Keepers.disks_in};
ghost use Rattle.iot_server_node.specs.{Keepers.lists, Messages.committed_since, Messages.printed_under, Prelude.Stamps, Prelude.nodes_of};
ghost use Rattle.{iot_server_node.specs.Records.KeepsRecords, iot_text.specs.Texts.Extends};

use crate::disks::Disks;
use crate::keeper::ServerKeeper;
use crate::message::Message;
use iot_disk::{Disk, JournalFault, Pick};
use iot_inspect::show;
use iot_node::{Comeback, Doubt, Fallen, Halt, Post, say, say_stop};
use iot_server::Server;
use iot_text::{NoMemory, Text};
use std::alloc::Global;

/// The server, alive or down.
#[derive(Drop)]
pub struct ServerNode<D: Disk> {
    post: Post<ServerKeeper<D>, Disks<D>>,
}

/// What came of a request that the server answered.
#[derive(Drop)]
pub struct Served {
    /// The reply, in bytes.
    pub reply: Vec<u8>,

    /// The number under which the transaction was committed that the message handed in, if it was committed in this call.
    pub committed: Option<u64>,
}

impl<D: Disk> ServerNode<D> {
    ghost use Rattle.iot_judging.specs.Verdicts.{SpellsVerdict};
    ghost use Rattle.iot_server_node.specs.Messages.{IsSomeRequest, SpellsCut};
    ghost use Rattle.iot_server_node.specs.Servers.{ArmsServersBackup, HasBackup, HasDisks, HasPlaces, HavingAnswered};
    ghost use Rattle.iot_server_node.specs.Servers.{IsBeside, IsHanded, IsNamedIn, IsUnopened, KeepsBeside, KeepsCommits, LendsServer};
    ghost use Rattle.iot_server_node.specs.Servers.{Promotes, ServerIsSound, ServerStands, ServesBy, TurnsToBackup, answered_since};
    ghost use Rattle.iot_server_node.specs.Servers.{count_of, disk_of, is_promoted, is_up, lent_of, post_of, stamps_of, turned_post};

    /// A server on an empty disk, of which another empty one is the backup. It was never started.
    pub fn unopened(first: D, backup: D) -> ServerNode<D>
        requires first { IsEmpty D.medium first }
        requires backup { IsEmpty D.medium backup }
        ensures stands { (names : List (List ℕ)) (n : ℕ) → ServerStands D.medium names result
            (unopened [] (paired (counts_on D.medium first) (counts_on D.medium backup))) n }
        ensures unopened { IsUnopened D.medium result }
        ensures disk { disk_of result ≡ Some (placed false first backup) }
        ensures beside { IsBeside D.medium result false (D.medium.arms backup) }
    {
        let disk = Disks {
            disk: first,
            backup: Some(backup),
            given_up: None,
        };
        ServerNode {
            post: Post::Down(Fallen { disk, doubt: None }),
        }
    }

    /// Starts for the first time, and tells whether it did. Else it has stopped, which is said.
    #[tactic(auto, using(crate::proofs::ServersLaws::can_open, crate::proofs::BeginningLaws::commits_last))]
    pub fn open(&mut self, alloc: Global, out: &mut Text) -> Result<bool, NoMemory>
        requires { IsUnopened D.medium self.old }
        ensures step { IfOk result (λ on. (names : List (List ℕ)) (n : ℕ)
            → StepsTo (HavingAnswered D.medium names n) (HavingAnswered D.medium names 0) (OpensNode server_name)
            self.old self.new out.old out.new on) }
        ensures disk { KeepsDisk (on_both D.medium) (disk_of self.old) (disk_of self.new) }
        ensures beside { KeepsBeside D.medium self.old self.new }

        // Also if memory runs out.
        ensures records { KeepsCommits D.medium self.old self.new }
        ensures text { Extends out.old out.new }
    {
        self.post.open(alloc, 0, b"server", out)
    }

    // ---- requests

    /// Answers a request. If that commits the transaction that the message hands in, nothing is said of it yet. If the disk fails in the
    /// commit, the server has stopped: it is down, with the commit in doubt, that is said, and no reply comes.
    pub fn serve(
        &mut self,
        alloc: Global,
        message: &Message,
        out: &mut Text,
    ) -> Result<Option<Served>, NoMemory>
        requires up { is_up self.old ≡ true }
        requires sound { ServerIsSound D.medium self.old }
        requires request { IsSomeRequest message.now.request.items }
        ensures up { IfOk result (λ served. is_up self.new ≡ is_some served) }
        ensures lends { IfOk result (λ served. (client : ℕ) (held : Stamps) (errand : Errand) (names : List (List ℕ))
            → IsErrand client held errand message.now.request.items
            → ServesBy D.medium names (Lends (nodes_of held) errand) (SpellsCut (stamps_of self.old) held errand) message.now.handed
            served self.old self.new out.old out.new) }
        ensures stamps { IfOk result (λ served. (client : ℕ) (held : Stamps) (errand : Errand)
            → IsErrand client held errand message.now.request.items
            → IfSome served (λ _. stamps_of self.new ≡ stamps_of self.old)) }
        ensures judges { IfOk result (λ served. (it : Submission) (names : List (List ℕ))
            → IsHanded message.now it → IsNamedIn names it
            → ServesBy D.medium names (Judges it) (SpellsVerdict it.reads) message.now.handed served
            self.old self.new out.old out.new) }

        // Whatever comes of it, no commit is lost.
        ensures records { KeepsRecords (on_both D.medium) (disk_of self.old) (disk_of self.new) }
        ensures disk { KeepsDisk (on_both D.medium) (disk_of self.old) (disk_of self.new) }
        ensures beside { KeepsBeside D.medium self.old self.new }
    {
        let before = self.number();
        let answer = match &mut self.post {
            Post::Up(keeper) => keeper.handle(alloc, &message.request),
            Post::Down(_) | Post::Between => unreachable!(),
        };
        match answer {
            Ok(reply) => Ok(Some(Served {
                reply,
                committed: committed_by(before, self.number()),
            })),
            Err(fault) => {
                let doubt = doubt_behind(alloc, before, message)?;
                let stopped: Result<(), JournalFault> = Err(fault);
                match self.post.take(stopped, doubt, b"server", out) {
                    Ok(()) => Ok(None),
                    Err(Halt::Over) => Ok(None),
                    Err(Halt::NoMemory) => Err(NoMemory),
                }
            }
        }
    }

    // ---- crashes, restarts, and its disks

    /// Loses its memory: what is not on its disks is gone.
    pub fn crash(&mut self, out: &mut Text) -> Result<(), NoMemory>
        requires { IsSome (disk_of self.old) }
        ensures step { OnOk result ((names : List (List ℕ)) (n : ℕ)
            → StepsTo (HavingAnswered D.medium names n) (HavingAnswered D.medium names n) (Crashes server_name)
            self.old self.new out.old out.new tt) }
        ensures same { disk_of self.new ≡ disk_of self.old }
        ensures disk { KeepsDisk (on_both D.medium) (disk_of self.old) (disk_of self.new) }
        ensures beside { KeepsBeside D.medium self.old self.new }
    {
        self.post.crash(b"server", out)
    }

    /// Comes back from one of the images that its disk and its backup may have. A commit that was in doubt is printed if it was kept. If a
    /// disk fails in that, the server has stopped again, and what was in doubt still is.
    #[tactic(auto, using(crate::proofs::BeginningLaws::commits_same, crate::proofs::BeginningLaws::commits_last))]
    pub fn restart(&mut self, alloc: Global, out: &mut Text) -> Result<(), NoMemory>
        requires { ServerIsSound D.medium self.old }

        // It counts the requests that it answers anew, unless it was alive.
        ensures step { OnOk result ((names : List (List ℕ)) (n : ℕ)
            → StepsTo (HavingAnswered D.medium names n) (HavingAnswered D.medium names (answered_since (is_up self.old) n))
            (Restarts server_name (kept_text names)) self.old self.new out.old out.new tt) }

        // The image that it came back from decides whether the commit in doubt was kept.
        ensures came { OnOk result ((names : List (List ℕ)) (n : ℕ) (node : Node (List Commit))
            → ServerStands D.medium names self.old node n
            → CameIf (lists D.medium) (on_both D.medium) (is_up self.new) (post_of self.old) Restart server_name
            out.old out.new node.durable node.doubt) }
        ensures records { KeepsCommits D.medium self.old self.new }
        ensures disk { KeepsDisk (on_both D.medium) (disk_of self.old) (disk_of self.new) }
        ensures beside { KeepsBeside D.medium self.old self.new }
    {
        if self.is_up() {
            say(b"up", out)?;
            return Ok(());
        }
        self.post
            .come_back(alloc, Comeback::Restart, 0, b"server", out)?;
        Ok(())
    }

    /// Comes back from one of the images that its backup may have, which is its disk from then on: the first disk is given up, also if
    /// the server stops again in this. Whether a commit that was in doubt was kept is told as by a restart. One that is alive stays as it
    /// is, and so does one whose backup was promoted before.
    #[tactic(auto, using(crate::proofs::BeginningLaws::commits_same))]
    pub fn promote(&mut self, alloc: Global, out: &mut Text) -> Result<(), NoMemory>
        requires sound { ServerIsSound D.medium self.old }
        requires places { HasPlaces self.old }
        ensures up { is_up self.old ≡ true → OnOk result (out.new ≡ out.old ++ line (codes "up")) }
        ensures nothing { is_up self.old ≡ false → is_promoted self.old ≡ true
            → OnOk result (out.new ≡ out.old ++ line (codes "nothing")) }
        ensures stays { (is_up self.old ≡ true) ⊎ (is_promoted self.old ≡ true) → self.new ≡ self.old }
        ensures step { is_up self.old ≡ false → is_promoted self.old ≡ false → OnOk result ((names : List (List ℕ))
            → Promotes D.medium names self.old self.new out.old out.new) }
        ensures turns { is_up self.old ≡ false → is_promoted self.old ≡ false → TurnsToBackup D.medium self.old self.new }

        // The image of the backup that it came back from decides whether the commit in doubt was kept.
        ensures came { OnOk result (is_promoted self.old ≡ false → (names : List (List ℕ)) (n : ℕ) (node : Node (List Commit))
            → ServerStands D.medium names self.old node n
            → CameIf (lists D.medium) (on_both D.medium) (is_up self.new) (turned_post (post_of self.old)) Promote server_name
            out.old out.new node.durable node.doubt) }
        ensures records { KeepsCommits D.medium self.old self.new }
    {
        if self.is_up() {
            say(b"up", out)?;
            return Ok(());
        }
        if self.is_promoted() {
            say(b"nothing", out)?;
            return Ok(());
        }
        self.turn();
        self.post
            .come_back(alloc, Comeback::Promote, 0, b"server", out)?;
        Ok(())
    }

    /// Gives its first disk up for its backup.
    #[tactic(auto, using(crate::proofs::BackupLaws::has_backup))]
    fn turn(&mut self)
        requires down { is_up self.old ≡ false }
        requires own { is_promoted self.old ≡ false }
        requires places { HasPlaces self.old }
        ensures down { HasBackup self.old }
        ensures turned { post_of self.new ≡ turned_post (post_of self.old) }
    {
        match &mut self.post {
            Post::Down(fallen) => fallen.disk.turn(),
            Post::Up(_) | Post::Between => unreachable!(),
        }
    }

    /// Makes a later call of its disk fail, and says so.
    pub fn arm(&mut self, calls: u64, pick: Pick, out: &mut Text) -> Result<(), NoMemory>
        ensures step { OnOk result ((names : List (List ℕ)) (n : ℕ)
            → StepsTo (HavingAnswered D.medium names n) (HavingAnswered D.medium names n) (ArmsDisk server_name calls pick)
            self.old self.new out.old out.new tt) }
        ensures same { IfErr result (λ _. self.new ≡ self.old) }
        ensures beside { KeepsBeside D.medium self.old self.new }
        ensures text { Extends out.old out.new }
    {
        self.post.arm(calls, pick, b"server", out)
    }

    /// Makes a later call of its backup fail, or of its own disk if the backup was promoted, and says so.
    pub fn arm_backup(&mut self, calls: u64, pick: Pick, out: &mut Text) -> Result<(), NoMemory>
        requires { HasPlaces self.old }
        ensures said { OnOk result (out.new ≡ out.old ++ stop_line backup_name calls pick) }
        ensures step { OnOk result ((promoted : Bool) → ArmsServersBackup D.medium calls pick promoted self.old self.new) }
        ensures same { IfErr result (λ _. self.new ≡ self.old) }
        ensures text { Extends out.old out.new }
    {
        say_stop(b"backup", calls, pick, out)?;
        match &mut self.post {
            Post::Up(keeper) => keeper.arm_other(calls, pick),
            Post::Down(fallen) => fallen.disk.arm_other(calls, pick),
            Post::Between => (),
        }
        Ok(())
    }

    /// Gives its disks back: the first and the last.
    pub fn into_disks(self) -> (D, D)
        requires { HasPlaces self }
        ensures { disk_of self ≡ Some (placed (is_promoted self) result.0 result.1) }
    {
        self.post.into_disk().into_places()
    }

    // ---- looking in

    /// Prints its tree, if it is alive; else `down`.
    pub fn show(&self, out: &mut Text) -> Result<(), NoMemory>
        ensures { OnOk result ((names : List (List ℕ)) (n : ℕ)
            → StepsTo (HavingAnswered D.medium names n) (HavingAnswered D.medium names n)
            (Shows (λ commits. tree_text (tree_after commits))) self.now self.now out.old out.new tt) }
    {
        match self.lent() {
            Some(server) => show(server.store().tree(), out)?,
            None => say(b"down", out)?,
        }
        Ok(())
    }

    /// Whether it is alive.
    pub fn is_up(&self) -> bool
        ensures { result ≡ is_up self.now }
    {
        self.post.is_up()
    }

    /// Whether its backup was promoted.
    pub fn is_promoted(&self) -> bool
        ensures { result ≡ is_promoted self.now }
    {
        match &self.post {
            Post::Up(keeper) => keeper.given_up.is_some(),
            Post::Down(fallen) => fallen.disk.given_up.is_some(),
            Post::Between => false,
        }
    }

    /// The server, if it is alive.
    pub fn lent(&self) -> Option<&Server<D>>
        ensures is { option_copied result ≡ lent_of self.now }
        ensures lends { (names : List (List ℕ)) (n : ℕ) (node : Node (List Commit)) → ServerStands D.medium names self.now node n
            → LendsServer (option_copied result) node n }
        ensures disk { IfSome (option_copied result) (λ it. HasDisks it (disk_of self.now)) }
    {
        match &self.post {
            Post::Up(keeper) => Some(&keeper.server),
            Post::Down(_) | Post::Between => None,
        }
    }

    /// How many commits it has, if it is alive.
    fn number(&self) -> u64
        ensures { result ≡ count_of self.now }
    {
        match &self.post {
            Post::Up(keeper) => keeper.server.store().number(),
            Post::Down(_) | Post::Between => 0,
        }
    }
}

/// What is in doubt if the commit of this message, behind so many, was cut off.
fn doubt_behind(alloc: Global, count: u64, message: &Message) -> Result<Doubt, NoMemory>
    requires { count + 1 < 2 ^ 64 }
    ensures { IfOk result (λ doubt.
        doubt ≡ record { count = count; lines = printed_under (count + 1) message.now.handed }) }
{
    let mut lines = Text::new(alloc);
    message.say_under(count + 1, &mut lines)?;
    Ok(Doubt { count, lines })
}

/// The number under which something was committed, if there were so many commits before, and there are so many now.
fn committed_by(before: u64, now: u64) -> Option<u64>
    ensures { result ≡ committed_since before now }
{
    (now > before).then_some(now)
}
