//! A node over any keeper: alive, or down with its disks. Here alone a disk that fails becomes a stop.
ghost use Rattle.std.specs.Prelude.{IsErrOf, IsSome, if◌then◌else◌, ◌++◌, ◌≡◌};
ghost use Rattle.iot_machine.specs.{Refining.Refines, Stops.Appends, Stops.ArmsDisk, Stops.ComesBackAs, Stops.Crashes, Stops.OpensNode};
ghost use Rattle.iot_machine.specs.Texts.{pick_text, stop_line, stopped_line};
ghost use Rattle.iot_node.specs.Prelude.{Err, IfErr, IfOk, List, Node, None, Ok, OnOk, Option, Over, Some, false, line, true, ℕ};
ghost use Rattle.iot_disk.specs.declared.faults.JournalFault.TheVariants as append;
ghost use Rattle.{iot_disk.specs.declared.faults.StartFault.TheVariants.Stopped, iot_node.specs.Disks.KeepsDisk};
ghost use Rattle.iot_node.specs.{Keeping.Appended, Keeping.Doubts, Keeping.EachIs, Keeping.TakesBytes, Posts.Answered, Posts.CameIf};
ghost use Rattle.iot_node.specs.Posts.{IsStanding, Lasts, PostStands, Ready, StepsFrom, UpStands, back_said, beside_of, disk_of, is_fallen};
ghost use Rattle.{iot_node.specs.Posts.is_on, iot_node.specs.Posts.live_of, iot_node.specs.Posts.words_of, iot_text.specs.Texts.Extends};

use crate::comeback::Comeback;
use crate::halt::Halt;
use crate::keeper::Keeper;
use crate::lines::say;
use iot_disk::{JournalFault, Pick, StartFault};
use iot_text::{NoMemory, Text};
use std::alloc::Global;
use std::mem;

/// A record that is in doubt, since its node stopped in the append, or in a checkpoint before it.
#[derive(Drop)]
pub struct Doubt {
    /// How many there are before it, modulo 2^64.
    pub count: u64,

    /// What is said after the line of a restart if it was kept.
    pub lines: Text,
}

/// A node that is down: of all that it had only its disks are left, and what was in doubt when it stopped.
#[derive(Drop)]
pub struct Fallen<P> {
    pub disk: P,
    pub doubt: Option<Doubt>,
}

/// A node, alive or down.
#[derive(Drop)]
pub enum Post<K, P> {
    /// Alive.
    Up(K),

    /// Down.
    Down(Fallen<P>),

    /// Inside a call that starts or stops it.
    Between,
}

impl<K: Keeper<P>, P> Post<K, P> {
    ghost use Rattle.iot_node.specs.Prelude.{Between, Down, Up};

    /// Whether it is alive.
    pub fn is_up(&self) -> bool
        ensures { result ≡ is_on self.now }
    {
        matches!(self, Post::Up(_))
    }

    /// Starts for the first time, at this place among its kind, and tells whether it did. Else it has stopped, which is said.
    #[tactic(auto, using(crate::proofs::PostsLaws::can_start))]
    pub fn open(
        &mut self,
        alloc: Global,
        place: u64,
        name: &[u8],
        out: &mut Text,
    ) -> Result<bool, NoMemory>
        requires ready { Ready K.medium self.old }
        requires stands { IsStanding (K.keeping place) K.medium self.old }
        ensures step { IfOk result (λ on. (says : K.Kept → K.Kept → List ℕ)
            → Refines (PostStands (K.keeping place) K.medium says) (OpensNode name.now) self.old self.new out.old out.new on) }
        ensures live { IfOk result (λ on. live_of K.live self.new ≡ if on then Some K.fresh else None) }
        ensures disk { KeepsDisk K.medium (disk_of K.disks self.old) (disk_of K.disks self.new) }
        ensures beside { beside_of K.beside K.disks self.new ≡ beside_of K.beside K.disks self.old }
        ensures lasts { (says : K.Kept → K.Kept → List ℕ) (node : Node K.Kept)
            → PostStands (K.keeping place) K.medium says self.old node → Lasts (K.keeping place) K.medium self.new node.durable node.doubt }
        ensures text { Extends out.old out.new }
    {
        match mem::replace(self, Post::Between) {
            Post::Down(Fallen { disk, doubt }) => match K::start(alloc, disk, place) {
                Ok(keeper) => {
                    self.turn_to(Post::Up(keeper));
                    Ok(true)
                }
                Err((disk, fault)) => {
                    self.turn_to(Post::Down(Fallen { disk, doubt }));
                    say_refused(fault, name, out)?;
                    Ok(false)
                }
            },
            _other => unreachable!(),
        }
    }

    /// What a call of its keeper answered that was to append a record. If its disk failed in that, the node has stopped: it is down, with
    /// this record in doubt, which is said, and its event is over.
    pub fn take<T>(
        &mut self,
        answer: Result<T, JournalFault>,
        doubt: Doubt,
        name: &[u8],
        out: &mut Text,
    ) -> Result<T, Halt>
        requires { is_on self.old ≡ true }
        ensures step { (place : ℕ) (old new : K) (says : K.Kept → K.Kept → List ℕ) (change : K.Kept → K.Kept) (node : Node K.Kept)
            → self.old ≡ Up new
            → UpStands (K.keeping place) K.medium says old node
            → Appended (K.keeping place) K.medium change node.durable old new answer
            → Doubts (K.keeping place) says change old doubt
            → Answered (StepsFrom (PostStands (K.keeping place) K.medium says) (Appends name.now change) node self.new out.old out.new)
            answer result }
        ensures answers { IfOk result (λ done. answer ≡ Ok done) }
        ensures same { OnOk result (self.new ≡ self.old) }
        ensures silent { OnOk result (out.new ≡ out.old) }
        ensures stopped { IsErrOf result Over → answer ≡ Err append.Stopped }
        ensures off { IsErrOf result Over → is_on self.new ≡ false }
        ensures disk { disk_of K.disks self.new ≡ disk_of K.disks self.old }
    {
        match answer {
            Ok(done) => Ok(done),
            Err(fault) => match fault {
                JournalFault::NoMemory => Err(Halt::NoMemory),
                JournalFault::Stopped => {
                    self.fall(Some(doubt));
                    say_stopped(name, out)?;
                    Err(Halt::Over)
                }
            },
        }
    }

    /// Goes down, with this in doubt.
    fn fall(&mut self, doubt: Option<Doubt>)
        requires { is_on self.old ≡ true }
        ensures down { (keeper : K) → self.old ≡ Up keeper → self.new ≡ Down (record { disk = K.disks keeper; doubt = doubt }) }
        ensures off { is_on self.new ≡ false }
        ensures disk { disk_of K.disks self.new ≡ disk_of K.disks self.old }
        ensures images { (place n : ℕ) (keeper : K) (s : K.Kept) → self.old ≡ Up keeper → (K.keeping place).stands keeper n s
            → EachIs (K.medium.may_leave (K.disks keeper)) (λ image. (K.keeping place).image image n s) }
    {
        match mem::replace(self, Post::Between) {
            Post::Up(keeper) => {
                self.turn_to(Post::Down(Fallen {
                    disk: keeper.into_disk(),
                    doubt,
                }));
            }
            _down => unreachable!(),
        }
    }

    /// Becomes this at the end of a call that starts or stops it. Inside that call it owns nothing, so that no disk is lost.
    pub fn turn_to(&mut self, post: Post<K, P>)
        requires { self.old ≡ Between }
        ensures { self.new ≡ post }
    {
        match mem::replace(self, post) {
            Post::Between => (),
            _other => unreachable!(),
        }
    }

    /// Loses its memory: what is not on its disks is gone.
    pub fn crash(&mut self, name: &[u8], out: &mut Text) -> Result<(), NoMemory>
        ensures step { OnOk result ((place : ℕ) (says : K.Kept → K.Kept → List ℕ)
            → Refines (PostStands (K.keeping place) K.medium says) (Crashes name.now) self.old self.new out.old out.new tt) }
        ensures down { OnOk result (is_on self.new ≡ false) }
        ensures disk { disk_of K.disks self.new ≡ disk_of K.disks self.old }
    {
        if !self.is_up() {
            say(b"down", out)?;
            return Ok(());
        }
        self.fall(None);
        say_node(b"crash ", name, out)?;
        Ok(())
    }

    /// Comes back so, at its place among its kind, from one of the images that its disks may have, and tells whether it did. Else it has
    /// stopped again, which is said, and what was in doubt still is.
    #[tactic(auto, using(crate::proofs::PostsLaws::can_start))]
    pub fn come_back(
        &mut self,
        alloc: Global,
        by: Comeback,
        place: u64,
        name: &[u8],
        out: &mut Text,
    ) -> Result<bool, NoMemory>
        requires down { is_fallen self.old ≡ true }
        requires stands { IsStanding (K.keeping place) K.medium self.old }
        ensures step { IfOk result (λ on. (says : K.Kept → K.Kept → List ℕ)
            → Refines (PostStands (K.keeping place) K.medium says) (ComesBackAs (words_of by name.now) name.now says)
            self.old self.new out.old out.new on) }

        // The image that it came back from decides whether the record in doubt was kept.
        ensures came { IfOk result (λ on. (says : K.Kept → K.Kept → List ℕ) (node : Node K.Kept)
            → PostStands (K.keeping place) K.medium says self.old node
            → CameIf (K.keeping place) K.medium on self.old by name.now out.old out.new node.durable node.doubt) }
        ensures on { IfOk result (λ on. is_on self.new ≡ on) }
        ensures live { IfOk result (λ on. live_of K.live self.new ≡ if on then Some K.fresh else None) }
        ensures disk { KeepsDisk K.medium (disk_of K.disks self.old) (disk_of K.disks self.new) }
        ensures beside { beside_of K.beside K.disks self.new ≡ beside_of K.beside K.disks self.old }
        ensures lasts { (says : K.Kept → K.Kept → List ℕ) (node : Node K.Kept)
            → PostStands (K.keeping place) K.medium says self.old node → Lasts (K.keeping place) K.medium self.new node.durable node.doubt }
    {
        match mem::replace(self, Post::Between) {
            Post::Down(Fallen { mut disk, doubt }) => {
                K::restart(&mut disk);
                match K::start(alloc, disk, place) {
                    Ok(keeper) => {
                        let number = keeper.records();
                        self.turn_to(Post::Up(keeper));
                        say_back(doubt, number, by, name, out)?;
                        Ok(true)
                    }
                    Err((disk, fault)) => {
                        self.turn_to(Post::Down(Fallen { disk, doubt }));
                        say_refused(fault, name, out)?;
                        Ok(false)
                    }
                }
            }
            _other => unreachable!(),
        }
    }

    /// Makes a later call of its disks fail, and says so.
    pub fn arm(
        &mut self,
        calls: u64,
        pick: Pick,
        name: &[u8],
        out: &mut Text,
    ) -> Result<(), NoMemory>
        ensures step { OnOk result ((place : ℕ) (says : K.Kept → K.Kept → List ℕ)
            → Refines (PostStands (K.keeping place) K.medium says) (ArmsDisk name.now calls pick)
            self.old self.new out.old out.new tt) }
        ensures live { live_of K.live self.new ≡ live_of K.live self.old }
        ensures beside { beside_of K.beside K.disks self.new ≡ beside_of K.beside K.disks self.old }
        ensures same { IfErr result (λ _. self.new ≡ self.old) }
        ensures text { Extends out.old out.new }
    {
        say_stop(name, calls, pick, out)?;
        match self {
            Post::Up(keeper) => keeper.arm(calls, pick),
            Post::Down(fallen) => K::arm_down(&mut fallen.disk, calls, pick),
            Post::Between => (),
        }
        Ok(())
    }

    /// Gives its disks back.
    #[tactic(auto, using(crate::proofs::PostsLaws::has_disk))]
    pub fn into_disk(self) -> P
        requires { IsSome (disk_of K.disks self) }
        ensures { disk_of K.disks self ≡ Some result }
    {
        match self {
            Post::Up(keeper) => keeper.into_disk(),
            Post::Down(fallen) => fallen.disk,
            Post::Between => unreachable!(),
        }
    }
}

// ---- what is said

/// A line of a word and a node's name.
fn say_node(word: &[u8], name: &[u8], out: &mut Text) -> Result<(), NoMemory>
    ensures { OnOk result (out.new ≡ out.old ++ line (word.now ++ name.now)) }
{
    out.append(word)?;
    out.append(name)?;
    out.push(b'\n')
}

/// That the node of this name has stopped.
fn say_stopped(name: &[u8], out: &mut Text) -> Result<(), NoMemory>
    ensures says { OnOk result (out.new ≡ out.old ++ stopped_line name.now) }
    ensures text { Extends out.old out.new }
{
    out.append(name)?;
    out.append(b" stopped\n")
}

/// That a start failed: if its disk did, the node has stopped.
fn say_refused(fault: StartFault, name: &[u8], out: &mut Text) -> Result<(), NoMemory>
    requires { TakesBytes fault }
    ensures stopped { OnOk result (fault ≡ Stopped) }
    ensures says { OnOk result (out.new ≡ out.old ++ stopped_line name.now) }
    ensures text { Extends out.old out.new }
{
    match fault {
        StartFault::Stopped => say_stopped(name, out),
        StartFault::NoMemory => Err(NoMemory),
        StartFault::Foreign | StartFault::Damaged { .. } => unreachable!(),
    }
}

/// That it is back so with so many records, and what became of the one that was in doubt.
fn say_back(
    doubt: Option<Doubt>,
    number: u64,
    by: Comeback,
    name: &[u8],
    out: &mut Text,
) -> Result<(), NoMemory>
    ensures { OnOk result (out.new ≡ out.old ++ back_said (words_of by name.now) doubt number) }
{
    by.say(name, out)?;
    let Some(doubt) = doubt else {
        out.push(b'\n')?;
        return Ok(());
    };
    if number == doubt.count {
        out.append(b" lost\n")?;
        return Ok(());
    }
    out.append(b" kept\n")?;
    out.append(doubt.lines.as_bytes())?;
    Ok(())
}

/// `stop NODE K PICK`.
pub fn say_stop(name: &[u8], calls: u64, pick: Pick, out: &mut Text) -> Result<(), NoMemory>
    ensures says { OnOk result (out.new ≡ out.old ++ stop_line name.now calls pick) }
    ensures text { Extends out.old out.new }
{
    out.append(b"stop ")?;
    out.append(name)?;
    out.push(b' ')?;
    out.append_number(calls)?;
    out.push(b' ')?;
    say_pick(pick, out)?;
    out.push(b'\n')
}

fn say_pick(pick: Pick, out: &mut Text) -> Result<(), NoMemory>
    ensures says { OnOk result (out.new ≡ out.old ++ pick_text pick) }
    ensures text { Extends out.old out.new }
{
    match pick {
        Pick::Old => out.append(b"old"),
        Pick::New => out.append(b"new"),
        Pick::Fill(byte) => out.append_number(byte as u64),
    }
}
