//! Doing the events while nothing is written.
ghost use Rattle.std.specs.Prelude.{◌≡◌, [], List, map, IfOk, IfErr};
ghost use Rattle.iot_event.specs.Declarations.{AreDeclared};
ghost use Rattle.iot_machine.specs.Json.{json_text};
ghost use Rattle.iot_machine.specs.Machine.{Machine};
ghost use Rattle.iot_machine.specs.Texts.{line};
ghost use Rattle.iot_world.specs.Disks.{AreFresh, counts_on};
ghost use Rattle.iot_app.specs.Keeping.{DisksKeepAt, DisksStay};
ghost use Rattle.iot_machine.specs.Nodes.{Counts};
ghost use Rattle.iot_world.specs.World.{StandsFor, IsWorldOfSome, KeepsDisks};
ghost use Rattle.iot_app.specs.Played.{Reported, DidFirst};
ghost use Rattle.iot_app.specs.Running.{RanIn, IsOpened, IsOpenedSome, StaysIn, told_of, tells};

use crate::summary::sum_up;
use crate::tally::Tally;
use iot_disk::Disk;
use iot_event::Event;
use iot_text::{NoMemory, Text};
use iot_words::Run;
use iot_world::World;
use std::alloc::Global;

/// Does the events in turn, on these disks, and gives the disks back, with what the job has to say of the run, and the place of the
/// server's disk. A job that writes what the events say, or what a disk holds, has nothing more to say.
pub(crate) fn run_events<D: Disk>(
    alloc: Global,
    job: Run,
    events: &[Event],
    disks: Vec<D>,
) -> (Result<Text, NoMemory>, usize, Vec<D>)
    requires declared { AreDeclared events.now 0 [] }
    requires fresh { AreFresh D.medium disks.items }
    ensures told { IfOk result.0 (λ text.
        Reported (map (counts_on D.medium) disks.items) (λ told. text ≡ told)
        (DisksKeepAt D.medium disks.items result.2.items result.1) (tells job) events.now) }
    ensures failed { IfErr result.0 (λ _. DidFirst (map (counts_on D.medium) disks.items)
        (DisksStay D.medium disks.items result.2.items) events.now) }
{
    let mut opening = Text::new(alloc);
    match World::new(alloc, disks, &mut opening) {
        Ok(mut world) => {
            let told = run_in(alloc, job, opening, events, &mut world);
            let place = world.server_place();
            (told, place, world.into_disks())
        }
        Err(disks) => (Err(NoMemory), 0, disks),
    }
}

/// The same in a new world, whose opening said this.
fn run_in<D: Disk>(
    alloc: Global,
    job: Run,
    opening: Text,
    events: &[Event],
    world: &mut World<D>,
) -> Result<Text, NoMemory>
    requires declared { AreDeclared events.now 0 [] }
    requires opened { IsOpenedSome D.medium opening world.old }
    ensures told { IfOk result (λ text. (handed : List Counts)
        → IsOpened D.medium handed opening world.old
        → Reported handed (λ told. text ≡ told) (StandsFor D.medium world.new) (tells job) events.now) }
    ensures failed { IfErr result (λ _. (handed : List Counts)
        → IsOpened D.medium handed opening world.old
        → DidFirst handed (StaysIn D.medium world.new) events.now) }
    ensures disks { KeepsDisks world.old world.new }
{
    let counts = do_all(alloc, opening, events, world)?;
    tell(alloc, job, &counts, world)
}

/// Does the events in a new world, and counts the lines that they say, and those of its opening.
fn do_all<D: Disk>(
    alloc: Global,
    opening: Text,
    events: &[Event],
    world: &mut World<D>,
) -> Result<Tally, NoMemory>
    requires declared { AreDeclared events.now 0 [] }
    requires opened { IsOpenedSome D.medium opening world.old }
    ensures ran { IfOk result (λ counts. (handed : List Counts)
        → IsOpened D.medium handed opening world.old
        → RanIn D.medium handed events.now counts world.new) }
    ensures failed { IfErr result (λ _. (handed : List Counts)
        → IsOpened D.medium handed opening world.old
        → DidFirst handed (StaysIn D.medium world.new) events.now) }
    ensures disks { KeepsDisks world.old world.new }
{
    let mut counts = Tally::new();
    let mut text = opening;
    'events: for event in events {
        world.apply(alloc, event, &mut text)?;
        counts.take_lines(&mut text)?;
    }
    counts.with_text(text.as_bytes())
}

/// What the job has to say of a run with these counts that came to this world.
fn tell<D: Disk>(
    alloc: Global,
    job: Run,
    counts: &Tally,
    world: &World<D>,
) -> Result<Text, NoMemory>
    requires { IsWorldOfSome D.medium world.now }
    ensures { IfOk result (λ text. (m : Machine)
        → StandsFor D.medium world.now m → text ≡ told_of job counts.now m) }
{
    match job {
        Run::Transcript => Ok(Text::new(alloc)),
        Run::Save => Ok(Text::new(alloc)),
        Run::Json => json_line(alloc, world),
        Run::Generate(_) => sum_up(alloc, counts, world.server_rows()),
    }
}

/// The last state as JSON, and a newline.
fn json_line<D: Disk>(alloc: Global, world: &World<D>) -> Result<Text, NoMemory>
    requires { IsWorldOfSome D.medium world.now }
    ensures { IfOk result (λ text. (m : Machine)
        → StandsFor D.medium world.now m → text ≡ line (json_text m)) }
{
    let mut text = world.json(alloc)?;
    text.push(b'\n')?;
    Ok(text)
}
