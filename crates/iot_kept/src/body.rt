//! Reading the body of a checkpoint.
ghost use Rattle.std.specs.Prelude.{◌≡◌, ◌++◌, IfOk, IfSome, OnOk};
ghost use Rattle.iot_durable.specs.Rules.{IsThis};
ghost use Rattle.iot_kept.specs.Bodies.{IsBody};
ghost use Rattle.iot_kept.specs.Memory.{memory_state};
ghost use Rattle.iot_kept.specs.Reading.{IsChecked, IsMadeIf, ResumesIf, EachResumesIf, items_of, access_of};
ghost use Rattle.iot_kept.specs.Rules.{IsMemory, IsStarted};
ghost use Rattle.iot_kept.specs.States.{State};

use crate::checks::make_all;
use crate::durable::Durable;
use crate::memory::Memory;
use crate::running::{Ground, Running};
use crate::versions::read_client;
use iot_access::of_nothing;
use iot_bodies::{ClientBody, Running as Spelled, Waiting};
use iot_held::Held;
use iot_queue::Queue;
use iot_slots::Version;
use iot_text::NoMemory;
use iot_tree::{Access, Sequence};
use std::alloc::Global;
use std::collections::VecDeque;

/// What is in memory after a checkpoint with this body, if it spells the whole of a client's state in this version.
pub(crate) fn read_body(
    alloc: Global,
    version: Version,
    body: &[u8],
) -> Result<Option<Memory>, NoMemory>
    ensures found { IfOk result (λ read. IfSome read (λ made. IsBody version body.now (memory_state made))) }
    ensures only { (state : State) → IsBody version body.now state → IfOk result (IsThis memory_state state) }
    ensures sound { IfOk result (λ read. IfSome read IsMemory) }
    ensures fresh { IfOk result (λ read. IfSome read IsStarted) }
{
    let Some(parts) = read_client(alloc, version, body)? else {
        return Ok(None);
    };
    let Some(durable) = durable_from(alloc, parts)? else {
        return Ok(None);
    };
    checked(alloc, durable)
}

/// The state of the parts, if it passes the tests beside those that the parts have passed: what was written by no client is refused.
fn checked(alloc: Global, durable: Durable) -> Result<Option<Memory>, NoMemory>
    ensures { IfOk result (IsChecked durable) }
{
    if !durable.are_numbered(alloc)? {
        return Ok(None);
    }
    if !durable.may_wait() {
        return Ok(None);
    }
    match durable.view(alloc)? {
        Some(view) => Ok(Some(Memory { durable, view })),
        None => Ok(None),
    }
}

/// The parts as they are in memory, if the acts of each transaction that runs suit its base. No stamp of a server is known, and those that
/// run are second class.
fn durable_from(alloc: Global, parts: ClientBody) -> Result<Option<Durable>, NoMemory>
    ensures { IfOk result (IsMadeIf parts) }
{
    let ClientBody {
        held,
        items,
        running,
        last,
    } = parts;
    let Some(running) = running_from(alloc, running)? else {
        return Ok(None);
    };
    let held = Held::unstamped(alloc, held)?;
    let (queue, access) = queue_from(alloc, items)?;
    Ok(Some(Durable {
        held,
        queue,
        running,
        last,
        access,
    }))
}

/// The transactions that wait, and the access of the first one.
fn queue_from(alloc: Global, waiting: Sequence<Waiting>) -> Result<(Queue, Access), NoMemory>
    ensures items { IfOk result (λ made. made.0 ≡ items_of waiting) }
    ensures access { IfOk result (λ made. made.1 ≡ access_of waiting) }
{
    let mut left = VecDeque::from(waiting.into_vec());
    let mut queue = Queue::new(alloc);
    match left.pop_front() {
        Some(Waiting { item, access }) => {
            match queue.push(item) {
                Ok(()) => (),
                Err(refused) => return Err(refused.1),
            }
            push_all(&mut queue, left)?;
            Ok((queue, access))
        }
        None => Ok((queue, of_nothing(alloc))),
    }
}

/// Puts transactions behind the others.
fn push_all(queue: &mut Queue, waiting: VecDeque<Waiting>) -> Result<(), NoMemory>
    ensures { OnOk result (queue.new ≡ queue.old ++ items_of waiting.items) }
{
    let mut left = waiting;
    'waiting: while let Some(one) = left.pop_front() {
        match queue.push(one.item) {
            Ok(()) => (),
            Err(refused) => return Err(refused.1),
        }
    }
    Ok(())
}

/// Those that run, if the acts of each suit its base.
fn running_from(alloc: Global, running: Sequence<Spelled>) -> Result<Option<Vec<Running>>, NoMemory>
    ensures { IfOk result (EachResumesIf running) }
{
    let mut left = VecDeque::from(running.into_vec());
    let mut made = Vec::new(alloc);
    'running: while let Some(it) = left.pop_front() {
        let Some(it) = resumed(alloc, it)? else {
            return Ok(None);
        };
        made.push(it)?;
    }
    Ok(Some(made))
}

/// One that runs, if its acts suit its base. On which view it began is not known.
fn resumed(alloc: Global, it: Spelled) -> Result<Option<Running>, NoMemory>
    ensures { IfOk result (ResumesIf it) }
{
    let Spelled {
        tid,
        script,
        option,
        base,
        acts,
    } = it;
    let mut own = base.copy(alloc)?;
    if !make_all(alloc, &mut own, acts.as_slice())? {
        return Ok(None);
    }
    Ok(Some(Running {
        tid,
        script,
        option,
        first: false,
        acts,
        base,
        own,
        on: Ground::Past,
    }))
}
