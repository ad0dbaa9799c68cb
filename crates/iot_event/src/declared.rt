//! The lines of an event script, one at a time: what each says after the names that were declared before it.
ghost use Rattle.std.specs.Prelude.{◌≡◌, ◌+◌, ◌<◌, ◌≤◌, ◌^◌, length, IfOk, Some, None};
ghost use Rattle.iot_lines.specs.Lines.{lines};
ghost use Rattle.iot_event.specs.Closing.{closed_by, first_closing};
ghost use Rattle.iot_event.specs.Meanings.{Scope, Meaning, nothing_declared, place_of, profile_named, choice_of, task_of, event_of};
ghost use Rattle.iot_event.specs.Meanings.{is_servers, client_line, script_line, profile_line, at_line, meaning_of_form};
ghost use Rattle.iot_event.specs.Events.{IsStep, IsStepOf};
ghost use Rattle.iot_event.specs.Results.{scope_of, AnswersEvent, AnswersKnown, AnswersFound, AnswersScript, AnswersProfile, Answers};

use crate::bytes::fits_line;
use crate::closing::{Closed, find_closing, find_first_closing};
use crate::event::{Choice, ClientEvent, Event, Task};
use crate::fault::EventFault;
use crate::form::{Form, form_of_line};
use crate::profiles::parse_profile;
use crate::script::parse_script;
use crate::shared::{SharedProfile, SharedScript};
use indexmap::{IndexMap, IndexSet};
use iot_lines::is_skipped;
use iot_text::{Name, NoMemory};
use std::alloc::Global;

/// How many clients an input declares at most.
pub const CLIENT_LIMIT: usize = 8;

/// How many scripts an input declares at most.
pub const SCRIPT_LIMIT: usize = 256;

/// How many profiles an input declares at most.
pub const PROFILE_LIMIT: usize = 64;

/// What the next lines come to: an event or none, the text that is left, and the number of its first line.
#[derive(Drop)]
pub(crate) struct Step<'a> {
    pub(crate) event: Option<Event>,
    pub(crate) later: &'a [u8],
    pub(crate) number: u64,
}

/// The names that were declared so far, in the order of declaration, and the profiles that some of them name.
#[derive(Drop)]
pub(crate) struct Declared {
    clients: IndexSet<Name>,
    scripts: IndexSet<Name>,
    profiles: IndexMap<Name, SharedProfile>,
}

/// Whether a name is that of the server or of its backup, which are nodes from the start.
fn is_servers(name: &[u8]) -> bool
    ensures { result ≡ is_servers name.now }
{
    name == b"server".as_slice() || name == b"backup".as_slice()
}

/// The place of a name that a line gives, among those that were declared.
fn place_of(names: &IndexSet<Name>, name: Name, number: u64) -> Result<u64, EventFault>
    ensures { AnswersKnown (place_of name names.now.keys) number result }
{
    match names.get_index_of(&name) {
        Some(place) => Ok(place as u64),
        None => Err(EventFault::UnknownName { line: number }),
    }
}

/// The option that a line gives, with the place of its resolver among the scripts that were declared.
fn choice_of(
    scripts: &IndexSet<Name>,
    option: Choice<Name>,
    number: u64,
) -> Result<Choice<u64>, EventFault>
    ensures { AnswersKnown (choice_of option scripts.now.keys) number result }
{
    match option {
        Choice::Reexec => Ok(Choice::Reexec),
        Choice::Resolver(script) => {
            let place = place_of(scripts, script, number)?;
            Ok(Choice::Resolver(place))
        }
        Choice::Abort => Ok(Choice::Abort),
        Choice::Manual => Ok(Choice::Manual),
    }
}

/// The profile of a name that a line gives.
fn profile_named(
    profiles: &IndexMap<Name, SharedProfile>,
    name: Name,
    number: u64,
) -> Result<SharedProfile, EventFault>
    ensures { AnswersFound (profile_named name profiles.now.entries) number result }
{
    match profiles.get(&name) {
        Some(profile) => Ok(profile.share()?),
        None => Err(EventFault::UnknownName { line: number }),
    }
}

impl Declared {
    /// What a client does by a line, with the places of its scripts among those that were declared, and its profile.
    fn task_of(
        &self,
        task: Task<Name, Name>,
        number: u64,
    ) -> Result<Task<u64, SharedProfile>, EventFault>
        ensures { AnswersFound (task_of task self.now.scripts.keys self.now.profiles.entries) number result }
    {
        let scripts = &self.scripts;
        match task {
            Task::Run { script, option } => {
                let script = place_of(scripts, script, number)?;
                let option = choice_of(scripts, option, number)?;
                Ok(Task::Run { script, option })
            }
            Task::Hoard { path } => Ok(Task::Hoard { path }),
            Task::Refresh => Ok(Task::Refresh),
            Task::Walk { profile, limit } => {
                let profile = profile_named(&self.profiles, profile, number)?;
                Ok(Task::Walk { profile, limit })
            }
            Task::Begin { script, option } => {
                let script = place_of(scripts, script, number)?;
                let option = choice_of(scripts, option, number)?;
                Ok(Task::Begin { script, option })
            }
            Task::Step { count, transaction } => Ok(Task::Step { count, transaction }),
            Task::End { transaction } => Ok(Task::End { transaction }),
            Task::Sync => Ok(Task::Sync),
            Task::Drain => Ok(Task::Drain),
            Task::Repair { script } => {
                let script = place_of(scripts, script, number)?;
                Ok(Task::Repair { script })
            }
            Task::Discard => Ok(Task::Discard),
            Task::Queue => Ok(Task::Queue),
            Task::Reads { item } => Ok(Task::Reads { item }),
        }
    }

    /// The event of a client that a line gives, with the places of its scripts among those that were declared, and its profile.
    fn event_of(
        &self,
        what: ClientEvent<Name, Name>,
        number: u64,
    ) -> Result<ClientEvent<u64, SharedProfile>, EventFault>
        ensures { AnswersFound (event_of what self.now.scripts.keys self.now.profiles.entries) number result }
    {
        match what {
            ClientEvent::Node(what) => Ok(ClientEvent::Node(what)),
            ClientEvent::Link(what) => Ok(ClientEvent::Link(what)),
            ClientEvent::Task(what) => {
                let task = self.task_of(what, number)?;
                Ok(ClientEvent::Task(task))
            }
        }
    }
}

/// The step of a line that is this event.
fn after_line(
    event: Result<Event, EventFault>,
    later: &[u8],
    number: u64,
) -> Result<Step<'_>, EventFault>
    requires { number < 2 ^ 63 }
    ensures line { (meaning : Meaning) (scope : Scope) (declared : Declared)
        → AnswersEvent meaning event declared → Answers (IsStepOf meaning scope number (lines later.now)) result declared }
    ensures later { IfOk result (λ step. step.later.now ≡ later.now) }
    ensures number { IfOk result (λ step. step.number ≡ number + 1) }
{
    Ok(Step {
        event: Some(event?),
        later,
        number: number + 1,
    })
}

impl Declared {
    /// Starts with nothing declared. Does not allocate.
    pub(crate) fn new(alloc: Global) -> Declared
        ensures { scope_of result ≡ nothing_declared }
    {
        Declared {
            clients: IndexSet::new(alloc),
            scripts: IndexSet::new(alloc),
            profiles: IndexMap::new(alloc),
        }
    }

    /// `client N`
    fn client_line(&mut self, name: Name, number: u64) -> Result<Event, EventFault>
        ensures { AnswersEvent (client_line (scope_of self.old) number name) result self.new }
    {
        if is_servers(name.as_bytes()) || self.clients.contains(&name) {
            return Err(EventFault::Twice { line: number });
        }
        if self.clients.len() >= CLIENT_LIMIT {
            return Err(EventFault::TooMany { line: number });
        }
        self.clients.insert(name)?;
        Ok(Event::Client(name))
    }

    /// `script N {`, before this text.
    fn script_line<'a>(
        &mut self,
        name: Name,
        later: &'a [u8],
        number: u64,
    ) -> Result<Closed<'a>, EventFault>
        ensures line { AnswersScript (script_line (scope_of self.old) number name (closed_by (lines later.now) 0)) name result self.new }
        ensures count { IfOk result (λ script. script.count ≡ length (lines script.inside.now)) }
        ensures inside { IfOk result (λ script. length script.inside.now ≤ length later.now) }
        ensures shorter { IfOk result (λ script. script.count + length script.later.now < length later.now) }
    {
        let Some(script) = find_closing(later) else {
            return Err(EventFault::BadLine { line: number });
        };
        if self.scripts.contains(&name) {
            return Err(EventFault::Twice { line: number });
        }
        if self.scripts.len() >= SCRIPT_LIMIT {
            return Err(EventFault::TooMany { line: number });
        }
        self.scripts.insert(name)?;
        Ok(script)
    }

    /// `profile N {`, before this text.
    fn profile_line<'a>(
        &self,
        name: Name,
        later: &'a [u8],
        number: u64,
    ) -> Result<Closed<'a>, EventFault>
        ensures line { AnswersProfile (profile_line (scope_of self.now) number name (first_closing (lines later.now))) name result }
        ensures new { IfOk result (λ block. profile_named name self.now.profiles.entries ≡ None) }
        ensures count { IfOk result (λ block. block.count ≡ length (lines block.inside.now)) }
        ensures inside { IfOk result (λ block. length block.inside.now ≤ length later.now) }
        ensures shorter { IfOk result (λ block. block.count + length block.later.now < length later.now) }
    {
        let Some(block) = find_first_closing(later) else {
            return Err(EventFault::BadLine { line: number });
        };
        if self.profiles.contains_key(&name) {
            return Err(EventFault::Twice { line: number });
        }
        if self.profiles.len() >= PROFILE_LIMIT {
            return Err(EventFault::TooMany { line: number });
        }
        Ok(block)
    }

    /// An event of the client of this name.
    fn at_line(
        &self,
        client: Name,
        what: ClientEvent<Name, Name>,
        number: u64,
    ) -> Result<Event, EventFault>
        ensures { AnswersEvent (at_line (scope_of self.now) number client what) result self.now }
    {
        let client = place_of(&self.clients, client, number)?;
        let what = self.event_of(what, number)?;
        Ok(Event::At { client, what })
    }

    /// A script, from the line after its first on.
    fn script<'a>(
        &mut self,
        alloc: Global,
        name: Name,
        later: &'a [u8],
        number: u64,
    ) -> Result<Step<'a>, EventFault>
        requires { number + length later.now < 2 ^ 63 }
        ensures line { Answers
            (IsStepOf (script_line (scope_of self.old) number name (closed_by (lines later.now) 0))
            (scope_of self.old) number (lines later.now))
            result self.new }
        ensures shorter { IfOk result (λ step. length step.later.now ≤ length later.now) }
        ensures number { IfOk result (λ step. step.number + length step.later.now ≤ number + 1 + length later.now) }
    {
        let script = self.script_line(name, later, number)?;
        let code = parse_script(alloc, &script, number + 1)?;
        let shared = SharedScript::new(alloc, code)?;
        Ok(Step {
            event: Some(Event::Script(name, shared)),
            later: script.later,
            number: number + 1 + script.count + 1,
        })
    }

    /// A profile, from the line after its first on.
    fn profile<'a>(
        &mut self,
        alloc: Global,
        name: Name,
        later: &'a [u8],
        number: u64,
    ) -> Result<Step<'a>, EventFault>
        requires { number + length later.now < 2 ^ 63 }
        ensures line { Answers
            (IsStepOf (profile_line (scope_of self.old) number name (first_closing (lines later.now)))
            (scope_of self.old) number (lines later.now))
            result self.new }
        ensures shorter { IfOk result (λ step. length step.later.now ≤ length later.now) }
        ensures number { IfOk result (λ step. step.number + length step.later.now ≤ number + 1 + length later.now) }
    {
        let block = self.profile_line(name, later, number)?;
        let profile = parse_profile(alloc, &block, number + 1)?;
        let shared = SharedProfile::new(alloc, profile)?;
        self.profiles.insert(name, shared.share()?)?;
        Ok(Step {
            event: Some(Event::Profile(name, shared)),
            later: block.later,
            number: number + 1 + block.count + 1,
        })
    }

    /// A line of this form, before this text.
    fn by_form<'a>(
        &mut self,
        alloc: Global,
        form: Form,
        later: &'a [u8],
        number: u64,
    ) -> Result<Step<'a>, EventFault>
        requires { number + length later.now < 2 ^ 63 }
        ensures line { Answers
            (IsStepOf (meaning_of_form (Some form) (scope_of self.old) number (lines later.now))
            (scope_of self.old) number (lines later.now))
            result self.new }
        ensures shorter { IfOk result (λ step. length step.later.now ≤ length later.now) }
        ensures number { IfOk result (λ step. step.number + length step.later.now ≤ number + 1 + length later.now) }
    {
        match form {
            Form::Client(name) => after_line(self.client_line(name, number), later, number),
            Form::Script(name) => self.script(alloc, name, later, number),
            Form::Profile(name) => self.profile(alloc, name, later, number),
            Form::At { client, what } => {
                after_line(self.at_line(client, what, number), later, number)
            }
            Form::Server(what) => after_line(Ok(Event::Server(what)), later, number),
            Form::Promote => after_line(Ok(Event::Promote), later, number),
            Form::StopBackup { calls, pick } => {
                after_line(Ok(Event::StopBackup { calls, pick }), later, number)
            }
            Form::Log => after_line(Ok(Event::Log), later, number),
        }
    }

    /// Takes the line of this number, before this text, and with it the lines of its script or profile.
    pub(crate) fn take<'a>(
        &mut self,
        alloc: Global,
        line: &[u8],
        later: &'a [u8],
        number: u64,
    ) -> Result<Step<'a>, EventFault>
        requires { number + length later.now < 2 ^ 63 }
        ensures line { Answers (IsStep (scope_of self.old) number line.now (lines later.now)) result self.new }
        ensures shorter { IfOk result (λ step. length step.later.now ≤ length later.now) }
        ensures number { IfOk result (λ step. step.number + length step.later.now ≤ number + 1 + length later.now) }
    {
        if !fits_line(line) {
            return Err(EventFault::BadLine { line: number });
        }
        if is_skipped(line) {
            return Ok(Step {
                event: None,
                later,
                number: number + 1,
            });
        }
        // A `?` would move the form, which is large, once more.
        match form_of_line(alloc, line) {
            Ok(Some(form)) => self.by_form(alloc, form, later, number),
            Ok(None) => Err(EventFault::BadLine { line: number }),
            Err(NoMemory) => Err(EventFault::NoMemory),
        }
    }
}
