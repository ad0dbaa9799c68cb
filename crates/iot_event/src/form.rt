//! The forms of event lines.
ghost use Rattle.std.specs.Prelude.{◌≡◌, if◌then◌else◌, Some, None, IfOk};
ghost use Rattle.iot_lines.specs.Words.{words};
ghost use Rattle.iot_text.specs.Names.{is_name};
ghost use Rattle.iot_text.specs.Paths.{path_of};
ghost use Rattle.iot_event.specs.Forms.{one_word, node_event, link_event, lone_task, lone_event, server_form, client_form, two_words};
ghost use Rattle.iot_event.specs.Forms.{loss_of, event_with, event_of_words, three_words, plain_choice, resolver_choice};
ghost use Rattle.iot_event.specs.Forms.{script_task, script_form, pick_of, stop_form, stop_words, step_words, four_words, five_words};
ghost use Rattle.iot_event.specs.Forms.{walk_words, form_of};

use crate::event::{Choice, ClientEvent, LinkEvent, NodeEvent, Task};
use crate::number::{byte_of, number_of};
use iot_disk::Pick;
use iot_lines::split_words;
use iot_link::Loss;
use iot_text::{Name, NoMemory, Path, TextFault};
use iot_tree::WALK_LIMIT;
use std::alloc::Global;

/// How many steps one line asks for at most.
pub const STEP_LIMIT: u64 = 100_000;

/// The greatest number of a running transaction in a line.
pub const TRANSACTION_LIMIT: u64 = 1_000_000;

/// The greatest place of a transaction that waits in a line.
pub const READS_LIMIT: u64 = 1_000_000;

/// The greatest number of a device call that is to fail in a line.
pub const STOP_LIMIT: u64 = 1_000_000;

/// What a line says by its words alone, before it is known which names are declared.
#[derive(Drop)]
pub(crate) enum Form {
    /// `client N`
    Client(Name),

    /// `script N {`
    Script(Name),

    /// `profile N {`
    Profile(Name),

    /// An event of the client of this name.
    At {
        client: Name,
        what: ClientEvent<Name, Name>,
    },

    /// An event of the server.
    Server(NodeEvent),

    /// `promote`
    Promote,

    /// `stop backup k PICK`
    StopBackup {
        calls: u64,
        pick: Pick,
    },

    /// `log`
    Log,
}

/// A word as a name, if it is one.
fn name_of(word: &[u8]) -> Option<Name>
    ensures { result ≡ (if is_name word.now then Some word.now else None) }
{
    Name::parse(word).ok()
}

/// A word as the text of a path, if it is one.
pub(crate) fn path_of(alloc: Global, word: &[u8]) -> Result<Option<Path>, NoMemory>
    ensures { IfOk result (λ path. path ≡ path_of word.now) }
{
    match Path::parse(alloc, word) {
        Ok(path) => Ok(Some(path)),
        Err(TextFault::NoMemory) => Err(NoMemory),
        Err(_) => Ok(None),
    }
}

/// The form of a line of one word.
fn one_word(word: &[u8]) -> Option<Form>
    ensures { result ≡ one_word word.now }
{
    if word == b"log".as_slice() {
        return Some(Form::Log);
    }
    if word == b"promote".as_slice() {
        return Some(Form::Promote);
    }
    None
}

/// What befalls a node, if this word alone says it.
fn node_event(word: &[u8]) -> Option<NodeEvent>
    ensures { result ≡ node_event word.now }
{
    if word == b"show".as_slice() {
        return Some(NodeEvent::Show);
    }
    if word == b"crash".as_slice() {
        return Some(NodeEvent::Crash);
    }
    if word == b"restart".as_slice() {
        return Some(NodeEvent::Restart);
    }
    None
}

/// What befalls a link, if this word alone says it.
fn link_event(word: &[u8]) -> Option<LinkEvent>
    ensures { result ≡ link_event word.now }
{
    if word == b"connect".as_slice() {
        return Some(LinkEvent::Connect);
    }
    if word == b"disconnect".as_slice() {
        return Some(LinkEvent::Disconnect);
    }
    None
}

/// What a client does, if this word alone says it.
fn lone_task(word: &[u8]) -> Option<Task<Name, Name>>
    ensures { result ≡ lone_task word.now }
{
    if word == b"refresh".as_slice() {
        return Some(Task::Refresh);
    }
    if word == b"step".as_slice() {
        return Some(Task::Step {
            count: 1,
            transaction: None,
        });
    }
    if word == b"end".as_slice() {
        return Some(Task::End { transaction: None });
    }
    if word == b"sync".as_slice() {
        return Some(Task::Sync);
    }
    if word == b"drain".as_slice() {
        return Some(Task::Drain);
    }
    if word == b"discard".as_slice() {
        return Some(Task::Discard);
    }
    if word == b"queue".as_slice() {
        return Some(Task::Queue);
    }
    None
}

/// The event of a client that this word alone says.
fn lone_event(word: &[u8]) -> Option<ClientEvent<Name, Name>>
    ensures { result ≡ lone_event word.now }
{
    if let Some(what) = node_event(word) {
        return Some(ClientEvent::Node(what));
    }
    if let Some(what) = link_event(word) {
        return Some(ClientEvent::Link(what));
    }
    Some(ClientEvent::Task(lone_task(word)?))
}

/// The form of `show server` and its like, if the second word is `server`.
fn server_form(first: &[u8], second: &[u8]) -> Option<Form>
    ensures { result ≡ server_form first.now second.now }
{
    if second != b"server".as_slice() {
        return None;
    }
    Some(Form::Server(node_event(first)?))
}

/// The form of a line that says no more than what is done with this client.
fn client_form(first: &[u8], client: Name) -> Option<Form>
    ensures { result ≡ client_form first.now client }
{
    if first == b"client".as_slice() {
        return Some(Form::Client(client));
    }
    Some(Form::At {
        client,
        what: lone_event(first)?,
    })
}

/// The form of a line of two words.
fn two_words(first: &[u8], second: &[u8]) -> Option<Form>
    ensures { result ≡ two_words first.now second.now }
{
    match server_form(first, second) {
        Some(form) => Some(form),
        None => client_form(first, name_of(second)?),
    }
}

/// The loss that a word names, if it names one.
fn loss_of(word: &[u8]) -> Option<Loss>
    ensures { result ≡ loss_of word.now }
{
    if word == b"request".as_slice() {
        return Some(Loss::Request);
    }
    if word == b"reply".as_slice() {
        return Some(Loss::Reply);
    }
    None
}

/// What the first word says of a client with this one, if that is no hoard.
fn event_with(first: &[u8], word: &[u8]) -> Option<ClientEvent<Name, Name>>
    ensures { result ≡ event_with first.now word.now }
{
    if first == b"step".as_slice() {
        return Some(ClientEvent::Task(Task::Step {
            count: number_of(word, STEP_LIMIT)?,
            transaction: None,
        }));
    }
    if first == b"end".as_slice() {
        return Some(ClientEvent::Task(Task::End {
            transaction: Some(number_of(word, TRANSACTION_LIMIT)?),
        }));
    }
    if first == b"reads".as_slice() {
        return Some(ClientEvent::Task(Task::Reads {
            item: number_of(word, READS_LIMIT)?,
        }));
    }
    if first == b"lose".as_slice() {
        return Some(ClientEvent::Link(LinkEvent::Lose(loss_of(word)?)));
    }
    if first == b"repair".as_slice() {
        return Some(ClientEvent::Task(Task::Repair {
            script: name_of(word)?,
        }));
    }
    None
}

/// The event of a client that these two words say.
fn event_of_words(
    alloc: Global,
    first: &[u8],
    word: &[u8],
) -> Result<Option<ClientEvent<Name, Name>>, NoMemory>
    ensures { IfOk result (λ event. event ≡ event_of_words first.now word.now) }
{
    if first != b"hoard".as_slice() {
        return Ok(event_with(first, word));
    }
    match path_of(alloc, word)? {
        Some(path) => Ok(Some(ClientEvent::Task(Task::Hoard { path }))),
        None => Ok(None),
    }
}

/// The form of a line of three words.
fn three_words(
    alloc: Global,
    first: &[u8],
    second: &[u8],
    third: &[u8],
) -> Result<Option<Form>, NoMemory>
    ensures { IfOk result (λ form. form ≡ three_words first.now second.now third.now) }
{
    let Some(name) = name_of(second) else {
        return Ok(None);
    };
    if first == b"script".as_slice() && third == b"{".as_slice() {
        return Ok(Some(Form::Script(name)));
    }
    if first == b"profile".as_slice() && third == b"{".as_slice() {
        return Ok(Some(Form::Profile(name)));
    }
    match event_of_words(alloc, first, third)? {
        Some(what) => Ok(Some(Form::At { client: name, what })),
        None => Ok(None),
    }
}

/// The option of one word, if it is one.
fn plain_choice(word: &[u8]) -> Option<Choice<Name>>
    ensures { result ≡ plain_choice word.now }
{
    if word == b"reexec".as_slice() {
        return Some(Choice::Reexec);
    }
    if word == b"abort".as_slice() {
        return Some(Choice::Abort);
    }
    if word == b"manual".as_slice() {
        return Some(Choice::Manual);
    }
    None
}

/// The option of two words, if they are one.
fn resolver_choice(word: &[u8], script: &[u8]) -> Option<Choice<Name>>
    ensures { result ≡ resolver_choice word.now script.now }
{
    if word != b"resolver".as_slice() {
        return None;
    }
    Some(Choice::Resolver(name_of(script)?))
}

/// What a client does with this script and this option, if the word says it.
fn script_task(first: &[u8], script: Name, option: Choice<Name>) -> Option<Task<Name, Name>>
    ensures { result ≡ script_task first.now script option }
{
    if first == b"run".as_slice() {
        return Some(Task::Run { script, option });
    }
    if first == b"begin".as_slice() {
        return Some(Task::Begin { script, option });
    }
    None
}

/// The form of a line that has this client do this script, with this option.
fn script_form(first: &[u8], client: Name, script: Name, option: Choice<Name>) -> Option<Form>
    ensures { result ≡ script_form first.now client script option }
{
    Some(Form::At {
        client,
        what: ClientEvent::Task(script_task(first, script, option)?),
    })
}

/// What a restart is to leave of a disk, if a word says it.
fn pick_of(word: &[u8]) -> Option<Pick>
    ensures { result ≡ pick_of word.now }
{
    if word == b"old".as_slice() {
        return Some(Pick::Old);
    }
    if word == b"new".as_slice() {
        return Some(Pick::New);
    }
    Some(Pick::Fill(byte_of(word)?))
}

/// The form of a line that has this device call of this node's disk fail.
fn stop_form(node: &[u8], calls: u64, pick: Pick) -> Option<Form>
    ensures { result ≡ stop_form node.now calls pick }
{
    if node == b"server".as_slice() {
        return Some(Form::Server(NodeEvent::Stop { calls, pick }));
    }
    if node == b"backup".as_slice() {
        return Some(Form::StopBackup { calls, pick });
    }
    Some(Form::At {
        client: name_of(node)?,
        what: ClientEvent::Node(NodeEvent::Stop { calls, pick }),
    })
}

/// The form of a line with these words after `stop`.
fn stop_words(node: &[u8], calls: &[u8], pick: &[u8]) -> Option<Form>
    ensures { result ≡ stop_words node.now calls.now pick.now }
{
    let calls = number_of(calls, STOP_LIMIT)?;
    let pick = pick_of(pick)?;
    stop_form(node, calls, pick)
}

/// The form of a line that has a client make so many steps of this transaction.
fn step_words(client: &[u8], count: &[u8], transaction: &[u8]) -> Option<Form>
    ensures { result ≡ step_words client.now count.now transaction.now }
{
    let client = name_of(client)?;
    let count = number_of(count, STEP_LIMIT)?;
    let transaction = Some(number_of(transaction, TRANSACTION_LIMIT)?);
    Some(Form::At {
        client,
        what: ClientEvent::Task(Task::Step { count, transaction }),
    })
}

/// The form of a line that has a client take along what this profile wishes, within this limit.
fn walk_words(client: &[u8], profile: &[u8], limit: &[u8]) -> Option<Form>
    ensures { result ≡ walk_words client.now profile.now limit.now }
{
    let client = name_of(client)?;
    let profile = name_of(profile)?;
    let limit = number_of(limit, WALK_LIMIT)?;
    Some(Form::At {
        client,
        what: ClientEvent::Task(Task::Walk { profile, limit }),
    })
}

/// The form of a line of four words.
fn four_words(first: &[u8], second: &[u8], third: &[u8], fourth: &[u8]) -> Option<Form>
    ensures { result ≡ four_words first.now second.now third.now fourth.now }
{
    if first == b"stop".as_slice() {
        return stop_words(second, third, fourth);
    }
    if first == b"step".as_slice() {
        return step_words(second, third, fourth);
    }
    if first == b"walk".as_slice() {
        return walk_words(second, third, fourth);
    }
    script_form(
        first,
        name_of(second)?,
        name_of(third)?,
        plain_choice(fourth)?,
    )
}

/// The form of a line of five words.
fn five_words(
    first: &[u8],
    second: &[u8],
    third: &[u8],
    fourth: &[u8],
    fifth: &[u8],
) -> Option<Form>
    ensures { result ≡ five_words first.now second.now third.now fourth.now fifth.now }
{
    script_form(
        first,
        name_of(second)?,
        name_of(third)?,
        resolver_choice(fourth, fifth)?,
    )
}

/// The form of a line, if it has one.
///
/// # Errors
///
/// Only if memory runs out.
pub(crate) fn form_of_line(alloc: Global, line: &[u8]) -> Result<Option<Form>, NoMemory>
    ensures { IfOk result (λ form. form ≡ form_of (words line.now)) }
{
    let mut words = split_words(line);
    let Some(first) = words.next() else {
        return Ok(None);
    };
    let Some(second) = words.next() else {
        return Ok(one_word(first));
    };
    let Some(third) = words.next() else {
        return Ok(two_words(first, second));
    };
    let Some(fourth) = words.next() else {
        return three_words(alloc, first, second, third);
    };
    let Some(fifth) = words.next() else {
        return Ok(four_words(first, second, third, fourth));
    };
    match words.next() {
        None => Ok(five_words(first, second, third, fourth, fifth)),
        Some(_) => Ok(None),
    }
}
