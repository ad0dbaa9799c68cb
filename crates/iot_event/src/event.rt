//! Events: what an event script asks for.
use crate::shared::{SharedProfile, SharedScript};
use iot_disk::Pick;
use iot_link::Loss;
use iot_text::{Name, Path};

/// What is done with a transaction that is in conflict. A resolver is a script: a line has its name, and an event its place among those
/// that were declared, from 0.
#[derive(Clone, Copy)]
pub enum Choice<S> {
    /// `reexec`: its script is run again.
    Reexec,

    /// `resolver S`: this script is run in its place.
    Resolver(S),

    /// `abort`: it is given up.
    Abort,

    /// `manual`: it waits for a decision by hand.
    Manual,
}

/// What befalls a node, be it the server or a client.
#[derive(Clone, Copy)]
pub enum NodeEvent {
    /// `show NODE`: the tree that it sees is printed.
    Show,

    /// `stop NODE k PICK`: the k-th device call of its disk from now on fails; `calls` is k, from 1. The pick says which of its images the
    /// disk has after the next restart.
    Stop { calls: u64, pick: Pick },

    /// `crash NODE`: it stops.
    Crash,

    /// `restart NODE`: it comes back.
    Restart,
}

/// What befalls a client's link with the server.
#[derive(Clone, Copy)]
pub enum LinkEvent {
    /// `connect C`: it comes up.
    Connect,

    /// `disconnect C`: it goes down.
    Disconnect,

    /// `lose C request` or `lose C reply`: it loses this message of the next exchange.
    Lose(Loss),
}

/// What a client does, if it is alive. A line has the names of scripts and profiles; an event has the places of scripts among those that
/// were declared, from 0, and the profiles themselves.
#[derive(Drop)]
pub enum Task<S, P> {
    /// `run C S OPTION`: it runs the script. The option says what is done if that is in conflict.
    Run {
        script: S,
        option: Choice<S>,
    },

    /// `hoard C P`: it fetches what lies on the way to the path, at it and below it.
    Hoard {
        path: Path,
    },

    /// `refresh C`: it fetches anew what it knows.
    Refresh,

    /// `walk C N LIMIT`: it takes along what this profile wishes, as much as fits into the limit, which is from 1 to 1,000,000.
    Walk {
        profile: P,
        limit: u64,
    },

    /// `begin C S OPTION`: it begins a transaction of the script. The option says what is done if that is in conflict.
    Begin {
        script: S,
        option: Choice<S>,
    },

    /// `step C`, `step C k` or `step C k N`: it makes at most so many steps of its running transaction with this number; without a
    /// number, of the one that has the least.
    Step {
        count: u64,
        transaction: Option<u64>,
    },

    /// `end C` or `end C N`: it ends that one.
    End {
        transaction: Option<u64>,
    },

    /// `sync C`: it sends the first transaction that it has queued.
    Sync,

    /// `drain C`: it sends the transactions that it has queued, one after the other.
    Drain,

    /// `repair C S`: the first transaction that it has queued, which waits for a decision by hand, gets this script as its resolver.
    Repair {
        script: S,
    },

    /// `discard C`: the first transaction that it has queued, which waits for a decision by hand, is given up.
    Discard,

    /// `queue C`: its transactions that wait, and those that run, are printed.
    Queue,

    /// `reads C i`: what the i-th transaction that waits has read in its first run is printed; `item` is i, from 1.
    Reads {
        item: u64,
    },
}

/// An event of a client.
#[derive(Drop)]
pub enum ClientEvent<S, P> {
    /// Its node.
    Node(NodeEvent),

    /// Its link.
    Link(LinkEvent),

    /// What it does itself.
    Task(Task<S, P>),
}

/// One event. It has the places of clients and scripts among those that were declared, from 0.
#[derive(Drop)]
pub enum Event {
    /// `client N`: the client of this name is a node from now on.
    Client(Name),

    /// `script N {` up to its `}`: the script of this name can be run from now on.
    Script(Name, SharedScript),

    /// `profile N {` up to its `}`: walks may name this profile from now on.
    Profile(Name, SharedProfile),

    /// An event of the client at this place.
    At {
        client: u64,
        what: ClientEvent<u64, SharedProfile>,
    },

    /// An event of the server.
    Server(NodeEvent),

    /// `promote`: the server, which is down, comes back from its backup, and has none from then on. Its first disk is given up.
    Promote,

    /// `stop backup k PICK`: as `stop server k PICK`, but of the disk of the server's backup.
    StopBackup {
        calls: u64,
        pick: Pick,
    },

    /// `log`: what was committed is printed.
    Log,
}
