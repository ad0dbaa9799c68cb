//! What changes of what is durable of a client.
use iot_queue::Resolution;
use iot_text::Name;
use iot_tree::{Access, Act, OnConflict, Tree};

/// One change of what is durable of a client.
#[derive(Drop)]
pub enum Change {
    /// Objects were brought: this tree is held.
    Held(Tree),
    /// A transaction began.
    Begun {
        /// The number of the transaction at its client, from 1.
        number: u64,
        /// The script that is run.
        script: Name,
        /// What is done if it conflicts.
        option: OnConflict,
    },
    /// Objects were brought for the running transaction of this number: this tree is held, and it starts again on the view.
    Fetched {
        number: u64,
        tree: Tree,
    },
    /// The running transaction of this number did this act.
    Acted {
        number: u64,
        act: Act,
    },
    /// The running transaction of this number ended, and waits now.
    Ended {
        number: u64,
    },
    /// The first running transaction, of this number, was cut off: it waits now, with so many of its acts.
    Cut {
        number: u64,
        acts: u64,
    },
    /// The first transaction that waits conflicts: it is to be resolved, or to be decided by hand if that is its option.
    Conflicted,
    /// Another run was made in the place of the first transaction that waits, which asked this of the server's tree.
    Resolved(Resolution, Access),
    /// The script of this name is to be run in the place of the first transaction that waits.
    Repaired(Name),
    /// The first transaction that waits was settled or given up.
    Left,
    /// The running transaction of this number starts again on the view.
    Again {
        number: u64,
    },
}
