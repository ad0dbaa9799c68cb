//! What a client needs of the server for a transaction, and what is said of one.
use iot_node::Printed;
use iot_tree::{Question, Way};

/// A transaction that has ended, and whether it is first class.
#[derive(Drop)]
pub struct Gone {
    pub printed: Printed,
    pub first: bool,
}

/// What became of a transaction that was to end.
#[derive(Drop)]
pub enum Certified {
    /// It waits.
    Joined(Gone),

    /// A read of it, counted from 1, which asked this, has another answer on the view by now, and it starts again there.
    Again { read: u64, question: Question },
}

/// A transaction that is submitted: the request, in bytes, what it printed, and the way on which it comes.
#[derive(Drop)]
pub struct Submitted {
    pub request: Vec<u8>,
    pub printed: Printed,
    pub way: Way,
}

/// What the first transaction that waits needs of the server, by its stage.
#[derive(Drop)]
pub enum Need {
    /// A verdict: this submits it.
    Verdict(Submitted),

    /// The whole tree, on which it is to be resolved: this asks for it.
    Tree(Vec<u8>),

    /// Nothing: it waits for a decision by hand.
    Decision,
}

/// Why nothing is decided of the first transaction that waits.
#[derive(Clone, Copy)]
pub enum Undecided {
    /// None waits.
    Nothing,

    /// It does not wait for a decision by hand.
    NotManual,
}

impl Undecided {
    ghost use Rattle.std.specs.Prelude.{◌≡◌};
    ghost use Rattle.iot_laptop.specs.Calls.{undecided_word};

    /// What is said then.
    pub fn word(self) -> &'static [u8]
        ensures { result.now ≡ undecided_word self }
    {
        match self {
            Undecided::Nothing => b"nothing",
            Undecided::NotManual => b"not manual",
        }
    }
}
