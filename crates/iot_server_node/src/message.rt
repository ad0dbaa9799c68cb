//! What a client sends to the server.
ghost use Rattle.std.specs.Prelude.{◌++◌, ◌≡◌};
ghost use Rattle.iot_server_node.specs.{Messages.printed_under, Prelude.OnOk};

use crate::texts::say_commit;
use iot_node::Printed;
use iot_text::{NoMemory, Text};
use iot_tree::Way;

/// What a client sends to the server.
#[derive(Drop)]
pub struct Message {
    /// The request, in bytes.
    pub request: Vec<u8>,

    /// The transaction that it hands in, if it does.
    pub handed: Option<Handed>,
}

/// A transaction that is handed in: what it printed, and the way on which it comes.
#[derive(Drop)]
pub struct Handed {
    /// Its name, and what its script printed.
    pub printed: Printed,

    /// How it is committed.
    pub way: Way,
}

impl Message {
    /// What a commit of it says under this number: its line, and what its script printed.
    pub fn say_under(&self, number: u64, out: &mut Text) -> Result<(), NoMemory>
        ensures { OnOk result (out.new ≡ out.old ++ printed_under number self.now.handed) }
    {
        match &self.handed {
            Some(handed) => say_commit(number, handed, out),
            None => Ok(()),
        }
    }
}
