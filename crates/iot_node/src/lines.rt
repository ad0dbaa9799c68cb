//! Lines, and the names of transactions in them.
ghost use Rattle.std.specs.Prelude.{◌++◌, ◌≡◌};
ghost use Rattle.iot_node.specs.Prelude.{OnOk, line, transaction_name};

use iot_text::{Name, NoMemory, Text};

/// Appends a line of this text.
pub fn say(text: &[u8], out: &mut Text) -> Result<(), NoMemory>
    ensures { OnOk result (out.new ≡ out.old ++ line text.now) }
{
    out.append(text)?;
    out.push(b'\n')
}

/// A transaction, and what its script printed.
#[derive(Drop)]
pub struct Printed {
    pub transaction: Transaction,
    pub output: Text,
}

/// The name of a transaction: its client's name and its number there.
#[derive(Clone, Copy)]
pub struct Transaction {
    pub client: Name,
    pub number: u64,
}

impl Transaction {
    /// Appends the name, `CLIENT.NUMBER`.
    pub fn write_to(&self, out: &mut Text) -> Result<(), NoMemory>
        ensures { OnOk result (out.new ≡ out.old ++ transaction_name self.now.client self.now.number) }
    {
        out.append(self.client.as_bytes())?;
        out.push(b'.')?;
        out.append_number(self.number)
    }
}
