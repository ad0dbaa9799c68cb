//! How a node that is down comes back.
ghost use Rattle.std.specs.Prelude.{◌++◌, ◌≡◌};
ghost use Rattle.iot_node.specs.{Posts.words_of, Prelude.OnOk};

use iot_text::{NoMemory, Text};

/// How a node that is down comes back.
#[derive(Clone, Copy, Drop)]
pub enum Comeback {
    /// By a restart.
    Restart,

    /// From its backup, which is promoted.
    Promote,
}

impl Comeback {
    /// Appends what is said of the node of this name that comes back so.
    pub(crate) fn say(self, name: &[u8], out: &mut Text) -> Result<(), NoMemory>
        ensures { OnOk result (out.new ≡ out.old ++ words_of self name.now) }
    {
        match self {
            Comeback::Restart => {
                out.append(b"restart ")?;
                out.append(name)?;
            }
            Comeback::Promote => out.append(b"promote")?,
        }
        Ok(())
    }
}
