//! The lines of commands that are refused.
ghost use Rattle.std.specs.Prelude.{◌≡◌, ◌++◌, IfOk, OnOk, codes};
ghost use Rattle.iot_exec.specs.Commands.{command_name};
ghost use Rattle.iot_exec.specs.Endings.{reason_text, refusal_text};

use crate::endings::{Reason, Refusal};
use iot_lang::Command;
use iot_text::{NoMemory, Text};
use std::alloc::Global;

impl Reason {
    /// What is printed for the reason.
    fn text(self) -> &'static [u8]
        ensures { result.now ≡ reason_text self }
    {
        match self {
            Reason::NotCached => b"not cached",
            Reason::Exists => b"exists",
            Reason::NoFile => b"no file",
            Reason::NoDirectory => b"no directory",
            Reason::NoSuchPath => b"no such path",
            Reason::IsDirectory => b"is a directory",
            Reason::IsNoDirectory => b"not a directory",
            Reason::IsRoot => b"is the root",
            Reason::NotEmpty => b"not empty",
            Reason::IntoItself => b"into itself",
            Reason::TooLarge => b"too large",
            Reason::NothingKept => b"nothing kept",
        }
    }
}

impl Refusal {
    /// Appends what is printed after the command's name.
    fn write_to(&self, out: &mut Text) -> Result<(), NoMemory>
        ensures { OnOk result (out.new ≡ out.old ++ refusal_text self.now) }
    {
        match self {
            Refusal::TooLarge => out.append(b"too large"),
            Refusal::BadPath => out.append(b"bad path"),
            Refusal::At(path, reason) => {
                path.write_to(out)?;
                out.append(b": ")?;
                out.append(reason.text())
            }
        }
    }

    /// The line that a refused command prints.
    pub(crate) fn line(&self, alloc: Global, command: &[u8]) -> Result<Text, NoMemory>
        ensures { IfOk result (λ line. line ≡ command.now ++ codes ": " ++ refusal_text self.now) }
    {
        let mut line = Text::new(alloc);
        line.append(command)?;
        line.append(b": ")?;
        self.write_to(&mut line)?;
        Ok(line)
    }
}

/// The name with which the refusals of a command begin.
pub(crate) fn name_of(command: &Command) -> &'static [u8]
    ensures { result.now ≡ command_name command.now }
{
    match command {
        Command::Echo(_) => b"echo",
        Command::Set(_, _) => b"set",
        Command::Read(_, _) => b"read",
        Command::MakeDir(_) => b"mkdir",
        Command::RemoveDir(_) => b"rmdir",
        Command::Remove(_) => b"rm",
        Command::Write(_, _) => b"write",
        Command::Append(_, _) => b"append",
        Command::Copy(_, _) => b"copy",
        Command::Concat(_, _, _) => b"concat",
        Command::Move(_, _) => b"mv",
        Command::Cat(_) => b"cat",
        Command::List(_) => b"ls",
        Command::Keep(_, _) => b"keep",
        Command::Chmod(_, _) => b"chmod",
    }
}
