//! The commands by their names.
ghost use Rattle.iot_exec.specs.Asking.{Ends};
ghost use Rattle.std.specs.Prelude.{◌≡◌};
ghost use Rattle.iot_exec.specs.Commands.{table, given, sets, write, append, copy, concat, move, keep, kept_files, mode_of};
ghost use Rattle.iot_exec.specs.Operands.{path_operand, word_operand};

use crate::asking::Asking;
use crate::endings::{Reason, Stop, Success};
use crate::env::Env;
use crate::kept::KeptFiles;
use iot_lang::{Command, Switch, Word};
use iot_text::{Path, Text};
use iot_tree::{Blob, Duplicate, Mode};

/// The mode to which a file is switched.
fn mode_of(switch: Switch) -> Mode
    ensures { result ≡ mode_of switch }
{
    match switch {
        Switch::On => Mode::On,
        Switch::Off => Mode::Off,
    }
}

impl<'t> Asking<'t> {
    /// Does a command but for its update, its lines and its variable.
    pub(crate) fn command(
        &mut self,
        env: &Env,
        kept: &KeptFiles,
        command: &Command,
    ) -> Result<Success, Stop>
        ensures { Ends self.old (table (kept_files kept.now) env.now command.now) self.new result }
    {
        match command {
            Command::Echo(word) => self.echo(env.word(self.alloc, word)?),
            Command::Set(variable, word) => self.set(env, variable, word),
            Command::Read(variable, path) => self.read(variable, &env.path(self.alloc, path)?),
            Command::MakeDir(path) => self.make_dir(env.path(self.alloc, path)?),
            Command::RemoveDir(path) => self.remove_dir(env.path(self.alloc, path)?),
            Command::Remove(path) => self.remove_file(env.path(self.alloc, path)?),
            Command::Write(path, word) => self.write_word(env, path, word),
            Command::Append(path, word) => self.append_word(env, path, word),
            Command::Copy(from, to) => self.copy_words(env, from, to),
            Command::Concat(to, first, second) => self.concat_words(env, to, first, second),
            Command::Move(from, to) => self.move_words(env, from, to),
            Command::Cat(path) => self.print(&env.path(self.alloc, path)?),
            Command::List(path) => self.list_names(&env.path(self.alloc, path)?),
            Command::Chmod(switch, path) => {
                self.change_mode(mode_of(*switch), env.path(self.alloc, path)?)
            }
            Command::Keep(from, to) => self.keep_words(env, kept, from, to),
        }
    }

    /// `set X W`
    fn set(&self, env: &Env, variable: &Text, word: &Word) -> Result<Success, Stop>
        ensures { Ends self.now (given (word_operand env.now word.now) (λ value. sets variable.now value)) self.now result }
    {
        let value = env.word(self.alloc, word)?;
        Ok(Success::Sets(variable.copy(self.alloc)?, value))
    }

    /// `write P W`, by its words.
    fn write_word(&mut self, env: &Env, path: &Word, word: &Word) -> Result<Success, Stop>
        ensures { Ends self.old
            (given (path_operand env.now path.now) (λ path. given (word_operand env.now word.now) (write path)))
            self.new result }
    {
        let path = env.path(self.alloc, path)?;
        let bytes = Blob::from_vec(env.word(self.alloc, word)?.into_bytes())?;
        self.write(path, bytes)
    }

    /// `append P W`, by its words.
    fn append_word(&mut self, env: &Env, path: &Word, word: &Word) -> Result<Success, Stop>
        ensures { Ends self.old
            (given (path_operand env.now path.now) (λ path. given (word_operand env.now word.now) (append path)))
            self.new result }
    {
        let path = env.path(self.alloc, path)?;
        match env.lent(word) {
            Some(more) => self.append(path, more),
            None => self.append(path, env.word(self.alloc, word)?.as_bytes()),
        }
    }

    /// `copy P Q`, by its words.
    fn copy_words(&mut self, env: &Env, from: &Word, to: &Word) -> Result<Success, Stop>
        ensures { Ends self.old
            (given (path_operand env.now from.now) (λ from. given (path_operand env.now to.now) (copy from)))
            self.new result }
    {
        let from = env.path(self.alloc, from)?;
        self.copy(&from, env.path(self.alloc, to)?)
    }

    /// `concat Q P1 P2`, by its words.
    fn concat_words(
        &mut self,
        env: &Env,
        to: &Word,
        first: &Word,
        second: &Word,
    ) -> Result<Success, Stop>
        ensures { Ends self.old
            (given (path_operand env.now to.now) (λ to. given (path_operand env.now first.now) (λ first.
            given (path_operand env.now second.now) (concat to first))))
            self.new result }
    {
        let to = env.path(self.alloc, to)?;
        let first = env.path(self.alloc, first)?;
        self.concat(to, &first, &env.path(self.alloc, second)?)
    }

    /// `mv P Q`, by its words.
    fn move_words(&mut self, env: &Env, from: &Word, to: &Word) -> Result<Success, Stop>
        ensures { Ends self.old
            (given (path_operand env.now from.now) (λ from. given (path_operand env.now to.now) (move from)))
            self.new result }
    {
        let from = env.path(self.alloc, from)?;
        self.move_to(from, env.path(self.alloc, to)?)
    }

    /// `keep P Q`, by its words.
    fn keep_words(
        &mut self,
        env: &Env,
        kept: &KeptFiles,
        from: &Word,
        to: &Word,
    ) -> Result<Success, Stop>
        ensures { Ends self.old
            (given (path_operand env.now from.now) (λ from.
            given (path_operand env.now to.now) (keep (kept_files kept.now) from)))
            self.new result }
    {
        let from = env.path(self.alloc, from)?;
        self.keep(kept, &from, env.path(self.alloc, to)?)
    }

    /// `keep P Q`
    fn keep(&mut self, kept: &KeptFiles, from: &Path, to: Path) -> Result<Success, Stop>
        ensures { Ends self.old (keep (kept_files kept.now) from.now to) self.new result }
    {
        match kept.get(from) {
            Some(bytes) => {
                let copy = bytes.copy(self.alloc)?;
                self.write(to, copy)
            }
            None => Err(self.fail(from, Reason::NothingKept)),
        }
    }
}
