//! What each command does.
ghost use Rattle.std.specs.Prelude.{◌≡◌, ◌++◌, ◌+◌, length, IfOk};
ghost use Rattle.iot_exec.specs.Asking.{Passes, Ends};
ghost use Rattle.iot_exec.specs.Operands.{is_too_large};
ghost use Rattle.iot_acts.specs.Paths.{is_at_or_below};
ghost use Rattle.iot_exec.specs.Commands.{echo, cat, read, list_names, write, make_dir, append, copy, concat, remove_file, remove_dir};
ghost use Rattle.iot_exec.specs.Commands.{change_mode, move, move_target, dir_target, new_dir};

use crate::asking::Asking;
use crate::endings::{Reason, Stop, Success};
use crate::lines::{lines_of, name_lines};
use iot_text::{NoMemory, Path, Text};
use iot_tree::{Answer, Blob, CONTENTS_LIMIT, Kind, Mode, Question, Update};
use std::alloc::Global;

/// Both contents joined.
fn joined(alloc: Global, one: &[u8], two: &[u8]) -> Result<Blob, NoMemory>
    ensures { IfOk result (λ both. both ≡ one.now ++ two.now) }
{
    let mut both = Vec::with_capacity(alloc, one.len() + two.len())?;
    both.extend_from_slice(one)?;
    both.extend_from_slice(two)?;
    Blob::from_vec(both)
}

/// Whether both contents together have more bytes than a file may have.
fn are_too_large(one: &[u8], two: &[u8]) -> bool
    ensures { result ≡ is_too_large (length one.now + length two.now) }
{
    one.len() > CONTENTS_LIMIT || two.len() > CONTENTS_LIMIT - one.len()
}

/// Whether the path is the other, or lies below it.
fn is_at_or_below(path: &Path, other: &Path) -> bool
    ensures { result ≡ is_at_or_below path.now other.now }
{
    path == other || path.is_below(other)
}

impl<'t> Asking<'t> {
    /// Wants a path that a directory can be made at.
    fn new_directory(&mut self, path: &Path) -> Result<(), Stop>
        ensures { Passes self.old (new_dir path.now) self.new result }
    {
        match self.kind(path)? {
            Kind::IsDir | Kind::IsFile => Err(self.fail(path, Reason::Exists)),
            Kind::Away => Err(self.fail(path, Reason::NotCached)),
            Kind::Absent => self.in_directory(path),
        }
    }

    /// `echo W`
    pub(crate) fn echo(&self, mut text: Text) -> Result<Success, Stop>
        ensures { Ends self.now (echo text) self.now result }
    {
        text.push(b'\n')?;
        Ok(Success::Prints(lines_of(self.alloc, text.as_bytes())?))
    }

    /// `cat P`
    pub(crate) fn print(&mut self, path: &Path) -> Result<Success, Stop>
        ensures { Ends self.old (cat path.now) self.new result }
    {
        let bytes = self.contents(path)?;
        Ok(Success::Prints(lines_of(self.alloc, bytes)?))
    }

    /// `read X P`
    pub(crate) fn read(&mut self, variable: &Text, path: &Path) -> Result<Success, Stop>
        ensures { Ends self.old (read variable.now path.now) self.new result }
    {
        let bytes = self.contents(path)?;
        let value = Text::from(Vec::from_slice(self.alloc, bytes)?);
        Ok(Success::Sets(variable.copy(self.alloc)?, value))
    }

    /// `ls P`
    pub(crate) fn list_names(&mut self, path: &Path) -> Result<Success, Stop>
        ensures { Ends self.old (list_names path.now) self.new result }
    {
        self.names(path)?;
        Ok(Success::Prints(name_lines(self.alloc, self.listed())?))
    }

    /// `mkdir P`
    pub(crate) fn make_dir(&mut self, path: Path) -> Result<Success, Stop>
        ensures { Ends self.old (make_dir path) self.new result }
    {
        self.new_directory(&path)?;
        Ok(Success::Makes(Update::MakeDir(path)))
    }

    /// `write P W`
    pub(crate) fn write(&mut self, path: Path, bytes: Blob) -> Result<Success, Stop>
        ensures { Ends self.old (write path bytes) self.new result }
    {
        self.target(&path)?;
        Ok(Success::Makes(Update::Put(path, bytes)))
    }

    /// `append P W`
    pub(crate) fn append(&mut self, path: Path, more: &[u8]) -> Result<Success, Stop>
        ensures { Ends self.old (append path more.now) self.new result }
    {
        let bytes = self.contents(&path)?;
        if are_too_large(bytes, more) {
            return Err(self.fail(&path, Reason::TooLarge));
        }
        let both = joined(self.alloc, bytes, more)?;
        Ok(Success::Makes(Update::Put(path, both)))
    }

    /// `copy P Q`
    pub(crate) fn copy(&mut self, from: &Path, to: Path) -> Result<Success, Stop>
        ensures { Ends self.old (copy from.now to) self.new result }
    {
        let bytes = self.contents(from)?;
        let copy = Blob::from_vec(Vec::from_slice(self.alloc, bytes)?)?;
        self.write(to, copy)
    }

    /// `concat Q P1 P2`
    pub(crate) fn concat(&mut self, to: Path, first: &Path, second: &Path) -> Result<Success, Stop>
        ensures { Ends self.old (concat to first.now second.now) self.new result }
    {
        let one = self.contents(first)?;
        let two = self.contents(second)?;
        if are_too_large(one, two) {
            return Err(self.fail(&to, Reason::TooLarge));
        }
        let both = joined(self.alloc, one, two)?;
        self.write(to, both)
    }

    /// `rm P`
    pub(crate) fn remove_file(&mut self, path: Path) -> Result<Success, Stop>
        ensures { Ends self.old (remove_file path) self.new result }
    {
        match self.kind(&path)? {
            Kind::IsFile => Ok(Success::Makes(Update::Remove(path))),
            Kind::IsDir => Err(self.fail(&path, Reason::IsDirectory)),
            Kind::Absent => Err(self.fail(&path, Reason::NoFile)),
            Kind::Away => Err(self.fail(&path, Reason::NotCached)),
        }
    }

    /// `rmdir P`
    pub(crate) fn remove_dir(&mut self, path: Path) -> Result<Success, Stop>
        ensures { Ends self.old (remove_dir path) self.new result }
    {
        if path.names().is_empty() {
            return Err(self.fail(&path, Reason::IsRoot));
        }
        self.empty_directory(&path)?;
        Ok(Success::Makes(Update::Remove(path)))
    }

    /// `chmod +x P` or `chmod -x P`
    pub(crate) fn change_mode(&mut self, mode: Mode, path: Path) -> Result<Success, Stop>
        ensures { Ends self.old (change_mode mode path) self.new result }
    {
        let question = Question::Mode(path.copy(self.alloc)?);
        let answer = self.tree.answer(self.alloc, &question)?;
        let found = match answer {
            Answer::On | Answer::Off => Ok(()),
            Answer::Absent => Err(Reason::NoFile),
            _ => Err(Reason::NotCached),
        };
        self.record(question, answer)?;
        match found {
            Ok(()) => Ok(Success::Makes(Update::SetMode(path, mode))),
            Err(reason) => Err(self.fail(&path, reason)),
        }
    }

    /// `mv P Q`
    pub(crate) fn move_to(&mut self, from: Path, to: Path) -> Result<Success, Stop>
        ensures { Ends self.old (move from to) self.new result }
    {
        if is_at_or_below(&to, &from) {
            return Err(self.fail(&to, Reason::IntoItself));
        }
        self.move_target(&from, &to)?;
        Ok(Success::Makes(Update::Move(from, to)))
    }

    /// Wants something at the first path that can be moved to the second.
    fn move_target(&mut self, from: &Path, to: &Path) -> Result<(), Stop>
        ensures { Passes self.old (move_target from.now to.now) self.new result }
    {
        match self.kind(from)? {
            Kind::IsFile => self.target(to),
            Kind::IsDir => self.directory_target(to),
            Kind::Absent => Err(self.fail(from, Reason::NoSuchPath)),
            Kind::Away => Err(self.fail(from, Reason::NotCached)),
        }
    }

    /// Wants a path that a directory can be moved to.
    fn directory_target(&mut self, to: &Path) -> Result<(), Stop>
        ensures { Passes self.old (dir_target to.now) self.new result }
    {
        match self.kind(to)? {
            Kind::IsFile => Err(self.fail(to, Reason::IsNoDirectory)),
            Kind::IsDir => self.empty_directory(to),
            Kind::Absent => self.in_directory(to),
            Kind::Away => Err(self.fail(to, Reason::NotCached)),
        }
    }
}
