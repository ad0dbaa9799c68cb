//! Conditions and the names of loops.
ghost use Rattle.std.specs.Prelude.{◌≡◌, IfOk, OnOk, map};
ghost use Rattle.std.specs.Option.{option_copied};
ghost use Rattle.iot_lang.specs.declared.words.Cond.TheVariants.{Same};
ghost use Rattle.iot_tree.specs.Questions.{content_of};
ghost use Rattle.iot_exec.specs.Plans.{Done};
ghost use Rattle.iot_exec.specs.Asking.{asked, Leads, Ends};
ghost use Rattle.iot_exec.specs.Commands.{truth, is_file_at, is_dir_at, is_on_at, are_same_at, path_if_any, name_of, turns};

use crate::asking::Asking;
use crate::endings::Stop;
use crate::env::Env;
use iot_lang::{Cond, Word};
use iot_text::{Name, NoMemory, Path};
use iot_tree::{Answer, Blob, Kind, Question, Sequence};
use std::alloc::Global;

/// The path whose text is the value of a word, if there is one.
pub(crate) fn path_of(alloc: Global, env: &Env, word: &Word) -> Result<Option<Path>, NoMemory>
    ensures { IfOk result (λ path. path ≡ path_if_any env.now word.now) }
{
    match env.path(alloc, word) {
        Ok(path) => Ok(Some(path)),
        Err(Stop::Refused(_)) => Ok(None),
        Err(Stop::NoMemory) => Err(NoMemory),
    }
}

impl<'t> Asking<'t> {
    /// Whether the condition holds.
    pub(crate) fn holds(&mut self, env: &Env, condition: &Cond) -> Result<bool, NoMemory>
        ensures { IfOk result (λ holds. Leads self.old (truth env.now condition.now) self.new (Done holds)) }
    {
        match condition {
            Cond::File(path) => match path_of(self.alloc, env, path)? {
                Some(path) => self.is_file(&path),
                None => Ok(false),
            },
            Cond::Dir(path) => match path_of(self.alloc, env, path)? {
                Some(path) => self.is_dir(&path),
                None => Ok(false),
            },
            Cond::Exec(path) => match path_of(self.alloc, env, path)? {
                Some(path) => self.is_on(&path),
                None => Ok(false),
            },
            Cond::Same(first, second) => self.are_same_words(env, first, second),
            Cond::Ok => Ok(env.ok),
        }
    }

    /// Whether the paths of two words are those of files with the same contents.
    fn are_same_words(&mut self, env: &Env, first: &Word, second: &Word) -> Result<bool, NoMemory>
        ensures { IfOk result (λ holds. Leads self.old (truth env.now (Same first.now second.now)) self.new (Done holds)) }
    {
        let Some(first) = path_of(self.alloc, env, first)? else {
            return Ok(false);
        };
        let Some(second) = path_of(self.alloc, env, second)? else {
            return Ok(false);
        };
        self.are_same(&first, &second)
    }

    /// Whether a file is at the path.
    fn is_file(&mut self, path: &Path) -> Result<bool, NoMemory>
        ensures { IfOk result (λ holds. Leads self.old (is_file_at path.now) self.new (Done holds)) }
    {
        Ok(matches!(self.kind(path)?, Kind::IsFile))
    }

    /// Whether a directory is at the path.
    fn is_dir(&mut self, path: &Path) -> Result<bool, NoMemory>
        ensures { IfOk result (λ holds. Leads self.old (is_dir_at path.now) self.new (Done holds)) }
    {
        Ok(matches!(self.kind(path)?, Kind::IsDir))
    }

    /// Whether a file whose mode is on is at the path.
    fn is_on(&mut self, path: &Path) -> Result<bool, NoMemory>
        ensures { IfOk result (λ holds. Leads self.old (is_on_at path.now) self.new (Done holds)) }
    {
        let question = Question::Mode(path.copy(self.alloc)?);
        let answer = self.tree.answer(self.alloc, &question)?;
        let is_on = matches!(answer, Answer::On);
        self.record(question, answer)?;
        Ok(is_on)
    }

    /// Whether two files have the same contents.
    fn are_same(&mut self, first: &Path, second: &Path) -> Result<bool, NoMemory>
        ensures { IfOk result (λ holds. Leads self.old (are_same_at first.now second.now) self.new (Done holds)) }
    {
        let one = self.content(first)?;
        let two = self.content(second)?;
        match (one, two) {
            (Some(one), Some(two)) => Ok(one == two),
            _ => Ok(false),
        }
    }

    /// The contents of a file, if they are known, lent out of the tree.
    fn content(&mut self, path: &Path) -> Result<Option<&'t Blob>, NoMemory>
        ensures content { IfOk result (λ bytes. option_copied bytes ≡ content_of self.old.tree.now path.now) }
        ensures asked { OnOk result (self.new ≡ asked self.old (Question.Content path.now)) }
    {
        let bytes = self.file(path);
        match bytes {
            Some(bytes) => self.record_contents(path, bytes)?,
            None => {
                self.no_contents(path)?;
            }
        }
        Ok(bytes)
    }

    /// The names that a loop goes through.
    pub(crate) fn turns(&mut self, env: &Env, path: &Word) -> Result<Sequence<Name>, Stop>
        ensures { Ends self.old (turns env.now path.now) self.new result }
    {
        let path = env.path(self.alloc, path)?;
        self.names(&path)?;
        Ok(names_of(self.alloc, self.listed())?)
    }
}

/// The names without their kinds.
fn names_of(alloc: Global, children: &[(Name, Kind)]) -> Result<Sequence<Name>, NoMemory>
    ensures { IfOk result (λ names. names ≡ map name_of children.now) }
{
    let mut names = Vec::with_capacity(alloc, children.len())?;
    'names: for (name, _kind) in children {
        names.push(*name)?;
    }
    Ok(Sequence::from_vec(names))
}
