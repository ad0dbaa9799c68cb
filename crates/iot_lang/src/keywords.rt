//! The first words of lines, the switches of `chmod`, and the words of conditions.
ghost use Rattle.std.specs.Prelude.{◌≡◌};
ghost use Rattle.iot_lang.specs.Keywords.{keyword_at, switch_at, test_at, with_one, with_two, with_variable};

use crate::words::{Command, Switch, Word};
use iot_text::Text;

/// The commands that take one word.
#[derive(Clone, Copy)]
pub(crate) enum One {
    Echo,
    MakeDir,
    RemoveDir,
    Remove,
    Cat,
    List,
}

/// The commands that take two words.
#[derive(Clone, Copy)]
pub(crate) enum Two {
    Write,
    Append,
    Copy,
    Move,
    Keep,
}

/// The commands that take a variable's name and a word.
#[derive(Clone, Copy)]
pub(crate) enum Named {
    Set,
    Read,
}

/// What the first word of a line names.
#[derive(Clone, Copy)]
pub(crate) enum Keyword {
    One(One),
    Two(Two),
    Named(Named),
    Concat,
    Chmod,
    If,
    For,
    Stop,
    Close,
}

/// What the first word of a condition names.
#[derive(Clone, Copy)]
pub(crate) enum Test {
    File,
    Dir,
    Exec,
    Same,
    Ok,
}

impl One {
    /// The command with this operand.
    pub(crate) fn with(self, word: Word) -> Command
        ensures { result ≡ with_one self word }
    {
        match self {
            One::Echo => Command::Echo(word),
            One::MakeDir => Command::MakeDir(word),
            One::RemoveDir => Command::RemoveDir(word),
            One::Remove => Command::Remove(word),
            One::Cat => Command::Cat(word),
            One::List => Command::List(word),
        }
    }
}

impl Two {
    /// The command with these operands.
    pub(crate) fn with(self, first: Word, second: Word) -> Command
        ensures { result ≡ with_two self first second }
    {
        match self {
            Two::Write => Command::Write(first, second),
            Two::Append => Command::Append(first, second),
            Two::Copy => Command::Copy(first, second),
            Two::Move => Command::Move(first, second),
            Two::Keep => Command::Keep(first, second),
        }
    }
}

impl Named {
    /// The command with these operands.
    pub(crate) fn with(self, variable: Text, word: Word) -> Command
        ensures { result ≡ with_variable self variable word }
    {
        match self {
            Named::Set => Command::Set(variable, word),
            Named::Read => Command::Read(variable, word),
        }
    }
}

/// What the first word of a line names, if anything.
pub(crate) fn keyword_of(word: &[u8]) -> Option<Keyword>
    ensures { result ≡ keyword_at word.now }
{
    match word {
        b"echo" => Some(Keyword::One(One::Echo)),
        b"mkdir" => Some(Keyword::One(One::MakeDir)),
        b"rmdir" => Some(Keyword::One(One::RemoveDir)),
        b"rm" => Some(Keyword::One(One::Remove)),
        b"cat" => Some(Keyword::One(One::Cat)),
        b"ls" => Some(Keyword::One(One::List)),
        b"write" => Some(Keyword::Two(Two::Write)),
        b"append" => Some(Keyword::Two(Two::Append)),
        b"copy" => Some(Keyword::Two(Two::Copy)),
        b"mv" => Some(Keyword::Two(Two::Move)),
        b"keep" => Some(Keyword::Two(Two::Keep)),
        b"set" => Some(Keyword::Named(Named::Set)),
        b"read" => Some(Keyword::Named(Named::Read)),
        b"concat" => Some(Keyword::Concat),
        b"chmod" => Some(Keyword::Chmod),
        b"if" => Some(Keyword::If),
        b"for" => Some(Keyword::For),
        b"stop" => Some(Keyword::Stop),
        b"}" => Some(Keyword::Close),
        _ => None,
    }
}

/// The switch that is written like this, if any.
pub(crate) fn switch_of(word: &[u8]) -> Option<Switch>
    ensures { result ≡ switch_at word.now }
{
    match word {
        b"-x" => Some(Switch::Off),
        b"+x" => Some(Switch::On),
        _ => None,
    }
}

/// What the first word of a condition names, if anything.
pub(crate) fn test_of(word: &[u8]) -> Option<Test>
    ensures { result ≡ test_at word.now }
{
    match word {
        b"file" => Some(Test::File),
        b"dir" => Some(Test::Dir),
        b"exec" => Some(Test::Exec),
        b"same" => Some(Test::Same),
        b"ok" => Some(Test::Ok),
        _ => None,
    }
}
