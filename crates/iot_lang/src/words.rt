//! Words, and the statements that hold words alone.
use iot_text::Text;
use std::marker::Model;

/// A part of a word.
#[derive(Debug, Drop)]
pub enum Piece {
    /// Bytes that mean themselves.
    Plain(Text),

    /// The bytes that a quoted text means.
    Quoted(Text),

    /// The name of a variable, without its `$`.
    Var(Text),
}

/// One or more pieces side by side. Contracts see it as the list of its pieces.
#[derive(Debug, Drop)]
pub struct Word {
    pieces: Vec<Piece>,
}

impl Model for Word {
    ghost use Rattle.std.specs.Prelude.{List};
    ghost use Rattle.iot_lang.specs.declared.words.Piece.{Piece};

    ghost Value = { List Piece };

    ghost view = { λ w. w.pieces.items };
}

impl Word {
    ghost use Rattle.std.specs.Prelude.{◌≡◌};

    /// The pieces, in order.
    pub fn pieces(&self) -> &[Piece]
        ensures { result.now ≡ self.now }
    {
        &self.pieces
    }

    pub(crate) fn of(pieces: Vec<Piece>) -> Word
        ensures { result ≡ pieces.items }
    {
        Word { pieces }
    }
}

/// What an `if` asks.
#[derive(Debug, Drop)]
pub enum Cond {
    /// `file P`: whether a file is there.
    File(Word),

    /// `dir P`: whether a directory is there.
    Dir(Word),

    /// `exec P`: whether an executable file is there.
    Exec(Word),

    /// `same P Q`: whether two files have the same contents.
    Same(Word, Word),

    /// `ok`: whether the last command or `for` succeeded.
    Ok,
}

/// How `chmod` switches the mode of a file.
#[derive(Clone, Copy, Debug, PartialEq, Eq)]
pub enum Switch {
    /// `-x` switches it off.
    Off,

    /// `+x` switches it on.
    On,
}

/// A statement that is no `if`, `for` or `stop`, with its operands in order.
#[derive(Debug, Drop)]
pub enum Command {
    /// `echo W`
    Echo(Word),

    /// `set X W`
    Set(Text, Word),

    /// `read X P`
    Read(Text, Word),

    /// `mkdir P`
    MakeDir(Word),

    /// `rmdir P`
    RemoveDir(Word),

    /// `rm P`
    Remove(Word),

    /// `write P W`
    Write(Word, Word),

    /// `append P W`
    Append(Word, Word),

    /// `copy P Q`
    Copy(Word, Word),

    /// `concat Q P1 P2`
    Concat(Word, Word, Word),

    /// `mv P Q`
    Move(Word, Word),

    /// `cat P`
    Cat(Word),

    /// `ls P`
    List(Word),

    /// `keep P Q`
    Keep(Word, Word),

    /// `chmod +x P` or `chmod -x P`
    Chmod(Switch, Word),
}
