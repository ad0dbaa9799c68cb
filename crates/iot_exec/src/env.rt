//! What a script keeps beside the tree.
ghost use Rattle.std.specs.Prelude.{◌≡◌, ◌++◌, ◌≤◌, length, Ok, OnOk, IfOk, IfSome};
ghost use Rattle.iot_exec.specs.Values.{fresh, with_variable, piece_value, word_value};
ghost use Rattle.iot_text.specs.Paths.{path_of};
ghost use Rattle.iot_exec.specs.Operands.{OrNoMemory, word_operand, path_operand, path_or_bad};

use crate::endings::{Refusal, Stop};
use crate::variables::Variables;
use iot_lang::{Piece, Word};
use iot_text::{NoMemory, Path, Text, TextFault};
use iot_tree::CONTENTS_LIMIT;
use std::alloc::Global;

/// What a script keeps beside the tree: the variables that are set, and whether its last command or `for` succeeded.
#[derive(Drop)]
pub struct Env {
    pub(crate) variables: Variables,
    pub(crate) ok: bool,
}

impl Env {
    /// No variable is set, and all is well. Does not allocate.
    pub(crate) fn new(alloc: Global) -> Env
        ensures { result ≡ fresh }
    {
        Env {
            variables: Variables::new(alloc),
            ok: true,
        }
    }

    /// Sets a variable.
    pub(crate) fn set(&mut self, name: Text, value: Text) -> Result<(), NoMemory>
        ensures { OnOk result (self.new ≡ with_variable name value self.old) }
    {
        self.variables.set(name, value)
    }

    /// The value of a piece, lent. Does not allocate.
    fn piece<'e>(&'e self, piece: &'e Piece) -> &'e [u8]
        ensures { result.now ≡ piece_value self.now piece.now }
    {
        match piece {
            Piece::Plain(text) | Piece::Quoted(text) => text.as_bytes(),
            Piece::Var(name) => match self.variables.get(name) {
                Some(value) => value.as_bytes(),
                None => &[],
            },
        }
    }

    /// The value of a word that is a single piece and not too large, lent. Does not allocate.
    pub(crate) fn lent<'e>(&'e self, word: &'e Word) -> Option<&'e [u8]>
        ensures { IfSome result (λ bytes. word_operand self.now word.now ≡ Ok bytes.now) }
    {
        let [piece] = word.pieces() else {
            return None;
        };
        let value = self.piece(piece);
        if value.len() > CONTENTS_LIMIT {
            return None;
        }
        Some(value)
    }

    /// The value of a word, or its refusal as too large.
    pub(crate) fn word(&self, alloc: Global, word: &Word) -> Result<Text, Stop>
        ensures { OrNoMemory result (word_operand self.now word.now) }
    {
        let mut value = Text::new(alloc);
        'pieces: for piece in word.pieces() {
            value.append(self.piece(piece))?;
            if value.len() > CONTENTS_LIMIT {
                return Err(Stop::Refused(Refusal::TooLarge));
            }
        }
        Ok(value)
    }

    /// The path whose text is the value of a word, or the refusal of the word.
    pub(crate) fn path(&self, alloc: Global, word: &Word) -> Result<Path, Stop>
        ensures { OrNoMemory result (path_operand self.now word.now) }
    {
        if let Some(text) = self.lent(word) {
            return parse_path(alloc, text);
        }
        let text = self.word(alloc, word)?;
        parse_path(alloc, text.as_bytes())
    }
}

/// The path of the text, or its refusal.
fn parse_path(alloc: Global, text: &[u8]) -> Result<Path, Stop>
    ensures { OrNoMemory result (path_or_bad (path_of text.now)) }
{
    match Path::parse(alloc, text) {
        Ok(path) => Ok(path),
        Err(TextFault::NoMemory) => Err(Stop::NoMemory),
        Err(_) => Err(Stop::Refused(Refusal::BadPath)),
    }
}
