//! Statements in blocks.
use crate::words::{Command, Cond, Word};
use iot_text::Text;
use std::marker::Model;

/// Statements in order. Contracts see a block as its `Code`.
#[cycle(script)]
#[derive(Debug, Drop)]
pub struct Block {
    statements: Vec<Stmt>,
}

/// One statement.
#[cycle(script)]
#[derive(Debug, Drop)]
pub enum Stmt {
    /// A command.
    Do(Command),

    /// `stop`: ends the script.
    Stop,

    /// `if C {` .. `}`, or with `} else {` .. `}`.
    If {
        condition: Cond,
        body: Block,
        otherwise: Option<Block>,
    },

    /// `for X in P {` .. `}`
    For {
        variable: Text,
        path: Word,
        body: Block,
    },
}

impl Model for Block {
    ghost use Rattle.iot_lang.specs.Code.{Code, coded_code, size_of};

    ghost Value = { Code };

    ghost coded = { coded_code };

    ghost use Rattle.iot_lang.specs.Blocks.{code_of_statements};

    ghost view = { λ b. code_of_statements b.statements.items };

    ghost size = { size_of };

    ghost use Rattle.std.proofs.Common.{arith};
    ghost use Rattle.iot_lang.specs.Falls.{falls};

    ghost size_decreases = { λ a h. omega (arith, falls a.statements.items) };
}

impl Block {
    ghost use Rattle.std.specs.Prelude.{◌≡◌};
    ghost use Rattle.iot_lang.specs.Blocks.{code_of_statements};

    pub(crate) fn of(statements: Vec<Stmt>) -> Block
        ensures { result ≡ code_of_statements statements.items }
    {
        Block { statements }
    }

    /// The statements, in order.
    pub fn statements(&self) -> &[Stmt]
        ensures { code_of_statements result.now ≡ self.now }
    {
        &self.statements
    }
}
