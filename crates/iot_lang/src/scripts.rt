//! Scripts: blocks that some lines spell.
use crate::blocks::Block;
use std::marker::Model;

/// A script, which some lines spell: its blocks nest at most 16 deep, and its
/// words and names are well-formed. Contracts see it as its `Code`.
#[derive(Debug, Drop)]
pub struct Script {
    block: Block,
}

impl Model for Script {
    ghost use Rattle.iot_lang.specs.Code.{Code, coded_code};

    ghost Value = { Code };

    ghost coded = { coded_code };

    ghost use Rattle.iot_lang.specs.Scripts.{IsScript};

    ghost view = { λ s. s.block };

    ghost invariant = { λ s. IsScript s.block };
}

impl Script {
    ghost use Rattle.std.specs.Prelude.{◌≡◌};
    ghost use Rattle.iot_lang.specs.Scripts.{IsScript};

    /// The script of a block that is one.
    pub(crate) fn of(block: Block) -> Script
        requires { IsScript block }
        ensures { result ≡ block }
    {
        Script { block }
    }

    /// The script's statements.
    pub fn block(&self) -> &Block
        ensures value { result.now ≡ self.now }
        ensures script { IsScript self.now }
    {
        &self.block
    }
}
