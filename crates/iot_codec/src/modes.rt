//! Modes of files.
ghost use Rattle.iot_views.specs.Decoding.{mode_at};
ghost use Rattle.iot_views.specs.Rules.{IsMode};
ghost use Rattle.iot_codec.specs.Spelling.{mode_spelling};
ghost use Rattle.iot_codec.specs.Laws.Modes.{mode_laws};

use crate::CodecFault;
use crate::spelled::Spelled;
use iot_text::{NoMemory, Text};
use iot_tree::Mode;
use iot_views::mode_at;
use std::alloc::Global;

impl Spelled for Mode {
    ghost has_spelling = { IsMode };

    ghost spelling = { mode_spelling };

    ghost decoding = { mode_at };

    #[tactic(auto, unfolding(crate::specs::Spelling::mode_spelling))]
    fn put(&self, out: &mut Text) -> Result<(), NoMemory> {
        out.push(match self {
            Mode::Off => 0,
            Mode::On => 1,
        })
    }

    fn read(_alloc: Global, bytes: &[u8], at: usize) -> Result<(Mode, usize), CodecFault> {
        Ok(mode_at(bytes, at)?)
    }

    ghost laws = { mode_laws };
}
