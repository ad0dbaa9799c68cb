//! Modes of files.
ghost use Rattle.iot_views.specs.Outcomes.{IsLent};
ghost use Rattle.iot_views.specs.Decoding.{mode_at};

use crate::parts::{Malformed, fault_at, tag_at};
use iot_tree::Mode;

/// The mode of a file, and the offset after it.
#[tactic(auto, unfolding(crate::specs::Decoding::mode_at))]
pub fn mode_at(bytes: &[u8], at: usize) -> Result<(Mode, usize), Malformed>
    ensures { IsLent (λ mode. mode) result (mode_at bytes.now at) }
{
    match tag_at(bytes, at) {
        Some(0) => Ok((Mode::Off, at + 1)),
        Some(1) => Ok((Mode::On, at + 1)),
        _ => Err(fault_at(at)),
    }
}
