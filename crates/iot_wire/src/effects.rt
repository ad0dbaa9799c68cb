//! What a commit changes, copied out of the bytes that ask for it.
ghost use Rattle.iot_codec.specs.Outcomes.{IsOutcome};
ghost use Rattle.iot_wire.specs.Decoding.{effects_at};

use iot_codec::{CodecFault, read_label, read_list};
use iot_tree::{Label, Update, Updates};
use iot_views::bases_at;
use std::alloc::Global;

/// What a commit changes of a server: its label comes to the others, and its updates are made.
#[derive(Drop)]
pub struct Effects {
    pub label: Label,
    pub updates: Updates,
}

/// Reads the label and the updates of the commit that is spelled at the offset, and gives the offset after them. Its base reads are
/// looked at, and not copied.
#[tactic(auto, unfolding(crate::specs::Decoding::effects_at))]
pub(crate) fn read_effects(
    alloc: Global,
    bytes: &[u8],
    at: usize,
) -> Result<(Effects, usize), CodecFault>
    ensures { IsOutcome result (effects_at bytes.now at) }
{
    let (label, at) = read_label(alloc, bytes, at)?;
    let (_, at) = bases_at(bytes, at)?;
    let (updates, end) = read_list::<Update>(alloc, bytes, at)?;
    Ok((Effects { label, updates }, end))
}
