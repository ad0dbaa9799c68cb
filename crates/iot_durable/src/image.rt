//! The state for which the bytes of a disk stand, without the disk.
ghost use Rattle.std.specs.Prelude.{◌≡◌, ℕ, IfOk, IfErr, MatchResult};
ghost use Rattle.iot_slots.specs.Decoding.{Foreign, decoded};
ghost use Rattle.iot_durable.specs.Causes.{IsRefusal, SaysDamaged, SaysForeign, TakesBytes};
ghost use Rattle.iot_durable.specs.Damage.{IsDamagedAt};
ghost use Rattle.iot_durable.specs.Standing.{IsNew, StandFor, StandWith, header_of};

use crate::Recorded;
use crate::replay::replay;
use iot_disk::StartFault;
use iot_slots::{SlotsView, spell_started};
use iot_text::{NoMemory, Text};
use std::alloc::Global;

/// The most bytes that a body has which a disk of at most 2^62 bytes has room for, and others beside it.
const ROOM: usize = 1 << 61;

/// A state for which bytes stand.
#[derive(Drop)]
pub struct Found<R> {
    pub state: R,

    /// How many records were ever appended to them, modulo 2^64.
    pub count: u64,
}

/// The state for which these bytes stand, as a start from a disk that reads as them gives it: that of the checkpoint after its records,
/// or the opening state if nothing was started there. The records are read where they stand.
///
/// # Errors
///
/// `Foreign` if something else wrote the bytes, and `Damaged` with the place of what is cut short, spells nothing, or cannot follow
/// what comes before it. `NoMemory`. Never `Stopped`, since there is no disk that could fail.
pub fn read_image<R: Recorded>(alloc: Global, bytes: &[u8]) -> Result<Found<R>, StartFault>
    ensures stands { IfOk result (λ found. StandWith R.rules bytes.now found.count (R.kept found.state)) }

    // The bytes stand for no other state. If they stand for one, they are not refused.
    ensures only { (state : R.Kept) → StandFor R.rules bytes.now state → IfOk result (λ found. R.kept found.state ≡ state) }
    ensures never { (state : R.Kept) → StandFor R.rules bytes.now state → IfErr result TakesBytes }
    ensures sound { IfOk result (λ found. R.IsSound found.state) }
    ensures fresh { IfOk result (λ found. R.IsFresh found.state) }

    // What something else wrote, and what is damaged, is refused for that, unless memory runs out.
    ensures foreign { decoded (header_of R.rules) bytes.now ≡ Foreign → MatchResult result (λ _. ⊥) SaysForeign }
    ensures damaged { (at : ℕ) → IsDamagedAt R.rules bytes.now at → MatchResult result (λ _. ⊥) (SaysDamaged at) }
    ensures cause { IfErr result (λ fault. IsRefusal R.rules fault bytes.now) }
{
    match SlotsView::of(&R::header(), bytes)? {
        Some(view) => {
            let state = replay(
                alloc,
                view.layout.version,
                view.body,
                view.records,
                view.layout.place,
                view.layout.first,
            )?;
            Ok(Found {
                state,
                count: view.layout.count,
            })
        }
        None => Ok(Found {
            state: R::opening(alloc)?,
            count: 0,
        }),
    }
}

/// Spells a disk that was just started with a checkpoint of this state, after so many records.
pub fn spell_disk<R: Recorded>(alloc: Global, state: &R, count: u64) -> Result<Vec<u8>, NoMemory>
    requires { R.IsSound state.now }
    ensures new { IfOk result (λ bytes. IsNew R.rules (R.kept state.now) count bytes.items) }
    ensures stands { IfOk result (λ bytes. StandWith R.rules bytes.items count (R.kept state.now)) }
{
    let mut body = Text::new(alloc);
    state.spell(&mut body)?;
    if body.len() > ROOM {
        return Err(NoMemory);
    }
    Ok(spell_started(alloc, &R::header(), body.as_bytes(), count)?)
}
