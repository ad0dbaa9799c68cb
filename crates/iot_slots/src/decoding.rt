//! How the bytes of a disk are decoded.
ghost use Rattle.std.specs.Prelude.{◌≡◌, ◌≤◌, ◌<◌, ◌+◌, ◌^◌, false, true, length, IfOk, IfErr, IfSome, IfNone, IsErrOf};
ghost use Rattle.iot_records.specs.Bytes.{number_at as spelled_at};
ghost use Rattle.iot_slots.specs.Cells.{chosen, in_force};
ghost use Rattle.iot_slots.specs.Decoding.{NotStarted, decoded, is_foreign, is_checkpoint, state_in};
ghost use Rattle.iot_slots.specs.Layouts.{IsLaidOut, named_in};
ghost use Rattle.iot_slots.specs.Start.{IsReason};
ghost use Rattle.iot_slots.specs.declared.cell.Force.TheVariants.{Is};

use crate::layout::REST;
use crate::version::place_named;
use crate::{Cell, Force, Layout, Version};
use iot_disk::{LIMIT, StartFault};
use iot_records::{OPEN, RecordViews, lend_records, number_at};

/// What the bytes of a disk encode, lent out of them.
#[derive(Drop)]
pub struct SlotsView<'a> {
    /// Where the parts are.
    pub layout: Layout,
    /// The body of the checkpoint in force.
    pub body: &'a [u8],
    /// The records after it.
    pub records: RecordViews<'a>,
}

impl<'a> SlotsView<'a> {
    /// Lends what these bytes encode; none if they are those of a disk that is not started. Takes no memory.
    ///
    /// # Errors
    ///
    /// `Foreign` if something else wrote them, `Damaged` with the place of what is cut short; `NoMemory` if they are more
    /// than 2^62, which no disk is.
    pub fn of(header: &[u8; 8], bytes: &'a [u8]) -> Result<Option<SlotsView<'a>>, StartFault>
        ensures some { IfOk result (λ found. IfSome found (λ view. IsLaidOut header.now bytes.now
            (state_in view.layout.version view.body.now view.records view.layout.count) view.layout)) }
        ensures none { IfOk result (λ found. IfNone found (decoded header.now bytes.now ≡ NotStarted)) }
        ensures err { IfErr result (λ fault. IsReason fault (decoded header.now bytes.now)) }
        ensures no_memory { IsErrOf result StartFault.NoMemory → 2 ^ 62 < length bytes.now }
    {
        if bytes.len() as u64 > LIMIT {
            return Err(StartFault::NoMemory);
        }
        if has_other_header(header, bytes) {
            return Err(StartFault::Foreign);
        }
        match force(bytes) {
            Force::NoCell => Ok(None),
            Force::Clash => Err(StartFault::Damaged { at: 26 }),
            Force::Is(cell) => {
                let view = lend_cell(header, bytes, cell)?;
                Ok(Some(view))
            }
        }
    }
}

/// Whether something else wrote these bytes.
fn has_other_header(header: &[u8; 8], bytes: &[u8]) -> bool
    ensures { result ≡ is_foreign header.now bytes.now }
{
    bytes.len() >= 9 && bytes[0] == OPEN && !bytes[1..].starts_with(header)
}

/// Which cell is in force.
fn force(bytes: &[u8]) -> Force
    ensures { result ≡ in_force bytes.now }
{
    if bytes.len() < REST as usize || bytes[0] != OPEN {
        return Force::NoCell;
    }
    choose(
        bytes[9] == OPEN,
        bytes[26] == OPEN,
        number_at(bytes, 10),
        number_at(bytes, 27),
    )
}

/// Which cell is in force, by the gates and the generations of both.
fn choose(first: bool, second: bool, one: u64, two: u64) -> Force
    ensures { result ≡ chosen first second one two }
{
    match (first, second) {
        (false, false) => Force::NoCell,
        (true, false) => Force::Is(Cell::First),
        (false, true) => Force::Is(Cell::Second),
        (true, true) => {
            if one == two.wrapping_add(1) {
                Force::Is(Cell::First)
            } else if two == one.wrapping_add(1) {
                Force::Is(Cell::Second)
            } else {
                Force::Clash
            }
        }
    }
}

/// The place that a cell names, if its gate is open.
fn named_by(bytes: &[u8], cell: Cell) -> Option<u64>
    requires { 43 ≤ length bytes.now }
    ensures { result ≡ named_in bytes.now cell }
{
    let at = cell.at() as usize;
    if bytes[at] == OPEN {
        Some(place_named(number_at(bytes, at + 9)))
    } else {
        None
    }
}

/// The number of bytes of the body of the checkpoint at this place, if a whole one is there.
fn checkpoint_size(bytes: &[u8], place: u64) -> Option<usize>
    requires { length bytes.now ≤ 2 ^ 62 }
    ensures some { IfSome result (λ size. is_checkpoint place bytes.now ≡ true) }
    ensures size { IfSome result (λ size. size ≡ spelled_at bytes.now place) }
    ensures none { IfNone result (is_checkpoint place bytes.now ≡ false) }
{
    let left = (bytes.len() as u64).saturating_sub(place);
    if place < REST || left < 17 {
        return None;
    }
    let size = number_at(bytes, place as usize);
    if size < left - 16 {
        Some(size as usize)
    } else {
        None
    }
}

/// Lends the checkpoint of the cell in force, and the records after it.
fn lend_cell<'a>(header: &[u8; 8], bytes: &'a [u8], cell: Cell) -> Result<SlotsView<'a>, StartFault>
    requires native { is_foreign header.now bytes.now ≡ false }
    requires force { in_force bytes.now ≡ Is cell }
    requires room { 43 ≤ length bytes.now }
    requires limit { length bytes.now ≤ 2 ^ 62 }
    ensures ok { IfOk result (λ view. IsLaidOut header.now bytes.now
        (state_in view.layout.version view.body.now view.records view.layout.count) view.layout) }
    ensures err { IfErr result (λ fault. IsReason fault (decoded header.now bytes.now)) }
    ensures no_memory { IsErrOf result StartFault.NoMemory → ⊥ }
{
    let at = cell.at();
    let number = number_at(bytes, at as usize + 9);
    let place = place_named(number);
    let Some(size) = checkpoint_size(bytes, place) else {
        return Err(StartFault::Damaged { at });
    };
    let start = place as usize + 8;
    let first = start + size + 8;
    let found = lend_records(&bytes[first..], first as u64)?;
    let layout = Layout {
        version: Version::named(number),
        cell,
        generation: number_at(bytes, at as usize + 1),
        place,
        first: first as u64,
        gate: found.gate,
        other: named_by(bytes, cell.other()),
        count: number_at(bytes, start + size).wrapping_add(found.count),
    };
    Ok(SlotsView {
        layout,
        body: &bytes[start..start + size],
        records: found.records,
    })
}
