//! Where the parts of a disk are.
ghost use Rattle.std.specs.Prelude.{◌≡◌, ◌≤◌, ◌+◌, ◌^◌};
ghost use Rattle.iot_slots.specs.Layouts.{renewed_layout, fresh_layout, reaches};

use crate::{Cell, Version};

/// The offset after the cells.
pub const REST: u64 = 43;

/// How many bytes are to be free between a checkpoint at `REST` and the place in force.
pub const SPARE: u64 = 2_097_152;

/// How many bytes the records after a checkpoint may have together before the next one is due.
pub const MANY: u64 = 1_048_576;

/// Where the parts of a started disk are.
#[derive(Clone, Copy, Debug)]
pub struct Layout {
    /// In which version the checkpoint in force and the records after it are spelled.
    pub version: Version,
    /// The cell in force.
    pub cell: Cell,
    pub generation: u64,
    /// The offset of its checkpoint.
    pub place: u64,
    /// The gate after the checkpoint.
    pub first: u64,
    /// The closed gate after the records.
    pub gate: u64,
    /// The place that the other cell names, if its gate is open.
    pub other: Option<u64>,
    /// The number of records ever appended, modulo 2^64.
    pub count: u64,
}

impl Layout {
    /// A disk that was just started, with a body of so many bytes.
    pub fn fresh(size: u64) -> Layout
        requires { size ≤ 2 ^ 63 }
        ensures { result ≡ fresh_layout size }
    {
        let gate = REST + 16 + size;
        Layout {
            version: Version::Two,
            cell: Cell::First,
            generation: 1,
            place: REST,
            first: gate,
            gate,
            other: None,
            count: 0,
        }
    }

    /// A disk of this length after one more checkpoint, with a body of so many bytes.
    pub fn renewed(&self, length: u64, size: u64) -> Layout
        requires length { length ≤ 2 ^ 62 }
        requires size { size ≤ 2 ^ 63 }
        ensures { result ≡ renewed_layout self.now length size }
    {
        let place = if REST + 16 + size + SPARE <= self.place {
            REST
        } else {
            length
        };
        let gate = place + 16 + size;
        Layout {
            version: Version::Two,
            cell: self.cell.other(),
            generation: self.generation.wrapping_add(1),
            place,
            first: gate,
            gate,
            other: Some(self.place),
            count: self.count,
        }
    }

    /// Whether an append of a body of so many bytes would reach the place that the other cell names.
    pub fn reaches_other(&self, size: u64) -> bool
        requires { self.now.gate ≤ 2 ^ 62 }
        ensures { result ≡ reaches self.now.place (self.now.gate + 10 + size) self.now.other }
    {
        match self.other {
            Some(other) => {
                let end = self.gate + 10;
                other > self.place && (other < end || other - end < size)
            }
            None => false,
        }
    }
}
