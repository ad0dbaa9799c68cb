//! The two cells that name a checkpoint.
ghost use Rattle.std.specs.Prelude.{◌≡◌};
ghost use Rattle.iot_slots.specs.Cells.{cell_at, other_of};

/// One of the two cells.
#[derive(Clone, Copy, Debug, PartialEq, Eq)]
pub enum Cell {
    First,
    Second,
}

/// Which cell is in force.
#[derive(Clone, Copy, Debug, PartialEq, Eq)]
pub enum Force {
    /// No gate is open.
    NoCell,
    /// Both gates are open, and neither generation is the one after the other.
    Clash,
    Is(Cell),
}

impl Cell {
    /// The offset of its gate.
    pub fn at(self) -> u64
        ensures { result ≡ cell_at self }
    {
        match self {
            Cell::First => 9,
            Cell::Second => 26,
        }
    }

    /// The other one.
    pub fn other(self) -> Cell
        ensures { result ≡ other_of self }
    {
        match self {
            Cell::First => Cell::Second,
            Cell::Second => Cell::First,
        }
    }
}
