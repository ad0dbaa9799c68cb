//! Counts of faults. They make a cause visible: "the input could not be read" is said only if the count of the source's
//! faults rose.
#![tactic(auto)]

mod counter;

pub use counter::Count;
