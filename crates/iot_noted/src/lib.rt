//! A disk over what a file is asked: a record of that, which no memory holds, says what the file may hold after a kill or a power cut.
#![tactic(auto)]

mod calls;
mod host;
mod noted;
mod record;
#[cfg(test)]
mod tests;

pub use calls::Calls;
pub use host::Host;
pub use noted::Noted;
pub use record::Record;
