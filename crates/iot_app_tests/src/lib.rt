//! The tests of what is read and run as a whole, apart from those of the libraries, so that these need no proof when it changes.
#![tactic(auto)]

#[cfg(test)]
mod faults;
#[cfg(test)]
mod fixtures;
#[cfg(test)]
mod images;
#[cfg(test)]
mod jobs;
#[cfg(test)]
mod runs;
#[cfg(test)]
mod worlds;
