//! The tests of what the program does not use yet, of bytes that were written by hand, and of the lines that the page for embedders
//! quotes. They say what no proof can: that a call with ample memory gives its answer, what a record looks like, and what is left after
//! a device call that failed.
#![tactic(auto)]

#[cfg(test)]
mod accesses;
#[cfg(test)]
mod certifies;
#[cfg(test)]
mod embeds;
#[cfg(test)]
mod execs;
#[cfg(test)]
mod fixtures;
#[cfg(test)]
mod histories;
#[cfg(test)]
mod journals;
#[cfg(test)]
mod langs;
#[cfg(test)]
mod prunes;
#[cfg(test)]
mod refreshes;
#[cfg(test)]
mod requests;
#[cfg(test)]
mod slots;
#[cfg(test)]
mod stamps;
#[cfg(test)]
mod trees;
#[cfg(test)]
mod twins;
#[cfg(test)]
mod versions;
#[cfg(test)]
mod views;
