//! Laws of the plain machine: a commit that is in the server's list is never lost, and a transcript tells of each commit and each stop.
//! There is no code here: each function's contract is a law, and proved of every machine.
#![tactic(auto)]

pub mod laws;
