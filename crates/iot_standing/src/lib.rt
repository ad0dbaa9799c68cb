//! Which client of the plain machine the state of a client stands for, live and as it is kept on a disk: definitions and laws.
#![tactic(auto)]
