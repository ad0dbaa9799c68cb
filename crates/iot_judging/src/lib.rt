//! What certification says of the runs of the plain machine's clients, which trees have spellings, what lists of commits make, and which
//! bytes encode them: definitions and laws.
#![tactic(auto)]

mod laws;

pub use laws::a_run_is_told_by_its_access;
