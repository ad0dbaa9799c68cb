//! The acts of a run have spellings. This crate has no code: only the definitions and laws that crates above cite.
#![tactic(auto)]
