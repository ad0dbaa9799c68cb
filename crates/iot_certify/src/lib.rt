//! Certification: whether what a transaction read still holds on another tree.
#![tactic(auto)]

mod access;
mod acts;
mod asking;
mod children;
mod places;
mod prefix;
mod reads;
mod updates;
mod verdict;
mod views;

pub use access::certify;
pub use acts::certify_acts;
pub use prefix::longest;
pub use verdict::Verdict;
pub use views::certify_view;
