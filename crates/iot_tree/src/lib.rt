//! The tree of files and directories: questions, answers and updates.
#![tactic(auto)]

mod access;
mod acts;
mod blob;
mod changes;
mod children;
mod duplicate;
mod faults;
mod grown;
mod kinds;
mod labels;
mod limits;
mod moves;
mod nodes;
mod places;
mod profile;
mod questions;
mod rows;
mod sequence;
mod tree;
mod updates;
mod want;

pub use access::{Access, Places};
pub use acts::{Act, Acts, Lines, Read, Reads};
pub use blob::Blob;
pub use changes::{Changes, Known, StampedRows};
pub use children::count_within;
pub use duplicate::Duplicate;
pub use faults::RowFault;
pub use kinds::Kind;
pub use labels::{Files, Label, Labels, OnConflict, Way};
pub use limits::{ACT_LIMIT, CONTENTS_LIMIT, PRIORITY_LIMIT, WALK_LIMIT, WISH_LIMIT};
pub use nodes::{Mode, Node, Paths, Rows};
pub use places::place_of;
pub use profile::{Profile, Reach, Wish};
pub use questions::{Answer, Children, Question};
pub use sequence::Sequence;
pub use tree::Tree;
pub use updates::{Update, Updates};
pub use want::Want;
