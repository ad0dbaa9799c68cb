//! Values as bytes: the one spelling of each, and decoding it.
//!
//! A number is 8 bytes, most significant first. Bytes are their number and then the bytes, a list
//! is the number of its elements and then the elements, and a tag is one byte. The calls `put_..`
//! append the spelling of a value to a text. The calls `read_..` go from an offset to the right, in
//! one pass, and answer the first fault that they meet.
#![tactic(auto)]

mod access;
mod acts;
mod answers;
mod budgets;
mod changes;
mod children;
mod contents;
mod faults;
mod files;
mod known;
mod labels;
mod lines;
mod lists;
mod modes;
mod names;
mod nodes;
mod numbers;
mod options;
mod parts;
mod paths;
mod piece;
mod profiles;
mod questions;
mod reads;
mod rising;
mod spelled;
mod tables;
mod trees;
mod updates;
mod walks;
mod wants;

pub use access::{put_access, read_access};
pub use acts::{put_act, put_acts, read_act, read_acts};
pub use answers::{put_answer, read_answer};
pub use budgets::{put_budget, read_budget};
pub use changes::{put_changes, put_known, read_changes, read_known};
pub use contents::{put_contents, read_contents};
pub use faults::CodecFault;
pub use files::{put_files, read_files};
pub use iot_views::{
    AccessView, ActView, AnswerView, BaseView, BaseViews, ChildViews, FileViews, LabelView,
    LineViews, Malformed, NameViews, PathView, QuestionView, ReadView, ReadViews, UpdateView,
    UpdateViews,
};
pub use known::read_known_beside;
pub use labels::{put_label, read_label};
pub use lines::{put_line, put_lines, read_line, read_lines};
pub use lists::{put_list, read_list};
pub use names::{put_name, read_name};
pub use nodes::{put_node, read_node};
pub use numbers::{put_number, read_number};
pub use options::{put_option, read_option};
pub use paths::{put_path, read_path};
pub use profiles::{put_profile, read_profile};
pub use questions::{put_question, read_question};
pub use reads::{put_reads, read_reads};
pub use rising::{put_paths, read_paths};
pub use spelled::{Spelled, read};
pub use trees::{put_tree, read_tree};
pub use updates::{put_optional_update, put_update, read_optional_update, read_update};
pub use walks::{put_walk_limit, read_walk_limit};
pub use wants::{put_want, read_want};
