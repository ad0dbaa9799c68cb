//! Values that are lent out of the bytes that spell them.
//!
//! The calls `at` look at a spelling once, from an offset to the right, and lend what it holds; the first fault that they meet is the
//! one that the call which reads the value answers. A list is lent as an iterator over its elements. Nothing here takes memory.
#![tactic(auto)]

mod access;
mod acts;
mod children;
mod labels;
mod lists;
mod modes;
mod names;
mod parts;
mod questions;
mod updates;

pub use access::{AccessView, BaseView, BaseViews, bases_at};
pub use acts::{ActView, LineViews, lines_at};
pub use children::{ChildViews, kind_at};
pub use labels::{FileViews, LabelView, label_at, way_at};
pub use lists::{Lent, Views};
pub use modes::mode_at;
pub use names::{NameViews, PathView};
pub use parts::{
    Malformed, at_most, bytes_at, contents_at, fault_at, from_to, line_at, number_at, tag_at,
};
pub use questions::{AnswerView, QuestionView, ReadView, ReadViews};
pub use updates::{UpdateView, UpdateViews};
