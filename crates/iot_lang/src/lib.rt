//! The language of scripts: what a script is, how one is parsed and how it is printed.
#![tactic(auto)]

mod blocks;
mod bytes;
mod faults;
mod keywords;
mod lines;
mod nesting;
mod parsing;
mod pieces;
mod printing;
mod scripts;
mod statements;
mod words;

pub use blocks::{Block, Stmt};
pub use bytes::VARIABLE_LIMIT;
pub use faults::LangFault;
pub use iot_text::NoMemory;
pub use nesting::DEPTH_LIMIT;
pub use parsing::parse;
pub use printing::print;
pub use scripts::Script;
pub use words::{Command, Cond, Piece, Switch, Word};
