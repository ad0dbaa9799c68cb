//! The lines of a text and the words of a line, one at a time and without memory.
#![tactic(auto)]

mod lines;
mod words;

pub use lines::{SplitLines, split_line, split_lines};
pub use words::{
    SplitWords, front_word, is_blank, is_skipped, next_word, split_words, without_blanks,
};
