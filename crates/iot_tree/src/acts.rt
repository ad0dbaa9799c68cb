//! What a transaction did, act by act.
use crate::{Answer, Question, Sequence, Update};
use iot_text::Text;

/// A question with the answer that it got.
#[derive(Drop)]
pub struct Read {
    pub question: Question,
    pub answer: Answer,
}

/// A list of reads.
pub type Reads = Sequence<Read>;

/// Lines of text.
pub type Lines = Sequence<Text>;

/// One act of a script: what it asked in turn, its change if it made one, and what it printed.
#[derive(Drop)]
pub struct Act {
    pub reads: Reads,
    pub update: Option<Update>,
    pub lines: Lines,
}

/// A list of acts.
pub type Acts = Sequence<Act>;
