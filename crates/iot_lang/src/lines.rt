//! The lines of a script, one by one.
use crate::words::{Command, Cond, Word};
use iot_text::Text;

/// What one line says, if it is neither empty nor a comment.
#[derive(Drop)]
pub(crate) enum Line {
    /// A command.
    Do(Command),

    /// `stop`
    Stop,

    /// `if C {`
    If(Cond),

    /// `for X in P {`
    For(Text, Word),

    /// `} else {`
    Else,

    /// `}`
    Close,
}
