//! Scripts that were declared.
use iot_event::SharedScript;
use iot_text::Name;

/// A script that was declared.
#[derive(Drop)]
pub struct DeclaredScript {
    pub name: Name,
    pub script: SharedScript,
}
