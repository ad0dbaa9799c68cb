//! What the earlier runs have recorded.
ghost use Rattle.std.specs.Prelude.{◌≡◌, IfOk, IfErr, OnOk};
ghost use Rattle.std.specs.List.{concat};
ghost use Rattle.iot_history.specs.Past.{GivesSome, IsNoPast, marks_in};

use crate::status::Status;
use iot_disk::Bodies;
use iot_event::{EventFault, parse};
use std::alloc::{AllocError, Global};

/// What is recorded.
#[derive(Drop)]
pub(crate) struct Past {
    /// The texts of all inputs, one after another.
    pub(crate) text: Vec<u8>,

    /// How many pieces of the transcript are marked as said: the first is that of the opening, and then each event has one.
    pub(crate) pieces: usize,
}

/// What these bodies are of earlier runs.
pub(crate) fn past_of(alloc: Global, bodies: &Bodies) -> Result<Past, Status>
    ensures text { IfOk result (λ past. past.text.items ≡ concat bodies.now) }
    ensures pieces { IfOk result (λ past. past.pieces ≡ marks_in bodies.now) }
    ensures gives { OnOk result (GivesSome bodies.now) }
    ensures none { IfErr result (λ status. IsNoPast bodies.now status) }
{
    let text = match joined(alloc, bodies) {
        Ok(text) => text,
        Err(_) => return Err(Status::NoMemory),
    };
    match parse(alloc, &text) {
        Ok(_) => (),
        Err(EventFault::NoMemory) => return Err(Status::NoMemory),
        Err(_) => return Err(Status::NoHistory),
    }
    let pieces = count_marks(bodies);
    Ok(Past { text, pieces })
}

/// How many of these bodies are marks: all but the texts.
fn count_marks(bodies: &Bodies) -> usize
    ensures { result ≡ marks_in bodies.now }
{
    let mut marks = bodies.len();
    'bodies: for body in bodies.iter() {
        if !body.is_empty() {
            marks -= 1;
        }
    }
    marks
}

/// Bodies, one after another.
fn joined(alloc: Global, bodies: &Bodies) -> Result<Vec<u8>, AllocError>
    ensures { IfOk result (λ bytes. bytes.items ≡ concat bodies.now) }
{
    let mut bytes = Vec::new(alloc);
    'bodies: for body in bodies.iter() {
        bytes.extend_from_slice(body)?;
    }
    Ok(bytes)
}
