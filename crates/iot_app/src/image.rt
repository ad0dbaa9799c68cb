//! Writing an image of a server's disk: as a text, or as a disk of version 2.
ghost use Rattle.std.specs.Prelude.{◌≡◌, IfOk, IfErr};
ghost use Rattle.std.specs.Io.KnownBytes.{Appends, IsAtEnd};
ghost use Rattle.iot_io.specs.ReadAll.{Took};
ghost use Rattle.iot_app.specs.Images.{Says, Showed, damaged_line};
ghost use Rattle.iot_app.specs.Job.{ImageShows};
ghost use Rattle.iot_store.specs.Images.{IsRefusal};
ghost use Rattle.iot_app.specs.Status.{SinkCounts, SourceCounts};

use crate::input::InputFault;
use crate::refusing::refuse;
use crate::status::Status;
use crate::writing::write_text;
use iot_disk::MemDisk;
use iot_image::show_image;
use iot_io::{Sink, Source, read_all};
use iot_store::{ImageFault, Store};
use iot_text::{NoMemory, Text};
use std::alloc::Global;

/// How many bytes an image has at most.
pub const IMAGE_LIMIT: usize = 268_435_456;

/// What an image is written as.
#[derive(Clone, Copy)]
pub(crate) enum Telling {
    /// A text that tells the tree and the commits.
    Text,

    /// A disk of version 2 that was just started with the same state.
    Disk,
}

/// Reads the source to its end as an image, and writes it so, or the line that says why it is none.
pub(crate) fn show_source<S: Source, K: Sink>(
    alloc: Global,
    telling: Telling,
    source: &mut S,
    sink: &mut K,
) -> Status
    ensures showed { Showed (Took S.left S.taken source.old source.new) (IsAtEnd (S.left source.new))
        telling (Appends (K.written sink.old) (K.written sink.new)) result }
    ensures source_faults { SourceCounts result (record { before = S.faults source.old; after = S.faults source.new }) }
    ensures sink_faults { SinkCounts result
        (record { before = K.faults sink.old; after = K.faults sink.new })
        (record { before = K.empties sink.old; after = K.empties sink.new }) }
{
    match read_all(alloc, source, IMAGE_LIMIT) {
        Ok(bytes) => show_bytes(alloc, telling, &bytes, sink),
        Err(fault) => refuse(alloc, InputFault::from(fault), sink),
    }
}

/// Writes these bytes so, or why they are none.
fn show_bytes<K: Sink>(alloc: Global, telling: Telling, bytes: &[u8], sink: &mut K) -> Status
    ensures { ImageShows telling bytes.now result
        (Appends (K.written sink.old) (K.written sink.new))
        (record { before = K.faults sink.old; after = K.faults sink.new })
        (record { before = K.empties sink.old; after = K.empties sink.new }) }
{
    match tell(alloc, telling, bytes) {
        Ok(text) => write_text(sink, &text, Status::Done),
        Err(ImageFault::NoMemory) => Status::NoMemory,
        Err(ImageFault::Foreign) => write_text(sink, b"image: foreign\n", Status::Refused),
        Err(ImageFault::Damaged { at }) => match damaged_line(alloc, at) {
            Ok(text) => write_text(sink, text.as_bytes(), Status::Refused),
            Err(_) => Status::NoMemory,
        },
    }
}

/// What an image is written as.
fn tell(alloc: Global, telling: Telling, image: &[u8]) -> Result<Vec<u8>, ImageFault>
    ensures says { IfOk result (λ text. Says telling image.now text.items) }
    ensures cause { IfErr result (IsRefusal image.now) }
{
    match telling {
        Telling::Text => Ok(show_image(alloc, image)?.into_bytes()),
        // Every store reads images in the same way, whatever its disk.
        Telling::Disk => Store::<MemDisk>::upgrade(alloc, image),
    }
}

/// The line that says where an image is damaged.
fn damaged_line(alloc: Global, at: u64) -> Result<Text, NoMemory>
    ensures { IfOk result (λ text. text ≡ damaged_line at) }
{
    let mut text = Text::new(alloc);
    text.append(b"image: damaged at ")?;
    text.append_number(at)?;
    text.push(b'\n')?;
    Ok(text)
}
