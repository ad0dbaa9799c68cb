//! Frames.
ghost use Rattle.std.specs.Prelude.{◌≡◌, ◌≤◌, ◌<◌, List, ℕ, length, vec_len, IfOk, IfErr};
ghost use Rattle.std.specs.Io.KnownBytes.{Appends, IsAtEnd};
ghost use Rattle.iot_io.specs.ReadAll.{Took};
ghost use Rattle.iot_records.specs.Bytes.{number, number_in};
ghost use Rattle.iot_keep_app.specs.Frames.{frame, FrameEnds, IsFilledBefore, WriteEnds};
ghost use Rattle.iot_keep_app.specs.Status.{SinkCounts, SourceCounts};

use crate::ServeFault;
use iot_io::{Sink, Source, read_front, write_all, zeros};
use iot_records::number_at;
use std::alloc::Global;

/// The most bytes that a frame has after its number.
pub const FRAME_LIMIT: u64 = 268_435_456;

/// The most bytes that one read asks for.
const CHUNK: usize = 65536;

/// How many bytes the number of a frame has.
const DIGITS: usize = 8;

/// The bytes of the next frame, or none if the input ends before it.
///
/// # Errors
///
/// `Cut` if the input ends inside the frame, and `TooLong` if the frame has more than `FRAME_LIMIT` bytes, of which none is taken then.
/// `ReadFailed`, and `NoMemory`.
pub(crate) fn read_frame<S: Source>(
    alloc: Global,
    source: &mut S,
) -> Result<Option<Vec<u8>>, ServeFault>
    ensures frame { FrameEnds (Took S.left S.taken source.old source.new) (IsAtEnd (S.left source.new)) result }
    ensures faults { SourceCounts result (record { before = S.faults source.old; after = S.faults source.new }) }
{
    let digits = fill(alloc, source, DIGITS)?;
    if digits.is_empty() {
        return Ok(None);
    }
    if digits.len() < DIGITS {
        return Err(ServeFault::Cut);
    }
    let count = count_in(&digits);
    if count > FRAME_LIMIT {
        return Err(ServeFault::TooLong);
    }
    let count = count as usize;
    let bytes = fill(alloc, source, count)?;
    if bytes.len() < count {
        return Err(ServeFault::Cut);
    }
    Ok(Some(bytes))
}

/// The number that these eight bytes spell.
fn count_in(digits: &[u8]) -> u64
    requires { length digits.now ≡ 8 }
    ensures number { result ≡ number_in digits.now }
    ensures spelled { number result ≡ digits.now }
{
    number_at(digits, 0)
}

/// The next bytes of the input: so many, or fewer if it ends. It takes memory only for what has come.
fn fill<S: Source>(alloc: Global, source: &mut S, most: usize) -> Result<Vec<u8>, ServeFault>
    ensures took { IfOk result (λ bytes. Took S.left S.taken source.old source.new bytes.items) }
    ensures within { IfOk result (λ bytes. vec_len bytes ≤ most) }
    ensures end { IfOk result (λ bytes. vec_len bytes < most → IsAtEnd (S.left source.new)) }
    ensures prefix { IfErr result (λ fault. (bytes : List ℕ)
        × Took S.left S.taken source.old source.new bytes
        × IsFilledBefore fault most (length bytes)) }
    ensures faults { SourceCounts result (record { before = S.faults source.old; after = S.faults source.new }) }
{
    let mut chunk = zeros(alloc, most.min(CHUNK))?;
    let mut bytes = Vec::new(alloc);
    while bytes.len() < most {
        let room = (most - bytes.len()).min(CHUNK);
        let count = read_front(source, &mut chunk, room)?;
        if count == 0 {
            return Ok(bytes);
        }
        bytes.extend_from_slice(&chunk[..count])?;
    }
    Ok(bytes)
}

/// Writes the frame of these bytes.
///
/// # Errors
///
/// `WriteFailed` if a write failed or took nothing. A front of the frame is written then.
pub(crate) fn write_frame<K: Sink>(sink: &mut K, bytes: &[u8]) -> Result<(), ServeFault>
    ensures wrote { WriteEnds (Appends (K.written sink.old) (K.written sink.new)) (frame bytes.now) result }
    ensures faults { SinkCounts result
        (record { before = K.faults sink.old; after = K.faults sink.new })
        (record { before = K.empties sink.old; after = K.empties sink.new }) }
{
    write_piece(sink, &(bytes.len() as u64).to_be_bytes())?;
    write_piece(sink, bytes)
}

/// Writes these bytes.
fn write_piece<K: Sink>(sink: &mut K, bytes: &[u8]) -> Result<(), ServeFault>
    ensures wrote { WriteEnds (Appends (K.written sink.old) (K.written sink.new)) bytes.now result }
    ensures faults { SinkCounts result
        (record { before = K.faults sink.old; after = K.faults sink.new })
        (record { before = K.empties sink.old; after = K.empties sink.new }) }
{
    match write_all(sink, bytes) {
        Ok(()) => Ok(()),
        Err(_) => Err(ServeFault::WriteFailed),
    }
}
