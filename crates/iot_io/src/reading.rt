//! Reading a source to its end.
ghost use Rattle.std.specs.Prelude.{◌≡◌, ℕ, ◌≤◌, ◌<◌, List, [], length, take, vec_len, IfSome, IfOk, IfErr, OnOk, OnErr, IsErrOf};
ghost use Rattle.std.specs.Prelude.{MatchResult};
ghost use Rattle.std.specs.Io.KnownBytes.{IsAtEnd};
ghost use Rattle.iot_count.specs.Counts.{Rose};
ghost use Rattle.iot_io.specs.ReadAll.{Took, IsTakenBefore, CountsReadFault};

use super::faults::{Failed, ReadFault};
use super::traits::Source;
use std::alloc::{AllocError, Global};

/// The most bytes that one read asks for.
const CHUNK: usize = 65536;

/// All bytes that are left in the source, if they are at most `limit`.
///
/// It answers `TooLong` as soon as it has taken one byte more, so an input without an end is refused
/// too. With a fault the bytes that were taken are lost.
pub fn read_all<S: Source>(
    alloc: Global,
    source: &mut S,
    limit: usize,
) -> Result<Vec<u8>, ReadFault>
    ensures all { IfOk result (λ bytes. IfSome (S.left source.old) (λ left. bytes.items ≡ left)) }
    ensures took { IfOk result (λ bytes. Took S.left S.taken source.old source.new bytes.items) }
    ensures end { OnOk result (IsAtEnd (S.left source.new)) }
    ensures within { IfOk result (λ bytes. vec_len bytes ≤ limit) }
    ensures steady { OnOk result (S.faults source.new ≡ S.faults source.old) }

    // A fault comes after a prefix, which is longer than the limit exactly at `TooLong`, and the count of faults rose
    // exactly at `Failed`.
    ensures too_long { IsErrOf result ReadFault.TooLong
        → IfSome (S.left source.old) (λ left. limit < length left) }
    ensures prefix { IfErr result (λ fault. (bytes : List ℕ)
        × Took S.left S.taken source.old source.new bytes
        × IsTakenBefore fault limit (length bytes)) }
    ensures cause { IfErr result (λ fault.
        CountsReadFault fault (S.faults source.old) (S.faults source.new)) }
{
    let mut chunk = zeros(alloc, CHUNK)?;
    let mut bytes = Vec::new(alloc);
    loop {
        let room = limit - bytes.len();
        let most = room.min(CHUNK - 1) + 1;
        let count = read_front(source, &mut chunk, most)?;
        if count == 0 {
            return Ok(bytes);
        }
        if count > room {
            return Err(ReadFault::TooLong);
        }
        bytes.extend_from_slice(&chunk[..count])?;
    }
}

/// So many zeros.
pub fn zeros(alloc: Global, count: usize) -> Result<Vec<u8>, AllocError>
    ensures { IfOk result (λ bytes. vec_len bytes ≡ count) }
{
    vec![in alloc; 0; count]
}

/// One read of at most so many bytes into the front of the chunk.
pub fn read_front<S: Source>(source: &mut S, chunk: &mut [u8], most: usize) -> Result<usize, Failed>
    requires { most ≤ length chunk.old }
    ensures bound { IfOk result (λ n. n ≤ most) }
    ensures took { MatchResult result
        (λ n. Took S.left S.taken source.old source.new (take n chunk.new))
        (λ _. Took S.left S.taken source.old source.new []) }
    ensures end { IfOk result (λ n. n ≡ 0 → 0 < most → IsAtEnd (S.left source.new)) }
    ensures steady { OnOk result (S.faults source.new ≡ S.faults source.old) }
    ensures failed { OnErr result (Rose (S.faults source.old) (S.faults source.new)) }
{
    source.read(&mut chunk[..most])
}
