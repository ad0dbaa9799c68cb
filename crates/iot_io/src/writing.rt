//! Writing all of a text to a sink.
ghost use Rattle.std.specs.Prelude.{◌≡◌, ℕ, ◌<◌, take, length, IfErr, OnOk, OnErr};
ghost use Rattle.std.specs.Io.KnownBytes.{Appends};
ghost use Rattle.iot_io.specs.WriteAll.{CountsSinkFault, CountsEmptyWrite};

use super::faults::SinkFault;
use super::traits::Sink;

/// Writes all the bytes, in as many writes as the sink needs. Does not allocate.
///
/// It ends at the first write that fails or takes nothing. A prefix is written then.
pub fn write_all<K: Sink>(sink: &mut K, bytes: &[u8]) -> Result<(), SinkFault>
    ensures ok { OnOk result (Appends (K.written sink.old) (K.written sink.new) bytes.now) }
    ensures steady { OnOk result (K.faults sink.new ≡ K.faults sink.old) }
    ensures none_empty { OnOk result (K.empties sink.new ≡ K.empties sink.old) }

    // A fault comes after a prefix, and each of the two counts rose exactly at its own fault.
    ensures prefix { OnErr result ((n : ℕ) × (n < length bytes.now)
        × Appends (K.written sink.old) (K.written sink.new) (take n bytes.now)) }
    ensures cause { IfErr result (λ fault.
        CountsSinkFault fault (K.faults sink.old) (K.faults sink.new)) }
    ensures empty { IfErr result (λ fault.
        CountsEmptyWrite fault (K.empties sink.old) (K.empties sink.new)) }
{
    let mut done = 0;
    while done < bytes.len() {
        let count = sink.write(&bytes[done..])?;
        if count == 0 {
            return Err(SinkFault::TookNothing);
        }
        done += count;
    }
    Ok(())
}
