//! Tables: lists of pairs whose keys rise.
ghost use Rattle.std.specs.Prelude.{◌≡◌, ◌++◌, length, OnOk, OnErr, IfOk, None};
ghost use Rattle.std.specs.Option.{option_copied};
ghost use Rattle.iot_text.specs.Texts.{AppendsPart};
ghost use Rattle.iot_codec.specs.Outcomes.{IsOutcome};
ghost use Rattle.iot_views.specs.Decoding.{pair_at, table_at};
ghost use Rattle.iot_views.specs.Decoders.{items_at};
ghost use Rattle.iot_views.specs.Rules.{rises};
ghost use Rattle.iot_codec.specs.Spelling.{pair_spelling, table_spelling};

use crate::CodecFault;
use crate::parts::{malformed, room_for};
use crate::spelled::Spelled;
use iot_text::{NoMemory, Text};
use iot_tree::Sequence;
use iot_views::number_at;
use std::alloc::Global;

/// Appends a pair: the key, and then the value.
fn put_pair<K: Spelled, V: Spelled>(pair: &(K, V), out: &mut Text) -> Result<(), NoMemory>
    ensures ok { OnOk result (out.new ≡ out.old ++ pair_spelling K.spelling V.spelling pair.now) }
    ensures err { OnErr result (AppendsPart out.old out.new (pair_spelling K.spelling V.spelling pair.now)) }
{
    pair.0.put(out)?;
    pair.1.put(out)
}

/// Appends a table: the number of its pairs, and then the pairs.
pub(crate) fn put_table<K: Spelled, V: Spelled>(
    pairs: &[(K, V)],
    out: &mut Text,
) -> Result<(), NoMemory>
    ensures ok { OnOk result (out.new ≡ out.old ++ table_spelling K.spelling V.spelling pairs.now) }
    ensures err { OnErr result (AppendsPart out.old out.new (table_spelling K.spelling V.spelling pairs.now)) }
{
    (pairs.len() as u64).put(out)?;
    'pairs: for pair in pairs {
        put_pair(pair, out)?;
    }
    Ok(())
}

/// Whether the key is greater than that of the pair before it, if there is one.
pub(crate) fn rises<K: Ord, V>(previous: Option<&(K, V)>, key: &K) -> bool
    ensures { result ≡ rises K.cmp (option_copied previous.entry) key.now }
{
    match previous {
        Some(pair) => pair.0.cmp(key).is_lt(),
        None => true,
    }
}

/// Reads a pair that follows another one, or is the first.
#[tactic(auto, unfolding(iot_views::specs::Decoding::pair_at))]
fn read_pair<K: Spelled + Ord, V: Spelled>(
    alloc: Global,
    previous: Option<&(K, V)>,
    bytes: &[u8],
    at: usize,
) -> Result<((K, V), usize), CodecFault>
    ensures { IsOutcome result (pair_at K.cmp K.decoding V.decoding (option_copied previous.entry) bytes.now at) }
{
    let (key, after) = K::read(alloc, bytes, at)?;
    if !rises(previous, &key) {
        return Err(malformed(at));
    }
    let (value, end) = V::read(alloc, bytes, after)?;
    Ok(((key, value), end))
}

/// Reads so many pairs.
fn read_pairs<K: Spelled + Ord, V: Spelled>(
    alloc: Global,
    count: u64,
    bytes: &[u8],
    at: usize,
) -> Result<(Sequence<(K, V)>, usize), CodecFault>
    ensures { IsOutcome result (items_at (pair_at K.cmp K.decoding V.decoding) count None bytes.now at) }
{
    let mut pairs = Vec::with_capacity(alloc, room_for(count, bytes, at))?;
    let mut end = at;
    'pairs: for _ in 0..count {
        let (pair, after) = read_pair(alloc, pairs.last(), bytes, end)?;
        pairs.push(pair)?;
        end = after;
    }
    Ok((Sequence::from_vec(pairs), end))
}

/// Reads a table.
pub(crate) fn read_table<K: Spelled + Ord, V: Spelled>(
    alloc: Global,
    bytes: &[u8],
    at: usize,
) -> Result<(Sequence<(K, V)>, usize), CodecFault>
    ensures { IsOutcome result (table_at K.cmp K.decoding V.decoding bytes.now at) }
{
    let (count, at) = number_at(bytes, at)?;
    read_pairs(alloc, count, bytes, at)
}
