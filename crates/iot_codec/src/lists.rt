//! Lists: the number of the elements, and then the elements.
ghost use Rattle.std.specs.Prelude.{◌≡◌, ◌++◌, length, OnOk, OnErr, IfOk, None};
ghost use Rattle.std.specs.List.{AllByRecursion};
ghost use Rattle.iot_text.specs.Texts.{AppendsPart};
ghost use Rattle.iot_codec.specs.Outcomes.{IsOutcome};
ghost use Rattle.iot_views.specs.Decoders.{items_at, list_at};
ghost use Rattle.iot_codec.specs.Spelling.{list_spelling};

use crate::CodecFault;
use crate::parts::room_for;
use crate::spelled::Spelled;
use iot_text::{NoMemory, Text};
use iot_tree::Sequence;
use iot_views::number_at;
use std::alloc::Global;

/// Appends the spelling of a list: the number of its elements, and then each element's spelling.
pub fn put_list<T: Spelled>(items: &[T], out: &mut Text) -> Result<(), NoMemory>
    ensures ok { OnOk result (out.new ≡ out.old ++ list_spelling T.spelling items.now) }
    ensures err { OnErr result (AppendsPart out.old out.new (list_spelling T.spelling items.now)) }
{
    (items.len() as u64).put(out)?;
    'items: for item in items {
        item.put(out)?;
    }
    Ok(())
}

/// Reads the list that is spelled at the offset, and gives the offset after it. Each element has a spelling.
///
/// # Errors
///
/// `Malformed` exactly if no list is spelled there. `NoMemory` if there is none for it.
pub fn read_list<T: Spelled>(
    alloc: Global,
    bytes: &[u8],
    at: usize,
) -> Result<(Sequence<T>, usize), CodecFault>
    ensures exact { IsOutcome result (list_at T.decoding bytes.now at) }
    ensures each { IfOk result (λ read. AllByRecursion T.has_spelling read.0) }
{
    counted_items(alloc, bytes, at)
}

/// Reads a list.
fn counted_items<T: Spelled>(
    alloc: Global,
    bytes: &[u8],
    at: usize,
) -> Result<(Sequence<T>, usize), CodecFault>
    ensures { IsOutcome result (list_at T.decoding bytes.now at) }
{
    let (count, at) = number_at(bytes, at)?;
    read_items(alloc, count, bytes, at)
}

/// Reads so many elements.
pub(crate) fn read_items<T: Spelled>(
    alloc: Global,
    count: u64,
    bytes: &[u8],
    at: usize,
) -> Result<(Sequence<T>, usize), CodecFault>
    ensures { IsOutcome result (items_at (λ _. T.decoding) count None bytes.now at) }
{
    let mut items = Vec::with_capacity(alloc, room_for(count, bytes, at))?;
    let mut end = at;
    'items: for _ in 0..count {
        let (item, after) = T::read(alloc, bytes, end)?;
        items.push(item)?;
        end = after;
    }
    Ok((Sequence::from_vec(items), end))
}
