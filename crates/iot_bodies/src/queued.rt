//! The transactions of a queue.
ghost use Rattle.std.specs.Prelude.{◌≡◌, ◌++◌, OnOk};
ghost use Rattle.std.specs.List.{flat_map};
ghost use Rattle.iot_codec.specs.Spelling.{list_spelling};
ghost use Rattle.iot_bodies.specs.Rules.{waiting_of};
ghost use Rattle.iot_bodies.specs.Spelling.{waiting_spelling, other_spelling};

use crate::waiting::put_waiting;
use iot_codec::Spelled;
use iot_queue::Item;
use iot_text::{NoMemory, Text};
use iot_tree::Access;

/// Appends transactions that wait after the first one, none of which has an access.
fn put_others(items: &[Item], out: &mut Text) -> Result<(), NoMemory>
    ensures { OnOk result (out.new ≡ out.old ++ flat_map other_spelling items.now) }
{
    'items: for item in items {
        put_waiting(item, None, out)?;
    }
    Ok(())
}

/// Appends the list of the transactions that wait, of which only the first may have this access.
pub(crate) fn put_queue(items: &[Item], access: &Access, out: &mut Text) -> Result<(), NoMemory>
    ensures { OnOk result (out.new ≡ out.old ++ list_spelling waiting_spelling (waiting_of items.now access.now)) }
{
    (items.len() as u64).put(out)?;
    match items.split_first() {
        Some((first, others)) => {
            put_waiting(first, Some(access), out)?;
            put_others(others, out)
        }
        None => Ok(()),
    }
}
