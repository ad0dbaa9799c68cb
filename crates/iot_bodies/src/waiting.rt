//! Transactions that wait.
ghost use Rattle.std.specs.Prelude.{◌≡◌, ◌++◌, OnOk, OnErr, unwrap_or};
ghost use Rattle.std.specs.Option.{option_copied};
ghost use Rattle.iot_text.specs.Texts.{AppendsPart};
ghost use Rattle.iot_access.specs.Access.{no_access};
ghost use Rattle.iot_bodies.specs.Decoding.{waiting_at};
ghost use Rattle.iot_bodies.specs.Laws.{waiting_laws};
ghost use Rattle.iot_bodies.specs.Rules.{IsWaiting};
ghost use Rattle.iot_bodies.specs.Spelling.{order_spelling, course_spelling, waiting_spelling};

use crate::Waiting;
use crate::stages::{put_stage, read_stage};
use iot_codec::{CodecFault, Spelled, read_budget};
use iot_queue::Item;
use iot_text::{Name, NoMemory, Text};
use iot_tree::{Access, Acts, OnConflict};
use std::alloc::Global;

/// Appends the number, the script and the budget.
fn put_order(item: &Item, out: &mut Text) -> Result<(), NoMemory>
    ensures ok { OnOk result (out.new ≡ out.old ++ order_spelling item.now) }
    ensures err { OnErr result (AppendsPart out.old out.new (order_spelling item.now)) }
{
    item.tid.put(out)?;
    item.script.put(out)?;
    item.budget.put(out)
}

/// Appends the acts, the option and the stage with this access, or with that of nothing.
fn put_course(item: &Item, access: Option<&Access>, out: &mut Text) -> Result<(), NoMemory>
    ensures ok { OnOk result
        (out.new ≡ out.old ++ course_spelling (record { item = item.now; access = unwrap_or (option_copied access.entry) no_access })) }
    ensures err { OnErr result (AppendsPart out.old out.new
        (course_spelling (record { item = item.now; access = unwrap_or (option_copied access.entry) no_access }))) }
{
    item.acts.put(out)?;
    item.option.put(out)?;
    put_stage(&item.stage, access, out)
}

/// Appends a transaction that waits with this access, or with that of nothing.
#[tactic(auto, unfolding(crate::specs::Spelling::waiting_spelling))]
pub(crate) fn put_waiting(
    item: &Item,
    access: Option<&Access>,
    out: &mut Text,
) -> Result<(), NoMemory>
    ensures ok { OnOk result
        (out.new ≡ out.old ++ waiting_spelling (record { item = item.now; access = unwrap_or (option_copied access.entry) no_access })) }
    ensures err { OnErr result (AppendsPart out.old out.new
        (waiting_spelling (record { item = item.now; access = unwrap_or (option_copied access.entry) no_access }))) }
{
    put_order(item, out)?;
    put_course(item, access, out)
}

impl Spelled for Waiting {
    ghost has_spelling = { IsWaiting };

    ghost spelling = { waiting_spelling };

    ghost decoding = { waiting_at };

    fn put(&self, out: &mut Text) -> Result<(), NoMemory> {
        put_waiting(&self.item, Some(&self.access), out)
    }

    #[tactic(auto, unfolding(crate::specs::Decoding::waiting_at))]
    fn read(alloc: Global, bytes: &[u8], at: usize) -> Result<(Waiting, usize), CodecFault> {
        let (tid, at) = u64::read(alloc, bytes, at)?;
        let (script, at) = Name::read(alloc, bytes, at)?;
        let (budget, at) = read_budget(bytes, at)?;
        let (acts, at) = Acts::read(alloc, bytes, at)?;
        let (option, at) = OnConflict::read(alloc, bytes, at)?;
        let ((stage, access), end) = read_stage(alloc, bytes, at)?;
        let item = Item {
            tid,
            script,
            budget,
            acts,
            option,
            stage,
        };
        Ok((Waiting { item, access }, end))
    }

    ghost laws = { waiting_laws };
}
