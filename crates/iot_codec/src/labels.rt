//! Labels of commits.
ghost use Rattle.std.specs.Prelude.{◌≡◌, ◌++◌, length, OnOk, OnErr, IfOk};
ghost use Rattle.iot_text.specs.Texts.{AppendsPart};
ghost use Rattle.iot_codec.specs.Outcomes.{IsOutcome, DecodesWhatIsSpelled};
ghost use Rattle.iot_codec.specs.Places.{IsSpelledAt, IsAlone};
ghost use Rattle.iot_views.specs.Decoding.{way_at, label_at};
ghost use Rattle.iot_views.specs.Rules.{IsWay, IsLabel};
ghost use Rattle.iot_codec.specs.Spelling.{transaction_spelling, run_spelling, way_spelling, label_spelling};
ghost use Rattle.iot_codec.specs.Laws.Labels.{way_laws, label_laws};

use crate::CodecFault;
use crate::spelled::{Spelled, read};
use iot_text::{Name, NoMemory, Text};
use iot_tree::{ACT_LIMIT, Files, Label, Way};
use iot_views::{at_most, number_at, way_at};
use std::alloc::Global;

/// The greatest number of a client.
const LAST_CLIENT: u64 = 7;

impl Spelled for Way {
    ghost has_spelling = { IsWay };

    ghost spelling = { way_spelling };

    ghost decoding = { way_at };

    #[tactic(auto, unfolding(crate::specs::Spelling::way_spelling))]
    fn put(&self, out: &mut Text) -> Result<(), NoMemory> {
        out.push(match self {
            Way::Certified => 1,
            Way::Reexecuted => 2,
            Way::Resolved => 3,
        })
    }

    fn read(_alloc: Global, bytes: &[u8], at: usize) -> Result<(Way, usize), CodecFault> {
        Ok(way_at(bytes, at)?)
    }

    ghost laws = { way_laws };
}

/// Appends the client, the transaction and the script.
fn put_transaction(label: &Label, out: &mut Text) -> Result<(), NoMemory>
    ensures ok { OnOk result (out.new ≡ out.old ++ transaction_spelling label.now) }
    ensures err { OnErr result (AppendsPart out.old out.new (transaction_spelling label.now)) }
{
    label.client.put(out)?;
    label.tid.put(out)?;
    label.script.put(out)
}

/// Appends the budget, the way and the kept files.
fn put_run(label: &Label, out: &mut Text) -> Result<(), NoMemory>
    ensures ok { OnOk result (out.new ≡ out.old ++ run_spelling label.now) }
    ensures err { OnErr result (AppendsPart out.old out.new (run_spelling label.now)) }
{
    label.budget.put(out)?;
    label.way.put(out)?;
    label.kept.put(out)
}

impl Spelled for Label {
    ghost has_spelling = { IsLabel };

    ghost spelling = { label_spelling };

    ghost decoding = { label_at };

    #[tactic(auto, unfolding(crate::specs::Spelling::label_spelling))]
    fn put(&self, out: &mut Text) -> Result<(), NoMemory> {
        put_transaction(self, out)?;
        put_run(self, out)
    }

    #[tactic(auto, unfolding(iot_views::specs::Decoding::label_at))]
    fn read(alloc: Global, bytes: &[u8], at: usize) -> Result<(Label, usize), CodecFault> {
        let (client, at) = at_most(LAST_CLIENT, bytes, at)?;
        let (tid, at) = number_at(bytes, at)?;
        let (script, at) = Name::read(alloc, bytes, at)?;
        let (budget, at) = at_most(ACT_LIMIT, bytes, at)?;
        let (way, at) = Way::read(alloc, bytes, at)?;
        let (kept, end) = Files::read(alloc, bytes, at)?;
        let label = Label {
            client,
            tid,
            script,
            budget,
            way,
            kept,
        };
        Ok((label, end))
    }

    ghost laws = { label_laws };
}

/// Appends the spelling of the label: its client, transaction, script, budget, way and kept files.
pub fn put_label(value: &Label, out: &mut Text) -> Result<(), NoMemory>
    requires { IsLabel value.now }
    ensures ok { OnOk result (out.new ≡ out.old ++ label_spelling value.now) }
    ensures err { OnErr result (AppendsPart out.old out.new (label_spelling value.now)) }
{
    value.put(out)
}

/// Reads the label that is spelled at the offset, and gives the offset after it.
///
/// # Errors
///
/// `Malformed` exactly if no label is spelled there. `NoMemory` if there is none for it.
pub fn read_label(alloc: Global, bytes: &[u8], at: usize) -> Result<(Label, usize), CodecFault>
    ensures found { IfOk result (IsSpelledAt IsLabel label_spelling bytes.now at) }
    ensures only { DecodesWhatIsSpelled IsLabel label_spelling bytes.now at result }
    ensures one { IsAlone IsLabel label_spelling bytes.now at }
    ensures exact { IsOutcome result (label_at bytes.now at) }
{
    read(alloc, bytes, at)
}
