//! Budgets: how many acts a run may make.
ghost use Rattle.std.specs.Prelude.{◌≡◌, ◌++◌, length, OnOk, OnErr, IfOk};
ghost use Rattle.iot_text.specs.Texts.{AppendsPart};
ghost use Rattle.iot_codec.specs.Outcomes.{IsOutcome, DecodesWhatIsSpelled};
ghost use Rattle.iot_codec.specs.Places.{IsSpelledAt, IsAlone};
ghost use Rattle.iot_views.specs.Decoding.{budget_at};
ghost use Rattle.iot_views.specs.Rules.{IsBudget};
ghost use Rattle.iot_codec.specs.Spelling.{number_spelling};

use crate::CodecFault;
use crate::spelled::Spelled;
use iot_text::{NoMemory, Text};
use iot_tree::ACT_LIMIT;
use iot_views::at_most;

/// Appends the budget, which is a number.
pub fn put_budget(value: &u64, out: &mut Text) -> Result<(), NoMemory>
    requires { IsBudget value.now }
    ensures ok { OnOk result (out.new ≡ out.old ++ number_spelling value.now) }
    ensures err { OnErr result (AppendsPart out.old out.new (number_spelling value.now)) }
{
    value.put(out)
}

/// Reads the budget that is spelled at the offset, and gives the offset after it.
///
/// # Errors
///
/// `Malformed` exactly if no budget is spelled there: also if the number there is beyond the limit.
pub fn read_budget(bytes: &[u8], at: usize) -> Result<(u64, usize), CodecFault>
    ensures found { IfOk result (IsSpelledAt IsBudget number_spelling bytes.now at) }
    ensures only { DecodesWhatIsSpelled IsBudget number_spelling bytes.now at result }
    ensures one { IsAlone IsBudget number_spelling bytes.now at }
    ensures exact { IsOutcome result (budget_at bytes.now at) }
{
    budget_at(bytes, at)
}

/// Reads the budget.
fn budget_at(bytes: &[u8], at: usize) -> Result<(u64, usize), CodecFault>
    ensures { IsOutcome result (budget_at bytes.now at) }
{
    Ok(at_most(ACT_LIMIT, bytes, at)?)
}
