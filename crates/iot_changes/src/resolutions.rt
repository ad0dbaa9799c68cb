//! Resolutions: the runs in the place of transactions that conflicted.
ghost use Rattle.std.specs.Prelude.{◌≡◌, ◌++◌, OnOk, OnErr, IfOk};
ghost use Rattle.iot_text.specs.Texts.{AppendsPart};
ghost use Rattle.iot_codec.specs.Outcomes.{IsOutcome, DecodesWhatIsSpelled};
ghost use Rattle.iot_codec.specs.Places.{IsSpelledAt, IsAlone};
ghost use Rattle.iot_changes.specs.Decoding.{resolution_at};
ghost use Rattle.iot_changes.specs.Rules.{IsResolution};
ghost use Rattle.iot_changes.specs.Spelling.{run_spelling, outcome_spelling, resolution_spelling};

use iot_codec::{
    CodecFault, put_acts, put_budget, put_files, put_name, read_acts, read_budget, read_files,
    read_name,
};
use iot_queue::Resolution;
use iot_text::{NoMemory, Text};
use std::alloc::Global;

/// Appends the script and the budget.
fn put_run(value: &Resolution, out: &mut Text) -> Result<(), NoMemory>
    requires { IsResolution value.now }
    ensures ok { OnOk result (out.new ≡ out.old ++ run_spelling value.now) }
    ensures err { OnErr result (AppendsPart out.old out.new (run_spelling value.now)) }
{
    put_name(&value.script, out)?;
    put_budget(&value.budget, out)
}

/// Appends the kept files and the acts.
fn put_outcome(value: &Resolution, out: &mut Text) -> Result<(), NoMemory>
    requires { IsResolution value.now }
    ensures ok { OnOk result (out.new ≡ out.old ++ outcome_spelling value.now) }
    ensures err { OnErr result (AppendsPart out.old out.new (outcome_spelling value.now)) }
{
    put_files(&value.kept, out)?;
    put_acts(&value.acts, out)
}

/// Appends the spelling of the resolution: its script, its budget, its kept files and its acts.
#[tactic(auto, unfolding(crate::specs::Spelling::resolution_spelling))]
pub fn put_resolution(value: &Resolution, out: &mut Text) -> Result<(), NoMemory>
    requires { IsResolution value.now }
    ensures ok { OnOk result (out.new ≡ out.old ++ resolution_spelling value.now) }
    ensures err { OnErr result (AppendsPart out.old out.new (resolution_spelling value.now)) }
{
    put_run(value, out)?;
    put_outcome(value, out)
}

/// Decodes the resolution at the offset, and gives the offset after it.
#[tactic(auto, unfolding(crate::specs::Decoding::resolution_at))]
fn decode_resolution(
    alloc: Global,
    bytes: &[u8],
    at: usize,
) -> Result<(Resolution, usize), CodecFault>
    ensures { IsOutcome result (resolution_at bytes.now at) }
{
    let (script, at) = read_name(alloc, bytes, at)?;
    let (budget, at) = read_budget(bytes, at)?;
    let (kept, at) = read_files(alloc, bytes, at)?;
    let (acts, end) = read_acts(alloc, bytes, at)?;
    let resolution = Resolution {
        script,
        budget,
        kept,
        acts,
    };
    Ok((resolution, end))
}

/// Reads the resolution that is spelled at the offset, and gives the offset after it.
///
/// # Errors
///
/// `Malformed` exactly if no resolution is spelled there. `NoMemory` if there is none for it.
pub fn read_resolution(
    alloc: Global,
    bytes: &[u8],
    at: usize,
) -> Result<(Resolution, usize), CodecFault>
    ensures found { IfOk result (IsSpelledAt IsResolution resolution_spelling bytes.now at) }
    ensures only { DecodesWhatIsSpelled IsResolution resolution_spelling bytes.now at result }
    ensures one { IsAlone IsResolution resolution_spelling bytes.now at }
    ensures exact { IsOutcome result (resolution_at bytes.now at) }
{
    decode_resolution(alloc, bytes, at)
}
