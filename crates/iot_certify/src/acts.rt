//! Certification by acts.
ghost use Rattle.std.specs.Prelude.{◌≡◌, ◌↔◌, ◌+◌, length, IfOk};
ghost use Rattle.iot_acts.specs.Traces.{ActsHold};
ghost use Rattle.iot_acts.specs.Turns.{turns, reads_of, DiffersAt};
ghost use Rattle.iot_acts.specs.Guards.{AllGuarded};
ghost use Rattle.iot_tree.specs.declared.questions.Answer.{Answer as AnswerValue};
ghost use Rattle.iot_certify.specs.Verdicts.{IsVerdictOnActs, IfDiffers};

use crate::Verdict;
use crate::reads::{differs, first_wrong, place_after};
use crate::updates::{apply, current, fits, is_unseen};
use iot_text::NoMemory;
use iot_tree::{Act, Acts, Answer, Tree};
use std::alloc::Global;

/// Whether the acts hold on the tree: each read is the answer in its turn, and each update fits in its turn. If not, the first read
/// that differs or the first update that does not fit decides. Copies the tree at the first update that later acts may see.
pub fn certify_acts(alloc: Global, t: &Tree, acts: &Acts) -> Result<Verdict, NoMemory>
    ensures verdict { IfOk result (IsVerdictOnActs t.now acts.now) }
    ensures holds { IfOk result (λ verdict. (verdict ≡ Verdict.Holds) ↔ ActsHold t.now acts.now) }

    // For guarded acts it is always the first read that differs in its turn, with the tree's answer.
    ensures guarded { AllGuarded acts.now → IfOk result (λ verdict. IfDiffers verdict (DiffersAt (turns t.now acts.now) 1)) }
{
    // What is asked here is the clause that the rows are a tree's.
    let _tree = t.rows();
    walk(alloc, t, acts.as_slice())
}

/// The verdict on acts.
fn walk(alloc: Global, t: &Tree, acts: &[Act]) -> Result<Verdict, NoMemory>
    ensures { IfOk result (IsVerdictOnActs t.now acts.now) }
{
    let mut changed = None;
    let mut place = 1;
    'acts: for (turn, act) in acts.iter().enumerate() {
        let now = current(t, &changed);
        let reads = act.reads.as_slice();
        if let Some(at) = first_wrong(now, reads) {
            return differs(alloc, now, &reads[at], place_after(place, at)?);
        }
        if !fits(now, &act.update) {
            return misfit(acts);
        }
        if is_unseen(&act.update, &acts[turn + 1..]) {
            return Ok(Verdict::Holds);
        }
        changed = apply(alloc, t, changed, &act.update)?;
        place = place_after(place, reads.len())?;
    }
    Ok(Verdict::Holds)
}

/// The verdict on acts of which an update does not fit: away, at the place after all their reads.
fn misfit(acts: &[Act]) -> Result<Verdict, NoMemory>
    ensures { IfOk result (λ verdict. verdict ≡ Verdict.Differs (length (reads_of acts.now) + 1) AnswerValue.Away) }
{
    let mut place = 1;
    'acts: for act in acts {
        place = place_after(place, act.reads.len())?;
    }
    Ok(Verdict::Differs {
        read: place,
        answer: Answer::Away,
    })
}
