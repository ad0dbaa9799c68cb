//! Certification by base reads that are lent.
ghost use Rattle.std.specs.Prelude.{◌≡◌, ◌↔◌, List, length, Ok, IfOk};
ghost use Rattle.iot_tree.specs.Tree.{IsWhole};
ghost use Rattle.iot_tree.specs.declared.acts.Act.{Act as ActValue};
ghost use Rattle.iot_acts.specs.Traces.{ReadsHold};
ghost use Rattle.iot_acts.specs.Guards.{AllGuarded};
ghost use Rattle.iot_access.specs.Access.{IsAccess};
ghost use Rattle.iot_certify.specs.Verdicts.{IsVerdictOnAccess, IsVerdictOnActs, Judges, SamePlace};
ghost use Rattle.iot_certify.specs.declared.verdict.Verdict.{Verdict as VerdictValue};

use crate::Verdict;
use crate::asking::{answer, answers};
use iot_text::NoMemory;
use iot_tree::Tree;
use iot_views::AccessView;
use std::alloc::Global;

/// Whether each base read of the lent access holds on the tree, as [`certify`](crate::certify) says of the access that is spelled there.
/// If not, the first one that does not decides. Takes a search for each base read, and memory for the tree's answer to one that
/// differs alone.
pub fn certify_view(alloc: Global, t: &Tree, access: &AccessView<'_>) -> Result<Verdict, NoMemory>
    ensures verdict { IfOk result (IsVerdictOnAccess t.now access.now) }
    ensures holds { IfOk result (λ verdict. (verdict ≡ Verdict.Holds) ↔ ReadsHold t.now access.now.reads) }

    // If each base read holds, the answer takes no memory.
    ensures memory { ReadsHold t.now access.now.reads → result ≡ Ok Verdict.Holds }

    // On a whole tree the access of acts is judged as the acts are, as far as the place.
    ensures acts { IfOk result
        (λ verdict. (acts : List ActValue) → IsAccess access.now.reads access.now.places access.now.updates acts → IsWhole t.now
        → Judges t.now acts verdict) }
    ensures same { IfOk result
        (λ verdict. (acts : List ActValue) (other : VerdictValue)
        → IsAccess access.now.reads access.now.places access.now.updates acts → IsWhole t.now → AllGuarded acts
        → IsVerdictOnActs t.now acts other → SamePlace verdict other) }
{
    // What is asked here is the clause that the rows are a tree's.
    let _tree = t.rows();
    judge(alloc, t, access)
}

/// The verdict on the base reads.
fn judge(alloc: Global, t: &Tree, access: &AccessView<'_>) -> Result<Verdict, NoMemory>
    ensures verdict { IfOk result (IsVerdictOnAccess t.now access.now) }
    ensures memory { ReadsHold t.now access.now.reads → result ≡ Ok Verdict.Holds }
    ensures even { length access.now.places ≡ length access.now.reads }
{
    'bases: for base in access.reads() {
        if !answers(t, &base.question, &base.answer) {
            return Ok(Verdict::Differs {
                read: base.place,
                answer: answer(alloc, t, &base.question)?,
            });
        }
    }
    Ok(Verdict::Holds)
}
