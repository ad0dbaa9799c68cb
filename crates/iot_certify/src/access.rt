//! Certification by base reads.
ghost use Rattle.std.specs.Prelude.{◌≡◌, ◌↔◌, List, length, Ok, IfOk};
ghost use Rattle.iot_tree.specs.Tree.{IsWhole};
ghost use Rattle.iot_tree.specs.declared.acts.Act.{Act as ActValue};
ghost use Rattle.iot_acts.specs.Traces.{ReadsHold};
ghost use Rattle.iot_acts.specs.Guards.{AllGuarded};
ghost use Rattle.iot_access.specs.Access.{IsAccess};
ghost use Rattle.iot_certify.specs.Verdicts.{IsVerdictOnAccess, IsVerdictOnActs, Judges, SamePlace};
ghost use Rattle.iot_certify.specs.declared.verdict.Verdict.{Verdict as VerdictValue};

use crate::Verdict;
use crate::reads::{differs, first_wrong};
use iot_text::NoMemory;
use iot_tree::{Access, Tree};
use std::alloc::Global;

/// Whether each base read of the access holds on the tree. If not, the first one that does not decides. Takes a search for each base
/// read, and memory for the tree's answer to one that differs alone.
pub fn certify(alloc: Global, t: &Tree, access: &Access) -> Result<Verdict, NoMemory>
    requires even { length access.now.places ≡ length access.now.reads }
    ensures verdict { IfOk result (IsVerdictOnAccess t.now access.now) }
    ensures holds { IfOk result (λ verdict. (verdict ≡ Verdict.Holds) ↔ ReadsHold t.now access.now.reads) }

    // If each base read holds, the answer takes no memory.
    ensures memory { ReadsHold t.now access.now.reads → result ≡ Ok Verdict.Holds }

    // On a whole tree the access of acts is judged as the acts are, as far as the place.
    ensures acts { IfOk result
        (λ verdict. (acts : List ActValue) → IsAccess access.now.reads access.now.places access.now.updates acts → IsWhole t.now
        → Judges t.now acts verdict) }
    ensures same { IfOk result
        (λ verdict. (acts : List ActValue) (other : VerdictValue)
        → IsAccess access.now.reads access.now.places access.now.updates acts → IsWhole t.now → AllGuarded acts
        → IsVerdictOnActs t.now acts other → SamePlace verdict other) }
{
    // What is asked here is the clause that the rows are a tree's.
    let _tree = t.rows();
    let reads = access.reads.as_slice();
    let places = access.places.as_slice();
    match first_wrong(t, reads) {
        Some(at) => differs(alloc, t, &reads[at], places[at]),
        None => Ok(Verdict::Holds),
    }
}
