//! Reads on a tree, and their places.
ghost use Rattle.std.specs.Prelude.{◌≡◌, ◌+◌, ◌<◌, length, IfOk, IfSome, MatchOption};
ghost use Rattle.iot_tree.specs.Questions.{answer_of};
ghost use Rattle.iot_acts.specs.Traces.{ReadsHold};
ghost use Rattle.iot_certify.specs.Verdicts.{IsFirstWrong};

use crate::Verdict;
use iot_text::NoMemory;
use iot_tree::{Read, Tree};
use std::alloc::Global;

/// The index of the first read that is not the tree's answer. Does not allocate.
pub(crate) fn first_wrong(t: &Tree, reads: &[Read]) -> Option<usize>
    ensures first { MatchOption result (ReadsHold t.now reads.now) (IsFirstWrong t.now reads.now) }
    ensures within { IfSome result (λ at. at < length reads.now) }
{
    reads.iter().position(|read| !t.answers(read))
}

/// The verdict that the read, of this place, differs.
pub(crate) fn differs(alloc: Global, t: &Tree, read: &Read, place: u64) -> Result<Verdict, NoMemory>
    ensures { IfOk result (λ verdict. verdict ≡ Verdict.Differs place (answer_of t.now read.now.question)) }
{
    Ok(Verdict::Differs {
        read: place,
        answer: t.answer(alloc, &read.question)?,
    })
}

/// The place this many reads after another. Places end at 64 bits; no list in memory is that long.
pub(crate) fn place_after(place: u64, count: usize) -> Result<u64, NoMemory>
    ensures { IfOk result (λ next. next ≡ count + place) }
{
    match place.checked_add(count as u64) {
        Some(next) => Ok(next),
        None => Err(NoMemory),
    }
}
