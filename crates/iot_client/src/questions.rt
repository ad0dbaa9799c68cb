//! What a read asked.
ghost use Rattle.std.specs.Prelude.{◌≡◌, ◌-◌, ◌<◌, ◌≤◌, Some, IfOk, length, slice_get};
ghost use Rattle.iot_acts.specs.Turns.{reads_of};
ghost use Rattle.iot_tree.specs.declared.acts.Read.{Read};

use iot_text::NoMemory;
use iot_tree::{Act, Duplicate, Question};
use std::alloc::Global;

/// What the read of these acts at this place, counted from 1, asked.
pub fn question_at(alloc: Global, acts: &[Act], place: u64) -> Result<Question, NoMemory>
    requires first { 1 ≤ place }
    requires within { place - 1 < length (reads_of acts.now) }
    ensures { IfOk result (λ question. (read : Read) → slice_get (reads_of acts.now) (place - 1) ≡ Some read → question ≡ read.question) }
{
    let mut left = place - 1;
    'acts: for act in acts {
        let reads = act.reads.as_slice();
        if left < reads.len() as u64 {
            return reads[left as usize].question.copy(alloc);
        }
        left -= reads.len() as u64;
    }
    unreachable!()
}
