//! What a client is told of a transaction that it submitted.
ghost use Rattle.std.specs.Prelude.{◌≡◌};
ghost use Rattle.iot_laptop.specs.Below.{IfOk, SpellsVerdict, reads_of};
ghost use Rattle.iot_machine.specs.Serving as serving;
ghost use Rattle.iot_laptop.specs.Messages.{IsVerdict, verdict_of};

use iot_client::question_at;
use iot_codec::CodecFault;
use iot_text::NoMemory;
use iot_tree::{Act, OnConflict, Question};
use iot_wire::{Reply, read_reply};
use std::alloc::Global;

/// What a client is told of a transaction that it submitted.
#[derive(Drop)]
pub enum Verdict {
    /// It is in the list under this number.
    Settled { number: u64 },

    /// This read of it, counted from 1, which asked this, has another answer now.
    Conflict { read: u64, question: Question },
}

/// What a client is told, and what becomes of its transaction if that conflicts.
#[derive(Drop)]
pub struct Told {
    pub verdict: Verdict,
    pub option: OnConflict,
}

/// What the reply says of a transaction that did these acts.
pub(crate) fn verdict_in(alloc: Global, acts: &[Act], reply: &[u8]) -> Result<Verdict, NoMemory>
    requires { IsVerdict (reads_of acts.now) reply.now }
    ensures { IfOk result (λ verdict. (told : serving.Verdict)
        → SpellsVerdict (reads_of acts.now) reply.now told → verdict_of verdict ≡ told) }
{
    match read_reply(alloc, reply) {
        Ok(Reply::Committed { number }) => Ok(Verdict::Settled { number }),
        Ok(Reply::Already { number }) => Ok(Verdict::Settled { number }),
        Ok(Reply::Conflict { read, answer: _ }) => {
            let question = question_at(alloc, acts, read)?;
            Ok(Verdict::Conflict { read, question })
        }
        Ok(Reply::Objects(_)) => unreachable!(),
        Err(CodecFault::NoMemory) => Err(NoMemory),
        Err(CodecFault::Malformed { .. }) => unreachable!(),
    }
}
