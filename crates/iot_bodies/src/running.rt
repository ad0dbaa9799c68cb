//! The transactions that run.
ghost use Rattle.std.specs.Prelude.{◌≡◌, ◌++◌, map, OnOk, OnErr};
ghost use Rattle.iot_text.specs.Texts.{AppendsPart};
ghost use Rattle.iot_codec.specs.Outcomes.{IsOutcome};
ghost use Rattle.iot_codec.specs.Spelling.{list_spelling};
ghost use Rattle.iot_bodies.specs.Decoding.{running_at, runs_at};
ghost use Rattle.iot_bodies.specs.Laws.{running_laws};
ghost use Rattle.iot_bodies.specs.Rules.{IsRunning};
ghost use Rattle.iot_bodies.specs.Spelling.{begun_spelling, done_spelling, running_spelling};
ghost use Rattle.iot_bodies.specs.declared.client.Running.{Running as RunningValue};

use crate::Running;
use iot_codec::{CodecFault, Spelled, put_list, read_list};
use iot_text::{Name, NoMemory, Text};
use iot_tree::{Act, Acts, OnConflict, Sequence, Tree};
use iot_views::at_most;
use std::alloc::Global;

/// So many transactions of a client may run at a time.
pub const RUN_LIMIT: usize = 4;

/// What keeps a running transaction, and so can spell it.
pub trait Runs {
    /// The transaction.
    ghost run: { Self → RunningValue };

    /// Appends its spelling.
    fn put(&self, out: &mut Text) -> Result<(), NoMemory>
        ensures { OnOk result (out.new ≡ out.old ++ running_spelling (run self.now)) };
}

/// Appends the number, the script and the option.
fn put_begun(tid: u64, script: Name, option: OnConflict, out: &mut Text) -> Result<(), NoMemory>
    ensures ok { OnOk result (out.new ≡ out.old ++ begun_spelling tid script option) }
    ensures err { OnErr result (AppendsPart out.old out.new (begun_spelling tid script option)) }
{
    tid.put(out)?;
    script.put(out)?;
    option.put(out)
}

/// Appends the base and the acts.
fn put_done(base: &Tree, acts: &[Act], out: &mut Text) -> Result<(), NoMemory>
    ensures ok { OnOk result (out.new ≡ out.old ++ done_spelling base.now acts.now) }
    ensures err { OnErr result (AppendsPart out.old out.new (done_spelling base.now acts.now)) }
{
    base.put(out)?;
    put_list(acts, out)
}

/// Appends a transaction that runs: its number, its script, its option, the tree on which it began, and what it did since. It copies
/// none of them.
///
/// # Errors
///
/// `NoMemory` if there is none for the text.
#[tactic(auto, unfolding(crate::specs::Spelling::running_spelling))]
pub fn put_running(
    tid: u64,
    script: Name,
    option: OnConflict,
    base: &Tree,
    acts: &[Act],
    out: &mut Text,
) -> Result<(), NoMemory>
    ensures ok { OnOk result (out.new ≡ out.old
        ++ running_spelling (record { tid = tid; script = script; option = option; base = base.now; acts = acts.now })) }
    ensures err { OnErr result (AppendsPart out.old out.new
        (running_spelling (record { tid = tid; script = script; option = option; base = base.now; acts = acts.now }))) }
{
    put_begun(tid, script, option, out)?;
    put_done(base, acts, out)
}

impl Spelled for Running {
    ghost has_spelling = { IsRunning };

    ghost spelling = { running_spelling };

    ghost decoding = { running_at };

    fn put(&self, out: &mut Text) -> Result<(), NoMemory> {
        put_running(
            self.tid,
            self.script,
            self.option,
            &self.base,
            self.acts.as_slice(),
            out,
        )
    }

    #[tactic(auto, unfolding(crate::specs::Decoding::running_at))]
    fn read(alloc: Global, bytes: &[u8], at: usize) -> Result<(Running, usize), CodecFault> {
        let (tid, at) = u64::read(alloc, bytes, at)?;
        let (script, at) = Name::read(alloc, bytes, at)?;
        let (option, at) = OnConflict::read(alloc, bytes, at)?;
        let (base, at) = Tree::read(alloc, bytes, at)?;
        let (acts, end) = Acts::read(alloc, bytes, at)?;
        let running = Running {
            tid,
            script,
            option,
            base,
            acts,
        };
        Ok((running, end))
    }

    ghost laws = { running_laws };
}

/// Appends the list of those that run.
pub(crate) fn put_runs<R: Runs>(running: &[R], out: &mut Text) -> Result<(), NoMemory>
    ensures { OnOk result (out.new ≡ out.old ++ list_spelling running_spelling (map R.run running.now)) }
{
    (running.len() as u64).put(out)?;
    'running: for it in running {
        it.put(out)?;
    }
    Ok(())
}

/// Reads the list of those that run, of which there are not too many.
#[tactic(auto, unfolding(crate::specs::Decoding::runs_at))]
pub(crate) fn read_runs(
    alloc: Global,
    bytes: &[u8],
    at: usize,
) -> Result<(Sequence<Running>, usize), CodecFault>
    ensures { IsOutcome result (runs_at bytes.now at) }
{
    // Their number is looked at before the first of them.
    at_most(RUN_LIMIT as u64, bytes, at)?;
    read_list(alloc, bytes, at)
}
