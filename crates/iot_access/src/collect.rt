//! The access of a transaction: its base reads, and its updates.
ghost use Rattle.std.specs.Prelude.{◌≡◌, ◌++◌, ◌+◌, List, [], length, IfOk, OnOk};
ghost use Rattle.std.specs.List.{zip};
ghost use Rattle.iot_tree.specs.declared.updates.Update.{Update as TreeUpdate};
ghost use Rattle.iot_acts.specs.Guards.{AllGuarded};
ghost use Rattle.iot_acts.specs.Traces.{ReadsHold, ActsHold};
ghost use Rattle.iot_access.specs.Asked.{first_asked, is_asked, none_asked};
ghost use Rattle.iot_access.specs.BaseReads.{Base, based, based_reads, base_of, cons_base, done_more};
ghost use Rattle.iot_access.specs.Entries.{IsApartIfAny};
ghost use Rattle.iot_access.specs.Origins.{TellAfter};
ghost use Rattle.iot_access.specs.Access.{AreNumbers, FitInTurn, IsAccess, Rise, access_of, cons_update, no_access, updates_of};

use crate::asked::Asked;
use crate::base_reads::base_of;
use crate::origins::Origins;
use iot_text::NoMemory;
use iot_tree::{Access, Act, Acts, Duplicate, Places, Read, Reads, Tree, Update, Updates};
use std::alloc::Global;

/// The next place. Places end at 64 bits; no list in memory is that long.
fn next_place(place: u64) -> Result<u64, NoMemory>
    ensures { IfOk result (λ next. next ≡ place + 1) }
{
    match place.checked_add(1) {
        Some(next) => Ok(next),
        None => Err(NoMemory),
    }
}

/// Adds the base read of a read of this place, if it has one whose question was not asked yet.
fn add_read(
    alloc: Global,
    before: &Tree,
    origins: &Origins,
    read: &Read,
    place: u64,
    asked: &mut Asked,
    access: &mut Access,
) -> Result<(), NoMemory>
    requires even { length access.old.places ≡ length access.old.reads }
    requires numbers { AreNumbers access.old.places }
    ensures even { OnOk result (length access.new.places ≡ length access.new.reads) }
    ensures numbers { OnOk result (AreNumbers access.new.places) }
    ensures updates { OnOk result (access.new.updates ≡ access.old.updates) }
    ensures bases { OnOk result
        ((done : List TreeUpdate) (rest : List Base) → TellAfter origins.now done
        → zip access.new.places access.new.reads ++ first_asked (is_asked asked.new) rest
        ≡ zip access.old.places access.old.reads
        ++ first_asked (is_asked asked.old) (cons_base place (base_of before.now done read.now) rest)) }
{
    let Some(base) = base_of(alloc, before, origins, read)? else {
        return Ok(());
    };
    if asked.note(alloc, &base.question)? {
        access.reads.push(base)?;
        access.places.push(place)?;
    }
    Ok(())
}

/// Adds the base reads of the reads, of which the first has this place. Gives the place after them.
fn add_reads(
    alloc: Global,
    before: &Tree,
    origins: &Origins,
    reads: &[Read],
    first: u64,
    asked: &mut Asked,
    access: &mut Access,
) -> Result<u64, NoMemory>
    requires even { length access.old.places ≡ length access.old.reads }
    requires numbers { AreNumbers access.old.places }
    ensures place { IfOk result (λ next. next ≡ length reads.now + first) }
    ensures even { OnOk result (length access.new.places ≡ length access.new.reads) }
    ensures numbers { OnOk result (AreNumbers access.new.places) }
    ensures updates { OnOk result (access.new.updates ≡ access.old.updates) }
    ensures bases { OnOk result
        ((done : List TreeUpdate) (rest : List Base) → TellAfter origins.now done
        → zip access.new.places access.new.reads ++ first_asked (is_asked asked.new) rest
        ≡ zip access.old.places access.old.reads
        ++ first_asked (is_asked asked.old) (based_reads reads.now before.now done first rest)) }
{
    let mut place = first;
    'reads: for read in reads {
        add_read(alloc, before, origins, read, place, asked, access)?;
        place = next_place(place)?;
    }
    Ok(place)
}

/// Adds the update, if there is one, and follows it.
fn add_update(
    alloc: Global,
    update: &Option<Update>,
    origins: &mut Origins,
    updates: &mut Updates,
) -> Result<(), NoMemory>
    requires { IsApartIfAny update.now }
    ensures updates { OnOk result
        ((rest : List TreeUpdate) → updates.new ++ rest ≡ updates.old ++ cons_update update.now rest) }
    ensures tells { OnOk result
        ((done : List TreeUpdate) → TellAfter origins.old done → TellAfter origins.new (done_more done update.now)) }
{
    if let Some(update) = update {
        updates.push(update.copy(alloc)?)?;
        origins.follow(alloc, update)?;
    }
    Ok(())
}

/// The access of nothing. Does not allocate.
pub fn of_nothing(alloc: Global) -> Access
    ensures { result ≡ no_access }
{
    Access {
        reads: Reads::new(alloc),
        updates: Updates::new(alloc),
        places: Places::new(alloc),
    }
}

/// The base reads and the updates of the acts.
fn collect(alloc: Global, acts: &[Act], before: &Tree) -> Result<Access, NoMemory>
    requires { ActsHold before.now acts.now }
    ensures even { IfOk result (λ access. length access.places ≡ length access.reads) }
    ensures numbers { IfOk result (λ access. AreNumbers access.places) }
    ensures updates { IfOk result (λ access. access.updates ≡ updates_of acts.now) }
    ensures bases { IfOk result (λ access. zip access.places access.reads ≡ first_asked none_asked (based acts.now before.now [] 1)) }
{
    let mut access = of_nothing(alloc);
    let mut origins = Origins::new(alloc);
    let mut asked = Asked::new(alloc);
    let mut place = 1;
    'acts: for act in acts {
        place = add_reads(
            alloc,
            before,
            &origins,
            act.reads.as_slice(),
            place,
            &mut asked,
            &mut access,
        )?;
        add_update(alloc, &act.update, &mut origins, &mut access.updates)?;
    }
    Ok(access)
}

/// The access of guarded acts that hold on the tree before them: what they ask of it, each question once, and their updates.
pub fn of(alloc: Global, acts: &Acts, before: &Tree) -> Result<Access, NoMemory>
    requires guarded { AllGuarded acts.now }
    requires hold { ActsHold before.now acts.now }

    ensures is { IfOk result (λ access. access ≡ access_of acts.now before.now) }

    // On every whole tree it may take the acts' place.
    ensures access { IfOk result (λ access. IsAccess access.reads access.places access.updates acts.now) }

    // The tree before gives each base read its answer, and each update fits it in turn.
    ensures before { IfOk result (λ access. ReadsHold before.now access.reads) }
    ensures fit { IfOk result (λ access. FitInTurn before.now access.updates) }

    // No update is left out, and none is made up.
    ensures updates { IfOk result (λ access. access.updates ≡ updates_of acts.now) }

    ensures places { IfOk result (λ access. Rise 1 access.places) }
    ensures numbers { IfOk result (λ access. AreNumbers access.places) }
    ensures even { IfOk result (λ access. length access.places ≡ length access.reads) }
{
    // What is asked here is the clause that the rows are a tree's.
    let _tree = before.rows();
    let access = collect(alloc, acts.as_slice(), before)?;
    Ok(access)
}
