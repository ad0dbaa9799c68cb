//! What a client sends to the server.
ghost use Rattle.std.specs.Prelude.{◌≡◌, ◌≤◌, ◌++◌, IfOk, OnOk};
ghost use Rattle.std.specs.List.{AllByRecursion};
ghost use Rattle.iot_access.specs.Access.{lines_of};
ghost use Rattle.iot_acts.specs.Guards.{AllGuarded};
ghost use Rattle.iot_acts.specs.Traces.{ActsHold};
ghost use Rattle.iot_views.specs.Rules.{AreKnown, IsAccess, IsAct, IsLabel, IsTreeOfRows, IsWant};
ghost use Rattle.iot_stamp.specs.Refresh.{known_with_stamps};
ghost use Rattle.iot_stamp.specs.Stamps.{Stamps};
ghost use Rattle.iot_changes.specs.Rules.{IsResolution};
ghost use Rattle.iot_kept.specs.Spelled.{IsSpelledItem};
ghost use Rattle.iot_tree.specs.Profiles.{IsProfile, IsWalkLimit};
ghost use Rattle.iot_wire.specs.Meanings.{IsRefresh, IsWalk};
ghost use Rattle.iot_wire.specs.Messages.{IsMessage};
ghost use Rattle.iot_wire.specs.Rules.{IsRequest};
ghost use Rattle.iot_wire.specs.Spelling.{request_spelling};
ghost use Rattle.iot_wire.specs.declared.requests.Request.TheVariants.{Commit};
ghost use Rattle.iot_client.specs.Messages.{IsCommit, label_in, IsWholeRequest};
ghost use Rattle.iot_client.specs.Messages.{resolved_label, way_of, IsAsked};

use crate::asks::Ask;
use iot_queue::{Item, Resolution, Stage};
use iot_text::{Name, NoMemory, Path, Text};
use iot_tree::{
    ACT_LIMIT, Access, Act, Duplicate, Files, Known, Label, Lines, OnConflict, Profile, Tree, Want,
    Way,
};
use iot_wire::{Request, put_commit, put_walk, write_request};
use std::alloc::Global;

/// How many bytes a submission has room for at first, which are enough for most of them.
const ROOM: usize = 512;

/// The request for what is known of the held tree, with its stamps, and for what is wanted.
pub(crate) fn refresh(
    alloc: Global,
    client: u64,
    known: Known,
    want: Want,
) -> Result<Text, NoMemory>
    requires client { client ≤ 7 }
    requires known { AreKnown known }
    ensures { (held : Stamps) → known ≡ known_with_stamps held → IfOk result (IsRefresh client held want) }
{
    wants_path(&want);
    let request = Request::Refresh {
        client,
        known,
        want,
    };
    Ok(Text::from(write_request(alloc, &request)?))
}

/// A `Path` is always one, as its names say: so is the one that is wanted.
fn wants_path(want: &Want)
    ensures { IsWant want.now }
{
    match want {
        Want::Nothing => (),
        Want::Path(path) => {
            let _names = path.names();
        }
        Want::Below(path) => {
            let _names = path.names();
        }
    }
}

/// The request for the whole tree. Nothing is said of what is known.
fn whole(alloc: Global, client: u64) -> Result<Text, NoMemory>
    requires { client ≤ 7 }
    ensures { IfOk result (IsWholeRequest client) }
{
    let request = Request::Refresh {
        client,
        known: Known::new(alloc),
        want: Want::Below(Path::root(alloc)),
    };
    Ok(Text::from(write_request(alloc, &request)?))
}

/// The request for what the profile takes along within the limit. Nothing is said of what is known.
pub(crate) fn walk(
    alloc: Global,
    client: u64,
    profile: &Profile,
    limit: u64,
) -> Result<Text, NoMemory>
    requires client { client ≤ 7 }
    requires profile { IsProfile profile.now }
    requires limit { IsWalkLimit limit }
    ensures { IfOk result (IsWalk client profile.now limit) }
{
    let mut out = Text::with_capacity(alloc, ROOM)?;
    put_walk(client, profile, limit, &mut out)?;
    Ok(out)
}

/// What a transaction that waits needs of the server, by its stage. It waits on the held tree; the access is that of its resolution, if
/// it has one.
pub(crate) fn ask_for(
    alloc: Global,
    client: u64,
    item: &Item,
    held: &Tree,
    access: &Access,
) -> Result<Ask, NoMemory>
    requires client { client ≤ 7 }
    requires spelled { IsSpelledItem item.now }
    requires held { IsTreeOfRows held.now }
    requires access { IsAccess access.now }
    requires hold { ActsHold held.now item.now.acts }
    requires guarded { AllGuarded item.now.acts }
    ensures { IfOk result (IsAsked client held.now access.now item.now item.now.stage) }
{
    match &item.stage {
        Stage::Waiting => Ok(Ask::Commit(commit(alloc, client, item, held)?)),
        Stage::Conflict => Ok(Ask::Whole(whole(alloc, client)?)),
        Stage::Manual => Ok(Ask::Manual),
        Stage::Resolved(done) => {
            let label = resolved_label(alloc, client, item.tid, item.option, done)?;
            let request = submission(alloc, &label, access, done.acts.as_slice())?;
            Ok(Ask::Commit(request))
        }
    }
}

/// The request that a transaction with this label and this access be committed, which has the lines of these acts.
fn submission(alloc: Global, label: &Label, access: &Access, acts: &[Act]) -> Result<Text, NoMemory>
    requires label { IsLabel label.now }
    requires access { IsAccess access.now }
    requires acts { AllByRecursion IsAct acts.now }
    ensures { IfOk result
        (λ bytes. IsMessage IsRequest request_spelling bytes (Commit label.now access.now (lines_of acts.now))) }
{
    let lines = lines_of(alloc, acts)?;
    let mut out = Text::with_capacity(alloc, ROOM)?;
    put_commit(label, access, &lines, &mut out)?;
    Ok(out)
}

/// The lines of the acts, in turn.
fn lines_of(alloc: Global, acts: &[Act]) -> Result<Lines, NoMemory>
    ensures { IfOk result (λ lines. lines ≡ lines_of acts.now) }
{
    let mut lines = Lines::new(alloc);
    'acts: for act in acts {
        add_lines(alloc, act.lines.as_slice(), &mut lines)?;
    }
    Ok(lines)
}

/// Puts copies of the lines after the others.
fn add_lines(alloc: Global, lines: &[Text], out: &mut Lines) -> Result<(), NoMemory>
    ensures { OnOk result (out.new ≡ out.old ++ lines.now) }
{
    'lines: for line in lines {
        out.push(line.copy(alloc)?)?;
    }
    Ok(())
}

/// The label of a transaction that is submitted with a run in its place.
fn resolved_label(
    alloc: Global,
    client: u64,
    tid: u64,
    option: OnConflict,
    done: &Resolution,
) -> Result<Label, NoMemory>
    requires client { client ≤ 7 }
    requires spelled { IsResolution done.now }
    ensures value { IfOk result (λ label. label ≡ resolved_label client tid option done.now) }
    ensures fits { IfOk result IsLabel }
{
    // A `Name` is always one, as its bytes say.
    let _ = done.script.as_bytes();
    Ok(Label {
        client,
        tid,
        script: done.script,
        budget: done.budget,
        way: way_of(option),
        kept: done.kept.copy(alloc)?,
    })
}

/// How a transaction is committed that was resolved.
fn way_of(option: OnConflict) -> Way
    ensures { result ≡ way_of option }
{
    match option {
        OnConflict::Reexec => Way::Reexecuted,
        OnConflict::Resolver(_) | OnConflict::Abort | OnConflict::Manual => Way::Resolved,
    }
}

/// The request that a transaction which waits be committed as it ran on the held tree.
fn commit(alloc: Global, client: u64, item: &Item, held: &Tree) -> Result<Text, NoMemory>
    requires client { client ≤ 7 }
    requires spelled { IsSpelledItem item.now }
    requires held { IsTreeOfRows held.now }
    requires hold { ActsHold held.now item.now.acts }
    requires guarded { AllGuarded item.now.acts }
    ensures { IfOk result (IsCommit client held.now item.now) }
{
    let label = label_of(alloc, client, item.tid, item.script, item.budget);
    let access = iot_access::of(alloc, &item.acts, held)?;
    submission(alloc, &label, &access, item.acts.as_slice())
}

/// The label of a transaction that is submitted as it ran. It found nothing to keep.
fn label_of(alloc: Global, client: u64, tid: u64, script: Name, budget: u64) -> Label
    requires client { client ≤ 7 }
    requires budget { budget ≤ ACT_LIMIT }
    ensures value { result ≡ label_in client tid script budget }
    ensures fits { IsLabel result }
{
    // A `Name` is always one, as its bytes say.
    let _ = script.as_bytes();
    Label {
        client,
        tid,
        script,
        budget,
        way: Way::Certified,
        kept: Files::new(alloc),
    }
}
