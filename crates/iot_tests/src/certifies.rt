//! Acts and accesses on a tree on which they no longer hold.
ghost use Rattle.std.specs.Prelude.{◌≡◌, length, IfOk};

use crate::fixtures::{script, tree};
use iot_certify::{Verdict, certify, certify_acts};
use iot_text::NoMemory;
use iot_tree::{ACT_LIMIT, Access, Answer, Files, Tree};
use std::alloc::Global;
use std::process::Abort;

/// The place of the read that differs, and the contents that it has now or the number of the names.
fn differing(verdict: &Verdict) -> Option<(u64, &[u8], usize)> {
    match verdict {
        Verdict::Differs {
            read,
            answer: Answer::Bytes(bytes),
        } => Some((*read, bytes.as_slice(), 0)),
        Verdict::Differs {
            read,
            answer: Answer::Names(names),
        } => Some((*read, b"", names.len())),
        _ => None,
    }
}

#[test]
fn what_moved_is_read_where_it_was(rt: HostRuntime) -> Result<(), NoMemory> {
    let alloc = rt.alloc();
    let before = tree(&rt, alloc, "mkdir /d\nwrite /d/n 1\n")?;
    let moves = script(&rt, alloc, "mv /d /e\ncat /e/n\n")?;
    let ran = iot_exec::run(alloc, moves, Files::new(alloc), &before, ACT_LIMIT)?;
    assert!(rt; matches!(certify_acts(alloc, &before, &ran.acts)?, Verdict::Holds));
    let now = tree(&rt, alloc, "mkdir /d\nwrite /d/n 2\n")?;
    let verdict = certify_acts(alloc, &now, &ran.acts)?;
    assert_eq!(rt; differing(&verdict), Some((4, b"2".as_slice(), 0)));
    Ok(())
}

/// What a script that ran on this tree asked of it, which holds there.
fn asked(rt: &impl Abort, alloc: Global, before: &Tree, text: &str) -> Result<Access, NoMemory>
    ensures { IfOk result (λ access. length access.places ≡ length access.reads) }
{
    let ran = iot_exec::run(
        alloc,
        script(rt, alloc, text)?,
        Files::new(alloc),
        before,
        ACT_LIMIT,
    )?;
    let access = iot_access::of(alloc, &ran.acts, before)?;
    assert!(rt; matches!(certify(alloc, before, &access)?, Verdict::Holds));
    Ok(access)
}

/// On this tree the access differs there.
fn differs(
    rt: &impl Abort,
    alloc: Global,
    now: &Tree,
    access: &Access,
    at: (u64, &[u8], usize),
) -> Result<(), NoMemory>
    requires { length access.now.places ≡ length access.now.reads }
{
    let verdict = certify(alloc, now, access)?;
    assert_eq!(rt; differing(&verdict), Some(at));
    Ok(())
}

#[test]
fn names_are_asked_of_the_tree_before(rt: HostRuntime) -> Result<(), NoMemory> {
    let alloc = rt.alloc();
    let before = tree(&rt, alloc, "mkdir /d\n")?;
    let access = asked(&rt, alloc, &before, "write /d/a A\nls /d\n")?;
    let now = tree(&rt, alloc, "mkdir /d\nwrite /d/b B\n")?;
    differs(&rt, alloc, &now, &access, (3, b"", 1))
}

#[test]
fn what_moved_is_judged_by_its_access(rt: HostRuntime) -> Result<(), NoMemory> {
    let alloc = rt.alloc();
    let before = tree(&rt, alloc, "mkdir /d\nwrite /d/n 1\n")?;
    let access = asked(&rt, alloc, &before, "mv /d /e\ncat /e/n\n")?;
    let now = tree(&rt, alloc, "mkdir /d\nwrite /d/n 2\n")?;
    differs(&rt, alloc, &now, &access, (4, b"2", 0))
}
