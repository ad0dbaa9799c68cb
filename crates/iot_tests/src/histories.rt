//! Records of each of a client's changes, as they were written by hand.
ghost use Rattle.std.specs.Prelude.{IfOk};
ghost use Rattle.iot_kept.specs.Kept.{IsSynced};

use crate::fixtures::recorded;
use iot_disk::{Disk, MemDisk};
use iot_kept::{Kept, StartFault};
use iot_text::{NoMemory, Path};
use iot_tree::Kind;
use std::alloc::Global;
use std::test::Fail;

/// The root alone is held, and is whole.
const HELD: &[u8] = b"\x01\0\0\0\0\0\0\0\x01\0\0\0\0\0\0\0\0\x01";

/// Transactions 1 to 5 began: script `e`, which is run again if it conflicts, or waits to be decided by hand, or is given up.
const FIRST: &[u8] = b"\x02\0\0\0\0\0\0\0\x01\0\0\0\0\0\0\0\x01e\x01";

const SECOND: &[u8] = b"\x02\0\0\0\0\0\0\0\x02\0\0\0\0\0\0\0\x01e\x04";

const THIRD: &[u8] = b"\x02\0\0\0\0\0\0\0\x03\0\0\0\0\0\0\0\x01e\x03";

const FOURTH: &[u8] = b"\x02\0\0\0\0\0\0\0\x04\0\0\0\0\0\0\0\x01e\x03";

const FIFTH: &[u8] = b"\x02\0\0\0\0\0\0\0\x05\0\0\0\0\0\0\0\x01e\x03";

/// The root alone was brought for the first, the second or the third, and is whole.
const FETCHED_FIRST: &[u8] = b"\x03\0\0\0\0\0\0\0\x01\0\0\0\0\0\0\0\x01\0\0\0\0\0\0\0\0\x01";

const FETCHED_SECOND: &[u8] = b"\x03\0\0\0\0\0\0\0\x02\0\0\0\0\0\0\0\x01\0\0\0\0\0\0\0\0\x01";

const FETCHED_THIRD: &[u8] = b"\x03\0\0\0\0\0\0\0\x03\0\0\0\0\0\0\0\x01\0\0\0\0\0\0\0\0\x01";

/// For the first, the second or the third nothing was at `/d`, and the root is a directory; `/d` was made.
const ACTED_FIRST: &[u8] =
    b"\x04\0\0\0\0\0\0\0\x01\0\0\0\0\0\0\0\x02\x01\0\0\0\0\0\0\0\x01\0\0\0\0\0\0\0\x01d\x02\
    \x01\0\0\0\0\0\0\0\0\x03\x02\0\0\0\0\0\0\0\x01\0\0\0\0\0\0\0\x01d\0\0\0\0\0\0\0\0";

const ACTED_SECOND: &[u8] =
    b"\x04\0\0\0\0\0\0\0\x02\0\0\0\0\0\0\0\x02\x01\0\0\0\0\0\0\0\x01\0\0\0\0\0\0\0\x01d\x02\
    \x01\0\0\0\0\0\0\0\0\x03\x02\0\0\0\0\0\0\0\x01\0\0\0\0\0\0\0\x01d\0\0\0\0\0\0\0\0";

const ACTED_THIRD: &[u8] =
    b"\x04\0\0\0\0\0\0\0\x03\0\0\0\0\0\0\0\x02\x01\0\0\0\0\0\0\0\x01\0\0\0\0\0\0\0\x01d\x02\
    \x01\0\0\0\0\0\0\0\0\x03\x02\0\0\0\0\0\0\0\x01\0\0\0\0\0\0\0\x01d\0\0\0\0\0\0\0\0";

/// The same for the first, but the root was not asked.
const UNGUARDED: &[u8] =
    b"\x04\0\0\0\0\0\0\0\x01\0\0\0\0\0\0\0\x01\x01\0\0\0\0\0\0\0\x01\0\0\0\0\0\0\0\x01d\x02\
    \x02\0\0\0\0\0\0\0\x01\0\0\0\0\0\0\0\x01d\0\0\0\0\0\0\0\0";

/// The first or the second ended.
const ENDED_FIRST: &[u8] = b"\x05\0\0\0\0\0\0\0\x01";

const ENDED_SECOND: &[u8] = b"\x05\0\0\0\0\0\0\0\x02";

/// The first, the second or the third was cut, and keeps no act or one.
const CUT_FIRST: &[u8] = b"\x06\0\0\0\0\0\0\0\x01\0\0\0\0\0\0\0\0";

const CUT_FIRST_AT_ONE: &[u8] = b"\x06\0\0\0\0\0\0\0\x01\0\0\0\0\0\0\0\x01";

const CUT_SECOND: &[u8] = b"\x06\0\0\0\0\0\0\0\x02\0\0\0\0\0\0\0\0";

const CUT_SECOND_AT_ONE: &[u8] = b"\x06\0\0\0\0\0\0\0\x02\0\0\0\0\0\0\0\x01";

const CUT_THIRD_AT_ONE: &[u8] = b"\x06\0\0\0\0\0\0\0\x03\0\0\0\0\0\0\0\x01";

const CONFLICTED: &[u8] = b"\x07";

/// Script `e` was run with a budget of 1, did nothing, and asked nothing of the tree before it.
const RESOLVED: &[u8] = b"\x08\0\0\0\0\0\0\0\x01e\0\0\0\0\0\0\0\x01\0\0\0\0\0\0\0\0\
    \0\0\0\0\0\0\0\0\0\0\0\0\0\0\0\0\0\0\0\0\0\0\0\0";

/// Script `e` is to be run.
const REPAIRED: &[u8] = b"\x09\0\0\0\0\0\0\0\x01e";

const LEFT: &[u8] = b"\x0a";

/// The first or the second starts again.
const AGAIN_FIRST: &[u8] = b"\x0b\0\0\0\0\0\0\0\x01";

const AGAIN_SECOND: &[u8] = b"\x0b\0\0\0\0\0\0\0\x02";

/// The first is resolved and leaves, and the second is cut.
const DAY: &[&[u8]] = &[
    HELD,
    FIRST,
    ACTED_FIRST,
    ENDED_FIRST,
    SECOND,
    CONFLICTED,
    RESOLVED,
    CUT_SECOND,
    LEFT,
];

/// The second is decided by hand, repaired and resolved; then the third begins, and starts again on what was brought.
const WEEK: &[&[u8]] = &[
    HELD,
    FIRST,
    ENDED_FIRST,
    SECOND,
    CUT_SECOND,
    LEFT,
    CONFLICTED,
    REPAIRED,
    RESOLVED,
    LEFT,
    THIRD,
    ACTED_THIRD,
    FETCHED_THIRD,
    ACTED_THIRD,
];

/// The third conflicts, and is given up.
const GIVEN_UP: &[&[u8]] = &[
    HELD,
    FIRST,
    ENDED_FIRST,
    LEFT,
    SECOND,
    CUT_SECOND,
    LEFT,
    THIRD,
    ACTED_THIRD,
    CUT_THIRD_AT_ONE,
    CONFLICTED,
];

/// Two run, and both make `/d`. The first ends, so that what the second has read does not hold any more.
const BOTH: &[&[u8]] = &[HELD, FIRST, SECOND, ACTED_FIRST, ACTED_SECOND, ENDED_FIRST];

/// What cannot follow which bodies, and the place where it is damage.
const DAMAGE: &[(&[&[u8]], &[&[u8]], u64)] = &[
    // Nothing runs and nothing waits yet, and the number of the first is 1.
    (
        &[],
        &[
            SECOND,
            FETCHED_FIRST,
            ACTED_FIRST,
            ENDED_FIRST,
            CUT_FIRST,
            CONFLICTED,
            RESOLVED,
            REPAIRED,
            LEFT,
            AGAIN_FIRST,
            b"\x0c",
        ],
        100,
    ),
    // One runs. The root that is known at first is far, so that `/d` is away.
    (
        &[FIRST],
        &[
            FIRST,
            THIRD,
            ACTED_FIRST,
            ENDED_SECOND,
            CUT_FIRST_AT_ONE,
            AGAIN_FIRST,
            LEFT,
        ],
        128,
    ),
    (&[HELD, FIRST], &[UNGUARDED], 155),
    (&[HELD, FIRST, ACTED_FIRST], &[ACTED_FIRST], 236),
    // One waits, and then it is to be resolved.
    (
        &[FIRST, ENDED_FIRST],
        &[HELD, FIRST, FETCHED_FIRST, ENDED_FIRST, RESOLVED, REPAIRED],
        146,
    ),
    (
        &[FIRST, ENDED_FIRST, CONFLICTED],
        &[CONFLICTED, REPAIRED, LEFT],
        156,
    ),
    (&[FIRST, ENDED_FIRST, SECOND], &[FETCHED_SECOND], 174),
    // Four run.
    (&[FIRST, SECOND, THIRD, FOURTH], &[FIFTH], 212),
    // Two run. Both could end. The one with the least number is cut first, and keeps all that holds.
    (
        &[HELD, FIRST, SECOND, ACTED_FIRST],
        &[CUT_FIRST, CUT_SECOND, AGAIN_FIRST, AGAIN_SECOND],
        264,
    ),
    // One runs, whose act does not hold any more: it may start again, or be cut without the act.
    (BOTH, &[ENDED_SECOND, CUT_SECOND_AT_ONE, ACTED_SECOND], 363),
];

/// What is kept on a disk that is restarted.
fn started<D: Disk + Drop>(alloc: Global, mut disk: D) -> Result<Kept<D>, StartFault>
    ensures { IfOk result (λ kept. IsSynced D.medium kept) }
{
    disk.restart();
    match Kept::start(alloc, disk) {
        Ok(kept) => Ok(kept),
        Err((_, fault)) => Err(fault),
    }
}

/// A running transaction: its number, whether it is first class, how many acts it has, and what its own view has at `/d`.
type Seen = (u64, bool, usize, Kind);

/// The number and the budget of the first that waits.
fn head_of<D: Disk>(kept: &Kept<D>) -> Option<(u64, u64)> {
    match kept.queue().head() {
        Some(item) => Some((item.tid, item.budget)),
        None => None,
    }
}

/// What records lead to: the running transactions, the first that waits and how many do, the last number, and what is at `/d` in the held
/// tree and in the view.
#[derive(Drop)]
struct After {
    running: Vec<Seen>,
    head: Option<(u64, u64)>,
    waiting: usize,
    last: u64,
    held: Kind,
    view: Kind,
}

/// Each that runs, in the order of their numbers.
fn running_of<D: Disk>(alloc: Global, kept: &Kept<D>, path: &Path) -> Result<Vec<Seen>, NoMemory>
    requires { IsSynced D.medium kept.now }
{
    let mut seen = Vec::new(alloc);
    for it in kept.running() {
        seen.push((it.tid, it.first, it.acts.len(), it.view().kind(path)))?;
    }
    Ok(seen)
}

/// What these bodies lead to, and the last one if there is one.
fn seen_after(alloc: Global, bodies: &[&[u8]], last: Option<&[u8]>) -> Result<After, Fail> {
    seen_on(alloc, MemDisk::of(alloc, recorded(alloc, bodies, last)?)?)
}

/// What this disk leads to.
fn seen_on<D: Disk + Drop>(alloc: Global, disk: D) -> Result<After, Fail> {
    let kept = started(alloc, disk)?;
    seen(alloc, &kept)
}

/// What is kept.
fn seen<D: Disk>(alloc: Global, kept: &Kept<D>) -> Result<After, Fail>
    requires { IsSynced D.medium kept.now }
{
    let path = Path::parse(alloc, b"/d")?;
    Ok(After {
        running: running_of(alloc, kept, &path)?,
        head: head_of(kept),
        waiting: kept.queue().items().len(),
        last: kept.last(),
        held: kept.held().kind(&path),
        view: kept.view().kind(&path),
    })
}

#[test]
fn what_a_transaction_did_stays(rt: HostRuntime) -> Result<(), Fail> {
    let alloc = rt.alloc();
    let seen = seen_after(alloc, DAY, None)?;
    assert!(rt; seen.running.is_empty());
    assert_eq!(rt; seen.head, Some((2, 0)));
    assert_eq!(rt; (seen.waiting, seen.last), (1, 2));
    assert_eq!(rt; seen.held, Kind::IsDir);
    Ok(())
}

#[test]
fn a_transaction_starts_again(rt: HostRuntime) -> Result<(), Fail> {
    let alloc = rt.alloc();
    let seen = seen_after(alloc, WEEK, None)?;
    assert_eq!(rt;
        seen.running.as_slice(),
        [(3, false, 1, Kind::IsDir)].as_slice()
    );
    assert_eq!(rt; (seen.waiting, seen.last), (0, 3));
    // What it made is in its own view alone.
    assert_eq!(rt; (seen.held, seen.view), (Kind::Absent, Kind::Absent));
    Ok(())
}

#[test]
fn a_conflict_may_be_given_up(rt: HostRuntime) -> Result<(), Fail> {
    let alloc = rt.alloc();
    let seen = seen_after(alloc, GIVEN_UP, None)?;
    assert!(rt; seen.running.is_empty());
    assert_eq!(rt; (seen.waiting, seen.last), (0, 3));
    assert_eq!(rt; seen.held, Kind::IsDir);
    Ok(())
}

/// Two that run see neither what the other has made nor what has ended since they began.
#[test]
fn each_has_a_view_of_its_own(rt: HostRuntime) -> Result<(), Fail> {
    let alloc = rt.alloc();
    let two = seen_after(alloc, &[HELD, FIRST, SECOND, ACTED_FIRST], None)?;
    assert_eq!(rt;
        two.running.as_slice(),
        [(1, false, 1, Kind::IsDir), (2, false, 0, Kind::Absent)].as_slice()
    );
    assert_eq!(rt; (two.held, two.view), (Kind::Absent, Kind::Absent));
    let one = seen_after(alloc, BOTH, None)?;
    assert_eq!(rt;
        one.running.as_slice(),
        [(2, false, 1, Kind::IsDir)].as_slice()
    );
    assert_eq!(rt; (one.waiting, one.last), (1, 2));
    assert_eq!(rt; (one.held, one.view), (Kind::Absent, Kind::IsDir));
    Ok(())
}

/// The one whose act does not hold any more starts again on the view, or is cut without the act.
#[test]
fn what_does_not_hold_any_more_is_dropped(rt: HostRuntime) -> Result<(), Fail> {
    let alloc = rt.alloc();
    let again = seen_after(alloc, BOTH, Some(AGAIN_SECOND))?;
    assert_eq!(rt;
        again.running.as_slice(),
        [(2, false, 0, Kind::IsDir)].as_slice()
    );
    assert_eq!(rt; (again.head, again.waiting), (Some((1, 4_096)), 1));
    let cut = seen_after(alloc, BOTH, Some(CUT_SECOND))?;
    assert!(rt; cut.running.is_empty());
    assert_eq!(rt; (cut.waiting, cut.last), (2, 2));
    Ok(())
}

/// Whether this disk is damaged at this place.
fn is_damaged<D: Disk + Drop>(alloc: Global, disk: D, at: u64) -> Result<bool, StartFault> {
    match started(alloc, disk) {
        Ok(_) => Ok(false),
        Err(StartFault::Damaged { at: place }) => Ok(place == at),
        Err(fault) => Err(fault),
    }
}

/// Whether each of the later bodies is damage at this place after these.
fn are_damaged(
    alloc: Global,
    bodies: &[&[u8]],
    later: &[&[u8]],
    at: u64,
) -> Result<bool, StartFault> {
    for last in later {
        let disk = MemDisk::of(alloc, recorded(alloc, bodies, Some(last))?)?;
        if !is_damaged(alloc, disk, at)? {
            return Ok(false);
        }
    }
    Ok(true)
}

#[test]
fn what_cannot_follow_is_damage(rt: HostRuntime) -> Result<(), Fail> {
    let alloc = rt.alloc();
    for (bodies, later, at) in DAMAGE {
        assert!(rt; are_damaged(alloc, bodies, later, *at)?);
    }
    Ok(())
}
