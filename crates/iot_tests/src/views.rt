//! What is lent out of bytes that were written by hand.
use iot_codec::{AccessView, ActView, AnswerView, BaseView, Malformed, QuestionView, UpdateView};
use std::process::Abort;
use std::test::Fail;

/// An act that asks nothing, changes nothing and prints `hi`.
const ACT: &[u8] = b"\0\0\0\0\0\0\0\0\0\0\0\0\0\0\0\0\x01\0\0\0\0\0\0\0\x02hi";

/// That `/x` is absent, which the third read of the run asked; and that the root is made.
const ACCESS: &[u8] =
    b"\0\0\0\0\0\0\0\x01\x01\0\0\0\0\0\0\0\x01\0\0\0\0\0\0\0\x01x\x02\0\0\0\0\0\0\0\x03\
    \0\0\0\0\0\0\0\x01\x02\0\0\0\0\0\0\0\0";

#[test]
fn an_act_lists_its_line(rt: HostRuntime) -> Result<(), Fail> {
    let (act, end) = ActView::at(ACT, 0).expect(&rt, "an act");
    assert_eq!(rt; end, 27);
    assert!(rt; act.reads().next().is_none());
    assert!(rt; act.update().is_none());
    let mut lines = act.lines();
    assert_eq!(rt; lines.next(), Some(&ACT[25..27]));
    assert_eq!(rt; lines.next(), None);
    Ok(())
}

#[test]
fn an_act_is_cut(rt: HostRuntime) -> Result<(), Fail> {
    match ActView::at(&ACT[..26], 0) {
        Ok(_) => assert!(rt; false, "no act is there"),
        Err(fault) => assert_eq!(rt; fault, Malformed { at: 25 }),
    }
    Ok(())
}

/// The base read is that `/x` is absent, in the third place.
fn is_absence(rt: &impl Abort, base: &BaseView<'_>) {
    assert_eq!(rt; base.place, 3);
    assert!(rt; matches!(base.answer, AnswerView::Absent));
    match &base.question {
        QuestionView::Kind(path) => assert_eq!(rt; path.names().next(), Some(b"x".as_slice())),
        _ => assert!(rt; false, "another question"),
    }
}

#[test]
fn an_access_lists_its_parts(rt: HostRuntime) -> Result<(), Fail> {
    let (access, end) = AccessView::at(ACCESS, 0).expect(&rt, "an access");
    assert_eq!(rt; end, ACCESS.len());
    let mut reads = access.reads();
    is_absence(&rt, &reads.next().expect(&rt, "a base read"));
    assert!(rt; reads.next().is_none());
    let mut updates = access.updates();
    assert!(rt; matches!(updates.next(), Some(UpdateView::MakeDir(_))));
    assert!(rt; updates.next().is_none());
    Ok(())
}
