//! What transactions ask of the tree before them.
use crate::fixtures::{script, tree};
use iot_text::NoMemory;
use iot_tree::{ACT_LIMIT, Files, Question};

#[test]
fn what_moved_is_asked_where_it_was(rt: HostRuntime) -> Result<(), NoMemory> {
    let alloc = rt.alloc();
    let before = tree(&rt, alloc, "mkdir /d\nwrite /d/n 1\n")?;
    let moves = script(&rt, alloc, "mv /d /e\ncat /e/n\nls /e\n")?;
    let ran = iot_exec::run(alloc, moves, Files::new(alloc), &before, ACT_LIMIT)?;
    let access = iot_access::of(alloc, &ran.acts, &before)?;
    assert_eq!(rt; access.updates.len(), 1);
    assert_eq!(rt; access.places.as_slice(), [1, 2, 3, 4, 5].as_slice());
    Ok(())
}
