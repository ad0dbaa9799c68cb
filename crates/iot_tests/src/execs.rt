//! A script on a tree of which only some is known.
use crate::fixtures::{path, script};
use iot_exec::Exec;
use iot_text::NoMemory;
use iot_tree::{Files, Tree};

#[test]
fn an_act_asks_for_what_the_tree_does_not_know(rt: HostRuntime) -> Result<(), NoMemory> {
    let alloc = rt.alloc();
    let mut tree = Tree::far_root(alloc)?;
    let mut exec = Exec::new(alloc, script(&rt, alloc, "cat /d/n\n")?, Files::new(alloc));
    assert!(rt; exec.next_miss(alloc, &tree)? == Some(path(&rt, alloc, "/d/n")));
    assert!(rt; !exec.at_end() && !exec.at_limit());
    let act = exec.act(alloc, &mut tree)?;
    let line = act.lines.as_slice().first().expect(&rt, "a line");
    assert_eq!(rt; line.as_bytes(), b"cat: /d/n: not cached".as_slice());
    assert!(rt; exec.at_end() && exec.acts() == 1);
    Ok(())
}
