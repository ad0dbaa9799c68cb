//! Trees of which only some is known, and copies of trees.
use crate::fixtures::{path, tree};
use iot_text::NoMemory;
use iot_tree::{Duplicate, Kind, Mode, Node, Question, Read, Reads, Rows, Tree, Update};
use std::alloc::Global;
use std::process::Abort;
use std::test::Fail;

/// These rows.
fn rows(rt: &impl Abort, alloc: Global, spelled: &[(&str, &Node)]) -> Result<Rows, NoMemory> {
    let mut rows = Rows::new(alloc);
    for (text, node) in spelled {
        rows.push((path(rt, alloc, text), node.copy(alloc)?))?;
    }
    Ok(rows)
}

#[test]
fn the_inside_of_a_far_object_is_away(rt: HostRuntime) -> Result<(), Fail> {
    let spelled = [
        ("/", &Node::Dir),
        ("/d", &Node::FarDir),
        ("/f", &Node::FarFile(Mode::Off)),
    ];
    let tree = Tree::from_rows(rows(&rt, rt.alloc(), &spelled)?)?;
    for (text, kind) in [
        ("/d", Kind::IsDir),
        ("/f", Kind::IsFile),
        ("/d/n", Kind::Away),
        ("/d/n/m", Kind::Away),
        ("/e", Kind::Absent),
        ("/f/n", Kind::Absent),
    ] {
        assert!(rt; tree.kind(&path(&rt, rt.alloc(), text)) == kind, "{text}");
    }
    assert!(rt; tree.content(&path(&rt, rt.alloc(), "/f")).is_none());
    Ok(())
}

/// What the tree answers of the file `/d/n` and of the directory above it.
fn reads_of(rt: &impl Abort, alloc: Global, before: &Tree) -> Result<Reads, NoMemory> {
    let asked = [
        Question::Kind(path(rt, alloc, "/d/n")),
        Question::Content(path(rt, alloc, "/d/n")),
        Question::Names(path(rt, alloc, "/d")),
    ];
    let mut reads = Reads::new(alloc);
    for question in asked {
        let answer = before.answer(alloc, &question)?;
        reads.push(Read { question, answer })?;
    }
    Ok(reads)
}

#[test]
fn a_copy_stays_as_it_was(rt: HostRuntime) -> Result<(), NoMemory> {
    let alloc = rt.alloc();
    let before = tree(&rt, alloc, "mkdir /d\nwrite /d/n 1\n")?;
    let reads = reads_of(&rt, alloc, &before)?;
    let mut after = before.copy(alloc)?;
    let update = Update::Remove(path(&rt, alloc, "/d/n"));
    assert!(rt; after.fits(&update));
    after.apply(alloc, &update)?;
    for read in reads.as_slice() {
        assert!(rt; before.answers(read) && !after.answers(read));
    }
    Ok(())
}
