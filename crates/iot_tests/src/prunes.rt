//! What is known of a tree.
use crate::fixtures::{letter, path, tree};
use iot_prune::{away, known, prune, widen};
use iot_text::{NoMemory, Path, Text};
use iot_tree::{Question, Tree, Want};
use std::alloc::Global;
use std::process::Abort;

/// Each row by its letter and its path.
fn spelled(alloc: Global, tree: &Tree) -> Result<Text, NoMemory> {
    let mut text = Text::new(alloc);
    for row in tree.rows().as_slice() {
        text.push(letter(&row.1))?;
        row.0.write_to(&mut text)?;
    }
    Ok(text)
}

/// What a client that knew nothing holds after it asked the server for this.
fn held(rt: &impl Abort, alloc: Global, want: &Want) -> Result<Tree, NoMemory> {
    let server = tree(rt, alloc, "mkdir /d\nwrite /d/n 1\n")?;
    let first = known(alloc, &Tree::far_root(alloc)?)?;
    let paths = widen(alloc, first, &server, want)?;
    prune(alloc, &server, &paths)
}

#[test]
fn a_directory_is_hoarded(rt: HostRuntime) -> Result<(), NoMemory> {
    let alloc = rt.alloc();
    let held = held(&rt, alloc, &Want::Below(path(&rt, alloc, "/d")))?;
    assert_eq!(rt; spelled(alloc, &held)?.as_bytes(), b"d/d/df/d/n".as_slice());
    assert_eq!(rt; known(alloc, &held)?.len(), 3);
    Ok(())
}

#[test]
fn what_is_not_known_is_away(rt: HostRuntime) -> Result<(), NoMemory> {
    let alloc = rt.alloc();
    let held = held(&rt, alloc, &Want::Path(Path::root(alloc)))?;
    assert_eq!(rt; spelled(alloc, &held)?.as_bytes(), b"d/D/d".as_slice());
    for (question, is_away) in [
        (Question::Kind(path(&rt, alloc, "/d")), false),
        (Question::Names(path(&rt, alloc, "/d")), true),
        (Question::Content(path(&rt, alloc, "/d/n")), true),
        (Question::Content(path(&rt, alloc, "/e")), false),
    ] {
        assert_eq!(rt; away(&held, &question), is_away);
    }
    Ok(())
}
