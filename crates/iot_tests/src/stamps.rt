//! Refreshes by difference.
use crate::fixtures::{letter, path, tree};
use iot_held::{Held, MergeFault};
use iot_stamp::Stamped;
use iot_text::{NoMemory, Path, Text};
use iot_tree::{Changes, Node, Paths, StampedRows, Update, Want};
use std::alloc::Global;
use std::process::Abort;

/// Each row by its letter, its path and its stamp; then the paths that are gone.
fn spelled(alloc: Global, changes: &Changes) -> Result<Text, NoMemory> {
    let mut text = Text::new(alloc);
    for (path, (node, stamp)) in changes.rows.as_slice() {
        text.push(letter(node))?;
        path.write_to(&mut text)?;
        text.append_number(*stamp)?;
    }
    for path in changes.gone.as_slice() {
        text.push(b' ')?;
        path.write_to(&mut text)?;
    }
    Ok(text)
}

/// A server and a client as they open.
fn opened(rt: &impl Abort, alloc: Global) -> Result<(Stamped, Held), NoMemory> {
    let before = tree(rt, alloc, "mkdir /d\nwrite /d/n 1\n")?;
    let server = Stamped::with_stamp(alloc, before, 1)?;
    Ok((server, Held::new(alloc)?))
}

/// The server moves the file, with stamp 2.
fn move_file(rt: &impl Abort, alloc: Global, server: &mut Stamped) -> Result<(), NoMemory> {
    let moved = Update::Move(path(rt, alloc, "/d/n"), path(rt, alloc, "/m"));
    assert!(rt; server.tree().fits(&moved));
    server.apply(alloc, &moved, 2)
}

/// What the server sends to the client, which merges it, is as expected.
fn refreshes(
    rt: &impl Abort,
    alloc: Global,
    server: &Stamped,
    client: &mut Held,
    want: &Want,
    expected: &[u8],
) -> Result<(), NoMemory> {
    let known = client.known_with_stamps(alloc)?;
    let changes = server.changed(alloc, known.as_slice(), want)?;
    assert_eq!(rt; spelled(alloc, &changes)?.as_bytes(), expected);
    assert!(rt; client.merge(alloc, changes).is_ok());
    Ok(())
}

/// The stamps of what the client knows, in the order of its paths.
fn stamps_of(alloc: Global, client: &Held) -> Result<Vec<u64>, NoMemory> {
    let mut stamps = Vec::new(alloc);
    for (_, stamp) in client.known_with_stamps(alloc)?.as_slice() {
        stamps.push(*stamp)?;
    }
    Ok(stamps)
}

/// All is sent at first, then nothing, and then what has moved.
fn sends_what_changed(
    rt: &impl Abort,
    alloc: Global,
    server: &mut Stamped,
    client: &mut Held,
) -> Result<(), NoMemory> {
    let all = Want::Below(Path::root(alloc));
    refreshes(rt, alloc, server, client, &all, b"d/1d/d1f/d/n1")?;
    refreshes(rt, alloc, server, client, &all, b"")?;
    move_file(rt, alloc, server)?;
    refreshes(
        rt,
        alloc,
        server,
        client,
        &Want::Nothing,
        b"d/2d/d2F/m0 /d/n",
    )?;
    assert_eq!(rt; client.tree().rows().len(), 3);
    assert_eq!(rt; stamps_of(alloc, client)?.as_slice(), [2, 2].as_slice());
    Ok(())
}

/// After a restart the client knows no stamp, so all that it knows comes again.
fn sends_all_again(
    rt: &impl Abort,
    alloc: Global,
    server: &Stamped,
    client: &Held,
) -> Result<(), NoMemory> {
    let mut restarted = Held::unstamped(alloc, client.tree().copy(alloc)?)?;
    refreshes(
        rt,
        alloc,
        server,
        &mut restarted,
        &Want::Nothing,
        b"d/2d/d2F/m0",
    )
}

#[test]
fn what_changed_is_sent_once(rt: HostRuntime) -> Result<(), NoMemory> {
    let alloc = rt.alloc();
    let (mut server, mut client) = opened(&rt, alloc)?;
    sends_what_changed(&rt, alloc, &mut server, &mut client)?;
    sends_all_again(&rt, alloc, &server, &client)
}

#[test]
fn a_row_without_its_parent_is_refused(rt: HostRuntime) -> Result<(), NoMemory> {
    let alloc = rt.alloc();
    let mut client = Held::new(alloc)?;
    let mut rows = StampedRows::new(alloc);
    rows.push((path(&rt, alloc, "/d"), (Node::FarDir, 1)))?;
    let changes = Changes {
        rows,
        gone: Paths::new(alloc),
    };
    let refused = matches!(client.merge(alloc, changes), Err(MergeFault::NoTree));
    assert!(rt; refused);
    assert_eq!(rt; client.tree().rows().len(), 1);
    Ok(())
}
