//! What several tests start from.
use iot_lang::{Script, parse};
use iot_text::{NoMemory, Path};
use iot_tree::{ACT_LIMIT, Files, Node, Tree};
use std::alloc::Global;
use std::process::Abort;
use std::rc::Rc;

pub(crate) fn path(rt: &impl Abort, alloc: Global, text: &str) -> Path {
    Path::parse(alloc, text.as_bytes()).expect(rt, "a path")
}

pub(crate) fn script(rt: &impl Abort, alloc: Global, text: &str) -> Result<Rc<Script>, NoMemory> {
    let script = parse(alloc, text.as_bytes()).expect(rt, "a script");
    Ok(Rc::new(alloc, script)?)
}

/// The tree that the script makes of a new one.
pub(crate) fn tree(rt: &impl Abort, alloc: Global, text: &str) -> Result<Tree, NoMemory> {
    let mut tree = Tree::whole_root(alloc)?;
    let script = script(rt, alloc, text)?;
    let acted = iot_exec::run_on(alloc, script, Files::new(alloc), &mut tree, ACT_LIMIT)?;
    assert!(rt; acted.ended);
    Ok(tree)
}

/// A letter for a row, in capitals if it is far.
pub(crate) fn letter(node: &Node) -> u8 {
    match node {
        Node::Dir => b'd',
        Node::File(..) => b'f',
        Node::FarDir => b'D',
        Node::FarFile(_) => b'F',
    }
}

/// What a client's disk has on which nothing but its start was done: the cells, and a checkpoint of a client that knows nothing.
pub(crate) const CLIENT_STARTED: &[u8] = b"\xa5IOTSLOT2\xa5\0\0\0\0\0\0\0\x01\x80\0\0\0\0\0\0\x2b\
    \0\0\0\0\0\0\0\0\0\0\0\0\0\0\0\0\0\
    \0\0\0\0\0\0\0\x29\0\0\0\0\0\0\0\x01\0\0\0\0\0\0\0\0\x03\0\0\0\0\0\0\0\0\0\0\0\0\0\0\0\0\
    \0\0\0\0\0\0\0\0\0\0\0\0\0\0\0\0";

/// That with records of these bodies, and of one more.
pub(crate) fn recorded(
    alloc: Global,
    bodies: &[&[u8]],
    last: Option<&[u8]>,
) -> Result<Vec<u8>, NoMemory> {
    let mut bytes = Vec::from_slice(alloc, CLIENT_STARTED)?;
    for body in bodies {
        record(&mut bytes, body)?;
    }
    if let Some(body) = last {
        record(&mut bytes, body)?;
    }
    bytes.push(0)?;
    Ok(bytes)
}

/// Appends a record of this body.
fn record(bytes: &mut Vec<u8>, body: &[u8]) -> Result<(), NoMemory> {
    bytes.push(165)?;
    bytes.extend_from_slice(&(body.len() as u64).to_be_bytes())?;
    bytes.extend_from_slice(body)?;
    Ok(())
}
