//! How much of a limit paths take.
ghost use Rattle.std.specs.Prelude.{◌≡◌, ◌+◌, ◌^◌, ◌<◌, Some};
ghost use Rattle.std.specs.Option.{option_copied};
ghost use Rattle.iot_hoard.specs.Sizes.{bytes_in, size_within};

use iot_tree::{Node, Paths, Tree};

/// How much of a limit these paths of the tree take: 64 each, and the bytes of their files; 2^64 − 1 if that is less.
pub fn size_of(s: &Tree, k: &Paths) -> u64
    ensures { result ≡ size_within s.now k.now }
{
    let mut size: u64 = 0;
    'paths: for path in k.as_slice() {
        size = size.saturating_add(weight(s.node(path.names())));
    }
    size
}

/// How much of a limit a path takes that has this node, or none.
pub(crate) fn weight(node: Option<&Node>) -> u64
    ensures { result ≡ 64 + bytes_in (option_copied node.entry) }
{
    match node {
        Some(node) => 64 + bytes_in(node),
        None => 64,
    }
}

/// How many bytes the object has, if it is a file whose contents are known.
fn bytes_in(node: &Node) -> u64
    ensures bytes { result ≡ bytes_in (Some node.now) }
    ensures fits { result < 2 ^ 63 }
{
    match node.content() {
        Some(bytes) => bytes.len() as u64,
        None => 0,
    }
}
