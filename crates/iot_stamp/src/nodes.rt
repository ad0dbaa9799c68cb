//! The stamps of objects, whose insides are known or not.
ghost use Rattle.std.specs.Prelude.{◌≡◌, cond};
ghost use Rattle.iot_tree.specs.Snapshots.{is_known};

use iot_tree::Node;

/// The stamp, or 0 if the object is far.
pub fn stamp_of(node: &Node, stamp: u64) -> u64
    ensures { result ≡ cond (is_known node.now) stamp 0 }
{
    if node.is_known() { stamp } else { 0 }
}
