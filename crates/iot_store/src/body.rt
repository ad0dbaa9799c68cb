//! Reading the body of a checkpoint.
ghost use Rattle.std.specs.Prelude.{◌≡◌, ◌↔◌, IfOk, IfSome, IsTrue};
ghost use Rattle.iot_durable.specs.Rules.{IsThis};
ghost use Rattle.iot_store.specs.Bodies.{IsBody, IsState};
ghost use Rattle.iot_store.specs.Reading.{FitStamps};
ghost use Rattle.iot_store.specs.States.{State};
ghost use Rattle.iot_tree.specs.Snapshots.{is_known};

use crate::commits::Commits;
use iot_bodies::ServerBody;
use iot_slots::Version;
use iot_stamp::Stamped;
use iot_text::{NoMemory, Path};
use iot_tree::Node;
use iot_versions::read_server;
use std::alloc::Global;

/// The commits of which the body spells the whole in this version, if it does.
pub(crate) fn read_body(
    alloc: Global,
    version: Version,
    body: &[u8],
) -> Result<Option<Commits>, NoMemory>
    ensures found { IfOk result (λ read. IfSome read (λ made. IsBody version body.now made)) }
    ensures only { (state : State) → IsBody version body.now state → IfOk result (IsThis (λ (s : State). s) state) }
    ensures sound { IfOk result (λ read. IfSome read IsState) }
{
    let Some(parts) = read_server(alloc, version, body)? else {
        return Ok(None);
    };
    let ServerBody {
        tree,
        labels,
        stamps,
    } = parts;
    if !are_stamps(tree.rows().as_slice(), stamps.as_slice(), labels.len()) {
        return Ok(None);
    }
    let tree = Stamped::from_tree(tree, stamps.into_vec());
    Commits::with_labels(alloc, tree, labels)
}

/// Whether the rows are those of a whole tree, and each has a stamp, from 1 to the number of commits plus 1.
fn are_stamps(rows: &[(Path, Node)], stamps: &[u64], commits: usize) -> bool
    ensures { IsTrue result ↔ FitStamps rows.now stamps.now commits }
{
    if stamps.len() != rows.len() {
        return false;
    }
    'rows: for place in 0..rows.len() {
        if !is_known(&rows[place].1) {
            return false;
        }
        if stamps[place] == 0 || stamps[place] - 1 > commits as u64 {
            return false;
        }
    }
    true
}

/// Whether the inside of the object is known.
fn is_known(node: &Node) -> bool
    ensures { result ≡ is_known node.now }
{
    match node {
        Node::Dir | Node::File(..) => true,
        Node::FarDir | Node::FarFile(_) => false,
    }
}
