//! Rows of trees as version 1 spells them: a file has no mode.
ghost use Rattle.std.specs.Prelude.{◌≡◌, ◌++◌, OnOk, OnErr};
ghost use Rattle.iot_text.specs.Texts.{AppendsPart};
ghost use Rattle.iot_codec.specs.Outcomes.{IsOutcome};
ghost use Rattle.iot_codec.specs.Spelling.{node_spelling, pair_spelling, path_spelling};
ghost use Rattle.iot_versions.specs.Decoding.{old_node_at, old_row_at};
ghost use Rattle.iot_versions.specs.Respelling.{IsOldRow};
ghost use Rattle.iot_versions.specs.Spelling.{old_node_spelling, old_row_spelling};
ghost use Rattle.iot_versions.specs.Laws.{old_row_laws};

use iot_codec::{CodecFault, Spelled};
use iot_text::{NoMemory, Path, Text};
use iot_tree::{Blob, Mode, Node};
use iot_views::tag_at;
use std::alloc::Global;
use std::marker::Model;

/// A row of a tree in which all modes are off.
#[derive(Drop)]
pub(crate) struct OldRow {
    path: Path,
    node: Node,
}

impl Model for OldRow {
    ghost use Rattle.iot_tree.specs.Tree.{Row};

    ghost Value = { Row };

    ghost view = { λ row. (row.path, row.node) };
}

impl OldRow {
    /// Appends the row in version 2.
    pub(crate) fn put_new(&self, out: &mut Text) -> Result<(), NoMemory>
        ensures { OnOk result (out.new ≡ out.old ++ pair_spelling path_spelling node_spelling self.now) }
    {
        self.path.put(out)?;
        self.node.put(out)
    }
}

impl Spelled for OldRow {
    ghost has_spelling = { IsOldRow };

    ghost spelling = { old_row_spelling };

    ghost decoding = { old_row_at };

    fn put(&self, out: &mut Text) -> Result<(), NoMemory> {
        self.path.put(out)?;
        put_old_node(&self.node, out)
    }

    #[tactic(auto, unfolding(crate::specs::Decoding::old_row_at))]
    fn read(alloc: Global, bytes: &[u8], at: usize) -> Result<(OldRow, usize), CodecFault> {
        let (path, at) = Path::read(alloc, bytes, at)?;
        let (node, end) = read_old_node(alloc, bytes, at)?;
        Ok((OldRow { path, node }, end))
    }

    ghost laws = { old_row_laws };
}

/// Appends a node in version 1.
#[tactic(auto, unfolding(crate::specs::Spelling::old_node_spelling))]
fn put_old_node(node: &Node, out: &mut Text) -> Result<(), NoMemory>
    ensures ok { OnOk result (out.new ≡ out.old ++ old_node_spelling node.now) }
    ensures err { OnErr result (AppendsPart out.old out.new (old_node_spelling node.now)) }
{
    match node {
        Node::Dir => out.push(1),
        Node::File(contents, _) => {
            out.push(2)?;
            contents.put(out)
        }
        Node::FarDir => out.push(3),
        Node::FarFile(_) => out.push(4),
    }
}

/// Reads a node that is spelled in version 1.
#[tactic(auto, unfolding(crate::specs::Decoding::old_node_at))]
fn read_old_node(alloc: Global, bytes: &[u8], at: usize) -> Result<(Node, usize), CodecFault>
    ensures { IsOutcome result (old_node_at bytes.now at) }
{
    match tag_at(bytes, at) {
        Some(1) => Ok((Node::Dir, at + 1)),
        Some(2) => {
            let (contents, end) = Blob::read(alloc, bytes, at + 1)?;
            Ok((Node::File(contents, Mode::Off), end))
        }
        Some(3) => Ok((Node::FarDir, at + 1)),
        Some(4) => Ok((Node::FarFile(Mode::Off), at + 1)),
        _ => Err(malformed(at)),
    }
}

/// The fault of a node that begins at the offset.
fn malformed(at: usize) -> CodecFault
    ensures { result ≡ CodecFault.Malformed at }
{
    CodecFault::Malformed { at: at as u64 }
}
