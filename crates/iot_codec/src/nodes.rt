//! Nodes of a tree.
ghost use Rattle.std.specs.Prelude.{◌≡◌, ◌++◌, length, OnOk, OnErr, IfOk};
ghost use Rattle.iot_text.specs.Texts.{AppendsPart};
ghost use Rattle.iot_codec.specs.Outcomes.{IsOutcome, DecodesWhatIsSpelled};
ghost use Rattle.iot_codec.specs.Places.{IsSpelledAt, IsAlone};
ghost use Rattle.iot_views.specs.Decoding.{node_at};
ghost use Rattle.iot_views.specs.Rules.{IsNode};
ghost use Rattle.iot_codec.specs.Spelling.{node_spelling};
ghost use Rattle.iot_codec.specs.Laws.Trees.{node_laws};

use crate::CodecFault;
use crate::parts::malformed;
use crate::spelled::{Spelled, read};
use iot_text::{NoMemory, Text};
use iot_tree::{Blob, Mode, Node};
use iot_views::tag_at;
use std::alloc::Global;

impl Spelled for Node {
    ghost has_spelling = { IsNode };

    ghost spelling = { node_spelling };

    ghost decoding = { node_at };

    #[tactic(auto, unfolding(crate::specs::Spelling::node_spelling))]
    fn put(&self, out: &mut Text) -> Result<(), NoMemory> {
        match self {
            Node::Dir => out.push(1),
            Node::File(contents, mode) => {
                out.push(2)?;
                mode.put(out)?;
                contents.put(out)
            }
            Node::FarDir => out.push(3),
            Node::FarFile(mode) => {
                out.push(4)?;
                mode.put(out)
            }
        }
    }

    #[tactic(auto, unfolding(iot_views::specs::Decoding::node_at))]
    fn read(alloc: Global, bytes: &[u8], at: usize) -> Result<(Node, usize), CodecFault> {
        match tag_at(bytes, at) {
            Some(1) => Ok((Node::Dir, at + 1)),
            Some(2) => {
                let (mode, after) = Mode::read(alloc, bytes, at + 1)?;
                let (contents, end) = Blob::read(alloc, bytes, after)?;
                Ok((Node::File(contents, mode), end))
            }
            Some(3) => Ok((Node::FarDir, at + 1)),
            Some(4) => {
                let (mode, end) = Mode::read(alloc, bytes, at + 1)?;
                Ok((Node::FarFile(mode), end))
            }
            _ => Err(malformed(at)),
        }
    }

    ghost laws = { node_laws };
}

/// Appends the spelling of the node: its tag, and then the mode of a file, and its contents if they are known.
pub fn put_node(value: &Node, out: &mut Text) -> Result<(), NoMemory>
    requires { IsNode value.now }
    ensures ok { OnOk result (out.new ≡ out.old ++ node_spelling value.now) }
    ensures err { OnErr result (AppendsPart out.old out.new (node_spelling value.now)) }
{
    value.put(out)
}

/// Reads the node that is spelled at the offset, and gives the offset after it.
///
/// # Errors
///
/// `Malformed` exactly if no node is spelled there. `NoMemory` if there is none for it.
pub fn read_node(alloc: Global, bytes: &[u8], at: usize) -> Result<(Node, usize), CodecFault>
    ensures found { IfOk result (IsSpelledAt IsNode node_spelling bytes.now at) }
    ensures only { DecodesWhatIsSpelled IsNode node_spelling bytes.now at result }
    ensures one { IsAlone IsNode node_spelling bytes.now at }
    ensures exact { IsOutcome result (node_at bytes.now at) }
{
    read(alloc, bytes, at)
}
