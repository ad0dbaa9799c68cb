//! What a client knows of a tree, and what changed in it.
ghost use Rattle.std.specs.Prelude.{◌≡◌, ◌++◌, length, OnOk, OnErr, IfOk};
ghost use Rattle.iot_text.specs.Texts.{AppendsPart};
ghost use Rattle.iot_codec.specs.Outcomes.{IsOutcome, DecodesWhatIsSpelled};
ghost use Rattle.iot_codec.specs.Places.{IsSpelledAt, IsAlone};
ghost use Rattle.iot_views.specs.Decoding.{known_at, stamped_node_at, stamped_rows_at, changes_at};
ghost use Rattle.iot_views.specs.Rules.{AreKnown, IsStampedNode, AreStampedRows, AreChanges};
ghost use Rattle.iot_codec.specs.Spelling.{known_spelling, stamped_node_spelling, stamped_rows_spelling, changes_spelling};
ghost use Rattle.iot_codec.specs.Laws.Changes.{known_laws, stamped_node_laws, stamped_rows_laws, changes_laws};

use crate::CodecFault;
use crate::spelled::{Spelled, read};
use crate::tables::{put_table, read_table};
use iot_text::{NoMemory, Text};
use iot_tree::{Changes, Known, Node, Paths, StampedRows};
use std::alloc::Global;

impl Spelled for Known {
    ghost has_spelling = { AreKnown };

    ghost spelling = { known_spelling };

    ghost decoding = { known_at };

    fn put(&self, out: &mut Text) -> Result<(), NoMemory> {
        put_table(self.as_slice(), out)
    }

    #[tactic(auto, unfolding(iot_views::specs::Decoding::known_at))]
    fn read(alloc: Global, bytes: &[u8], at: usize) -> Result<(Known, usize), CodecFault> {
        read_table(alloc, bytes, at)
    }

    ghost laws = { known_laws };
}

impl Spelled for (Node, u64) {
    ghost has_spelling = { IsStampedNode };

    ghost spelling = { stamped_node_spelling };

    ghost decoding = { stamped_node_at };

    fn put(&self, out: &mut Text) -> Result<(), NoMemory> {
        self.0.put(out)?;
        self.1.put(out)
    }

    #[tactic(auto, unfolding(iot_views::specs::Decoding::stamped_node_at))]
    fn read(alloc: Global, bytes: &[u8], at: usize) -> Result<((Node, u64), usize), CodecFault> {
        let (node, after) = Node::read(alloc, bytes, at)?;
        let (stamp, end) = u64::read(alloc, bytes, after)?;
        Ok(((node, stamp), end))
    }

    ghost laws = { stamped_node_laws };
}

impl Spelled for StampedRows {
    ghost has_spelling = { AreStampedRows };

    ghost spelling = { stamped_rows_spelling };

    ghost decoding = { stamped_rows_at };

    fn put(&self, out: &mut Text) -> Result<(), NoMemory> {
        put_table(self.as_slice(), out)
    }

    #[tactic(auto, unfolding(iot_views::specs::Decoding::stamped_rows_at))]
    fn read(alloc: Global, bytes: &[u8], at: usize) -> Result<(StampedRows, usize), CodecFault> {
        read_table(alloc, bytes, at)
    }

    ghost laws = { stamped_rows_laws };
}

impl Spelled for Changes {
    ghost has_spelling = { AreChanges };

    ghost spelling = { changes_spelling };

    ghost decoding = { changes_at };

    #[tactic(auto, unfolding(crate::specs::Spelling::changes_spelling))]
    fn put(&self, out: &mut Text) -> Result<(), NoMemory> {
        self.rows.put(out)?;
        self.gone.put(out)
    }

    #[tactic(auto, unfolding(iot_views::specs::Decoding::changes_at))]
    fn read(alloc: Global, bytes: &[u8], at: usize) -> Result<(Changes, usize), CodecFault> {
        let (rows, after) = StampedRows::read(alloc, bytes, at)?;
        let (gone, end) = Paths::read(alloc, bytes, after)?;
        Ok((Changes { rows, gone }, end))
    }

    ghost laws = { changes_laws };
}

/// Appends the spelling of what a client knows: the number of the paths, and then each path with its stamp.
pub fn put_known(value: &Known, out: &mut Text) -> Result<(), NoMemory>
    requires { AreKnown value.now }
    ensures ok { OnOk result (out.new ≡ out.old ++ known_spelling value.now) }
    ensures err { OnErr result (AppendsPart out.old out.new (known_spelling value.now)) }
{
    value.put(out)
}

/// Reads what a client knows, spelled at the offset, and gives the offset after it.
///
/// # Errors
///
/// `Malformed` exactly if no paths that rise are spelled there, each with its stamp. `NoMemory` if there is none for them.
pub fn read_known(alloc: Global, bytes: &[u8], at: usize) -> Result<(Known, usize), CodecFault>
    ensures found { IfOk result (IsSpelledAt AreKnown known_spelling bytes.now at) }
    ensures only { DecodesWhatIsSpelled AreKnown known_spelling bytes.now at result }
    ensures one { IsAlone AreKnown known_spelling bytes.now at }
    ensures exact { IsOutcome result (known_at bytes.now at) }
{
    read(alloc, bytes, at)
}

/// Appends the spelling of changes: the number of the rows, and of each its path, its node and its stamp; then the paths
/// that are gone.
pub fn put_changes(value: &Changes, out: &mut Text) -> Result<(), NoMemory>
    requires { AreChanges value.now }
    ensures ok { OnOk result (out.new ≡ out.old ++ changes_spelling value.now) }
    ensures err { OnErr result (AppendsPart out.old out.new (changes_spelling value.now)) }
{
    value.put(out)
}

/// Reads the changes that are spelled at the offset, and gives the offset after them. Their rows need not be those of a tree.
///
/// # Errors
///
/// `Malformed` exactly if no changes are spelled there. `NoMemory` if there is none for them.
pub fn read_changes(alloc: Global, bytes: &[u8], at: usize) -> Result<(Changes, usize), CodecFault>
    ensures found { IfOk result (IsSpelledAt AreChanges changes_spelling bytes.now at) }
    ensures only { DecodesWhatIsSpelled AreChanges changes_spelling bytes.now at result }
    ensures one { IsAlone AreChanges changes_spelling bytes.now at }
    ensures exact { IsOutcome result (changes_at bytes.now at) }
{
    read(alloc, bytes, at)
}
