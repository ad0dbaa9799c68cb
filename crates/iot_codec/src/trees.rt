//! Trees.
ghost use Rattle.std.specs.Prelude.{◌≡◌, ◌++◌, length, OnOk, OnErr, IfOk, None};
ghost use Rattle.std.specs.Option.{option_copied};
ghost use Rattle.iot_text.specs.Paths.{parent_of};
ghost use Rattle.iot_text.specs.Texts.{AppendsPart};
ghost use Rattle.iot_tree.specs.Rows.{AreTreeRows};
ghost use Rattle.iot_codec.specs.Outcomes.{IsOutcome, DecodesWhatIsSpelled};
ghost use Rattle.iot_codec.specs.Places.{IsSpelledAt, IsAlone};
ghost use Rattle.iot_views.specs.Decoders.{items_at};
ghost use Rattle.iot_views.specs.Decoding.{at_least_one, row_at, rows_at, tree_at};
ghost use Rattle.iot_views.specs.Rules.{IsTreeOfRows, has_dir, has_parent, path_follows, node_follows};
ghost use Rattle.iot_codec.specs.Spelling.{tree_spelling};
ghost use Rattle.iot_codec.specs.Laws.Trees.{tree_laws};

use crate::CodecFault;
use crate::parts::{malformed, room_for};
use crate::spelled::{Spelled, read};
use crate::tables::put_table;
use iot_text::{Name, NoMemory, Path, Text};
use iot_tree::{Node, Rows, Tree};
use iot_views::number_at;
use std::alloc::Global;

/// Whether rows of a tree that end in `last` have a known directory at the path.
fn has_dir(last: &(Path, Node), path: &[Name]) -> bool
    ensures { result ≡ has_dir last.now path.now }
{
    let names = last.0.names();
    names.starts_with(path) && (path.len() < names.len() || last.1.is_known_dir())
}

/// Whether rows of a tree that end in `last` have a known directory at the path's parent.
fn has_parent(last: &(Path, Node), path: &Path) -> bool
    ensures { result ≡ has_parent last.now (parent_of path.now) }
{
    match path.parent_names() {
        Some(parent) => has_dir(last, parent),
        None => false,
    }
}

/// Whether a row of the path may follow rows of a tree that end in `previous`, or be the first.
fn path_follows(previous: Option<&(Path, Node)>, path: &Path) -> bool
    ensures { result ≡ path_follows (option_copied previous.entry) path.now }
{
    match previous {
        Some(last) => last.0.cmp(path).is_lt() && has_parent(last, path),
        None => path.names().is_empty(),
    }
}

/// Whether the node may be in a row that follows `previous`, or is the first.
fn node_follows(previous: Option<&(Path, Node)>, node: &Node) -> bool
    ensures { result ≡ node_follows (option_copied previous.entry) node.now }
{
    previous.is_some() || node.is_dir()
}

/// Reads a row that follows another one, or is the first.
#[tactic(auto, unfolding(iot_views::specs::Decoding::row_at))]
fn read_row(
    alloc: Global,
    previous: Option<&(Path, Node)>,
    bytes: &[u8],
    at: usize,
) -> Result<((Path, Node), usize), CodecFault>
    ensures { IsOutcome result (row_at (option_copied previous.entry) bytes.now at) }
{
    let (path, after) = Path::read(alloc, bytes, at)?;
    if !path_follows(previous, &path) {
        return Err(malformed(at));
    }
    let (node, end) = Node::read(alloc, bytes, after)?;
    if !node_follows(previous, &node) {
        return Err(malformed(after));
    }
    Ok(((path, node), end))
}

/// Reads so many rows.
fn read_rows(
    alloc: Global,
    count: u64,
    bytes: &[u8],
    at: usize,
) -> Result<(Rows, usize), CodecFault>
    ensures { IsOutcome result (items_at row_at count None bytes.now at) }
{
    let mut rows = Vec::with_capacity(alloc, room_for(count, bytes, at))?;
    let mut end = at;
    'rows: for _ in 0..count {
        let (row, after) = read_row(alloc, rows.last(), bytes, end)?;
        rows.push(row)?;
        end = after;
    }
    Ok((Rows::from_vec(rows), end))
}

/// The number of a tree's rows, which is not 0.
fn count_at(bytes: &[u8], at: usize) -> Result<(u64, usize), CodecFault>
    ensures { IsOutcome result (at_least_one bytes.now at) }
{
    let (count, end) = number_at(bytes, at)?;
    if count == 0 {
        return Err(malformed(at));
    }
    Ok((count, end))
}

/// Reads rows, the number of them first.
#[tactic(auto, unfolding(iot_views::specs::Decoding::rows_at))]
fn counted_rows(alloc: Global, bytes: &[u8], at: usize) -> Result<(Rows, usize), CodecFault>
    ensures { IsOutcome result (rows_at bytes.now at) }
{
    let (count, at) = count_at(bytes, at)?;
    read_rows(alloc, count, bytes, at)
}

/// Reads the rows of a tree.
fn read_tree_rows(alloc: Global, bytes: &[u8], at: usize) -> Result<(Rows, usize), CodecFault>
    ensures exact { IsOutcome result (rows_at bytes.now at) }
    ensures tree { IfOk result (λ read. AreTreeRows read.0) }
{
    counted_rows(alloc, bytes, at)
}

impl Spelled for Tree {
    ghost has_spelling = { IsTreeOfRows };

    ghost spelling = { tree_spelling };

    ghost decoding = { tree_at };

    fn put(&self, out: &mut Text) -> Result<(), NoMemory> {
        put_table(self.rows().as_slice(), out)
    }

    #[tactic(auto, unfolding(iot_views::specs::Decoding::tree_at))]
    fn read(alloc: Global, bytes: &[u8], at: usize) -> Result<(Tree, usize), CodecFault> {
        let (rows, end) = read_tree_rows(alloc, bytes, at)?;
        let tree = Tree::of_rows(rows)?;
        Ok((tree, end))
    }

    ghost laws = { tree_laws };
}

/// Appends the spelling of the tree: the number of its rows, and then of each its path and its node.
pub fn put_tree(value: &Tree, out: &mut Text) -> Result<(), NoMemory>
    requires { IsTreeOfRows value.now }
    ensures ok { OnOk result (out.new ≡ out.old ++ tree_spelling value.now) }
    ensures err { OnErr result (AppendsPart out.old out.new (tree_spelling value.now)) }
{
    value.put(out)
}

/// Reads the tree that is spelled at the offset, and gives the offset after it.
///
/// # Errors
///
/// `Malformed` exactly if no tree is spelled there. `NoMemory` if there is none for it.
pub fn read_tree(alloc: Global, bytes: &[u8], at: usize) -> Result<(Tree, usize), CodecFault>
    ensures found { IfOk result (IsSpelledAt IsTreeOfRows tree_spelling bytes.now at) }
    ensures only { DecodesWhatIsSpelled IsTreeOfRows tree_spelling bytes.now at result }
    ensures one { IsAlone IsTreeOfRows tree_spelling bytes.now at }
    ensures exact { IsOutcome result (tree_at bytes.now at) }
{
    read(alloc, bytes, at)
}
