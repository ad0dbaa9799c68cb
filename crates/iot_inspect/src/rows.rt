//! The rows of a tree.
ghost use Rattle.std.specs.Prelude.{◌≡◌, [], ◌∷◌, ◌++◌, OnOk, OnErr};
ghost use Rattle.iot_text.specs.Paths.{path_text};
ghost use Rattle.iot_text.specs.Texts.{AppendsPart};
ghost use Rattle.iot_tree.specs.declared.nodes.Node.TheVariants.{File, FarFile};
ghost use Rattle.iot_inspect.specs.Texts.{mode_text, row_line, tree_text};

use iot_text::{NoMemory, Path, Text, quote};
use iot_tree::{Blob, Mode, Node, Tree};

/// What kind of row it is, its path, and what ends its line.
fn put_path(kind: &[u8], path: &Path, end: &[u8], out: &mut Text) -> Result<(), NoMemory>
    ensures ok { OnOk result (out.new ≡ out.old ++ (kind.now ++ path_text path.now ++ end.now)) }
    ensures err { OnErr result (AppendsPart out.old out.new (kind.now ++ path_text path.now ++ end.now)) }
{
    out.append(kind)?;
    path.write_to(out)?;
    out.append(end)
}

/// What ends the line of a file with this mode.
fn end_of(mode: Mode) -> &'static [u8]
    ensures { result.now ≡ mode_text mode ++ 10 ∷ [] }
{
    match mode {
        Mode::Off => b"\n",
        Mode::On => b" x\n",
    }
}

/// The row of a file with these contents and this mode.
fn put_file(path: &Path, contents: &Blob, mode: Mode, out: &mut Text) -> Result<(), NoMemory>
    ensures ok { OnOk result (out.new ≡ out.old ++ row_line path.now (File contents.now mode)) }
    ensures err { OnErr result (AppendsPart out.old out.new (row_line path.now (File contents.now mode))) }
{
    put_path(b"file ", path, b" ", out)?;
    quote(contents.as_slice(), out)?;
    out.append(end_of(mode))
}

/// The row of a file with this mode, whose contents are not known.
fn put_far_file(path: &Path, mode: Mode, out: &mut Text) -> Result<(), NoMemory>
    ensures ok { OnOk result (out.new ≡ out.old ++ row_line path.now (FarFile mode)) }
    ensures err { OnErr result (AppendsPart out.old out.new (row_line path.now (FarFile mode))) }
{
    put_path(b"file ", path, b" far", out)?;
    out.append(end_of(mode))
}

/// One row.
fn put_row(path: &Path, node: &Node, out: &mut Text) -> Result<(), NoMemory>
    ensures ok { OnOk result (out.new ≡ out.old ++ row_line path.now node.now) }
    ensures err { OnErr result (AppendsPart out.old out.new (row_line path.now node.now)) }
{
    match node {
        Node::Dir => put_path(b"dir ", path, b"\n", out),
        Node::File(contents, mode) => put_file(path, contents, *mode, out),
        Node::FarDir => put_path(b"dir ", path, b" far\n", out),
        Node::FarFile(mode) => put_far_file(path, *mode, out),
    }
}

/// Appends the rows of a tree, in the order of their paths.
pub fn show(t: &Tree, out: &mut Text) -> Result<(), NoMemory>
    ensures ok { OnOk result (out.new ≡ out.old ++ tree_text t.now) }
    ensures err { OnErr result (AppendsPart out.old out.new (tree_text t.now)) }
{
    for (path, node) in t.rows().as_slice() {
        put_row(path, node, out)?;
    }
    Ok(())
}
