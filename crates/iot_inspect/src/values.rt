//! JSON values of what nodes hold.
ghost use Rattle.std.specs.Prelude.{ℕ, List, ◌≡◌, ◌<◌, ◌++◌, length, map, IfOk, codes};
ghost use Rattle.serde_json.specs.Data.{array, string};
ghost use Rattle.serde_json.specs.View.{view, items_of};
ghost use Rattle.iot_inspect.specs.Texts.{transaction_name, AreOf};
ghost use Rattle.iot_inspect.specs.Values.{text_data, pair_data, file_data, far_file_data, row_data, tree_data, item_data, queue_data};
ghost use Rattle.iot_inspect.specs.Values.{commit_data, commits_from};

use crate::commits::put_way;
use crate::pieces::put_transaction;
use crate::waiting::{put_option, put_stage};
use iot_queue::Item;
use iot_text::{Name, NoMemory, Path, Text};
use iot_tree::{Blob, Label, Mode, Node, Tree};
use serde_json::{Value, json};
use std::alloc::Global;

/// A text: each byte as the character of that number.
pub(crate) fn text_value(alloc: Global, bytes: &[u8]) -> Result<Value, NoMemory>
    ensures { IfOk result (λ value. view value ≡ text_data bytes.now) }
{
    let mut text = String::new(alloc);
    for byte in bytes {
        text.push(*byte as char)?;
    }
    Ok(Value::String(text))
}

/// A path, and what is said of what is there.
fn pair_value(alloc: Global, path: &Path, word: &str) -> Result<Value, NoMemory>
    ensures { IfOk result (λ value. view value ≡ pair_data path.now word.now) }
{
    let mut text = Text::new(alloc);
    path.write_to(&mut text)?;
    let path = text_value(alloc, text.as_bytes())?;
    json!(in alloc; [path, word])
}

/// A file with its contents and its mode.
fn file_value(alloc: Global, path: &Path, contents: &Blob, mode: Mode) -> Result<Value, NoMemory>
    ensures { IfOk result (λ value. view value ≡ file_data path.now contents.now mode) }
{
    let mut text = Text::new(alloc);
    path.write_to(&mut text)?;
    let path = text_value(alloc, text.as_bytes())?;
    let contents = text_value(alloc, contents.as_slice())?;
    match mode {
        Mode::Off => json!(in alloc; [path, "file", contents]),
        Mode::On => json!(in alloc; [path, "file", contents, "x"]),
    }
}

/// A file whose contents are not known, with its mode.
fn far_file_value(alloc: Global, path: &Path, mode: Mode) -> Result<Value, NoMemory>
    ensures { IfOk result (λ value. view value ≡ far_file_data path.now mode) }
{
    let mut text = Text::new(alloc);
    path.write_to(&mut text)?;
    let path = text_value(alloc, text.as_bytes())?;
    match mode {
        Mode::Off => json!(in alloc; [path, "far file"]),
        Mode::On => json!(in alloc; [path, "far file", "x"]),
    }
}

/// A row of a tree.
fn row_value(alloc: Global, path: &Path, node: &Node) -> Result<Value, NoMemory>
    ensures { IfOk result (λ value. view value ≡ row_data path.now node.now) }
{
    match node {
        Node::Dir => pair_value(alloc, path, "dir"),
        Node::File(contents, mode) => file_value(alloc, path, contents, *mode),
        Node::FarDir => pair_value(alloc, path, "far dir"),
        Node::FarFile(mode) => far_file_value(alloc, path, *mode),
    }
}

/// The rows of a tree, in the order of their paths.
pub(crate) fn tree_value(alloc: Global, t: &Tree) -> Result<Value, NoMemory>
    ensures { IfOk result (λ value. view value ≡ tree_data t.now) }
{
    let mut rows = Vec::new(alloc);
    for (path, node) in t.rows().as_slice() {
        rows.push(row_value(alloc, path, node)?)?;
    }
    Ok(Value::Array(rows))
}

/// The name of a transaction.
fn transaction_value(alloc: Global, client: &Name, tid: u64) -> Result<Value, NoMemory>
    ensures { IfOk result (λ value. view value ≡ text_data (transaction_name client.now tid)) }
{
    let mut text = Text::new(alloc);
    put_transaction(client, tid, &mut text)?;
    text_value(alloc, text.as_bytes())
}

/// A transaction that waits.
fn item_value(alloc: Global, client: &Name, item: &Item) -> Result<Value, NoMemory>
    ensures { IfOk result (λ value. view value ≡ item_data client.now item.now) }
{
    let acts = item.acts.len() as u64;
    let mut text = Text::new(alloc);
    put_option(&item.option, &mut text)?;
    let option = text_value(alloc, text.as_bytes())?;
    let script = text_value(alloc, item.script.as_bytes())?;
    text.clear();
    put_stage(&item.stage, &mut text)?;
    let stage = text_value(alloc, text.as_bytes())?;
    let tid = transaction_value(alloc, client, item.tid)?;
    json!(in alloc; {"acts": acts, "option": option, "script": script, "stage": stage, "tid": tid})
}

/// The transactions that wait, in their order.
pub(crate) fn queue_value(alloc: Global, client: &Name, items: &[Item]) -> Result<Value, NoMemory>
    ensures { IfOk result (λ value. view value ≡ queue_data client.now items.now) }
{
    let mut values = Vec::new(alloc);
    for item in items {
        values.push(item_value(alloc, client, item)?)?;
    }
    Ok(Value::Array(values))
}

/// A commit, of this number.
fn commit_value(
    alloc: Global,
    names: &[Name],
    number: u64,
    label: &Label,
) -> Result<Value, NoMemory>
    requires { label.now.client < length names.now }
    ensures { IfOk result (λ value. view value ≡ commit_data names.now number label.now) }
{
    let script = text_value(alloc, label.script.as_bytes())?;
    let tid = transaction_value(alloc, &names[label.client as usize], label.tid)?;
    let mut text = Text::new(alloc);
    put_way(label.way, &mut text)?;
    let way = text_value(alloc, text.as_bytes())?;
    json!(in alloc; {"number": number, "script": script, "tid": tid, "way": way})
}

/// The commits, numbered from 1.
pub(crate) fn commits_value(
    alloc: Global,
    names: &[Name],
    labels: &[Label],
) -> Result<Value, NoMemory>
    requires { AreOf names.now labels.now }
    ensures { IfOk result (λ value. view value ≡ array (items_of (commits_from names.now 1 labels.now))) }
{
    let mut values = Vec::new(alloc);
    for (place, label) in labels.iter().enumerate() {
        values.push(commit_value(alloc, names, place as u64 + 1, label)?)?;
    }
    Ok(Value::Array(values))
}
