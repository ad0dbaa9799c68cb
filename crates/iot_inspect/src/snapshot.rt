//! All nodes as one JSON text.
ghost use Rattle.std.specs.Prelude.{◌≡◌, ◌++◌, ◌∷◌, [], IfOk, OnOk, OnErr, false};
ghost use Rattle.std.specs.Option.{option_copied};
ghost use Rattle.serde_json.specs.Written.{compact_text, has_float};
ghost use Rattle.serde_json.specs.View.{view, items_of, items_view};
ghost use Rattle.iot_inspect.specs.Texts.{AreOf};
ghost use Rattle.iot_inspect.specs.Values.{live_data, down_data, commits_data, server_data, whole_data, IsPlain};

use crate::values::{commits_value, queue_value, text_value, tree_value};
use iot_queue::Queue;
use iot_text::{Name, NoMemory, Text};
use iot_tree::{Labels, Tree};
use serde_json::{Value, json};
use std::alloc::Global;

/// What is to be told of all nodes: of each client that was added so far.
#[derive(Drop)]
pub struct Json {
    alloc: Global,
    names: Vec<Name>,
    clients: Vec<Value>,
    ghost plain: { IsPlain clients.items },
}

/// A client that is alive.
fn live_value(alloc: Global, name: &Name, q: &Queue, tree: &Tree) -> Result<Value, NoMemory>
    ensures { IfOk result (λ value. view value ≡ live_data name.now q.now tree.now) }
{
    let queue = queue_value(alloc, name, q.items())?;
    let tree = tree_value(alloc, tree)?;
    let name = text_value(alloc, name.as_bytes())?;
    json!(in alloc; {"alive": true, "name": name, "queue": queue, "view": tree})
}

/// A client that is down.
fn down_value(alloc: Global, name: &Name) -> Result<Value, NoMemory>
    ensures { IfOk result (λ value. view value ≡ down_data name.now) }
{
    let name = text_value(alloc, name.as_bytes())?;
    json!(in alloc; {"alive": false, "name": name, "queue": [], "view": null})
}

/// The commits, unless the server is down.
fn committed_value(
    alloc: Global,
    names: &[Name],
    labels: &Labels,
    server: Option<&Tree>,
) -> Result<Value, NoMemory>
    requires { AreOf names.now labels.now }
    ensures { IfOk result (λ value. view value ≡ commits_data names.now labels.now (option_copied server.entry)) }
{
    match server {
        Some(_) => commits_value(alloc, names, labels.as_slice()),
        None => Ok(Value::Array(Vec::new(alloc))),
    }
}

/// The server's tree, unless it is down.
fn server_value(alloc: Global, server: Option<&Tree>) -> Result<Value, NoMemory>
    ensures { IfOk result (λ value. view value ≡ server_data (option_copied server.entry)) }
{
    match server {
        Some(tree) => tree_value(alloc, tree),
        None => Ok(Value::Null),
    }
}

/// All nodes.
fn whole_value(
    alloc: Global,
    names: &[Name],
    clients: Vec<Value>,
    labels: &Labels,
    server: Option<&Tree>,
) -> Result<Value, NoMemory>
    requires { AreOf names.now labels.now }
    ensures { IfOk result (λ value. view value ≡ whole_data (items_view clients.items) names.now labels.now (option_copied server.entry)) }
{
    let commits = committed_value(alloc, names, labels, server)?;
    let tree = server_value(alloc, server)?;
    let list = Value::Array(clients);
    json!(in alloc; {"clients": list, "commits": commits, "server": tree})
}

/// The text of a value without a float.
fn text_of(alloc: Global, value: &Value) -> Result<Text, NoMemory>
    requires { has_float (view value.now) ≡ false }
    ensures { IfOk result (λ text. text ≡ compact_text (view value.now)) }
{
    Ok(Text::from(value.to_vec(alloc)?))
}

impl Json {
    ghost use Rattle.iot_inspect.specs.Shown.{shown, named};

    /// Starts with no client. Does not allocate.
    pub fn new(alloc: Global) -> Json
        ensures clients { shown result ≡ [] }
        ensures names { named result ≡ [] }
    {
        Json {
            alloc,
            names: Vec::new(alloc),
            clients: Vec::new(alloc),
        }
    }

    /// Adds a client. An error leaves everything as it was.
    fn add(&mut self, name: &Name, value: Value) -> Result<(), NoMemory>
        requires { has_float (view value) ≡ false }
        ensures clients { OnOk result (shown self.new ≡ shown self.old ++ view value ∷ []) }
        ensures names { OnOk result (named self.new ≡ named self.old ++ name.now ∷ []) }
        ensures unchanged { OnErr result (shown self.new ≡ shown self.old) }
        ensures same_names { OnErr result (named self.new ≡ named self.old) }
    {
        self.names.push(*name)?;
        match self.clients.push(value) {
            Ok(()) => Ok(()),
            Err(_) => {
                self.names.pop();
                Err(NoMemory)
            }
        }
    }

    /// Adds a client that is alive, with the transactions that wait and its view. An error leaves everything as it was.
    pub fn live(&mut self, name: &Name, q: &Queue, view: &Tree) -> Result<(), NoMemory>
        ensures clients { OnOk result (shown self.new ≡ shown self.old ++ live_data name.now q.now view.now ∷ []) }
        ensures names { OnOk result (named self.new ≡ named self.old ++ name.now ∷ []) }
        ensures unchanged { OnErr result (shown self.new ≡ shown self.old) }
        ensures same_names { OnErr result (named self.new ≡ named self.old) }
    {
        let value = live_value(self.alloc, name, q, view)?;
        self.add(name, value)
    }

    /// Adds a client that is down. An error leaves everything as it was.
    pub fn down(&mut self, name: &Name) -> Result<(), NoMemory>
        ensures clients { OnOk result (shown self.new ≡ shown self.old ++ down_data name.now ∷ []) }
        ensures names { OnOk result (named self.new ≡ named self.old ++ name.now ∷ []) }
        ensures unchanged { OnErr result (shown self.new ≡ shown self.old) }
        ensures same_names { OnErr result (named self.new ≡ named self.old) }
    {
        let value = down_value(self.alloc, name)?;
        self.add(name, value)
    }

    /// The text of all nodes, with the commits and the tree of the server, unless it is down.
    pub fn finish(self, labels: &Labels, server: Option<&Tree>) -> Result<Text, NoMemory>
        requires { AreOf (named self) labels.now }
        ensures { IfOk result
            (λ text. text ≡ compact_text (whole_data (items_of (shown self)) (named self) labels.now (option_copied server.entry))) }
    {
        let Json {
            alloc,
            names,
            clients,
        } = self;
        let value = whole_value(alloc, names.as_slice(), clients, labels, server)?;
        text_of(alloc, &value)
    }
}
