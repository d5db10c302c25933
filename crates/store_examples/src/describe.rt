//! A node and its numbers as a text.
ghost use Rattle.node_store.specs.Paged.{states};
ghost use Rattle.std.specs.Prelude.{◌≡◌, ◌≤◌, ◌<◌, length, None, IfOk};
ghost use Rattle.numbered.specs.Store.{tree_at};
ghost use Rattle.value_model.specs.Limits.{state_limit};
ghost use Rattle.node_store.specs.Nodes.{cells_of};

use anyhow::Context;
use node_store::{Cell, Kind, NodeId, Store};
use std::alloc::Global;
use value_checks::check_state;
use value_json::{read_value, write_value};
use values::{Key, Val};

/// The state that a JSON text is.
pub fn state_of(alloc: Global, text: &str) -> anyhow::Result<Val>
    ensures { IfOk result (λ v. state_limit v ≡ None) }
{
    let v = read_value(alloc, text.as_bytes()).ok().context("a value")?;
    check_state(&v).ok().context("a state")?;
    Ok(v)
}

/// The JSON text of a value.
pub fn text_of(alloc: Global, v: &Val) -> anyhow::Result<String> {
    Ok(String::from_str(alloc, write_value(alloc, v)?.as_str())?)
}

/// A node: its kind, then each entry's key and cell, a node's number behind `#`.
pub fn node_text(alloc: Global, store: &Store, id: NodeId) -> anyhow::Result<String>
    requires { id ≤ length (states store.now) }
{
    let mut out = String::from_str(alloc, name_of(store.kind(id)))?;
    for i in 0..store.count(id) {
        out.push(' ')?;
        push_key(alloc, store, id, i, &mut out)?;
        push_cell(alloc, store.cell(id, i), &mut out)?;
    }
    Ok(out)
}

/// A node's number, what its store weighs, and the node's weight, values, depth and container places.
pub fn sizes_text(alloc: Global, store: &Store, id: NodeId) -> anyhow::Result<String>
    requires { id ≤ length (states store.now) }
{
    let (number, used, weight) = (id.get(), store.used(), store.weight(id));
    let (values, depth, places) = (store.values(id), store.depth(id), store.containers(id));
    Ok(format!(in alloc;
        "number {number}, used {used}, weight {weight}, values {values}, depth {depth}, places {places}"
    )?)
}

/// Writes the key of an entry, where there are keys.
fn push_key(
    alloc: Global,
    store: &Store,
    id: NodeId,
    i: usize,
    out: &mut String,
) -> anyhow::Result<()>
    requires number { id ≤ length (states store.now) }
    requires in_range { i < length (cells_of (tree_at (states store.now) id)) }
{
    let key = match store.kind(id) {
        Kind::List => return Ok(()),
        Kind::Obj => store.key(id, i),
        Kind::Map => store.key(id, i),
        Kind::Set => store.key(id, i),
    };
    push_primitive(alloc, key, out)?;
    out.push(':')?;
    Ok(())
}

fn push_cell(alloc: Global, cell: &Cell, out: &mut String) -> anyhow::Result<()> {
    match cell {
        Cell::Prim(key) => push_primitive(alloc, key, out),
        Cell::Node(child) => {
            let number = child.get();
            out.push_str(format!(in alloc; "#{number}")?.as_str())?;
            Ok(())
        }
    }
}

fn push_primitive(alloc: Global, key: &Key, out: &mut String) -> anyhow::Result<()> {
    let text = text_of(alloc, &Val::primitive(key.copy(alloc)?))?;
    out.push_str(text.as_str())?;
    Ok(())
}

fn name_of(kind: Kind) -> &'static str {
    match kind {
        Kind::Obj => "Obj",
        Kind::List => "List",
        Kind::Map => "Map",
        Kind::Set => "Set",
    }
}
