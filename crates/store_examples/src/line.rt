//! What is said of a state: its root as a node, the root's numbers, the numbers of its container places, a container before
//! what is in it, the value that is read back, and, of each key that is looked up, the entry of the root that has it.
ghost use Rattle.node_store.specs.Paged.{states};
ghost use Rattle.std.specs.Prelude.{◌≤◌, length};

use crate::describe::{node_text, sizes_text, state_of, text_of};
use anyhow::Context;
use node_store::{Cell, NodeId, Store};
use std::alloc::Global;

pub fn answer(alloc: Global, line: &str) -> anyhow::Result<String> {
    match line.split_once(' ') {
        Some((state, keys)) => answer_with(alloc, state, keys),
        None => answer_with(alloc, line, "[]"),
    }
}

fn answer_with(alloc: Global, state: &str, keys: &str) -> anyhow::Result<String> {
    let state = state_of(alloc, state)?;
    let keys = state_of(alloc, keys)?;
    let mut store = Store::new(alloc)?;
    let id = store.load(alloc, &state).ok().context("room")?;
    let node = node_text(alloc, &store, id)?;
    let sizes = sizes_text(alloc, &store, id)?;
    let places = places_text(alloc, &store, id)?;
    let value = store.unfold(alloc, id)?;
    let value = text_of(alloc, &value)?;
    let keys = store.load(alloc, &keys).ok().context("room")?;
    let found = found_text(alloc, &store, id, keys)?;
    Ok(format!(in alloc; "{node}; {sizes};{places}; {value};{found}")?)
}

/// The number of each container place.
pub fn places_text(alloc: Global, store: &Store, id: NodeId) -> anyhow::Result<String>
    requires { id ≤ length (states store.now) }
{
    let mut out = String::new(alloc);
    for n in 0..store.containers(id) {
        let number = store.locate(id, n).get();
        out.push_str(format!(in alloc; " {number}")?.as_str())?;
    }
    Ok(out)
}

/// Where each key of a list stands in a node.
fn found_text(alloc: Global, store: &Store, id: NodeId, keys: NodeId) -> anyhow::Result<String>
    requires node { id ≤ length (states store.now) }
    requires keys { keys ≤ length (states store.now) }
{
    let mut out = String::new(alloc);
    for i in 0..store.count(keys) {
        let found = match store.cell(keys, i) {
            Cell::Prim(key) => store.find(id, key),
            Cell::Node(_) => None,
        };
        match found {
            Some(at) => out.push_str(format!(in alloc; " {at}")?.as_str())?,
            None => out.push_str(" none")?,
        }
    }
    Ok(out)
}
