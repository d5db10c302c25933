use crate::describe::{node_text, sizes_text, text_of};
use crate::line::places_text;
use anyhow::Context;
use node_store::{Cell, Cells, Keys, Kind, Node, Store};
use std::alloc::Global;
use values::{Key, Val};

/// A list of one empty object twice: it is kept once, and each of its places is a place of the state.
pub fn answer(alloc: Global) -> anyhow::Result<String> {
    let mut store = Store::new(alloc)?;
    let child = store
        .load(alloc, &Val::empty_object(alloc))
        .ok()
        .context("room")?;
    let mut cells = Vec::new(alloc);
    cells.push(Cell::Node(child))?;
    cells.push(Cell::Prim(Key::Null))?;
    cells.push(Cell::Node(child))?;
    let node = Node {
        kind: Kind::List,
        keys: Keys::from_vec(Vec::new(alloc)),
        cells: Cells::from_vec(cells),
    };
    let id = store.add(alloc, node).ok().context("room")?;
    let node = node_text(alloc, &store, id)?;
    let sizes = sizes_text(alloc, &store, id)?;
    let places = places_text(alloc, &store, id)?;
    let value = store.unfold(alloc, id)?;
    let value = text_of(alloc, &value)?;
    Ok(format!(in alloc; "shared: {node}; {sizes};{places}; {value}")?)
}
