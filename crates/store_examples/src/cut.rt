use crate::describe::{node_text, sizes_text, state_of};
use anyhow::Context;
use node_store::Store;
use std::alloc::Global;

/// What stands after two states are loaded, the second is cut off, and a third is loaded; and after all is cut off.
pub fn answer(alloc: Global) -> anyhow::Result<String> {
    let mut store = Store::new(alloc)?;
    let empty = store.mark();
    let alias = state_of(alloc, "{\"a\":{\"x\":0},\"b\":{\"x\":0}}")?;
    let first = store.load(alloc, &alias).ok().context("room")?;
    let mark = store.mark();
    let nested = state_of(alloc, "[[],[1,2]]")?;
    let second = store.load(alloc, &nested).ok().context("room")?;
    let full = sizes_text(alloc, &store, second)?;
    store.cut_to(mark);
    let node = node_text(alloc, &store, first)?;
    let (len, used) = (store.len(), store.used());
    let third = store
        .load(alloc, &state_of(alloc, "[]")?)
        .ok()
        .context("room")?;
    let again = third.get();
    store.cut_to(empty);
    let (none, nothing) = (store.len(), store.used());
    Ok(format!(in alloc;
        "cut: {full}; then {len} nodes, used {used}, {node}; then number {again}; then {none} nodes, used {nothing}"
    )?)
}
