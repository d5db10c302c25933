//! How fast the node store loads and unfolds, and what it holds at its limits.
ghost use Rattle.std.specs.Prelude.{◌≡◌, ◌≤◌, None, length};
ghost use Rattle.value_model.specs.Limits.{state_limit};

use crate::clock::micros;
use anyhow::Context;
use node_store::{Store, StoreFault};
use std::alloc::{AllocError, Global};
use std::time::Instant;
use value_checks::check_state;
use values::{Key, Val, ValNode};

/// How many objects the list has.
const OBJECTS: u32 = 300_000;

/// How many nulls a list of the greatest weight has.
const NULLS: u32 = 1_048_575;

/// A list of empty objects.
fn objects(alloc: Global, n: u32) -> Result<Val, AllocError> {
    let mut items = Vec::with_capacity(alloc, n as usize)?;
    for _ in 0..n {
        items.push(Val::empty_object(alloc))?;
    }
    Ok(Val {
        node: ValNode::List(items),
    })
}

/// A list of nulls.
fn nulls(alloc: Global, n: u32) -> Result<Val, AllocError> {
    let mut items = Vec::with_capacity(alloc, n as usize)?;
    for _ in 0..n {
        items.push(Val::primitive(Key::Null))?;
    }
    Ok(Val {
        node: ValNode::List(items),
    })
}

/// Loads a value so many times.
fn fill(alloc: Global, store: &mut Store, v: &Val, times: u32) -> anyhow::Result<()> {
    check_state(v).ok().context("no state")?;
    for _ in 0..times {
        store.load(alloc, v).ok().context("no room")?;
    }
    Ok(())
}

/// Whether the store refuses the empty list.
fn is_full(alloc: Global, store: &mut Store) -> anyhow::Result<bool> {
    let empty = nulls(alloc, 0)?;
    check_state(&empty).ok().context("no state")?;
    match store.load(alloc, &empty) {
        Err(StoreFault::Full) => Ok(true),
        _ => Ok(false),
    }
}

/// Fills an empty store with as many nodes, and as much weight, as these many objects and full lists of nulls have.
fn filled(alloc: Global, many: u32, rest: u32, heavy: u32, last: u32) -> anyhow::Result<Store> {
    let mut store = Store::new(alloc)?;
    fill(alloc, &mut store, &objects(alloc, OBJECTS)?, many)?;
    if rest > 0 {
        fill(alloc, &mut store, &objects(alloc, rest)?, 1)?;
    }
    fill(alloc, &mut store, &nulls(alloc, NULLS)?, heavy)?;
    if last > 0 {
        fill(alloc, &mut store, &nulls(alloc, last)?, 1)?;
    }
    Ok(store)
}

/// A store that is full, as a line of text.
fn report(
    rt: &HostRuntime,
    name: &str,
    many: u32,
    rest: u32,
    heavy: u32,
    last: u32,
) -> anyhow::Result<()> {
    let alloc = rt.alloc();
    let start = Instant::now(rt)?;
    let mut store = filled(alloc, many, rest, heavy, last)?;
    let (len, used) = (store.len(), store.used());
    let full = is_full(alloc, &mut store)?;
    let same = store.len() == len && store.used() == used;
    let millis = micros(start.elapsed(rt)?) / 1000;
    println!(*rt;
        "{name}: {len} nodes, {used} of weight, full: {full}, as before: {same}, {millis} ms"
    )?;
    Ok(())
}

/// Nodes a second, for loading and for unfolding.
fn speed(rt: &HostRuntime) -> anyhow::Result<()> {
    let alloc = rt.alloc();
    let v = objects(alloc, OBJECTS)?;
    check_state(&v).ok().context("no state")?;
    let mut store = Store::new(alloc)?;
    let start = Instant::now(rt)?;
    let id = store.load(alloc, &v).ok().context("no room")?;
    let load = micros(start.elapsed(rt)?);
    let start = Instant::now(rt)?;
    let again = store.unfold(alloc, id)?;
    let unfold = micros(start.elapsed(rt)?);
    drop(again);
    let nodes = store.len().min(1 << 21) * 1_000_000;
    println!(*rt;
        "load {} nodes/s, unfold {} nodes/s",
        nodes / load.max(1),
        nodes / unfold.max(1)
    )?;
    Ok(())
}

/// Loads and unfolds a small list, and says how many nodes that were.
fn small(rt: &HostRuntime) -> anyhow::Result<()> {
    let alloc = rt.alloc();
    let v = objects(alloc, 3)?;
    check_state(&v).ok().context("no state")?;
    let mut store = Store::new(alloc)?;
    let id = store.load(alloc, &v).ok().context("no room")?;
    let again = store.unfold(alloc, id)?;
    println!(*rt;
        "{} nodes, {} values again",
        store.len(),
        values::values(&again)
    )?;
    Ok(())
}

/// What the word asks for: `speed` prints nodes a second for a list of 300,000 empty objects; with `value` that list is only
/// made, with `load` it is made and loaded; `full` fills a store by numbers, by weight and by both. Another word loads and
/// unfolds a small list.
pub(crate) fn run(rt: &HostRuntime, word: &str) -> anyhow::Result<()> {
    let alloc = rt.alloc();
    match word {
        "speed" => speed(rt),
        "value" => {
            let _v = objects(alloc, OBJECTS)?;
            Ok(())
        }
        "load" => {
            let _store = filled(alloc, 1, 0, 0, 0)?;
            Ok(())
        }
        "full" => {
            report(rt, "by numbers", 6, 297_144, 0, 0)?;
            report(rt, "by weight", 0, 0, 32, 0)?;
            report(rt, "by both", 6, 297_115, 28, 66)
        }
        _ => small(rt),
    }
}
