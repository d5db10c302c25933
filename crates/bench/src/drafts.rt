//! How fast a scope reads and writes drafts of a list of 100,000 objects.
ghost use Rattle.node_store.specs.Paged.{states};
ghost use Rattle.std.specs.Prelude.{◌≡◌, IfOk};
ghost use Rattle.run_heap.specs.Sound.{Owned};
ghost use Rattle.draft_core.specs.Seen.{heap, Stands};

use crate::clock::micros;
use anyhow::Context;
use draft_core::{Scope, ScopeMint};
use node_store::Store;
use run_heap::Rv;
use std::alloc::Global;
use std::time::Instant;
use value_checks::check_state;
use value_model::{Key, Safe, Text};
use values::{Field, Val, ValNode};

/// How many objects the list has.
const OBJECTS: u32 = 100_000;

/// The key of each object.
fn name(alloc: Global) -> anyhow::Result<Text> {
    Text::of(alloc, "x").ok().context("no text")
}

/// A list of objects with one entry.
fn objects(alloc: Global, n: u32) -> anyhow::Result<Val> {
    let mut items = Vec::with_capacity(alloc, n as usize)?;
    for _ in 0..n {
        items.push(object(alloc)?)?;
    }
    Ok(Val {
        node: ValNode::List(items),
    })
}

/// An object with one entry.
fn object(alloc: Global) -> anyhow::Result<Val> {
    let mut fields = Vec::new(alloc);
    fields.push(Field {
        key: name(alloc)?,
        value: Val::primitive(Key::Null),
    })?;
    Ok(Val {
        node: ValNode::Obj(fields),
    })
}

/// The draft of the i-th object.
fn draft(alloc: Global, store: &Store, scope: &mut Scope, i: u32) -> anyhow::Result<Rv>
    requires { Stands (states store.now) scope.old }
    ensures same { scope.new ≡ scope.old }
    ensures owned { IfOk result (λ v. Owned (heap (states store.now) scope.old) v) }
{
    let root = scope.root();
    let at = Safe::of(i as i64).context("no index")?;
    let read = scope.get(alloc, store, &root, &Key::Int(at));
    read.ok().context("no draft")
}

/// Writes a draft's entry.
fn write(alloc: Global, store: &Store, scope: &mut Scope, key: &Key, i: u32) -> anyhow::Result<()>
    requires { Stands (states store.now) scope.old }
    ensures { Stands (states store.now) scope.new }
{
    let draft = draft(alloc, store, scope, i)?;
    let value = Rv::Prim(Key::Bool(true));
    scope
        .put(alloc, store, &draft, key, value)
        .ok()
        .context("not written")
}

/// Reads a draft's entry.
fn read(alloc: Global, store: &Store, scope: &mut Scope, key: &Key, i: u32) -> anyhow::Result<()>
    requires { Stands (states store.now) scope.old }
    ensures { scope.new ≡ scope.old }
{
    let draft = draft(alloc, store, scope, i)?;
    scope
        .get(alloc, store, &draft, key)
        .ok()
        .context("not read")?;
    Ok(())
}

/// Writes every so many drafts; answers the microseconds.
fn write_all(
    rt: &HostRuntime,
    store: &Store,
    scope: &mut Scope,
    n: u32,
    every: u32,
) -> anyhow::Result<u64>
    requires { Stands (states store.now) scope.old }
    ensures { Stands (states store.now) scope.new }
{
    let alloc = rt.alloc();
    let key = Key::Text(name(alloc)?);
    let start = Instant::now(rt)?;
    for i in 0..n {
        write(alloc, store, scope, &key, i.saturating_mul(every))?;
    }
    Ok(micros(start.elapsed(rt)?))
}

/// Reads every so many drafts; answers the microseconds.
fn read_all(
    rt: &HostRuntime,
    store: &Store,
    scope: &mut Scope,
    n: u32,
    every: u32,
) -> anyhow::Result<u64>
    requires { Stands (states store.now) scope.old }
{
    let alloc = rt.alloc();
    let key = Key::Text(name(alloc)?);
    let start = Instant::now(rt)?;
    for i in 0..n {
        read(alloc, store, scope, &key, i.saturating_mul(every))?;
    }
    Ok(micros(start.elapsed(rt)?))
}

/// Touches so many drafts of a list of so many objects, and says how fast.
fn report(rt: &HostRuntime, name: &str, all: u32, n: u32, every: u32) -> anyhow::Result<()> {
    let alloc = rt.alloc();
    let v = objects(alloc, all)?;
    check_state(&v).ok().context("no state")?;
    let mut store = Store::new(alloc)?;
    let root = store.load(alloc, &v).ok().context("no room")?;
    let mut mint = ScopeMint::new();
    let mut scope = Scope::begin(alloc, mint.take(), &store, root)?;
    let writes = write_all(rt, &store, &mut scope, n, every)?;
    let reads = read_all(rt, &store, &mut scope, n, every)?;
    let many = n as u64 * 1_000_000;
    println!(*rt;
        "{name}: {} reads/s, {} writes/s, written: {}",
        many / reads.max(1),
        many / writes.max(1),
        scope.any_written()
    )?;
    Ok(())
}

/// Touches a few drafts of a small list, and says that it was written.
fn small(rt: &HostRuntime) -> anyhow::Result<()> {
    let alloc = rt.alloc();
    let v = objects(alloc, 100)?;
    check_state(&v).ok().context("no state")?;
    let mut store = Store::new(alloc)?;
    let root = store.load(alloc, &v).ok().context("no room")?;
    let mut mint = ScopeMint::new();
    let mut scope = Scope::begin(alloc, mint.take(), &store, root)?;
    write_all(rt, &store, &mut scope, 10, 10)?;
    read_all(rt, &store, &mut scope, 10, 10)?;
    println!(*rt; "drafts written: {}", scope.any_written())?;
    Ok(())
}

/// What the word asks for: `speed` prints reads and writes a second where one object in a hundred is touched, and where all
/// are. Another word reads and writes ten of a hundred.
pub(crate) fn run(rt: &HostRuntime, word: &str) -> anyhow::Result<()> {
    match word {
        "speed" => {
            report(rt, "one in a hundred", OBJECTS, OBJECTS / 100, 100)?;
            report(rt, "all", OBJECTS, OBJECTS, 1)
        }
        _ => small(rt),
    }
}
