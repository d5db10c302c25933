//! Reading a node of the store as an object: its containers are given out as frozen nodes, or as objects by their names.
ghost use Rattle.node_store.specs.Paged.{states};
ghost use Rattle.std.specs.Prelude.{◌≡◌, ◌≢◌, ◌+◌, ◌<◌, ◌≤◌, ◌^◌, IfOk, IfSome, Some, length, slice_get};
ghost use Rattle.value_model.specs.declared.kind.Kind.TheVariants as kind;
ghost use Rattle.numbered.specs.Store.{IsNumber, IsStore, tree_at};
ghost use Rattle.numbered.specs.Tree.{branches_of};
ghost use Rattle.node_store.specs.Nodes.{kind_of, keys_in, cells_of};
ghost use Rattle.run_heap.specs.Heap.{after, given_content};
ghost use Rattle.run_heap.specs.Operations as spec;
ghost use Rattle.run_heap.specs.Operations.{value_at};
ghost use Rattle.run_heap.specs.Values.{same};
ghost use Rattle.run_heap.specs.declared.value.Rv.TheVariants as rv;
ghost use Rattle.draft_slots.specs.Looks.{Fit, GivenFits};
ghost use Rattle.draft_slots.specs.Nodes.{given_node, node_table};

use node_store::{Cell, Kind, NodeId, Store};
use run_heap::{Content, Given, ObjRef, Rv, Table};
use std::alloc::{AllocError, Global};
use value_model::Key;

/// The value of an entry.
pub fn node_value(
    alloc: Global,
    store: &Store,
    id: NodeId,
    given: Given,
    i: usize,
) -> Result<Rv, AllocError>
    requires store { IsStore (states store.now) }
    requires number { IsNumber (states store.now) id }
    requires in_range { i < length (cells_of (tree_at (states store.now) id)) }
    requires fit { Fit given (tree_at (states store.now) id) }
    ensures { IfOk result (λ v. value_at i (node_table given (tree_at (states store.now) id)) ≡ Some v) }
{
    match store.cell(id, i) {
        Cell::Prim(key) => Ok(Rv::Prim(key.copy(alloc)?)),
        Cell::Node(child) => Ok(give(given, store.before(id, i), *child)),
    }
}

/// Whether the value of an entry is the same as another one.
pub fn node_same(store: &Store, id: NodeId, given: Given, i: usize, item: &Rv) -> bool
    requires store { IsStore (states store.now) }
    requires number { IsNumber (states store.now) id }
    requires in_range { i < length (cells_of (tree_at (states store.now) id)) }
    requires fit { Fit given (tree_at (states store.now) id) }
    ensures { IfSome (value_at i (node_table given (tree_at (states store.now) id))) (λ v. result ≡ same v item.now) }
{
    match store.cell(id, i) {
        Cell::Prim(key) => is_key(item, key),
        Cell::Node(child) => give(given, store.before(id, i), *child).same(item),
    }
}

fn is_key(value: &Rv, key: &Key) -> bool
    ensures { result ≡ same (rv.Prim key.now) value.now }
{
    match value {
        Rv::Prim(other) => key.compare(other).is_eq(),
        _ => false,
    }
}

/// The key of an entry, in a list null.
pub fn copy_key(alloc: Global, store: &Store, id: NodeId, i: usize) -> Result<Key, AllocError>
    requires store { IsStore (states store.now) }
    requires number { IsNumber (states store.now) id }
    requires in_range { i < length (cells_of (tree_at (states store.now) id)) }
    ensures { IfOk result (λ k. slice_get (keys_in (branches_of (tree_at (states store.now) id))) i ≡ Some k) }
{
    match store.kind(id) {
        Kind::List => Ok(Key::Null),
        _ => store.key(id, i).copy(alloc),
    }
}

/// An entry.
fn node_entry(
    alloc: Global,
    store: &Store,
    id: NodeId,
    given: Given,
    i: usize,
) -> Result<(Key, Rv), AllocError>
    requires store { IsStore (states store.now) }
    requires number { IsNumber (states store.now) id }
    requires in_range { i < length (cells_of (tree_at (states store.now) id)) }
    requires fit { Fit given (tree_at (states store.now) id) }
    ensures { IfOk result (λ e. slice_get (node_table given (tree_at (states store.now) id)) i ≡ Some e) }
{
    let key = copy_key(alloc, store, id, i)?;
    let value = node_value(alloc, store, id, given, i)?;
    Ok((key, value))
}

/// The index of the entry with a key.
pub fn node_position(store: &Store, id: NodeId, given: Given, key: &Key) -> Option<usize>
    requires store { IsStore (states store.now) }
    requires number { IsNumber (states store.now) id }
    requires keyed { kind_of (tree_at (states store.now) id) ≢ kind.List }
    ensures { result ≡ spec.position key.now (node_table given (tree_at (states store.now) id)) }
{
    store.find(id, key)
}

/// The node as the content of an object.
pub fn node_content(
    alloc: Global,
    store: &Store,
    id: NodeId,
    given: Given,
) -> Result<Content, AllocError>
    requires store { IsStore (states store.now) }
    requires number { IsNumber (states store.now) id }
    requires fit { Fit given (tree_at (states store.now) id) }
    ensures { IfOk result (λ c. given_content given (tree_at (states store.now) id) ≡ Some c) }
{
    Ok(Content {
        kind: store.kind(id),
        table: node_entries(alloc, store, id, given)?,
        source: Some(id),
        written: false,
    })
}

fn node_entries(alloc: Global, store: &Store, id: NodeId, given: Given) -> Result<Table, AllocError>
    requires store { IsStore (states store.now) }
    requires number { IsNumber (states store.now) id }
    requires fit { Fit given (tree_at (states store.now) id) }
    ensures { IfOk result (λ t. t ≡ node_table given (tree_at (states store.now) id)) }
{
    let count = store.count(id);
    let mut entries = Vec::with_capacity(alloc, count)?;
    for i in 0..count {
        entries.push(node_entry(alloc, store, id, given, i)?)?;
    }
    Ok(Table::from_vec(entries))
}

/// A container, where so many others are given out before it.
fn give(given: Given, before: u64, child: NodeId) -> Rv
    requires { GivenFits given before }
    ensures { result ≡ given_node (after given before) child }
{
    match given {
        Given::Frozen => Rv::Frozen(child),
        Given::From(first) => Rv::Obj(ObjRef {
            scope: first.scope,
            slot: first.slot + before,
        }),
    }
}
