//! Unfolding a node into its plain value.
ghost use Rattle.std.specs.Prelude.{◌≡◌, ◌≤◌, length, map, IfOk, IsTrue};
ghost use Rattle.std.specs.FinMap.Entries.{is_sorted};
ghost use Rattle.value_model.specs.declared.key.Key.TheVariants as variant;
ghost use Rattle.value_model.specs.declared.kind.Kind.TheVariants as kind;
ghost use Rattle.value_model.specs.Order.{key_cmp};
ghost use Rattle.value_model.specs.Plain.{node};
ghost use Rattle.values.specs.Seen.{of_field, of_entry, of_member, of_fields, of_items, of_entries, of_members};
ghost use Rattle.numbered.specs.Store.{tree_at};
ghost use Rattle.numbered.specs.Tree.{plain};
ghost use Rattle.node_store.specs.Nodes.{kind_of, CellBelow};
ghost use Rattle.node_store.specs.Paged.{states};
ghost use Rattle.node_store.specs.Unfolds.{cell_value, IsText};

use crate::store::Store;
use page_tables::{Cell, NodeId};
use std::alloc::{AllocError, Global};
use value_model::{Key, Kind, Text};
use values::{Entry, Field, Val};

impl Store {
    /// The plain value that a node stands for.
    pub fn unfold(&self, alloc: Global, id: NodeId) -> Result<Val, AllocError>
        requires { id ≤ length (states self.now) }
        ensures { IfOk result (λ v. v ≡ plain (tree_at (states self.now) id)) }
    {
        unfold_node(self, alloc, id)
    }
}

#[cycle(unfold)]
fn unfold_node(store: &Store, alloc: Global, id: NodeId) -> Result<Val, AllocError>
    requires { id ≤ length (states store.now) }
    ensures { IfOk result (λ v. v ≡ plain (tree_at (states store.now) id)) }
{
    match store.kind(id) {
        Kind::Obj => Ok(Val {
            node: values::ValNode::Obj(unfold_fields(store, alloc, id)?),
        }),
        Kind::List => Ok(Val {
            node: values::ValNode::List(unfold_items(store, alloc, id)?),
        }),
        Kind::Map => Ok(Val {
            node: values::ValNode::Map(unfold_entries(store, alloc, id)?),
        }),
        Kind::Set => Ok(Val {
            node: values::ValNode::Set(unfold_members(store, alloc, id)?),
        }),
    }
}

#[cycle(unfold)]
fn unfold_cell(store: &Store, alloc: Global, cell: &Cell) -> Result<Val, AllocError>
    requires { CellBelow (states store.now) cell.now }
    ensures { IfOk result (λ v. v ≡ cell_value (states store.now) cell.now) }
{
    match cell {
        Cell::Prim(key) => Ok(Val::primitive(key.copy(alloc)?)),
        Cell::Node(id) => unfold_node(store, alloc, *id),
    }
}

#[cycle(unfold)]
fn unfold_fields(store: &Store, alloc: Global, id: NodeId) -> Result<Vec<Field>, AllocError>
    requires number { id ≤ length (states store.now) }
    requires object { kind_of (tree_at (states store.now) id) ≡ kind.Obj }
    ensures sorted { IfOk result (λ v. IsTrue (is_sorted key_cmp (map of_field v.items))) }
    ensures value { IfOk result (λ v. node kind.Obj (of_fields v.items) ≡ plain (tree_at (states store.now) id)) }
{
    let count = store.size(id);
    let mut out = Vec::with_capacity(alloc, count)?;
    for i in 0..count {
        let row = store.row(id, i);
        let key = text_in(row.key()).copy(alloc)?;
        let value = unfold_cell(store, alloc, row.cell())?;
        out.push(Field { key, value })?;
    }
    Ok(out)
}

#[cycle(unfold)]
fn unfold_entries(store: &Store, alloc: Global, id: NodeId) -> Result<Vec<Entry>, AllocError>
    requires number { id ≤ length (states store.now) }
    requires table { kind_of (tree_at (states store.now) id) ≡ kind.Map }
    ensures sorted { IfOk result (λ v. IsTrue (is_sorted key_cmp (map of_entry v.items))) }
    ensures value { IfOk result (λ v. node kind.Map (of_entries v.items) ≡ plain (tree_at (states store.now) id)) }
{
    let count = store.size(id);
    let mut out = Vec::with_capacity(alloc, count)?;
    for i in 0..count {
        let row = store.row(id, i);
        let key = row.key().copy(alloc)?;
        let value = unfold_cell(store, alloc, row.cell())?;
        out.push(Entry { key, value })?;
    }
    Ok(out)
}

#[cycle(unfold)]
fn unfold_items(store: &Store, alloc: Global, id: NodeId) -> Result<Vec<Val>, AllocError>
    requires number { id ≤ length (states store.now) }
    requires list { kind_of (tree_at (states store.now) id) ≡ kind.List }
    ensures { IfOk result (λ v. node kind.List (of_items v.items) ≡ plain (tree_at (states store.now) id)) }
{
    let count = store.size(id);
    let mut out = Vec::with_capacity(alloc, count)?;
    for i in 0..count {
        let row = store.row(id, i);
        out.push(unfold_cell(store, alloc, row.cell())?)?;
    }
    Ok(out)
}

fn unfold_members(store: &Store, alloc: Global, id: NodeId) -> Result<Vec<Key>, AllocError>
    requires number { id ≤ length (states store.now) }
    requires members { kind_of (tree_at (states store.now) id) ≡ kind.Set }
    ensures sorted { IfOk result (λ v. IsTrue (is_sorted key_cmp (map of_member v.items))) }
    ensures value { IfOk result (λ v. node kind.Set (of_members v.items) ≡ plain (tree_at (states store.now) id)) }
{
    let count = store.size(id);
    let mut out = Vec::with_capacity(alloc, count)?;
    for i in 0..count {
        let row = store.row(id, i);
        out.push(row.key().copy(alloc)?)?;
    }
    Ok(out)
}

/// The text that a key is.
fn text_in(key: &Key) -> &Text
    requires { IsText key.now }
    ensures { key.now ≡ variant.Text result.now }
{
    match key {
        Key::Text(text) => text,
        Key::Null | Key::Bool(_) | Key::Int(_) => unreachable!(),
    }
}
