//! Reading a container: an object's own content, or a node as the store holds it, of which nothing is copied.
ghost use Rattle.node_store.specs.Paged.{states};
ghost use Rattle.std.specs.Prelude.{◌^◌, ◌≡◌, ◌≢◌, ◌<◌, IfOk, IfSome, Some, List, length, slice_get};
ghost use Rattle.value_model.specs.declared.key.Key.TheVariants as key_model;
ghost use Rattle.value_model.specs.declared.kind.Kind.TheVariants as kind;
ghost use Rattle.numbered.specs.Tree.{Tree};
ghost use Rattle.run_heap.specs.Answers.{Answers};
ghost use Rattle.run_heap.specs.Operations as spec;
ghost use Rattle.run_heap.specs.Operations.{rows_of, then_read, value_at};
ghost use Rattle.run_heap.specs.Values.{same};
ghost use Rattle.draft_slots.specs.Looks.{looked, IsLook, kind_in};
ghost use Rattle.draft_slots.specs.Peeks.{IsKept};

use crate::nodes::{copy_key, node_position, node_same, node_value};
use crate::table::position;
use node_store::{Cell, Kind, NodeId, Store};
use run_heap::{Content, DraftFault, Given, Rv, Table};
use std::alloc::{AllocError, Global};
use value_model::{Key, Safe, Text};

/// A container that is read.
#[derive(Drop)]
pub enum Look<'a> {
    /// An object with a table of its own.
    Own(&'a Content),
    /// A node, and how the containers in it are given out.
    Node(NodeId, Given),
}

/// A value as it is kept.
#[derive(Drop)]
pub enum Peek<'a> {
    /// A value of an object with a table of its own.
    Read(&'a Rv),
    /// An entry of a node: its container has no table of its own.
    Untouched(&'a Cell),
}

impl<'a> Look<'a> {
    /// What kind of container it is.
    pub fn kind(&self, store: &Store) -> Kind
        requires { IsLook (states store.now) self.now }
        ensures { result ≡ kind_in (looked (states store.now) self.now) }
    {
        match self {
            Look::Own(content) => content.kind,
            Look::Node(id, _) => store.kind(*id),
        }
    }

    /// How many entries it has.
    pub fn count(&self, store: &Store) -> usize
        requires { IsLook (states store.now) self.now }
        ensures value { result ≡ length (rows_of (looked (states store.now) self.now)) }
        ensures small { result < 2 ^ 63 }
    {
        match self {
            Look::Own(content) => content.table.as_slice().len(),
            Look::Node(id, _) => store.count(*id),
        }
    }

    /// The index of the entry with a key.
    pub fn find(&self, store: &Store, key: &Key) -> Option<usize>
        requires look { IsLook (states store.now) self.now }
        requires keyed { kind_in (looked (states store.now) self.now) ≢ kind.List }
        ensures { result ≡ spec.position key.now (rows_of (looked (states store.now) self.now)) }
    {
        match self {
            Look::Own(content) => position(content.table.as_slice(), key),
            Look::Node(id, given) => node_position(store, *id, *given, key),
        }
    }

    /// The value of an entry.
    pub fn value(&self, alloc: Global, store: &Store, i: usize) -> Result<Rv, AllocError>
        requires look { IsLook (states store.now) self.now }
        requires in_range { i < length (rows_of (looked (states store.now) self.now)) }
        ensures { IfOk result (λ v. value_at i (rows_of (looked (states store.now) self.now)) ≡ Some v) }
    {
        match self {
            Look::Own(content) => own_value(alloc, content, i),
            Look::Node(id, given) => node_value(alloc, store, *id, *given, i),
        }
    }

    /// The key of an entry.
    pub fn key(&self, store: &'a Store, i: usize) -> &'a Key
        requires look { IsLook (states store.now) self.now }
        requires keyed { kind_in (looked (states store.now) self.now) ≢ kind.List }
        requires in_range { i < length (rows_of (looked (states store.now) self.now)) }
        ensures { slice_get (spec.keys_of (rows_of (looked (states store.now) self.now))) i ≡ Some result.now }
    {
        match self {
            Look::Own(content) => &content.table.as_slice()[i].0,
            Look::Node(id, _) => store.key(*id, i),
        }
    }

    /// A copy of the key of an entry, in a list null.
    fn copy_key(&self, alloc: Global, store: &Store, i: usize) -> Result<Key, AllocError>
        requires look { IsLook (states store.now) self.now }
        requires in_range { i < length (rows_of (looked (states store.now) self.now)) }
        ensures { IfOk result (λ k. slice_get (spec.keys_of (rows_of (looked (states store.now) self.now))) i ≡ Some k) }
    {
        match self {
            Look::Own(content) => own_key(alloc, content, i),
            Look::Node(id, _) => copy_key(alloc, store, *id, i),
        }
    }

    /// The keys as elements of a list.
    pub fn keys(&self, alloc: Global, store: &Store) -> Result<Table, AllocError>
        requires { IsLook (states store.now) self.now }
        ensures { IfOk result (λ t. t ≡ spec.listed (spec.keys_of (rows_of (looked (states store.now) self.now)))) }
    {
        let count = self.count(store);
        let mut out = Vec::with_capacity(alloc, count)?;
        for i in 0..count {
            let key = self.copy_key(alloc, store, i)?;
            out.push((Key::Null, Rv::Prim(key)))?;
        }
        Ok(Table::from_vec(out))
    }

    /// The value of an entry as it is kept.
    pub fn peek(&self, store: &'a Store, i: usize) -> Peek<'a>
        requires look { IsLook (states store.now) self.now }
        requires in_range { i < length (rows_of (looked (states store.now) self.now)) }
        ensures { IsKept (states store.now) self.now i result }
    {
        match self {
            Look::Own(content) => Peek::Read(&content.table.as_slice()[i].1),
            Look::Node(id, _) => Peek::Untouched(store.cell(*id, i)),
        }
    }

    /// The container that it was opened on.
    pub fn source(&self) -> Option<NodeId>
        ensures { (ts : List Tree) → IsLook ts self.now → result ≡ spec.source_in (looked ts self.now) }
    {
        match self {
            Look::Own(content) => content.source,
            Look::Node(id, _) => Some(*id),
        }
    }

    /// Whether the value of an entry is the same as another one.
    pub fn same(&self, store: &Store, i: usize, item: &Rv) -> bool
        requires look { IsLook (states store.now) self.now }
        requires in_range { i < length (rows_of (looked (states store.now) self.now)) }
        ensures { IfSome (value_at i (rows_of (looked (states store.now) self.now))) (λ v. result ≡ same v item.now) }
    {
        match self {
            Look::Own(content) => content.table.as_slice()[i].1.same(item),
            Look::Node(id, given) => node_same(store, *id, *given, i, item),
        }
    }

    /// An object's value by a text, or a list's element by an integer.
    pub fn entry(&self, alloc: Global, store: &Store, key: &Key) -> Result<Rv, DraftFault>
        requires { IsLook (states store.now) self.now }
        ensures { Answers result (then_read (λ c. spec.entry key.now c.kind c.table) (looked (states store.now) self.now)) }
    {
        match self.kind(store) {
            Kind::Obj => match key {
                Key::Text(text) => self.member(alloc, store, key, text),
                _ => Err(DraftFault::TypeMismatch),
            },
            Kind::List => match key {
                Key::Int(at) => Ok(self.element(alloc, store, *at)?),
                _ => Err(DraftFault::TypeMismatch),
            },
            _ => Err(DraftFault::TypeMismatch),
        }
    }

    /// An object's value by a text.
    fn member(&self, alloc: Global, store: &Store, key: &Key, text: &Text) -> Result<Rv, DraftFault>
        requires look { IsLook (states store.now) self.now }
        requires object { kind_in (looked (states store.now) self.now) ≡ kind.Obj }
        requires text { key.now ≡ key_model.Text text.now }
        ensures { Answers result (spec.entry key.now kind.Obj (rows_of (looked (states store.now) self.now))) }
    {
        if text.is_reserved() {
            return Err(DraftFault::ReservedKey);
        }
        match self.find(store, key) {
            Some(i) => Ok(self.value(alloc, store, i)?),
            None => Ok(Rv::Undefined),
        }
    }

    /// A list's element by an integer.
    fn element(&self, alloc: Global, store: &Store, at: Safe) -> Result<Rv, AllocError>
        requires { IsLook (states store.now) self.now }
        ensures { IfOk result (λ v. v ≡ spec.element at (rows_of (looked (states store.now) self.now))) }
    {
        match at.index() {
            Some(i) => {
                if i < self.count(store) as u64 {
                    self.value(alloc, store, i as usize)
                } else {
                    Ok(Rv::Undefined)
                }
            }
            None => Ok(Rv::Undefined),
        }
    }
}

fn own_key(alloc: Global, content: &Content, i: usize) -> Result<Key, AllocError>
    requires { i < length content.now.table }
    ensures { IfOk result (λ k. slice_get (spec.keys_of content.now.table) i ≡ Some k) }
{
    content.table.as_slice()[i].0.copy(alloc)
}

fn own_value(alloc: Global, content: &Content, i: usize) -> Result<Rv, AllocError>
    requires { i < length content.now.table }
    ensures { IfOk result (λ v. value_at i content.now.table ≡ Some v) }
{
    content.table.as_slice()[i].1.copy(alloc)
}
