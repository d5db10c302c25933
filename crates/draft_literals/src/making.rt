ghost use Rattle.std.specs.Prelude.{◌≡◌, ◌+◌, ◌^◌, ◌<◌, ◌++◌, ◌∷◌, [], IfOk, IsTrue, length, map};
ghost use Rattle.std.specs.FinMap.Entries.{is_sorted};
ghost use Rattle.value_model.specs.Order.{key_cmp};
ghost use Rattle.value_model.specs.declared.kind.Kind.TheVariants as kind;
ghost use Rattle.values.specs.Seen.{of_field, of_entry, of_member, of_fields, of_items, of_entries, of_members};
ghost use Rattle.numbered.specs.Loading.{places, places_in};
ghost use Rattle.value_model.specs.Plain.{node as container};
ghost use Rattle.draft_literals.specs.Making.{IsMade, AreMade, IsObjectMade, member};

use node_store::Kind;
use run_heap::{Content, ObjRef, Rv, Table};
use std::alloc::{AllocError, Global};
use value_model::Key;
use values::{Entry, Field, Val, ValNode};

/// Adds the objects of the value's containers, and answers what stands for it. The objects of a scope's number have the names
/// from `first` on, those in `out` before.
#[cycle(literals)]
pub fn literals(
    alloc: Global,
    scope: u64,
    first: u64,
    v: &Val,
    out: &mut Vec<Content>,
) -> Result<Rv, AllocError>
    requires { first + length out.old.items + places v.now < 2 ^ 64 }
    ensures { IfOk result (λ w. IsMade scope first v.now out.old.items out.new.items w) }
{
    match &v.node {
        ValNode::Prim(key) => Ok(Rv::Prim(key.copy(alloc)?)),
        ValNode::Obj(fields) => literal_object(alloc, scope, first, fields, out),
        ValNode::List(items) => literal_list(alloc, scope, first, items, out),
        ValNode::Map(entries) => literal_map(alloc, scope, first, entries, out),
        ValNode::Set(members) => literal_set(alloc, scope, first, members, out),
    }
}

#[cycle(literals)]
fn literal_object(
    alloc: Global,
    scope: u64,
    first: u64,
    fields: &Vec<Field>,
    out: &mut Vec<Content>,
) -> Result<Rv, AllocError>
    requires room { first + length out.old.items + (1 + places_in (of_fields fields.now.items)) < 2 ^ 64 }
    requires sorted { IsTrue (is_sorted key_cmp (map of_field fields.now.items)) }
    ensures { IfOk result (λ w. IsMade scope first (container kind.Obj (of_fields fields.now.items)) out.old.items out.new.items w) }
{
    let table = literal_fields(alloc, scope, first, fields, out)?;
    object(scope, first, Kind::Obj, table, out)
}

#[cycle(literals)]
fn literal_fields(
    alloc: Global,
    scope: u64,
    first: u64,
    fields: &Vec<Field>,
    out: &mut Vec<Content>,
) -> Result<Vec<(Key, Rv)>, AllocError>
    requires { first + length out.old.items + places_in (of_fields fields.now.items) < 2 ^ 64 }
    ensures { IfOk result (λ t. AreMade scope first (of_fields fields.now.items) out.old.items out.new.items t.items) }
{
    let mut table = Vec::new(alloc);
    for f in fields {
        let value = literals(alloc, scope, first, &f.value, out)?;
        table.push((Key::Text(f.key.copy(alloc)?), value))?;
    }
    Ok(table)
}

#[cycle(literals)]
fn literal_list(
    alloc: Global,
    scope: u64,
    first: u64,
    items: &Vec<Val>,
    out: &mut Vec<Content>,
) -> Result<Rv, AllocError>
    requires { first + length out.old.items + (1 + places_in (of_items items.now.items)) < 2 ^ 64 }
    ensures { IfOk result (λ w. IsMade scope first (container kind.List (of_items items.now.items)) out.old.items out.new.items w) }
{
    let table = literal_items(alloc, scope, first, items, out)?;
    object(scope, first, Kind::List, table, out)
}

#[cycle(literals)]
fn literal_items(
    alloc: Global,
    scope: u64,
    first: u64,
    items: &Vec<Val>,
    out: &mut Vec<Content>,
) -> Result<Vec<(Key, Rv)>, AllocError>
    requires { first + length out.old.items + places_in (of_items items.now.items) < 2 ^ 64 }
    ensures { IfOk result (λ t. AreMade scope first (of_items items.now.items) out.old.items out.new.items t.items) }
{
    let mut table = Vec::new(alloc);
    for v in items {
        let value = literals(alloc, scope, first, v, out)?;
        table.push((Key::Null, value))?;
    }
    Ok(table)
}

#[cycle(literals)]
fn literal_map(
    alloc: Global,
    scope: u64,
    first: u64,
    entries: &Vec<Entry>,
    out: &mut Vec<Content>,
) -> Result<Rv, AllocError>
    requires room { first + length out.old.items + (1 + places_in (of_entries entries.now.items)) < 2 ^ 64 }
    requires sorted { IsTrue (is_sorted key_cmp (map of_entry entries.now.items)) }
    ensures { IfOk result (λ w. IsMade scope first (container kind.Map (of_entries entries.now.items)) out.old.items out.new.items w) }
{
    let table = literal_entries(alloc, scope, first, entries, out)?;
    object(scope, first, Kind::Map, table, out)
}

#[cycle(literals)]
fn literal_entries(
    alloc: Global,
    scope: u64,
    first: u64,
    entries: &Vec<Entry>,
    out: &mut Vec<Content>,
) -> Result<Vec<(Key, Rv)>, AllocError>
    requires { first + length out.old.items + places_in (of_entries entries.now.items) < 2 ^ 64 }
    ensures { IfOk result (λ t. AreMade scope first (of_entries entries.now.items) out.old.items out.new.items t.items) }
{
    let mut table = Vec::new(alloc);
    for e in entries {
        let value = literals(alloc, scope, first, &e.value, out)?;
        table.push((e.key.copy(alloc)?, value))?;
    }
    Ok(table)
}

fn literal_set(
    alloc: Global,
    scope: u64,
    first: u64,
    members: &Vec<Key>,
    out: &mut Vec<Content>,
) -> Result<Rv, AllocError>
    requires room { first + length out.old.items + 1 < 2 ^ 64 }
    requires sorted { IsTrue (is_sorted key_cmp (map of_member members.now.items)) }
    ensures { IfOk result (λ w. IsMade scope first (container kind.Set (of_members members.now.items)) out.old.items out.new.items w) }
{
    let table = member_entries(alloc, members)?;
    object(scope, first, Kind::Set, table, out)
}

fn member_entries(alloc: Global, members: &Vec<Key>) -> Result<Vec<(Key, Rv)>, AllocError>
    ensures { IfOk result (λ t. t.items ≡ map member members.now.items) }
{
    let mut table = Vec::new(alloc);
    for key in members {
        table.push((key.copy(alloc)?, Rv::Prim(key.copy(alloc)?)))?;
    }
    Ok(table)
}

/// Adds an object with these entries.
fn object(
    scope: u64,
    first: u64,
    kind: Kind,
    table: Vec<(Key, Rv)>,
    out: &mut Vec<Content>,
) -> Result<Rv, AllocError>
    requires { first + length out.old.items < 2 ^ 64 }
    ensures { IfOk result (λ w. IsObjectMade scope first kind table.items out.old.items out.new.items w) }
{
    let slot = first + out.len() as u64;
    out.push(Content {
        kind,
        table: Table::from_vec(table),
        source: None,
        written: false,
    })?;
    Ok(Rv::Obj(ObjRef { scope, slot }))
}
