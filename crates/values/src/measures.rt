ghost use Rattle.std.specs.Prelude.{◌≡◌, ◌^◌, ◌+◌, min};
ghost use Rattle.value_model.specs.Plain as spec;
ghost use Rattle.value_model.specs.declared.kind.Kind.TheVariants as kind;
ghost use Rattle.values.specs.Seen.{of_fields, of_entries, of_items, of_members};

use crate::val::{Entry, Field, Val, ValNode};
use value_model::Key;

const CAP: u64 = 1 << 63;

/// What a value weighs, or 2^63 where it weighs more. It takes no memory.
#[cycle(weight)]
pub fn weight(v: &Val) -> u64
    ensures { result ≡ min (spec.weight v.now) (2 ^ 63) }
{
    match &v.node {
        ValNode::Prim(k) => key_weight(k),
        ValNode::Obj(fields) => capped(1, fields_weight(fields)),
        ValNode::List(items) => capped(1, items_weight(items)),
        ValNode::Map(entries) => capped(1, entries_weight(entries)),
        ValNode::Set(members) => capped(1, members_weight(members)),
    }
}

#[cycle(weight)]
fn fields_weight(fields: &[Field]) -> u64
    ensures { result ≡ min (spec.weights kind.Obj (of_fields fields.now)) (2 ^ 63) }
{
    let mut total = 0;
    for f in fields {
        let key = capped(1, f.key.as_str().len() as u64);
        total = capped(total, capped(key, weight(&f.value)));
    }
    total
}

#[cycle(weight)]
fn items_weight(items: &[Val]) -> u64
    ensures { result ≡ min (spec.weights kind.List (of_items items.now)) (2 ^ 63) }
{
    let mut total = 0;
    for v in items {
        total = capped(total, weight(v));
    }
    total
}

#[cycle(weight)]
fn entries_weight(entries: &[Entry]) -> u64
    ensures { result ≡ min (spec.weights kind.Map (of_entries entries.now)) (2 ^ 63) }
{
    let mut total = 0;
    for e in entries {
        total = capped(total, capped(key_weight(&e.key), weight(&e.value)));
    }
    total
}

fn members_weight(members: &[Key]) -> u64
    ensures { result ≡ min (spec.weights kind.Set (of_members members.now)) (2 ^ 63) }
{
    let mut total = 0;
    for k in members {
        total = capped(total, key_weight(k));
    }
    total
}

/// What a key weighs: a text 1 and its bytes, another key 1.
pub fn key_weight(k: &Key) -> u64
    ensures { result ≡ min (spec.key_weight k.now) (2 ^ 63) }
{
    match k {
        Key::Null | Key::Bool(_) | Key::Int(_) => 1,
        Key::Text(text) => capped(1, text.as_str().len() as u64),
    }
}

/// The sum, or 2^63 where it is more.
pub fn capped(a: u64, b: u64) -> u64
    ensures { result ≡ min (a + b) (2 ^ 63) }
{
    a.saturating_add(b).min(CAP)
}

/// How many values there are, the value itself and every value inside it, or 2^63 where there are more. It takes no memory.
#[cycle(values)]
pub fn values(v: &Val) -> u64
    ensures { result ≡ min (spec.values v.now) (2 ^ 63) }
{
    match &v.node {
        ValNode::Prim(_) => 1,
        ValNode::Obj(fields) => capped(1, values_of_fields(fields)),
        ValNode::List(items) => capped(1, values_of_items(items)),
        ValNode::Map(entries) => capped(1, values_of_entries(entries)),
        ValNode::Set(members) => capped(1, members.len() as u64),
    }
}

#[cycle(values)]
fn values_of_fields(fields: &[Field]) -> u64
    ensures { result ≡ min (spec.values_in (of_fields fields.now)) (2 ^ 63) }
{
    let mut total = 0;
    for f in fields {
        total = capped(total, values(&f.value));
    }
    total
}

#[cycle(values)]
fn values_of_items(items: &[Val]) -> u64
    ensures { result ≡ min (spec.values_in (of_items items.now)) (2 ^ 63) }
{
    let mut total = 0;
    for v in items {
        total = capped(total, values(v));
    }
    total
}

#[cycle(values)]
fn values_of_entries(entries: &[Entry]) -> u64
    ensures { result ≡ min (spec.values_in (of_entries entries.now)) (2 ^ 63) }
{
    let mut total = 0;
    for e in entries {
        total = capped(total, values(&e.value));
    }
    total
}

/// How many containers nest, or 2^63 where there are more: a primitive 0, a container 1 more than its deepest child. It takes no memory.
#[cycle(depth)]
pub fn depth(v: &Val) -> u64
    ensures { result ≡ min (spec.depth v.now) (2 ^ 63) }
{
    match &v.node {
        ValNode::Prim(_) => 0,
        ValNode::Obj(fields) => capped(1, deepest_field(fields)),
        ValNode::List(items) => capped(1, deepest_item(items)),
        ValNode::Map(entries) => capped(1, deepest_entry(entries)),
        ValNode::Set(members) => capped(1, none_of(members)),
    }
}

#[cycle(depth)]
fn deepest_field(fields: &[Field]) -> u64
    ensures { result ≡ min (spec.deepest (of_fields fields.now)) (2 ^ 63) }
{
    let mut most = 0;
    for f in fields {
        most = most.max(depth(&f.value));
    }
    most
}

#[cycle(depth)]
fn deepest_item(items: &[Val]) -> u64
    ensures { result ≡ min (spec.deepest (of_items items.now)) (2 ^ 63) }
{
    let mut most = 0;
    for v in items {
        most = most.max(depth(v));
    }
    most
}

#[cycle(depth)]
fn deepest_entry(entries: &[Entry]) -> u64
    ensures { result ≡ min (spec.deepest (of_entries entries.now)) (2 ^ 63) }
{
    let mut most = 0;
    for e in entries {
        most = most.max(depth(&e.value));
    }
    most
}

fn none_of(members: &[Key]) -> u64
    ensures { result ≡ spec.deepest (of_members members.now) }
{
    0
}
