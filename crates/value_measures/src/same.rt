ghost use Rattle.std.specs.Prelude.{◌≡◌, true, IsTrue, ◌↔◌};
ghost use Rattle.value_model.specs.Order.{key_cmp};
ghost use Rattle.value_model.specs.Plain.{prim, node};
ghost use Rattle.value_model.specs.declared.key.Key.TheVariants as key_of;
ghost use Rattle.value_model.specs.declared.kind.Kind.TheVariants as kind;
ghost use Rattle.values.specs.Seen.{of_fields, of_entries, of_items, of_members};
ghost use Rattle.value_measures.specs.Same.{is_same, same_entries};

use std::cmp::Ordering;
use values::{Entry, Field, Key, Text, Val, ValNode};

/// Whether two values are the same: the same primitive, or containers of one kind with the same entries.
#[tactic(auto, using(crate::proofs::Exact::same_exact))]
pub fn same_value(a: &Val, b: &Val) -> bool
    ensures test { result ≡ is_same a.now b.now }
    ensures exact { IsTrue result ↔ (a.now ≡ b.now) }
{
    same(a, b)
}

#[cycle(same)]
fn same(a: &Val, b: &Val) -> bool
    ensures { result ≡ is_same a.now b.now }
{
    match &a.node {
        ValNode::Prim(key) => is_key(key, b),
        ValNode::Obj(fields) => is_object(fields, b),
        ValNode::List(items) => is_list(items, b),
        ValNode::Map(entries) => is_map(entries, b),
        ValNode::Set(members) => is_set(members, b),
    }
}

fn is_key(key: &Key, v: &Val) -> bool
    ensures { result ≡ is_same (prim key.now) v.now }
{
    match &v.node {
        ValNode::Prim(other) => key.compare(other).is_eq(),
        ValNode::Obj(_) | ValNode::List(_) | ValNode::Map(_) | ValNode::Set(_) => false,
    }
}

#[cycle(same)]
fn is_object(fields: &[Field], v: &Val) -> bool
    ensures { result ≡ is_same (node kind.Obj (of_fields fields.now)) v.now }
{
    match &v.node {
        ValNode::Obj(others) => same_fields(fields, others),
        ValNode::Prim(_) | ValNode::List(_) | ValNode::Map(_) | ValNode::Set(_) => false,
    }
}

#[cycle(same)]
fn is_list(items: &[Val], v: &Val) -> bool
    ensures { result ≡ is_same (node kind.List (of_items items.now)) v.now }
{
    match &v.node {
        ValNode::List(others) => same_items(items, others),
        ValNode::Prim(_) | ValNode::Obj(_) | ValNode::Map(_) | ValNode::Set(_) => false,
    }
}

#[cycle(same)]
fn is_map(entries: &[Entry], v: &Val) -> bool
    ensures { result ≡ is_same (node kind.Map (of_entries entries.now)) v.now }
{
    match &v.node {
        ValNode::Map(others) => same_pairs(entries, others),
        ValNode::Prim(_) | ValNode::Obj(_) | ValNode::List(_) | ValNode::Set(_) => false,
    }
}

fn is_set(members: &[Key], v: &Val) -> bool
    ensures { result ≡ is_same (node kind.Set (of_members members.now)) v.now }
{
    match &v.node {
        ValNode::Set(others) => same_members(members, others),
        ValNode::Prim(_) | ValNode::Obj(_) | ValNode::List(_) | ValNode::Map(_) => false,
    }
}

#[cycle(same)]
fn same_fields(a: &[Field], b: &[Field]) -> bool
    ensures { result ≡ same_entries (of_fields a.now) (of_fields b.now) }
{
    let mut i = 0;
    while i < a.len() && i < b.len() {
        if compare_texts(&a[i].key, &b[i].key).is_ne() || !same(&a[i].value, &b[i].value) {
            return false;
        }
        i += 1;
    }
    a.len() == b.len()
}

#[cycle(same)]
fn same_items(a: &[Val], b: &[Val]) -> bool
    ensures { result ≡ same_entries (of_items a.now) (of_items b.now) }
{
    let mut i = 0;
    while i < a.len() && i < b.len() {
        if !same(&a[i], &b[i]) {
            return false;
        }
        i += 1;
    }
    a.len() == b.len()
}

#[cycle(same)]
fn same_pairs(a: &[Entry], b: &[Entry]) -> bool
    ensures { result ≡ same_entries (of_entries a.now) (of_entries b.now) }
{
    let mut i = 0;
    while i < a.len() && i < b.len() {
        if a[i].key.compare(&b[i].key).is_ne() || !same(&a[i].value, &b[i].value) {
            return false;
        }
        i += 1;
    }
    a.len() == b.len()
}

fn same_members(a: &[Key], b: &[Key]) -> bool
    ensures { result ≡ same_entries (of_members a.now) (of_members b.now) }
{
    let mut i = 0;
    while i < a.len() && i < b.len() {
        if a[i].compare(&b[i]).is_ne() {
            return false;
        }
        i += 1;
    }
    a.len() == b.len()
}

fn compare_texts(a: &Text, b: &Text) -> Ordering
    ensures { result ≡ key_cmp (key_of.Text a.now) (key_of.Text b.now) }
{
    a.as_str().as_bytes().cmp(b.as_str().as_bytes())
}
