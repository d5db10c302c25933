//! The first place at which a value breaks a shape.
ghost use Rattle.std.specs.Prelude.{◌≡◌, ◌<◌, pos, map, reverse, option_map, IfOk, IfSome, IsNone, IsTrue};
ghost use Rattle.std.specs.FinMap.Entries.{is_sorted};
ghost use Rattle.value_model.specs.Order.{key_cmp};
ghost use Rattle.value_model.specs.declared.key.Key.TheVariants as key_of;
ghost use Rattle.value_model.specs.declared.kind.Kind.TheVariants as kind;
ghost use Rattle.values.specs.Seen.{of_field, of_fields, of_entries, of_items};
ghost use Rattle.guards_views_spec.specs.Shapes as spec;
ghost use Rattle.shapes.specs.Seen.{of_names, NamesAscend};

use crate::meeting::{Wrong, any_met, first_entry, first_field, first_item, first_wrong};
use crate::primitives::{in_range, is_set_of, meets_one};
use crate::shape::{Form, Named, Shape};
use std::alloc::{AllocError, Global};
use values::{Entry, Field, Key, Path, Safe, Val, ValNode};

/// The steps to the first place that breaks, the last step first.
type Steps = Option<Vec<Key>>;

/// The path of the first place at which a value breaks a shape; None exactly where it meets the shape. The entries of a
/// container are taken in the order of their keys. A value of the wrong kind, an integer out of its range, a Set with a wrong
/// member and a value that meets none of several shapes break at that very place; an object breaks at the first name that is
/// missing or isn't allowed. The error is want of memory, or an index above 2^53 - 1, which no path holds.
pub fn broken(alloc: Global, shape: &Shape, v: &Val) -> Result<Option<Path>, AllocError>
    ensures { IfOk result (λ p. p ≡ spec.broken shape.now v.now) }
{
    match steps(alloc, shape, v)? {
        None => Ok(None),
        Some(mut keys) => {
            keys.reverse();
            Ok(Some(Path::from_vec(keys)))
        }
    }
}

#[cycle(steps)]
fn steps(alloc: Global, shape: &Shape, v: &Val) -> Result<Steps, AllocError>
    ensures { IfOk result (λ p. option_map (λ ks. reverse ks.items) p ≡ spec.broken shape.now v.now) }
{
    match &shape.form {
        Form::List(inner) => in_list(alloc, inner, v),
        Form::Table(inner) => in_table(alloc, inner, v),
        Form::Map(inner) => in_map(alloc, inner, v),
        Form::Obj { must, may } => in_object(alloc, must, may, v),
        Form::One(simple) => Ok(here(alloc, meets_one(*simple, v))),
        Form::Range(lo, hi) => Ok(here(alloc, in_range(*lo, *hi, v))),
        Form::Set(simple) => Ok(here(alloc, is_set_of(*simple, v))),
        Form::Or(choices) => Ok(here(alloc, any_met(choices, v))),
    }
}

/// The place itself, where it isn't as it has to be.
fn here(alloc: Global, met: bool) -> Steps
    ensures { option_map (λ ks. reverse ks.items) result ≡ spec.unless_here met }
{
    if met { None } else { Some(Vec::new(alloc)) }
}

#[cycle(steps)]
fn in_list(alloc: Global, shape: &Shape, v: &Val) -> Result<Steps, AllocError>
    ensures { IfOk result (λ p. option_map (λ ks. reverse ks.items) p ≡ spec.in_each kind.List (spec.broken shape.now) v.now) }
{
    match &v.node {
        ValNode::List(items) => in_items(alloc, shape, items),
        _ => Ok(here(alloc, false)),
    }
}

#[cycle(steps)]
fn in_items(alloc: Global, shape: &Shape, items: &[Val]) -> Result<Steps, AllocError>
    ensures { IfOk result (λ p. option_map (λ ks. reverse ks.items) p ≡ spec.first_broken (spec.broken shape.now) kind.List 0 (of_items items.now)) }
{
    match first_item(shape, items) {
        None => Ok(None),
        Some((i, v)) => match index(i) {
            Some(step) => below(alloc, step, shape, v),
            None => Err(AllocError),
        },
    }
}

/// An index as a step; None exactly above 2^53 - 1.
fn index(i: usize) -> Option<Key>
    ensures some { IfSome result (λ k. k ≡ key_of.Int (pos i)) }
    ensures none { IsNone result → 9007199254740991 < i }
{
    if i > 9007199254740991 {
        return None;
    }
    match Safe::of(i as i64) {
        Some(n) => Some(Key::Int(n)),
        None => unreachable!(),
    }
}

#[cycle(steps)]
fn in_table(alloc: Global, shape: &Shape, v: &Val) -> Result<Steps, AllocError>
    ensures { IfOk result (λ p. option_map (λ ks. reverse ks.items) p ≡ spec.in_each kind.Obj (spec.broken shape.now) v.now) }
{
    match &v.node {
        ValNode::Obj(fields) => in_fields(alloc, shape, fields),
        _ => Ok(here(alloc, false)),
    }
}

#[cycle(steps)]
fn in_fields(alloc: Global, shape: &Shape, fields: &[Field]) -> Result<Steps, AllocError>
    ensures { IfOk result (λ p. option_map (λ ks. reverse ks.items) p ≡ spec.first_broken (spec.broken shape.now) kind.Obj 0 (of_fields fields.now)) }
{
    match first_field(shape, fields) {
        None => Ok(None),
        Some(f) => in_field(alloc, shape, f),
    }
}

#[cycle(steps)]
fn in_field(alloc: Global, shape: &Shape, f: &Field) -> Result<Steps, AllocError>
    ensures { IfOk result (λ p. option_map (λ ks. reverse ks.items) p ≡ spec.below (key_of.Text f.now.key) (spec.broken shape.now f.now.value)) }
{
    let name = Key::Text(f.key.copy(alloc)?);
    below(alloc, name, shape, &f.value)
}

#[cycle(steps)]
fn in_map(alloc: Global, shape: &Shape, v: &Val) -> Result<Steps, AllocError>
    ensures { IfOk result (λ p. option_map (λ ks. reverse ks.items) p ≡ spec.in_each kind.Map (spec.broken shape.now) v.now) }
{
    match &v.node {
        ValNode::Map(entries) => in_entries(alloc, shape, entries),
        _ => Ok(here(alloc, false)),
    }
}

#[cycle(steps)]
fn in_entries(alloc: Global, shape: &Shape, entries: &[Entry]) -> Result<Steps, AllocError>
    ensures { IfOk result (λ p. option_map (λ ks. reverse ks.items) p ≡ spec.first_broken (spec.broken shape.now) kind.Map 0 (of_entries entries.now)) }
{
    match first_entry(shape, entries) {
        None => Ok(None),
        Some(e) => below(alloc, e.key.copy(alloc)?, shape, &e.value),
    }
}

#[cycle(steps)]
fn in_object(alloc: Global, must: &[Named], may: &[Named], v: &Val) -> Result<Steps, AllocError>
    requires must { NamesAscend must.now }
    requires may { NamesAscend may.now }
    ensures { IfOk result (λ p. option_map (λ ks. reverse ks.items) p ≡ spec.in_object (spec.checks (of_names must.now)) (spec.checks (of_names may.now)) v.now) }
{
    match &v.node {
        ValNode::Obj(fields) => in_names(alloc, must, may, fields),
        _ => Ok(here(alloc, false)),
    }
}

#[cycle(steps)]
fn in_names(
    alloc: Global,
    must: &[Named],
    may: &[Named],
    fields: &[Field],
) -> Result<Steps, AllocError>
    requires must { NamesAscend must.now }
    requires may { NamesAscend may.now }
    requires fields { IsTrue (is_sorted key_cmp (map of_field fields.now)) }
    ensures { IfOk result (λ p. option_map (λ ks. reverse ks.items) p ≡ spec.earlier (spec.first_missing (spec.checks (of_names must.now)) (map of_field fields.now)) (spec.first_wrong (spec.checks (of_names must.now)) (spec.checks (of_names may.now)) (of_fields fields.now))) }
{
    match first_wrong(must, may, fields) {
        None => Ok(None),
        Some(Wrong::Name(name)) => {
            let mut keys = Vec::new(alloc);
            keys.push(Key::Text(name.copy(alloc)?))?;
            Ok(Some(keys))
        }
        Some(Wrong::Field(shape, f)) => in_field(alloc, shape, f),
    }
}

/// The steps inside a value that stands under a key.
#[cycle(steps)]
fn below(alloc: Global, key: Key, shape: &Shape, v: &Val) -> Result<Steps, AllocError>
    ensures { IfOk result (λ p. option_map (λ ks. reverse ks.items) p ≡ spec.below key (spec.broken shape.now v.now)) }
{
    match steps(alloc, shape, v)? {
        None => Ok(None),
        Some(mut keys) => {
            keys.push(key)?;
            Ok(Some(keys))
        }
    }
}
