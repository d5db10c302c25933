//! What a value adds.
ghost use Rattle.std.specs.Prelude.{◌≡◌, map, option_map, IfOk, IsTrue, None, Some};
ghost use Rattle.std.specs.FinMap.Entries.{find, is_sorted};
ghost use Rattle.value_model.specs.Limits.{value_limit};
ghost use Rattle.value_model.specs.Order.{key_cmp};
ghost use Rattle.value_model.specs.Plain.{prim};
ghost use Rattle.value_model.specs.declared.key.Key.TheVariants as key_of;
ghost use Rattle.values.specs.Seen.{of_field};
ghost use Rattle.guards_views_spec.specs.Shapes.{in_range};
ghost use Rattle.guards_views_spec.specs.Views as spec;

use guards_views_spec::Weigh;
use std::alloc::{AllocError, Global};
use value_checks::field_place;
use values::{Field, Key, Safe, Text, Val, ValNode, weight};

/// What a value within the limits adds. It takes no memory.
pub fn weighs(weigh: &Weigh, v: &Val) -> u64
    requires { value_limit v.now ≡ None }
    ensures { result ≡ spec.weighs weigh.now v.now }
{
    match weigh {
        Weigh::Count => 1,
        Weigh::Weight => weight(v),
        Weigh::True(name) => one_where(is_true_at(name, v)),
        Weigh::Int(name, lo, hi) => one_where(is_between_at(name, *lo, *hi, v)),
    }
}

/// The same words.
pub fn copy_weigh(alloc: Global, weigh: &Weigh) -> Result<Weigh, AllocError>
    ensures { IfOk result (λ w. w ≡ weigh.now) }
{
    match weigh {
        Weigh::Count => Ok(Weigh::Count),
        Weigh::Weight => Ok(Weigh::Weight),
        Weigh::True(name) => Ok(Weigh::True(name.copy(alloc)?)),
        Weigh::Int(name, lo, hi) => Ok(Weigh::Int(name.copy(alloc)?, *lo, *hi)),
    }
}

fn one_where(b: bool) -> u64
    ensures { result ≡ spec.one_where b }
{
    if b { 1 } else { 0 }
}

fn is_true_at(name: &Text, v: &Val) -> bool
    ensures { result ≡ spec.some_passes spec.is_true (spec.field name.now v.now) }
{
    match field(name, v) {
        Some(w) => is_true(w),
        None => false,
    }
}

fn is_between_at(name: &Text, lo: Safe, hi: Safe, v: &Val) -> bool
    ensures { result ≡ spec.some_passes (in_range lo hi) (spec.field name.now v.now) }
{
    match field(name, v) {
        Some(w) => is_between(lo, hi, w),
        None => false,
    }
}

/// What stands under a name of an object.
fn field<'a>(name: &Text, v: &'a Val) -> Option<&'a Val>
    ensures { option_map (λ w. w.now) result ≡ spec.field name.now v.now }
{
    match &v.node {
        ValNode::Obj(fields) => named(name, fields),
        _ => None,
    }
}

fn named<'a>(name: &Text, fields: &'a [Field]) -> Option<&'a Val>
    requires { IsTrue (is_sorted key_cmp (map of_field fields.now)) }
    ensures { option_map (λ w. w.now) result ≡ find key_cmp (key_of.Text name.now) (map of_field fields.now) }
{
    match field_place(fields, name) {
        Ok(i) => Some(&fields[i].value),
        Err(_) => None,
    }
}

fn is_true(v: &Val) -> bool
    ensures { result ≡ spec.is_true v.now }
{
    match &v.node {
        ValNode::Prim(k) => is_true_key(k),
        _ => false,
    }
}

fn is_true_key(k: &Key) -> bool
    ensures { result ≡ spec.is_true (prim k.now) }
{
    match k {
        Key::Bool(b) => *b,
        _ => false,
    }
}

fn is_between(lo: Safe, hi: Safe, v: &Val) -> bool
    ensures { result ≡ in_range lo hi v.now }
{
    match &v.node {
        ValNode::Prim(k) => is_key_between(lo, hi, k),
        _ => false,
    }
}

fn is_key_between(lo: Safe, hi: Safe, k: &Key) -> bool
    ensures { result ≡ in_range lo hi (prim k.now) }
{
    match k {
        Key::Int(n) => lo.get() <= n.get() && n.get() <= hi.get(),
        _ => false,
    }
}
