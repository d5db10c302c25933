//! The parts of a value that rules are read from.
ghost use Rattle.std.specs.Prelude.{◌≡◌, map, option_map};
ghost use Rattle.values.specs.Seen.{of_field, of_item};
ghost use Rattle.guards_views_spec.specs.Reading as spec;

use values::{Field, Key, Safe, Text, Val, ValNode};

/// The members of an object.
pub(crate) fn fields(v: &Val) -> Option<&[Field]>
    ensures { option_map (λ s. map of_field s.now) result ≡ spec.fields v.now }
{
    match &v.node {
        ValNode::Obj(fields) => Some(fields.as_slice()),
        _ => None,
    }
}

/// The elements of a list.
pub(crate) fn elements(v: &Val) -> Option<&[Val]>
    ensures { option_map (λ s. map of_item s.now) result ≡ spec.elements v.now }
{
    match &v.node {
        ValNode::List(items) => Some(items.as_slice()),
        _ => None,
    }
}

/// A primitive.
pub(crate) fn primitive(v: &Val) -> Option<&Key>
    ensures { option_map (λ k. k.now) result ≡ spec.primitive v.now }
{
    match &v.node {
        ValNode::Prim(k) => Some(k),
        _ => None,
    }
}

fn key_text(k: &Key) -> Option<&Text>
    ensures { option_map (λ t. t.now) result ≡ spec.key_text k.now }
{
    match k {
        Key::Text(text) => Some(text),
        _ => None,
    }
}

fn key_integer(k: &Key) -> Option<Safe>
    ensures { result ≡ spec.key_integer k.now }
{
    match k {
        Key::Int(n) => Some(*n),
        _ => None,
    }
}

fn key_truth(k: &Key) -> Option<bool>
    ensures { result ≡ spec.key_truth k.now }
{
    match k {
        Key::Bool(b) => Some(*b),
        _ => None,
    }
}

/// A text.
pub(crate) fn text(v: &Val) -> Option<&Text>
    ensures { option_map (λ t. t.now) result ≡ spec.text_of v.now }
{
    match &v.node {
        ValNode::Prim(k) => key_text(k),
        _ => None,
    }
}

/// An integer.
pub(crate) fn integer(v: &Val) -> Option<Safe>
    ensures { result ≡ spec.integer_of v.now }
{
    match &v.node {
        ValNode::Prim(k) => key_integer(k),
        _ => None,
    }
}

/// A boolean.
pub(crate) fn truth(v: &Val) -> Option<bool>
    ensures { result ≡ spec.truth_of v.now }
{
    match &v.node {
        ValNode::Prim(k) => key_truth(k),
        _ => None,
    }
}

/// The one member of an object.
pub(crate) fn single(fields: &[Field]) -> Option<&Field>
    ensures { option_map (λ f. of_field f.now) result ≡ spec.single (map of_field fields.now) }
{
    if fields.len() == 1 {
        Some(&fields[0])
    } else {
        None
    }
}

/// The two members of an object.
pub(crate) fn pair(fields: &[Field]) -> Option<(&Field, &Field)>
    ensures { option_map (λ p. (of_field p.0.now, of_field p.1.now)) result ≡ spec.pair (map of_field fields.now) }
{
    if fields.len() == 2 {
        Some((&fields[0], &fields[1]))
    } else {
        None
    }
}

/// The three members of an object.
pub(crate) fn triple(fields: &[Field]) -> Option<(&Field, &Field, &Field)>
    ensures { option_map (λ p. (of_field p.0.now, of_field p.1.now, of_field p.2.now)) result ≡ spec.triple (map of_field fields.now) }
{
    if fields.len() == 3 {
        Some((&fields[0], &fields[1], &fields[2]))
    } else {
        None
    }
}

/// The two elements of a list.
pub(crate) fn two(items: &[Val]) -> Option<(&Val, &Val)>
    ensures { option_map (λ p. (of_item p.0.now, of_item p.1.now)) result ≡ spec.pair (map of_item items.now) }
{
    if items.len() == 2 {
        Some((&items[0], &items[1]))
    } else {
        None
    }
}

/// The three elements of a list.
pub(crate) fn three(items: &[Val]) -> Option<(&Val, &Val, &Val)>
    ensures { option_map (λ p. (of_item p.0.now, of_item p.1.now, of_item p.2.now)) result ≡ spec.triple (map of_item items.now) }
{
    if items.len() == 3 {
        Some((&items[0], &items[1], &items[2]))
    } else {
        None
    }
}
