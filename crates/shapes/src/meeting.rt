//! What meets a shape.
ghost use Rattle.std.specs.Prelude.{◌≡◌, ℕ, pos, map, is_none, MatchOption, IsTrue};
ghost use Rattle.std.specs.FinMap.Entries.{is_sorted};
ghost use Rattle.value_model.specs.Order.{key_cmp};
ghost use Rattle.value_model.specs.declared.key.Key.TheVariants as key_of;
ghost use Rattle.value_model.specs.declared.kind.Kind.TheVariants as kind;
ghost use Rattle.values.specs.Seen.{of_field, of_fields, of_entries, of_items};
ghost use Rattle.guards_views_spec.specs.Shapes as spec;
ghost use Rattle.guards_views_spec.specs.Shapes.{Broken};
ghost use Rattle.shapes.specs.Seen.{of_names, NamesAscend};
ghost use Rattle.shapes.specs.Breaks.{BreaksAt, IsWrong};

use crate::names::{asked, compare, first_missing};
use crate::primitives::{in_range, is_set_of, meets_one};
use crate::shape::{Form, Named, Shape};
use values::{Entry, Field, Text, Val, ValNode};

/// What is wrong in an object.
#[derive(Drop)]
pub(crate) enum Wrong<'a> {
    /// A required name that isn't there, or one that isn't allowed.
    Name(&'a Text),
    /// A field whose value breaks the shape that is asked of it.
    Field(&'a Shape, &'a Field),
}

/// Whether a value meets a shape. It takes no memory.
#[cycle(meets)]
pub fn meets(shape: &Shape, v: &Val) -> bool
    ensures { result ≡ spec.meets shape.now v.now }
{
    match &shape.form {
        Form::One(simple) => meets_one(*simple, v),
        Form::Range(lo, hi) => in_range(*lo, *hi, v),
        Form::List(inner) => is_list(inner, v),
        Form::Table(inner) => is_table(inner, v),
        Form::Map(inner) => is_map(inner, v),
        Form::Set(simple) => is_set_of(*simple, v),
        Form::Obj { must, may } => is_object(must, may, v),
        Form::Or(choices) => any_met(choices, v),
    }
}

#[cycle(meets)]
fn is_list(shape: &Shape, v: &Val) -> bool
    ensures { result ≡ is_none (spec.in_each kind.List (spec.broken shape.now) v.now) }
{
    match &v.node {
        ValNode::List(items) => first_item(shape, items).is_none(),
        _ => false,
    }
}

#[cycle(meets)]
fn is_table(shape: &Shape, v: &Val) -> bool
    ensures { result ≡ is_none (spec.in_each kind.Obj (spec.broken shape.now) v.now) }
{
    match &v.node {
        ValNode::Obj(fields) => first_field(shape, fields).is_none(),
        _ => false,
    }
}

#[cycle(meets)]
fn is_map(shape: &Shape, v: &Val) -> bool
    ensures { result ≡ is_none (spec.in_each kind.Map (spec.broken shape.now) v.now) }
{
    match &v.node {
        ValNode::Map(entries) => first_entry(shape, entries).is_none(),
        _ => false,
    }
}

#[cycle(meets)]
fn is_object(must: &[Named], may: &[Named], v: &Val) -> bool
    requires must { NamesAscend must.now }
    requires may { NamesAscend may.now }
    ensures { result ≡ is_none (spec.in_object (spec.checks (of_names must.now)) (spec.checks (of_names may.now)) v.now) }
{
    match &v.node {
        ValNode::Obj(fields) => first_wrong(must, may, fields).is_none(),
        _ => false,
    }
}

#[cycle(meets)]
pub(crate) fn any_met(choices: &[Shape], v: &Val) -> bool
    ensures { result ≡ spec.any_met (spec.choices choices.now) v.now }
{
    for shape in choices {
        if meets(shape, v) {
            return true;
        }
    }
    false
}

/// The first element that breaks a shape, with its index.
#[cycle(meets)]
pub(crate) fn first_item<'a>(shape: &Shape, items: &'a [Val]) -> Option<(usize, &'a Val)>
    ensures { MatchOption result (spec.first_broken (spec.broken shape.now) kind.List 0 (of_items items.now) ≡ None) (λ p. BreaksAt shape.now (key_of.Int (pos p.0)) p.1.now (spec.first_broken (spec.broken shape.now) kind.List 0 (of_items items.now))) }
{
    for (i, v) in items.iter().enumerate() {
        if !meets(shape, v) {
            return Some((i, v));
        }
    }
    None
}

/// The first field whose value breaks a shape.
#[cycle(meets)]
pub(crate) fn first_field<'a>(shape: &Shape, fields: &'a [Field]) -> Option<&'a Field>
    ensures { MatchOption result (spec.first_broken (spec.broken shape.now) kind.Obj 0 (of_fields fields.now) ≡ None) (λ f. BreaksAt shape.now (key_of.Text f.now.key) f.now.value (spec.first_broken (spec.broken shape.now) kind.Obj 0 (of_fields fields.now))) }
{
    for f in fields {
        if !meets(shape, &f.value) {
            return Some(f);
        }
    }
    None
}

/// The first entry whose value breaks a shape.
#[cycle(meets)]
pub(crate) fn first_entry<'a>(shape: &Shape, entries: &'a [Entry]) -> Option<&'a Entry>
    ensures { MatchOption result (spec.first_broken (spec.broken shape.now) kind.Map 0 (of_entries entries.now) ≡ None) (λ e. BreaksAt shape.now e.now.key e.now.value (spec.first_broken (spec.broken shape.now) kind.Map 0 (of_entries entries.now))) }
{
    for e in entries {
        if !meets(shape, &e.value) {
            return Some(e);
        }
    }
    None
}

/// The earlier of a name that is missing and what else is wrong.
fn earlier<'a>(name: &'a Text, wrong: Option<Wrong<'a>>) -> Option<Wrong<'a>>
    ensures { (n : ℕ) (o : Broken) → IsWrong n wrong.entry o → IsWrong n result (spec.earlier (Some (key_of.Text name.now)) o) }
{
    let comes_first = match &wrong {
        None => true,
        Some(Wrong::Name(other)) => compare(name, other).is_lt(),
        Some(Wrong::Field(_, f)) => compare(name, &f.key).is_lt(),
    };
    if comes_first {
        Some(Wrong::Name(name))
    } else {
        wrong
    }
}

/// What is wrong at a field.
#[cycle(meets)]
fn judged<'a>(must: &'a [Named], may: &'a [Named], f: &'a Field) -> Option<Wrong<'a>>
    requires must { NamesAscend must.now }
    requires may { NamesAscend may.now }
    ensures { IsWrong (spec.shapes (spec.object (of_names must.now) (of_names may.now))) result (spec.judged (key_of.Text f.now.key) f.now.value (spec.asked (spec.checks (of_names must.now)) (spec.checks (of_names may.now)) (key_of.Text f.now.key))) }
{
    match asked(must, may, &f.key) {
        None => Some(Wrong::Name(&f.key)),
        Some(shape) => {
            if meets(shape, &f.value) {
                None
            } else {
                Some(Wrong::Field(shape, f))
            }
        }
    }
}

#[cycle(meets)]
fn first_judged<'a>(must: &'a [Named], may: &'a [Named], fields: &'a [Field]) -> Option<Wrong<'a>>
    requires must { NamesAscend must.now }
    requires may { NamesAscend may.now }
    ensures { IsWrong (spec.shapes (spec.object (of_names must.now) (of_names may.now))) result (spec.first_wrong (spec.checks (of_names must.now)) (spec.checks (of_names may.now)) (of_fields fields.now)) }
{
    for f in fields {
        let wrong = judged(must, may, f);
        if wrong.is_some() {
            return wrong;
        }
    }
    None
}

/// What is wrong first, in the order of keys.
#[cycle(meets)]
pub(crate) fn first_wrong<'a>(
    must: &'a [Named],
    may: &'a [Named],
    fields: &'a [Field],
) -> Option<Wrong<'a>>
    requires must { NamesAscend must.now }
    requires may { NamesAscend may.now }
    requires fields { IsTrue (is_sorted key_cmp (map of_field fields.now)) }
    ensures { IsWrong (spec.shapes (spec.object (of_names must.now) (of_names may.now))) result (spec.earlier (spec.first_missing (spec.checks (of_names must.now)) (map of_field fields.now)) (spec.first_wrong (spec.checks (of_names must.now)) (spec.checks (of_names may.now)) (of_fields fields.now))) }
{
    let wrong = first_judged(must, may, fields);
    match first_missing(must, fields) {
        None => wrong,
        Some(name) => earlier(name, wrong),
    }
}
