//! How shapes are read.
ghost use Rattle.std.specs.Prelude.{◌≡◌, map, IfOk, IsTrue};
ghost use Rattle.std.specs.Option.{option_map};
ghost use Rattle.std.specs.FinMap.Entries.{is_sorted};
ghost use Rattle.value_model.specs.Order.{key_cmp};
ghost use Rattle.value_model.specs.declared.key.Key.TheVariants as key_of;
ghost use Rattle.value_model.specs.declared.kind.Kind.TheVariants as kind;
ghost use Rattle.values.specs.Seen.{of_field, of_fields, of_item, of_items};
ghost use Rattle.guards_views_spec.specs.Shapes as shape;
ghost use Rattle.guards_views_spec.specs.Reading as spec;
ghost use Rattle.shapes.specs.Seen.{of_names, NamesAscend};
ghost use Rattle.guards_views.specs.Reads.{Reads, ReadsAs};

use crate::fault::RulesFault;
use crate::parts::integer;
use crate::texts::simple;
use shapes::{Form, Named, Shape, has_any};
use std::alloc::Global;
use values::{Field, Val, ValNode};

/// The shape that a value is read as.
#[cycle(reading)]
pub(crate) fn read_shape(alloc: Global, v: &Val) -> Result<Shape, RulesFault>
    ensures { Reads result (spec.shape_of v.now) }
{
    match &v.node {
        ValNode::Prim(_) => read_one(v),
        ValNode::Obj(fields) => from_fields(alloc, fields),
        _ => Err(RulesFault::NotRules),
    }
}

fn read_one(v: &Val) -> Result<Shape, RulesFault>
    ensures { Reads result (option_map shape.one (spec.simple_of v.now)) }
{
    match simple(v) {
        Ok(simple) => Ok(Shape {
            form: Form::One(simple),
        }),
        Err(fault) => Err(fault),
    }
}

/// The shape of an object with one or two members.
#[cycle(reading)]
fn from_fields(alloc: Global, fields: &[Field]) -> Result<Shape, RulesFault>
    requires { IsTrue (is_sorted key_cmp (map of_field fields.now)) }
    ensures { Reads result (spec.shape_in kind.Obj (of_fields fields.now)) }
{
    if fields.len() == 1 {
        alone(alloc, &fields[0])
    } else if fields.len() == 2 {
        together(alloc, &fields[0], &fields[1])
    } else {
        Err(RulesFault::NotRules)
    }
}

#[cycle(reading)]
fn alone(alloc: Global, f: &Field) -> Result<Shape, RulesFault>
    ensures { Reads result (spec.alone (key_of.Text f.now.key) f.now.value (spec.shape_of f.now.value) (spec.names_of f.now.value) (spec.choices_of f.now.value)) }
{
    let word = f.key.as_str();
    if word == "int" {
        range(&f.value)
    } else if word == "list" {
        list(alloc, &f.value)
    } else if word == "table" {
        table(alloc, &f.value)
    } else if word == "map" {
        map_of(alloc, &f.value)
    } else if word == "set" {
        set_of(&f.value)
    } else if word == "obj" {
        required(alloc, &f.value)
    } else if word == "or" {
        any_of(alloc, &f.value)
    } else {
        Err(RulesFault::NotRules)
    }
}

fn range(v: &Val) -> Result<Shape, RulesFault>
    ensures { Reads result (spec.range_of v.now) }
{
    match &v.node {
        ValNode::List(items) => range_in(items),
        _ => Err(RulesFault::NotRules),
    }
}

fn range_in(items: &[Val]) -> Result<Shape, RulesFault>
    ensures { Reads result (spec.range_in (map of_item items.now)) }
{
    if items.len() == 2 {
        between(&items[0], &items[1])
    } else {
        Err(RulesFault::NotRules)
    }
}

fn between(lo: &Val, hi: &Val) -> Result<Shape, RulesFault>
    ensures { Reads result (spec.both_of shape.range (spec.integer_of lo.now) (spec.integer_of hi.now)) }
{
    match integer(lo) {
        Some(lo) => match integer(hi) {
            Some(hi) => Ok(Shape {
                form: Form::Range(lo, hi),
            }),
            None => Err(RulesFault::NotRules),
        },
        None => Err(RulesFault::NotRules),
    }
}

fn set_of(v: &Val) -> Result<Shape, RulesFault>
    ensures { Reads result (option_map shape.members (spec.simple_of v.now)) }
{
    match simple(v) {
        Ok(simple) => Ok(Shape {
            form: Form::Set(simple),
        }),
        Err(fault) => Err(fault),
    }
}

#[cycle(reading)]
fn boxed(alloc: Global, v: &Val) -> Result<Box<Shape>, RulesFault>
    ensures { ReadsAs (λ s. s.value) result (spec.shape_of v.now) }
{
    match read_shape(alloc, v) {
        Ok(shape) => Ok(Box::new(alloc, shape)?),
        Err(fault) => Err(fault),
    }
}

#[cycle(reading)]
fn list(alloc: Global, v: &Val) -> Result<Shape, RulesFault>
    ensures { Reads result (option_map (shape.every kind.List) (spec.shape_of v.now)) }
{
    match boxed(alloc, v) {
        Ok(inner) => Ok(Shape {
            form: Form::List(inner),
        }),
        Err(fault) => Err(fault),
    }
}

#[cycle(reading)]
fn table(alloc: Global, v: &Val) -> Result<Shape, RulesFault>
    ensures { Reads result (option_map (shape.every kind.Obj) (spec.shape_of v.now)) }
{
    match boxed(alloc, v) {
        Ok(inner) => Ok(Shape {
            form: Form::Table(inner),
        }),
        Err(fault) => Err(fault),
    }
}

#[cycle(reading)]
fn map_of(alloc: Global, v: &Val) -> Result<Shape, RulesFault>
    ensures { Reads result (option_map (shape.every kind.Map) (spec.shape_of v.now)) }
{
    match boxed(alloc, v) {
        Ok(inner) => Ok(Shape {
            form: Form::Map(inner),
        }),
        Err(fault) => Err(fault),
    }
}

#[cycle(reading)]
fn required(alloc: Global, v: &Val) -> Result<Shape, RulesFault>
    ensures { Reads result (option_map (λ must. shape.object must shape.no_name) (spec.names_of v.now)) }
{
    match names(alloc, v) {
        Ok(must) => Ok(Shape {
            form: Form::Obj {
                must,
                may: Vec::new(alloc),
            },
        }),
        Err(fault) => Err(fault),
    }
}

/// Required names and allowed ones.
#[cycle(reading)]
fn together(alloc: Global, f: &Field, g: &Field) -> Result<Shape, RulesFault>
    ensures { Reads result (spec.together (key_of.Text f.now.key) (spec.names_of f.now.value) (key_of.Text g.now.key) (spec.names_of g.now.value)) }
{
    if f.key.as_str() == "obj" && g.key.as_str() == "opt" {
        both(alloc, &f.value, &g.value)
    } else {
        Err(RulesFault::NotRules)
    }
}

#[cycle(reading)]
fn both(alloc: Global, must: &Val, may: &Val) -> Result<Shape, RulesFault>
    ensures { Reads result (spec.with_allowed (spec.names_of must.now) (spec.names_of may.now)) }
{
    match names(alloc, must) {
        Ok(must) => match names(alloc, may) {
            Ok(may) => apart(must, may),
            Err(fault) => Err(fault),
        },
        Err(fault) => Err(fault),
    }
}

fn apart(must: Vec<Named>, may: Vec<Named>) -> Result<Shape, RulesFault>
    requires must { NamesAscend must.items }
    requires may { NamesAscend may.items }
    ensures { Reads result (spec.with_allowed (Some (of_names must.items)) (Some (of_names may.items))) }
{
    if has_any(&must, &may) {
        Err(RulesFault::NotRules)
    } else {
        Ok(Shape {
            form: Form::Obj { must, may },
        })
    }
}

/// An object of shapes.
#[cycle(reading)]
fn names(alloc: Global, v: &Val) -> Result<Vec<Named>, RulesFault>
    ensures reads { ReadsAs (λ ns. of_names ns.items) result (spec.names_of v.now) }
    ensures ascend { IfOk result (λ ns. NamesAscend ns.items) }
{
    match &v.node {
        ValNode::Obj(fields) => names_in(alloc, fields),
        _ => Err(RulesFault::NotRules),
    }
}

#[cycle(reading)]
fn names_in(alloc: Global, fields: &[Field]) -> Result<Vec<Named>, RulesFault>
    requires { IsTrue (is_sorted key_cmp (map of_field fields.now)) }
    ensures reads { ReadsAs (λ ns. of_names ns.items) result (spec.names_in (of_fields fields.now)) }
    ensures ascend { IfOk result (λ ns. NamesAscend ns.items) }
{
    let mut out = Vec::new(alloc);
    for f in fields {
        match read_shape(alloc, &f.value) {
            Ok(shape) => {
                let name = f.key.copy(alloc)?;
                out.push(Named { name, shape })?;
            }
            Err(fault) => return Err(fault),
        }
    }
    Ok(out)
}

#[cycle(reading)]
fn any_of(alloc: Global, v: &Val) -> Result<Shape, RulesFault>
    ensures { Reads result (option_map shape.either (spec.choices_of v.now)) }
{
    match &v.node {
        ValNode::List(items) => some_of(alloc, items),
        _ => Err(RulesFault::NotRules),
    }
}

/// At least one shape.
#[cycle(reading)]
fn some_of(alloc: Global, items: &[Val]) -> Result<Shape, RulesFault>
    ensures { Reads result (option_map shape.either (spec.and_then (spec.choices_in (of_items items.now)) spec.not_empty)) }
{
    match choices_in(alloc, items) {
        Ok(choices) => {
            if choices.is_empty() {
                Err(RulesFault::NotRules)
            } else {
                Ok(Shape {
                    form: Form::Or(choices),
                })
            }
        }
        Err(fault) => Err(fault),
    }
}

#[cycle(reading)]
fn choices_in(alloc: Global, items: &[Val]) -> Result<Vec<Shape>, RulesFault>
    ensures { ReadsAs (λ cs. shape.choices cs.items) result (spec.choices_in (of_items items.now)) }
{
    let mut out = Vec::new(alloc);
    for v in items {
        match read_shape(alloc, v) {
            Ok(shape) => out.push(shape)?,
            Err(fault) => return Err(fault),
        }
    }
    Ok(out)
}
