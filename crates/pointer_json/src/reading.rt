//! Reading: the operations that JSON data is.
ghost use Rattle.std.specs.Prelude.{◌≡◌, option_map, option_and_then};
ghost use Rattle.serde_json.specs.Find.{as_array, as_str};
ghost use Rattle.serde_json.specs.View.{view, items_view};
ghost use Rattle.host_protocol_spec.specs.Pointers as spec;
ghost use Rattle.host_protocol_spec.specs.Pointers.{pointers_from};
ghost use Rattle.value_json.specs.Gives.{Gives, GivesBy};
ghost use Rattle.value_json_spec.specs.Reading.{all_from};

use crate::texts::{is_pointer, steps_in};
use plain_values::{Limit, Op, Pointer, Pointers, Steps, Val};
use serde_json::Value;
use std::alloc::Global;
use value_json::{JsonFault, JsonWhy, limit_if, op_in, value_if};

// ---- the form

/// Whether the data is an array of operations: objects with `op` (`add`, `remove` or `replace`), `path` (a JSON Pointer) and,
/// but for a removal, `value`. Where it isn't, `pointers_of_json` answers `NotPatches`.
pub fn is_pointer_list(value: &Value) -> bool
    ensures { result ≡ spec.is_operation_list (as_array (view value.now)) }
{
    match value.as_array() {
        Some(items) => are_operations(items),
        None => false,
    }
}

fn are_operations(items: &[Value]) -> bool
    ensures { result ≡ spec.are_operations (items_view items.now) }
{
    for item in items {
        if !is_operation(item) {
            return false;
        }
    }
    true
}

fn is_operation(value: &Value) -> bool
    ensures { result ≡ spec.is_operation (view value.now) }
{
    is_pointer_if(path_in(value)) && has_value(op_in(value), value.get("value"))
}

/// The text under `path`.
fn path_in(value: &Value) -> Option<&str>
    ensures { option_map (λ s. s.now) result ≡ spec.path_in (view value.now) }
{
    value.get("path")?.as_str()
}

fn is_pointer_if(path: Option<&str>) -> bool
    ensures { result ≡ spec.is_pointer_if (option_map (λ s. s.now) path.entry) }
{
    match path {
        Some(text) => is_pointer(text),
        None => false,
    }
}

fn has_value(op: Option<Op>, value: Option<&Value>) -> bool
    ensures { result ≡ spec.has_value op (option_map (λ v. view v.now) value.entry) }
{
    match op {
        Some(Op::Remove) => true,
        Some(_) => value.is_some(),
        None => false,
    }
}

// ---- the content

/// The operations that the data is: `NotPatches` exactly where `is_pointer_list` is false, then the first fault of the walk over
/// all of them, an operation's steps before its value, then the first limit that a value is past, or memory. A removal has no
/// value, and members that an operation doesn't define are passed over.
#[tactic(auto, unfolding(host_protocol_spec::specs::Pointers::pointers_from))]
pub fn pointers_of_json(alloc: Global, value: &Value) -> Result<Pointers, JsonFault>
    ensures { Gives result (pointers_from (view value.now)) }
{
    match value.as_array() {
        Some(items) => operations_of(alloc, items),
        None => Err(JsonFault::Refused(JsonWhy::NotPatches)),
    }
}

#[tactic(auto, using(value_json::proofs::Passed::passed_then))]
fn operations_of(alloc: Global, items: &[Value]) -> Result<Pointers, JsonFault>
    ensures { Gives result (spec.operations_from (items_view items.now)) }
{
    if are_operations(items) {
        all_limited(operations_in(alloc, items)?)
    } else {
        Err(JsonFault::Refused(JsonWhy::NotPatches))
    }
}

fn all_limited(list: Vec<Pointer>) -> Result<Pointers, JsonFault>
    ensures { Gives result (spec.all_limited list.items) }
{
    match first_limit(&list) {
        None => Ok(Pointers::from_vec(list)),
        Some(limit) => Err(JsonFault::Refused(JsonWhy::Limit(limit))),
    }
}

fn first_limit(list: &[Pointer]) -> Option<Limit>
    ensures { result ≡ spec.first_limit list.now }
{
    for pointer in list {
        if let Some(limit) = limit_if(&pointer.value) {
            return Some(limit);
        }
    }
    None
}

fn operations_in(alloc: Global, items: &[Value]) -> Result<Vec<Pointer>, JsonFault>
    ensures { GivesBy (λ ps. ps.items) result (all_from spec.operation_walked (items_view items.now)) }
{
    let mut out = Vec::with_capacity(alloc, items.len())?;
    for item in items {
        out.push(operation_in(alloc, item)?)?;
    }
    Ok(out)
}

#[tactic(auto, using(value_json::proofs::Passed::passed_then, value_json::proofs::Passed::passed_map))]
fn operation_in(alloc: Global, value: &Value) -> Result<Pointer, JsonFault>
    ensures { Gives result (spec.operation_walked (view value.now)) }
{
    let op = op_in(value).unwrap_or(Op::Add);
    let steps = steps_if(alloc, path_in(value))?;
    let value = value_for(alloc, op, value.get("value"))?;
    Ok(Pointer { op, steps, value })
}

fn steps_if(alloc: Global, path: Option<&str>) -> Result<Steps, JsonFault>
    ensures { Gives result (spec.steps_from (option_map (λ s. s.now) path.entry)) }
{
    match path {
        Some(text) => steps_in(alloc, text),
        None => Ok(Steps::from_vec(Vec::new(alloc))),
    }
}

fn value_for(alloc: Global, op: Op, value: Option<&Value>) -> Result<Option<Val>, JsonFault>
    ensures { Gives result (spec.value_for op (option_map (λ v. view v.now) value.entry)) }
{
    match op {
        Op::Remove => Ok(None),
        Op::Add | Op::Replace => value_if(alloc, value),
    }
}
