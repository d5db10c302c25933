//! Reading: bytes as JSON data, and the value, path or patches that the data is.
ghost use Rattle.std.specs.Prelude.{◌≡◌, option_map, unwrap_or, false};
ghost use Rattle.serde_json.specs.Find.{as_array};
ghost use Rattle.serde_json.specs.View.{view, items_view};
ghost use Rattle.value_json.specs.Gives.{Gives, GivesBy, GivesData};
ghost use Rattle.value_model.specs.declared.limit.Limit.TheVariants as limit;
ghost use Rattle.value_json_spec.specs.Patches as spec;
ghost use Rattle.value_json_spec.specs.Reading.{json_of, val_from, limited as limited_of, all_from, key_from};
ghost use Rattle.value_json_spec.specs.Patches.{path_from, patches_from};

use crate::fault::JsonFault;
use crate::walk::{are_primitive, key_in, value_in};
use serde_json::Value;
use std::alloc::Global;
use value_checks::check_value;
use value_json_spec::JsonWhy;
use values::{Key, Limit, Op, Patch, Patches, Path, Val};

/// The JSON data that the bytes are: `NotJson` exactly where they are no JSON text (RFC 8259) of at most 127 levels, as
/// where they aren't UTF-8, or one with a number past a double's range; or memory.
pub fn json_of_bytes(alloc: Global, bytes: &[u8]) -> Result<Value, JsonFault>
    ensures { GivesData view result (json_of bytes.now) }
{
    match Value::from_slice(alloc, bytes) {
        Ok(value) => Ok(value),
        Err(e) => {
            if e.is_memory() {
                Err(JsonFault::Memory)
            } else {
                Err(JsonFault::Refused(JsonWhy::NotJson))
            }
        }
    }
}

/// The value that the data is, or the first fault of the walk (`NotSafeInteger`, `TextTooLong`, `BadTag`,
/// `DuplicateKey`), or else the first limit that the value is past, or memory.
#[tactic(auto, using(crate::proofs::Passed::passed_then), unfolding(value_json_spec::specs::Reading::val_from))]
pub fn val_of_json(alloc: Global, value: &Value) -> Result<Val, JsonFault>
    ensures { Gives result (val_from (view value.now)) }
{
    limited(value_in(alloc, value)?)
}

fn limited(v: Val) -> Result<Val, JsonFault>
    ensures { Gives result (limited_of v) }
{
    match check_value(&v) {
        Ok(()) => Ok(v),
        Err(limit) => Err(JsonFault::Refused(JsonWhy::Limit(limit))),
    }
}

// ---- paths

/// The path that the data is: `NotPath` exactly where it is no array of primitives, then `NotSafeInteger` or `TextTooLong`
/// at its first such step, or memory.
#[tactic(auto, unfolding(value_json_spec::specs::Patches::path_from))]
pub fn path_of_json(alloc: Global, value: &Value) -> Result<Path, JsonFault>
    ensures { Gives result (path_from (view value.now)) }
{
    if is_path(value) {
        steps_in(alloc, value)
    } else {
        Err(JsonFault::Refused(JsonWhy::NotPath))
    }
}

/// Whether the data is an array of primitives: where it isn't, `path_of_json` answers `NotPath`.
pub fn is_path(value: &Value) -> bool
    ensures { result ≡ spec.is_path (view value.now) }
{
    match value {
        Value::Array(items) => are_primitive(items),
        Value::Null | Value::Bool(_) | Value::Number(_) | Value::String(_) | Value::Object(_) => {
            false
        }
    }
}

#[tactic(auto, using(crate::proofs::Passed::passed_map))]
fn steps_in(alloc: Global, value: &Value) -> Result<Path, JsonFault>
    ensures { Gives result (spec.steps_in (view value.now)) }
{
    match value {
        Value::Array(items) => Ok(Path::from_vec(keys_in(alloc, items)?)),
        Value::Null | Value::Bool(_) | Value::Number(_) | Value::String(_) | Value::Object(_) => {
            Ok(Path::from_vec(Vec::new(alloc)))
        }
    }
}

fn keys_in(alloc: Global, items: &[Value]) -> Result<Vec<Key>, JsonFault>
    ensures { GivesBy (λ ks. ks.items) result (all_from key_from (items_view items.now)) }
{
    let mut out = Vec::with_capacity(alloc, items.len())?;
    for item in items {
        out.push(key_in(alloc, item)?)?;
    }
    Ok(out)
}

// ---- patches

/// The patches that the data is: `NotPatches` exactly where it isn't an array of objects with the members `op` (`add`,
/// `replace` or `remove`), `path` (an array of primitives) and maybe `value`, and no other; then the first fault of the walk
/// over all of them, a patch's path before its value; then the first limit that a value is past, or memory.
#[tactic(auto, unfolding(value_json_spec::specs::Patches::patches_from))]
pub fn patches_of_json(alloc: Global, value: &Value) -> Result<Patches, JsonFault>
    ensures { Gives result (patches_from (view value.now)) }
{
    match value.as_array() {
        Some(items) => list_of(alloc, items),
        None => Err(JsonFault::Refused(JsonWhy::NotPatches)),
    }
}

#[tactic(auto, using(crate::proofs::Passed::passed_then))]
fn list_of(alloc: Global, items: &[Value]) -> Result<Patches, JsonFault>
    ensures { Gives result (spec.list_from (items_view items.now)) }
{
    if are_patches(items) {
        all_limited(patches_in(alloc, items)?)
    } else {
        Err(JsonFault::Refused(JsonWhy::NotPatches))
    }
}

fn all_limited(list: Vec<Patch>) -> Result<Patches, JsonFault>
    ensures { Gives result (spec.all_limited list.items) }
{
    match first_limit(&list) {
        None => Ok(Patches::from_vec(list)),
        Some(limit) => Err(JsonFault::Refused(JsonWhy::Limit(limit))),
    }
}

fn first_limit(list: &[Patch]) -> Option<Limit>
    ensures { result ≡ spec.first_limit list.now }
{
    for patch in list {
        if let Some(limit) = limit_if(&patch.value) {
            return Some(limit);
        }
    }
    None
}

/// The first limit that a value is past, where there is one.
pub fn limit_if(value: &Option<Val>) -> Option<Limit>
    ensures { result ≡ spec.limit_if value.now }
{
    match value {
        None => None,
        Some(v) => match check_value(v) {
            Ok(()) => None,
            Err(limit) => Some(limit),
        },
    }
}

/// Whether the data is an array of objects of the form of patches: where it isn't, `patches_of_json` answers `NotPatches`.
pub fn is_patch_list(value: &Value) -> bool
    ensures { result ≡ unwrap_or (option_map spec.are_patches (as_array (view value.now))) false }
{
    match value.as_array() {
        Some(items) => are_patches(items),
        None => false,
    }
}

fn are_patches(items: &[Value]) -> bool
    ensures { result ≡ spec.are_patches (items_view items.now) }
{
    for item in items {
        if !is_patch(item) {
            return false;
        }
    }
    true
}

fn is_patch(value: &Value) -> bool
    ensures { result ≡ spec.is_patch (view value.now) }
{
    op_in(value).is_some()
        && is_path_if(value.get("path"))
        && has_members(value, member_count(value.get("value")))
}

/// The operation under `op`: `add`, `replace` or `remove`; None where another text, no text or nothing is there.
pub fn op_in(value: &Value) -> Option<Op>
    ensures { result ≡ spec.op_in (view value.now) }
{
    op_of(value.get("op")?.as_str()?)
}

fn op_of(word: &str) -> Option<Op>
    ensures { result ≡ spec.op_of word.now }
{
    if word == "add" {
        Some(Op::Add)
    } else if word == "replace" {
        Some(Op::Replace)
    } else if word == "remove" {
        Some(Op::Remove)
    } else {
        None
    }
}

fn is_path_if(value: Option<&Value>) -> bool
    ensures { result ≡ spec.is_path_if (option_map (λ v. view v.now) value.entry) }
{
    match value {
        None => false,
        Some(v) => is_path(v),
    }
}

fn member_count(value: Option<&Value>) -> usize
    ensures { result ≡ spec.member_count (option_map (λ v. view v.now) value.entry) }
{
    match value {
        None => 2,
        Some(_) => 3,
    }
}

fn has_members(value: &Value, count: usize) -> bool
    ensures { result ≡ spec.has_members count (view value.now) }
{
    match value.as_object() {
        Some(members) => members.len() == count,
        None => false,
    }
}

fn patches_in(alloc: Global, items: &[Value]) -> Result<Vec<Patch>, JsonFault>
    ensures { GivesBy (λ ps. ps.items) result (all_from spec.patch_walked (items_view items.now)) }
{
    let mut out = Vec::with_capacity(alloc, items.len())?;
    for item in items {
        out.push(patch_in(alloc, item)?)?;
    }
    Ok(out)
}

#[tactic(auto, using(crate::proofs::Passed::passed_then, crate::proofs::Passed::passed_map))]
fn patch_in(alloc: Global, value: &Value) -> Result<Patch, JsonFault>
    ensures { Gives result (spec.patch_walked (view value.now)) }
{
    let path = steps_if(alloc, value.get("path"))?;
    let change = value_if(alloc, value.get("value"))?;
    Ok(Patch {
        op: op_in(value).unwrap_or(Op::Add),
        path,
        value: change,
    })
}

fn steps_if(alloc: Global, value: Option<&Value>) -> Result<Path, JsonFault>
    ensures { Gives result (spec.steps_if (option_map (λ v. view v.now) value.entry)) }
{
    match value {
        None => Ok(Path::from_vec(Vec::new(alloc))),
        Some(v) => steps_in(alloc, v),
    }
}

/// The value of data that may be absent, or the first fault of the walk, or memory. Limits are not judged.
#[tactic(auto, using(crate::proofs::Passed::passed_map))]
pub fn value_if(alloc: Global, value: Option<&Value>) -> Result<Option<Val>, JsonFault>
    ensures { Gives result (spec.walked_if (option_map (λ v. view v.now) value.entry)) }
{
    match value {
        None => Ok(None),
        Some(v) => Ok(Some(value_in(alloc, v)?)),
    }
}
