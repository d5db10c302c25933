//! The walk over JSON data that finds the value, or the first fault.
ghost use Rattle.std.specs.Prelude.{◌≡◌, IfOk, IsTrue, map, [], option_map};
ghost use Rattle.std.specs.FinMap.Entries.{is_sorted};
ghost use Rattle.serde_json.specs.Data.{member, no_members};
ghost use Rattle.serde_json.specs.View.{view, items_view, members_view, number_view};
ghost use Rattle.value_json.specs.Gives.{Gives, GivesBy};
ghost use Rattle.value_json.specs.Ranks.{of_pairs, of_marks};
ghost use Rattle.value_model.specs.Order.{key_cmp};
ghost use Rattle.value_model.specs.Plain.{node};
ghost use Rattle.value_model.specs.declared.kind.Kind.TheVariants as kind;
ghost use Rattle.value_json_spec.specs.Answers.{result_map};
ghost use Rattle.value_json_spec.specs.Reading as spec;
ghost use Rattle.values.specs.Seen.{of_field, of_entry, of_member, of_fields, of_items};

use crate::fault::JsonFault;
use crate::ranked::Ranked;
use serde_json::{Map, Number, Value};
use std::alloc::{AllocError, Global};
use std::collections::BTreeMap;
use value_json_spec::JsonWhy;
use values::{Entry, Field, Key, Safe, Text, TextFault, Val, ValNode};

fn safe_in(number: &Number) -> Option<Safe>
    ensures { result ≡ spec.safe_of (number_view number.now) }
{
    Safe::of(number.as_i64()?)
}

fn int_in(number: &Number) -> Result<Safe, JsonFault>
    ensures { Gives result (spec.safe_from (number_view number.now)) }
{
    match safe_in(number) {
        Some(n) => Ok(n),
        None => Err(JsonFault::Refused(JsonWhy::NotSafeInteger)),
    }
}

/// The text of a JSON string; `TextTooLong` exactly where it has more than 2^20 bytes, or memory.
pub fn text_in(alloc: Global, text: &str) -> Result<Text, JsonFault>
    ensures { Gives result (spec.text_from text.now) }
{
    match Text::of(alloc, text) {
        Ok(text) => Ok(text),
        Err(TextFault::TooLong) => Err(JsonFault::Refused(JsonWhy::TextTooLong)),
        Err(TextFault::Memory) => Err(JsonFault::Memory),
    }
}

/// The primitive that the data is.
#[tactic(auto, using(crate::proofs::Passed::passed_map))]
pub(crate) fn key_in(alloc: Global, value: &Value) -> Result<Key, JsonFault>
    ensures { Gives result (spec.key_from (view value.now)) }
{
    match value {
        Value::Null => Ok(Key::Null),
        Value::Bool(b) => Ok(Key::Bool(*b)),
        Value::Number(number) => Ok(Key::Int(int_in(number)?)),
        Value::String(text) => Ok(Key::Text(text_in(alloc, text.as_str())?)),
        Value::Array(_) => Err(JsonFault::Refused(JsonWhy::BadTag)),
        Value::Object(_) => Err(JsonFault::Refused(JsonWhy::BadTag)),
    }
}

pub(crate) fn is_primitive(value: &Value) -> bool
    ensures { result ≡ spec.is_primitive (view value.now) }
{
    match value {
        Value::Array(_) => false,
        Value::Object(_) => false,
        Value::Null => true,
        Value::Bool(_) => true,
        Value::Number(_) => true,
        Value::String(_) => true,
    }
}

pub(crate) fn are_primitive(items: &[Value]) -> bool
    ensures { result ≡ spec.are_primitive (items_view items.now) }
{
    for item in items {
        if !is_primitive(item) {
            return false;
        }
    }
    true
}

// ---- Sets

/// The Set that the value of a member `$set` is.
fn set_in(alloc: Global, value: &Value) -> Result<Val, JsonFault>
    ensures { Gives result (spec.set_in (view value.now)) }
{
    match value {
        Value::Array(items) => set_of(alloc, items),
        Value::Null | Value::Bool(_) | Value::Number(_) | Value::String(_) | Value::Object(_) => {
            Err(JsonFault::Refused(JsonWhy::BadTag))
        }
    }
}

fn set_of(alloc: Global, items: &[Value]) -> Result<Val, JsonFault>
    ensures { Gives result (spec.set_of (items_view items.now)) }
{
    if !are_primitive(items) {
        return Err(JsonFault::Refused(JsonWhy::BadTag));
    }
    let found = marks_in(alloc, items)?;
    Ok(Val {
        node: ValNode::Set(members_of(alloc, found)?),
    })
}

/// The members, as a table of their own.
fn marks_in(alloc: Global, items: &[Value]) -> Result<BTreeMap<Ranked, ()>, JsonFault>
    ensures { GivesBy (λ m. of_marks m.entries) result (spec.set_members (items_view items.now) []) }
{
    let mut found = BTreeMap::new(alloc);
    for item in items {
        let key = Ranked {
            key: key_in(alloc, item)?,
        };
        if found.insert(key, ())?.is_some() {
            return Err(JsonFault::Refused(JsonWhy::DuplicateKey));
        }
    }
    Ok(found)
}

fn members_of(alloc: Global, found: BTreeMap<Ranked, ()>) -> Result<Vec<Key>, AllocError>
    ensures members { IfOk result (λ ks. map of_member ks.items ≡ of_marks found.entries) }
    ensures sorted { IfOk result (λ ks. IsTrue (is_sorted key_cmp (map of_member ks.items))) }
{
    let mut members = Vec::with_capacity(alloc, found.len())?;
    for (key, _) in found {
        members.push(key.key)?;
    }
    Ok(members)
}

// ---- values

/// The value that the data is, or the first fault of the walk.
#[cycle(walk)]
pub(crate) fn value_in(alloc: Global, value: &Value) -> Result<Val, JsonFault>
    ensures { Gives result (spec.walked (view value.now)) }
{
    match value {
        Value::Null => Ok(Val::primitive(Key::Null)),
        Value::Bool(b) => Ok(Val::primitive(Key::Bool(*b))),
        Value::Number(_) => Ok(Val::primitive(key_in(alloc, value)?)),
        Value::String(_) => Ok(Val::primitive(key_in(alloc, value)?)),
        Value::Array(items) => Ok(Val {
            node: ValNode::List(elements_in(alloc, items)?),
        }),
        Value::Object(members) => object_in(alloc, members),
    }
}

#[cycle(walk)]
fn elements_in(alloc: Global, items: &[Value]) -> Result<Vec<Val>, JsonFault>
    ensures { GivesBy (λ vs. of_items vs.items) result (spec.elements (items_view items.now)) }
{
    let mut out = Vec::with_capacity(alloc, items.len())?;
    for item in items {
        out.push(value_in(alloc, item)?)?;
    }
    Ok(out)
}

/// An object, or what its only member's name says.
#[cycle(walk)]
fn object_in(alloc: Global, members: &Map<String, Value>) -> Result<Val, JsonFault>
    ensures { Gives result (spec.object_in (members_view members.now.entries)) }
{
    if members.len() == 1 {
        if let Some((name, value)) = members.iter().next() {
            return tagged_in(alloc, name.as_str(), value);
        }
    }
    plain_object(alloc, members)
}

#[cycle(walk)]
fn plain_object(alloc: Global, members: &Map<String, Value>) -> Result<Val, JsonFault>
    ensures { Gives result (result_map (node kind.Obj) (spec.fields (members_view members.now.entries))) }
{
    Ok(Val {
        node: ValNode::Obj(fields_in(alloc, members)?),
    })
}

#[cycle(walk)]
fn tagged_in(alloc: Global, name: &str, value: &Value) -> Result<Val, JsonFault>
    ensures { Gives result (spec.object_in (member name.now (view value.now) no_members)) }
{
    if name == "$map" {
        map_in(alloc, value)
    } else if name == "$set" {
        set_in(alloc, value)
    } else if name == "$obj" {
        inner_object_in(alloc, value)
    } else {
        one_field(alloc, name, value)
    }
}

#[cycle(walk)]
fn one_field(alloc: Global, name: &str, value: &Value) -> Result<Val, JsonFault>
    ensures { Gives result (spec.one_field name.now (spec.walked (view value.now))) }
{
    let key = text_in(alloc, name)?;
    let value = value_in(alloc, value)?;
    let mut fields = Vec::with_capacity(alloc, 1)?;
    fields.push(Field { key, value })?;
    Ok(Val {
        node: ValNode::Obj(fields),
    })
}

#[cycle(walk)]
fn inner_object_in(alloc: Global, value: &Value) -> Result<Val, JsonFault>
    ensures { Gives result (spec.inner_object (view value.now)) }
{
    match value {
        Value::Object(members) => plain_object(alloc, members),
        Value::Null | Value::Bool(_) | Value::Number(_) | Value::String(_) | Value::Array(_) => {
            Err(JsonFault::Refused(JsonWhy::BadTag))
        }
    }
}

#[cycle(walk)]
fn fields_in(alloc: Global, members: &Map<String, Value>) -> Result<Vec<Field>, JsonFault>
    ensures given { GivesBy (λ fs. of_fields fs.items) result (spec.fields (members_view members.now.entries)) }
    ensures sorted { IfOk result (λ fs. IsTrue (is_sorted key_cmp (map of_field fs.items))) }
{
    let mut out = Vec::with_capacity(alloc, members.len())?;
    for (name, value) in members {
        let key = text_in(alloc, name.as_str())?;
        let value = value_in(alloc, value)?;
        out.push(Field { key, value })?;
    }
    Ok(out)
}

// ---- Maps

#[cycle(walk)]
fn map_in(alloc: Global, value: &Value) -> Result<Val, JsonFault>
    ensures { Gives result (spec.map_in (view value.now)) }
{
    match value {
        Value::Array(items) => {
            let found = pairs_in(alloc, items)?;
            Ok(Val {
                node: ValNode::Map(entries_of(alloc, found)?),
            })
        }
        Value::Null | Value::Bool(_) | Value::Number(_) | Value::String(_) | Value::Object(_) => {
            Err(JsonFault::Refused(JsonWhy::BadTag))
        }
    }
}

#[cycle(walk)]
fn pairs_in(alloc: Global, items: &[Value]) -> Result<BTreeMap<Ranked, Val>, JsonFault>
    ensures { GivesBy (λ m. of_pairs m.entries) result (spec.map_pairs (items_view items.now) []) }
{
    let mut found = BTreeMap::new(alloc);
    for item in items {
        add_pair(alloc, item, &mut found)?;
    }
    Ok(found)
}

/// The pair goes to those that were found.
#[cycle(walk)]
fn add_pair(alloc: Global, pair: &Value, found: &mut BTreeMap<Ranked, Val>) -> Result<(), JsonFault>
    ensures { GivesBy (λ _. of_pairs found.new.entries) result (spec.map_pair (view pair.now) (of_pairs found.old.entries)) }
{
    match pair {
        Value::Array(items) => add_items(alloc, items, found),
        Value::Null | Value::Bool(_) | Value::Number(_) | Value::String(_) | Value::Object(_) => {
            Err(JsonFault::Refused(JsonWhy::BadTag))
        }
    }
}

#[cycle(walk)]
fn add_items(
    alloc: Global,
    items: &[Value],
    found: &mut BTreeMap<Ranked, Val>,
) -> Result<(), JsonFault>
    ensures { GivesBy (λ _. of_pairs found.new.entries) result (spec.pair_in (items_view items.now) (of_pairs found.old.entries)) }
{
    if items.len() != 2 {
        return Err(JsonFault::Refused(JsonWhy::BadTag));
    }
    add_entry(alloc, &items[1], &items[0], found)
}

#[cycle(walk)]
fn add_entry(
    alloc: Global,
    value: &Value,
    key: &Value,
    found: &mut BTreeMap<Ranked, Val>,
) -> Result<(), JsonFault>
    ensures { GivesBy (λ _. of_pairs found.new.entries) result (spec.with_pair (view key.now) (spec.walked (view value.now)) (of_pairs found.old.entries)) }
{
    let key = new_key(alloc, key, found)?;
    let value = value_in(alloc, value)?;
    found.insert(key, value)?;
    Ok(())
}

/// The key of a pair, where it isn't there yet.
fn new_key(alloc: Global, value: &Value, found: &BTreeMap<Ranked, Val>) -> Result<Ranked, JsonFault>
    ensures { GivesBy (λ r. r.key) result (spec.new_key_from (view value.now) (of_pairs found.now.entries)) }
{
    let key = Ranked {
        key: key_in(alloc, value)?,
    };
    if found.contains_key(&key) {
        Err(JsonFault::Refused(JsonWhy::DuplicateKey))
    } else {
        Ok(key)
    }
}

fn entries_of(alloc: Global, found: BTreeMap<Ranked, Val>) -> Result<Vec<Entry>, AllocError>
    ensures entries { IfOk result (λ es. map of_entry es.items ≡ of_pairs found.entries) }
    ensures sorted { IfOk result (λ es. IsTrue (is_sorted key_cmp (map of_entry es.items))) }
{
    let mut entries = Vec::with_capacity(alloc, found.len())?;
    for (key, value) in found {
        entries.push(Entry {
            key: key.key,
            value,
        })?;
    }
    Ok(entries)
}
