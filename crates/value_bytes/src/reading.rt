ghost use Rattle.std.specs.Prelude.{None, map};
ghost use Rattle.value_model.specs.declared.kind.Kind.TheVariants as kind;
ghost use Rattle.values.specs.Seen.{of_field, of_entry, of_item, of_member};
ghost use Rattle.value_bytes_spec.specs.Reading.{entry_at, entries_at, node_at, prim_at, value_within, nested_at};
ghost use Rattle.value_bytes.specs.Gives.{Gives};

use crate::fields::{count_of, key_of, kind_of, text_of};
use crate::order::{is_next_entry, is_next_field, is_next_member};
use crate::stop::Stop;
use std::alloc::Global;
use values::{Entry, Field, Key, Kind, Val, ValNode};

/// The value at the front, of at most so many levels of containers.
#[cycle(reading)]
pub(crate) fn nested_of(alloc: Global, levels: u8, bytes: &[u8]) -> Result<(Val, &[u8]), Stop>
    ensures { Gives (λ x. (x.0, x.1.now)) result (nested_at levels bytes.now) }
{
    if levels == 0 {
        prim_of(alloc, bytes)
    } else {
        within(alloc, levels - 1, bytes)
    }
}

#[cycle(reading)]
#[tactic(auto, unfolding(value_bytes_spec::specs::Reading::value_within, value_bytes_spec::specs::Reading::prim_or_node))]
fn within(alloc: Global, inner: u8, bytes: &[u8]) -> Result<(Val, &[u8]), Stop>
    ensures { Gives (λ x. (x.0, x.1.now)) result (value_within (nested_at inner) bytes.now) }
{
    let [first, rest @ ..] = bytes else {
        return Err(Stop::NoSpelling);
    };
    match kind_of(*first) {
        None => prim_of(alloc, bytes),
        Some(kind) => node_of(alloc, kind, inner, rest),
    }
}

#[tactic(auto, unfolding(value_bytes_spec::specs::Reading::prim_at))]
fn prim_of(alloc: Global, bytes: &[u8]) -> Result<(Val, &[u8]), Stop>
    ensures { Gives (λ x. (x.0, x.1.now)) result (prim_at bytes.now) }
{
    let (key, rest) = key_of(alloc, bytes)?;
    Ok((Val::primitive(key), rest))
}

#[cycle(reading)]
#[tactic(auto, unfolding(value_bytes_spec::specs::Reading::node_at))]
fn node_of(alloc: Global, kind: Kind, inner: u8, bytes: &[u8]) -> Result<(Val, &[u8]), Stop>
    ensures { Gives (λ x. (x.0, x.1.now)) result (node_at kind (nested_at inner) bytes.now) }
{
    let (count, rest) = count_of(bytes)?;
    match kind {
        Kind::Obj => {
            let (fields, rest) = fields_of(alloc, inner, count, rest)?;
            let node = ValNode::Obj(fields);
            Ok((Val { node }, rest))
        }
        Kind::List => {
            let (items, rest) = items_of(alloc, inner, count, rest)?;
            let node = ValNode::List(items);
            Ok((Val { node }, rest))
        }
        Kind::Map => {
            let (entries, rest) = entries_of(alloc, inner, count, rest)?;
            let node = ValNode::Map(entries);
            Ok((Val { node }, rest))
        }
        Kind::Set => {
            let (members, rest) = members_of(alloc, inner, count, rest)?;
            let node = ValNode::Set(members);
            Ok((Val { node }, rest))
        }
    }
}

#[cycle(reading)]
fn fields_of(
    alloc: Global,
    inner: u8,
    count: u32,
    bytes: &[u8],
) -> Result<(Vec<Field>, &[u8]), Stop>
    ensures { Gives (λ x. (map of_field x.0.items, x.1.now)) result (entries_at kind.Obj (nested_at inner) count None bytes.now) }
{
    let mut fields = Vec::new(alloc);
    let mut rest = bytes;
    for _ in 0..count {
        let (field, after) = field_of(alloc, inner, rest)?;
        if !is_next_field(&fields, &field.key) {
            return Err(Stop::NoSpelling);
        }
        fields.push(field)?;
        rest = after;
    }
    Ok((fields, rest))
}

#[cycle(reading)]
#[tactic(auto, unfolding(value_bytes_spec::specs::Reading::entry_at))]
fn field_of(alloc: Global, inner: u8, bytes: &[u8]) -> Result<(Field, &[u8]), Stop>
    ensures { Gives (λ x. (of_field x.0, x.1.now)) result (entry_at kind.Obj (nested_at inner) bytes.now) }
{
    let (key, rest) = text_of(alloc, bytes)?;
    let (value, rest) = nested_of(alloc, inner, rest)?;
    Ok((Field { key, value }, rest))
}

#[cycle(reading)]
fn items_of(alloc: Global, inner: u8, count: u32, bytes: &[u8]) -> Result<(Vec<Val>, &[u8]), Stop>
    ensures { Gives (λ x. (map of_item x.0.items, x.1.now)) result (entries_at kind.List (nested_at inner) count None bytes.now) }
{
    let mut items = Vec::new(alloc);
    let mut rest = bytes;
    for _ in 0..count {
        let (item, after) = nested_of(alloc, inner, rest)?;
        items.push(item)?;
        rest = after;
    }
    Ok((items, rest))
}

#[cycle(reading)]
fn entries_of(
    alloc: Global,
    inner: u8,
    count: u32,
    bytes: &[u8],
) -> Result<(Vec<Entry>, &[u8]), Stop>
    ensures { Gives (λ x. (map of_entry x.0.items, x.1.now)) result (entries_at kind.Map (nested_at inner) count None bytes.now) }
{
    let mut entries = Vec::new(alloc);
    let mut rest = bytes;
    for _ in 0..count {
        let (entry, after) = entry_of(alloc, inner, rest)?;
        if !is_next_entry(&entries, &entry.key) {
            return Err(Stop::NoSpelling);
        }
        entries.push(entry)?;
        rest = after;
    }
    Ok((entries, rest))
}

#[cycle(reading)]
#[tactic(auto, unfolding(value_bytes_spec::specs::Reading::entry_at))]
fn entry_of(alloc: Global, inner: u8, bytes: &[u8]) -> Result<(Entry, &[u8]), Stop>
    ensures { Gives (λ x. (of_entry x.0, x.1.now)) result (entry_at kind.Map (nested_at inner) bytes.now) }
{
    let (key, rest) = key_of(alloc, bytes)?;
    let (value, rest) = nested_of(alloc, inner, rest)?;
    Ok((Entry { key, value }, rest))
}

fn members_of(alloc: Global, inner: u8, count: u32, bytes: &[u8]) -> Result<(Vec<Key>, &[u8]), Stop>
    ensures { Gives (λ x. (map of_member x.0.items, x.1.now)) result (entries_at kind.Set (nested_at inner) count None bytes.now) }
{
    let mut members = Vec::new(alloc);
    let mut rest = bytes;
    for _ in 0..count {
        let (member, after) = key_of(alloc, rest)?;
        if !is_next_member(&members, &member) {
            return Err(Stop::NoSpelling);
        }
        members.push(member)?;
        rest = after;
    }
    Ok((members, rest))
}
