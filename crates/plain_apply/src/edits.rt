//! One patch at the container that its path leads to.
ghost use Rattle.std.specs.Prelude.{◌≡◌, map, IfOk, IsTrue, Ok, Some};
ghost use Rattle.std.specs.FinMap.Entries.{is_sorted};
ghost use Rattle.patch_meaning.specs.Applying as spec;
ghost use Rattle.plain_apply.specs.Gives.{Gives, GivesBy};
ghost use Rattle.value_model.specs.Limits.{is_long_key, is_reserved_text};
ghost use Rattle.value_model.specs.Order.{key_cmp};
ghost use Rattle.value_model.specs.Places.{without_key};
ghost use Rattle.value_model.specs.Plain.{prim};
ghost use Rattle.value_model.specs.declared.op.Op.TheVariants as op;
ghost use Rattle.value_model.specs.declared.key.Key.TheVariants as key_of;
ghost use Rattle.values.specs.Seen.{of_field, of_entry, of_item, of_member};

use crate::fault::EditFault;
use crate::tables::{put_entry, put_field, put_member, remove_entry, remove_field, remove_member};
use std::alloc::Global;
use values::{Entry, Field, Key, Op, PatchWhy, Safe, Text, Val, ValNode};

// ---- objects

pub(crate) fn in_object(
    alloc: Global,
    fields: Vec<Field>,
    op: Op,
    step: &Key,
    value: &Option<Val>,
) -> Result<Vec<Field>, EditFault>
    requires { IsTrue (is_sorted key_cmp (map of_field fields.items)) }
    ensures given { GivesBy (λ fs. map of_field fs.items) result (spec.in_object op step.now value.now (map of_field fields.items)) }
    ensures sorted { IfOk result (λ fs. IsTrue (is_sorted key_cmp (map of_field fs.items))) }
{
    match step {
        Key::Text(name) => at_name(alloc, fields, op, name, value),
        Key::Null | Key::Bool(_) | Key::Int(_) => Err(EditFault::Refused(PatchWhy::BadKey)),
    }
}

fn at_name(
    alloc: Global,
    fields: Vec<Field>,
    op: Op,
    name: &Text,
    value: &Option<Val>,
) -> Result<Vec<Field>, EditFault>
    requires { IsTrue (is_sorted key_cmp (map of_field fields.items)) }
    ensures given { GivesBy (λ fs. map of_field fs.items) result (spec.in_object op (key_of.Text name.now) value.now (map of_field fields.items)) }
    ensures sorted { IfOk result (λ fs. IsTrue (is_sorted key_cmp (map of_field fs.items))) }
{
    if name.is_reserved() {
        return Err(EditFault::Refused(PatchWhy::ReservedKey));
    }
    match op {
        Op::Remove => Ok(field_removed(fields, name)),
        Op::Add | Op::Replace => {
            if name.is_long() {
                return Err(EditFault::Refused(PatchWhy::KeyTooLong));
            }
            match value {
                None => Err(EditFault::Refused(PatchWhy::UndefinedWrite)),
                Some(v) => field_set(alloc, fields, name, v),
            }
        }
    }
}

fn field_removed(mut fields: Vec<Field>, name: &Text) -> Vec<Field>
    requires { IsTrue (is_sorted key_cmp (map of_field fields.items)) }
    ensures given { map of_field result.items ≡ without_key (key_of.Text name.now) (map of_field fields.items) }
    ensures sorted { IsTrue (is_sorted key_cmp (map of_field result.items)) }
{
    remove_field(&mut fields, name);
    fields
}

fn field_set(
    alloc: Global,
    mut fields: Vec<Field>,
    name: &Text,
    value: &Val,
) -> Result<Vec<Field>, EditFault>
    requires { IsTrue (is_sorted key_cmp (map of_field fields.items)) }
    ensures given { GivesBy (λ fs. map of_field fs.items) result (Ok (spec.put_entry (key_of.Text name.now) value.now (map of_field fields.items))) }
    ensures sorted { IfOk result (λ fs. IsTrue (is_sorted key_cmp (map of_field fs.items))) }
{
    let key = name.copy(alloc)?;
    let value = value.copy(alloc)?;
    put_field(&mut fields, key, value)?;
    Ok(fields)
}

// ---- Maps

pub(crate) fn in_map(
    alloc: Global,
    entries: Vec<Entry>,
    op: Op,
    step: &Key,
    value: &Option<Val>,
) -> Result<Vec<Entry>, EditFault>
    requires { IsTrue (is_sorted key_cmp (map of_entry entries.items)) }
    ensures given { GivesBy (λ es. map of_entry es.items) result (spec.in_map op step.now value.now (map of_entry entries.items)) }
    ensures sorted { IfOk result (λ es. IsTrue (is_sorted key_cmp (map of_entry es.items))) }
{
    match op {
        Op::Remove => Ok(entry_removed(entries, step)),
        Op::Add | Op::Replace => {
            if step.is_long() {
                return Err(EditFault::Refused(PatchWhy::KeyTooLong));
            }
            match value {
                None => Err(EditFault::Refused(PatchWhy::UndefinedWrite)),
                Some(v) => entry_set(alloc, entries, step, v),
            }
        }
    }
}

fn entry_removed(mut entries: Vec<Entry>, key: &Key) -> Vec<Entry>
    requires { IsTrue (is_sorted key_cmp (map of_entry entries.items)) }
    ensures given { map of_entry result.items ≡ without_key key.now (map of_entry entries.items) }
    ensures sorted { IsTrue (is_sorted key_cmp (map of_entry result.items)) }
{
    remove_entry(&mut entries, key);
    entries
}

fn entry_set(
    alloc: Global,
    mut entries: Vec<Entry>,
    key: &Key,
    value: &Val,
) -> Result<Vec<Entry>, EditFault>
    requires { IsTrue (is_sorted key_cmp (map of_entry entries.items)) }
    ensures given { GivesBy (λ es. map of_entry es.items) result (Ok (spec.put_entry key.now value.now (map of_entry entries.items))) }
    ensures sorted { IfOk result (λ es. IsTrue (is_sorted key_cmp (map of_entry es.items))) }
{
    let key = key.copy(alloc)?;
    let value = value.copy(alloc)?;
    put_entry(&mut entries, key, value)?;
    Ok(entries)
}

// ---- Sets

pub(crate) fn in_set(
    alloc: Global,
    members: Vec<Key>,
    op: Op,
    value: &Option<Val>,
) -> Result<Vec<Key>, EditFault>
    requires { IsTrue (is_sorted key_cmp (map of_member members.items)) }
    ensures given { GivesBy (λ ks. map of_member ks.items) result (spec.in_set op value.now (map of_member members.items)) }
    ensures sorted { IfOk result (λ ks. IsTrue (is_sorted key_cmp (map of_member ks.items))) }
{
    match op {
        Op::Replace => Err(EditFault::Refused(PatchWhy::SetReplace)),
        Op::Add => match value {
            None => Err(EditFault::Refused(PatchWhy::UndefinedWrite)),
            Some(v) => added(alloc, members, v),
        },
        Op::Remove => match value {
            None => Err(EditFault::Refused(PatchWhy::UndefinedWrite)),
            Some(v) => removed(members, v),
        },
    }
}

fn added(alloc: Global, members: Vec<Key>, value: &Val) -> Result<Vec<Key>, EditFault>
    requires { IsTrue (is_sorted key_cmp (map of_member members.items)) }
    ensures given { GivesBy (λ ks. map of_member ks.items) result (spec.in_set op.Add (Some value.now) (map of_member members.items)) }
    ensures sorted { IfOk result (λ ks. IsTrue (is_sorted key_cmp (map of_member ks.items))) }
{
    match &value.node {
        ValNode::Prim(key) => {
            if key.is_long() {
                Err(EditFault::Refused(PatchWhy::KeyTooLong))
            } else {
                member_added(alloc, members, key)
            }
        }
        ValNode::Obj(_) | ValNode::List(_) | ValNode::Map(_) | ValNode::Set(_) => {
            Err(EditFault::Refused(PatchWhy::BadKey))
        }
    }
}

fn removed(members: Vec<Key>, value: &Val) -> Result<Vec<Key>, EditFault>
    requires { IsTrue (is_sorted key_cmp (map of_member members.items)) }
    ensures given { GivesBy (λ ks. map of_member ks.items) result (spec.in_set op.Remove (Some value.now) (map of_member members.items)) }
    ensures sorted { IfOk result (λ ks. IsTrue (is_sorted key_cmp (map of_member ks.items))) }
{
    match &value.node {
        ValNode::Prim(key) => Ok(member_removed(members, key)),
        ValNode::Obj(_) | ValNode::List(_) | ValNode::Map(_) | ValNode::Set(_) => {
            Err(EditFault::Refused(PatchWhy::BadKey))
        }
    }
}

fn member_removed(mut members: Vec<Key>, key: &Key) -> Vec<Key>
    requires { IsTrue (is_sorted key_cmp (map of_member members.items)) }
    ensures given { map of_member result.items ≡ without_key key.now (map of_member members.items) }
    ensures sorted { IsTrue (is_sorted key_cmp (map of_member result.items)) }
{
    remove_member(&mut members, key);
    members
}

fn member_added(alloc: Global, mut members: Vec<Key>, key: &Key) -> Result<Vec<Key>, EditFault>
    requires { IsTrue (is_sorted key_cmp (map of_member members.items)) }
    ensures given { GivesBy (λ ks. map of_member ks.items) result (Ok (spec.put_entry key.now (prim key.now) (map of_member members.items))) }
    ensures sorted { IfOk result (λ ks. IsTrue (is_sorted key_cmp (map of_member ks.items))) }
{
    let key = key.copy(alloc)?;
    put_member(&mut members, key)?;
    Ok(members)
}
