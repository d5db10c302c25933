//! One patch, from the root on.
ghost use Rattle.std.specs.Prelude.{◌≡◌, [], ◌∷◌, ◌<◌, ◌+◌, map, length, IsTrue, pos};
ghost use Rattle.std.proofs.Common.{drop};
ghost use Rattle.std.specs.FinMap.Entries.{is_sorted};
ghost use Rattle.patch_meaning.specs.Applying as spec;
ghost use Rattle.plain_apply.specs.Down.{below};
ghost use Rattle.plain_apply.specs.Gives.{Gives};
ghost use Rattle.value_model.specs.Order.{key_cmp};
ghost use Rattle.value_model.specs.declared.key.Key.TheVariants as key_of;
ghost use Rattle.value_model.specs.declared.kind.Kind.TheVariants as kind;
ghost use Rattle.values.specs.Seen.{of_field, of_entry, of_item};

use crate::edits::{in_map, in_object, in_set};
use crate::fault::EditFault;
use crate::lists::in_list;
use std::alloc::Global;
use value_checks::{entry_place, field_place};
use values::{Entry, Field, Key, Op, PatchWhy, Text, Val, ValNode};

/// The container with the patch at its step made.
#[tactic(auto, using(value_model::proofs::Steps::list_of_entries))]
fn edited(
    alloc: Global,
    here: Val,
    op: Op,
    step: &Key,
    value: &Option<Val>,
) -> Result<Val, EditFault>
    ensures { Gives result (spec.patched op value.now (step.now ∷ []) here) }
{
    match here.node {
        ValNode::Prim(_) => Err(EditFault::Refused(PatchWhy::NoPath)),
        ValNode::Obj(fields) => Ok(Val {
            node: ValNode::Obj(in_object(alloc, fields, op, step, value)?),
        }),
        ValNode::List(items) => Ok(Val {
            node: ValNode::List(in_list(alloc, items, op, step, value)?),
        }),
        ValNode::Map(entries) => Ok(Val {
            node: ValNode::Map(in_map(alloc, entries, op, step, value)?),
        }),
        ValNode::Set(members) => Ok(Val {
            node: ValNode::Set(in_set(alloc, members, op, value)?),
        }),
    }
}

/// The value with the patch made at the steps of its path from `at` on.
#[cycle(patched)]
pub(crate) fn patched(
    alloc: Global,
    here: Val,
    op: Op,
    value: &Option<Val>,
    path: &[Key],
    at: usize,
) -> Result<Val, EditFault>
    ensures { Gives result (spec.patched op value.now (drop at path.now) here) }
{
    if at >= path.len() {
        return Err(EditFault::Refused(PatchWhy::NoPath));
    }
    if at + 1 == path.len() {
        edited(alloc, here, op, &path[at], value)
    } else {
        inside(alloc, here, op, value, path, at)
    }
}

/// The value with the patch made below it.
#[cycle(patched)]
fn inside(
    alloc: Global,
    here: Val,
    op: Op,
    value: &Option<Val>,
    path: &[Key],
    at: usize,
) -> Result<Val, EditFault>
    requires { at + 1 < length path.now }
    ensures { Gives result (spec.patched op value.now (drop at path.now) here) }
{
    let step = &path[at];
    let next = at + 1;
    match here.node {
        ValNode::Prim(_) => Err(EditFault::Refused(PatchWhy::NoPath)),
        ValNode::Set(_) => Err(EditFault::Refused(PatchWhy::NoPath)),
        ValNode::Obj(fields) => inside_object(alloc, fields, step, op, value, path, next),
        ValNode::List(items) => inside_list(alloc, items, step, op, value, path, next),
        ValNode::Map(entries) => inside_map(alloc, entries, step, op, value, path, next),
    }
}

#[cycle(patched)]
fn inside_object(
    alloc: Global,
    fields: Vec<Field>,
    step: &Key,
    op: Op,
    value: &Option<Val>,
    path: &[Key],
    next: usize,
) -> Result<Val, EditFault>
    requires { IsTrue (is_sorted key_cmp (map of_field fields.items)) }
    ensures { Gives result (below kind.Obj op value.now step.now (drop next path.now) (map of_field fields.items)) }
{
    match step {
        Key::Text(name) => inside_field(alloc, fields, name, op, value, path, next),
        _ => Err(EditFault::Refused(PatchWhy::NoPath)),
    }
}

#[cycle(patched)]
fn inside_field(
    alloc: Global,
    mut fields: Vec<Field>,
    name: &Text,
    op: Op,
    value: &Option<Val>,
    path: &[Key],
    next: usize,
) -> Result<Val, EditFault>
    requires { IsTrue (is_sorted key_cmp (map of_field fields.items)) }
    ensures { Gives result (below kind.Obj op value.now (key_of.Text name.now) (drop next path.now) (map of_field fields.items)) }
{
    if name.is_reserved() {
        return Err(EditFault::Refused(PatchWhy::ReservedKey));
    }
    let Ok(i) = field_place(&fields, name) else {
        return Err(EditFault::Refused(PatchWhy::NoPath));
    };
    let Field { key, value: child } = fields.remove(i);
    match patched(alloc, child, op, value, path, next) {
        Ok(value) => {
            fields.insert(i, Field { key, value })?;
            Ok(Val {
                node: ValNode::Obj(fields),
            })
        }
        Err(fault) => Err(fault),
    }
}

#[cycle(patched)]
fn inside_map(
    alloc: Global,
    mut entries: Vec<Entry>,
    step: &Key,
    op: Op,
    value: &Option<Val>,
    path: &[Key],
    next: usize,
) -> Result<Val, EditFault>
    requires { IsTrue (is_sorted key_cmp (map of_entry entries.items)) }
    ensures { Gives result (below kind.Map op value.now step.now (drop next path.now) (map of_entry entries.items)) }
{
    let Ok(i) = entry_place(&entries, step) else {
        return Err(EditFault::Refused(PatchWhy::NoPath));
    };
    let Entry { key, value: child } = entries.remove(i);
    match patched(alloc, child, op, value, path, next) {
        Ok(value) => {
            entries.insert(i, Entry { key, value })?;
            Ok(Val {
                node: ValNode::Map(entries),
            })
        }
        Err(fault) => Err(fault),
    }
}

#[cycle(patched)]
fn inside_list(
    alloc: Global,
    items: Vec<Val>,
    step: &Key,
    op: Op,
    value: &Option<Val>,
    path: &[Key],
    next: usize,
) -> Result<Val, EditFault>
    ensures { Gives result (below kind.List op value.now step.now (drop next path.now) (map of_item items.items)) }
{
    match step {
        Key::Int(n) => match n.index() {
            Some(i) => inside_item(alloc, items, i, op, value, path, next),
            None => Err(EditFault::Refused(PatchWhy::NoPath)),
        },
        Key::Null | Key::Bool(_) | Key::Text(_) => Err(EditFault::Refused(PatchWhy::NoPath)),
    }
}

#[cycle(patched)]
fn inside_item(
    alloc: Global,
    mut items: Vec<Val>,
    i: u64,
    op: Op,
    value: &Option<Val>,
    path: &[Key],
    next: usize,
) -> Result<Val, EditFault>
    ensures { Gives result (below kind.List op value.now (key_of.Int (pos i)) (drop next path.now) (map of_item items.items)) }
{
    if i >= items.len() as u64 {
        return Err(EditFault::Refused(PatchWhy::NoPath));
    }
    let child = items.remove(i as usize);
    match patched(alloc, child, op, value, path, next) {
        Ok(value) => {
            items.insert(i as usize, value)?;
            Ok(Val {
                node: ValNode::List(items),
            })
        }
        Err(fault) => Err(fault),
    }
}
