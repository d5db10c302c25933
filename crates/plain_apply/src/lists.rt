//! One patch at a list.
ghost use Rattle.std.specs.Prelude.{◌≤◌, ◌+◌, map, length, Ok, pos, ◌++◌, ◌∷◌, []};
ghost use Rattle.std.proofs.Common.{take, drop};
ghost use Rattle.std.specs.List.{insert};
ghost use Rattle.patch_meaning.specs.Applying as spec;
ghost use Rattle.plain_apply.specs.Gives.{GivesBy};
ghost use Rattle.value_model.specs.declared.key.Key.TheVariants as key_of;
ghost use Rattle.value_model.specs.Plain.{prim};
ghost use Rattle.values.specs.Seen.{of_item};

use crate::fault::EditFault;
use std::alloc::Global;
use values::{Key, Op, PatchWhy, Safe, Text, Val, ValNode};

pub(crate) fn in_list(
    alloc: Global,
    items: Vec<Val>,
    op: Op,
    step: &Key,
    value: &Option<Val>,
) -> Result<Vec<Val>, EditFault>
    ensures { GivesBy (λ vs. map of_item vs.items) result (spec.in_list op step.now value.now (map of_item items.items)) }
{
    match step {
        Key::Int(n) => at_index(alloc, items, op, *n, value),
        Key::Text(word) => at_word(alloc, items, op, word, value),
        Key::Null | Key::Bool(_) => Err(EditFault::Refused(PatchWhy::BadKey)),
    }
}

fn at_index(
    alloc: Global,
    items: Vec<Val>,
    op: Op,
    n: Safe,
    value: &Option<Val>,
) -> Result<Vec<Val>, EditFault>
    ensures { GivesBy (λ vs. map of_item vs.items) result (spec.in_list op (key_of.Int n) value.now (map of_item items.items)) }
{
    match op {
        Op::Add => match n.index() {
            Some(i) => inserted(alloc, items, i, value),
            None => Err(EditFault::Refused(PatchWhy::Hole)),
        },
        Op::Replace => match n.index() {
            Some(i) => written(alloc, items, i, value),
            None => Err(EditFault::Refused(PatchWhy::Hole)),
        },
        Op::Remove => match n.index() {
            Some(i) => taken_out(items, i),
            None => Err(EditFault::Refused(PatchWhy::NoPath)),
        },
    }
}

fn at_word(
    alloc: Global,
    items: Vec<Val>,
    op: Op,
    word: &Text,
    value: &Option<Val>,
) -> Result<Vec<Val>, EditFault>
    ensures { GivesBy (λ vs. map of_item vs.items) result (spec.in_list op (key_of.Text word.now) value.now (map of_item items.items)) }
{
    match op {
        Op::Add => {
            if word.as_str() == "-" {
                match value {
                    None => Err(EditFault::Refused(PatchWhy::UndefinedWrite)),
                    Some(v) => appended(alloc, items, v),
                }
            } else {
                Err(EditFault::Refused(PatchWhy::BadKey))
            }
        }
        Op::Replace => {
            if word.as_str() == "length" {
                match value {
                    None => Err(EditFault::Refused(PatchWhy::UndefinedWrite)),
                    Some(v) => cut_to(items, v),
                }
            } else {
                Err(EditFault::Refused(PatchWhy::BadKey))
            }
        }
        Op::Remove => Err(EditFault::Refused(PatchWhy::BadKey)),
    }
}

fn inserted(
    alloc: Global,
    items: Vec<Val>,
    i: u64,
    value: &Option<Val>,
) -> Result<Vec<Val>, EditFault>
    ensures { GivesBy (λ vs. map of_item vs.items) result (spec.insert_at (pos i) value.now (map of_item items.items)) }
{
    if i > items.len() as u64 {
        return Err(EditFault::Refused(PatchWhy::Hole));
    }
    match value {
        None => Err(EditFault::Refused(PatchWhy::UndefinedWrite)),
        Some(v) => insert_item(alloc, items, i as usize, v),
    }
}

#[tactic(auto, using(crate::proofs::Items::insert_items))]
fn insert_item(
    alloc: Global,
    mut items: Vec<Val>,
    i: usize,
    value: &Val,
) -> Result<Vec<Val>, EditFault>
    requires { i ≤ length items.items }
    ensures { GivesBy (λ vs. map of_item vs.items) result (Ok (insert (map of_item items.items) i (spec.element value.now))) }
{
    let value = value.copy(alloc)?;
    items.insert(i, value)?;
    Ok(items)
}

fn written(
    alloc: Global,
    items: Vec<Val>,
    i: u64,
    value: &Option<Val>,
) -> Result<Vec<Val>, EditFault>
    ensures { GivesBy (λ vs. map of_item vs.items) result (spec.set_at (pos i) value.now (map of_item items.items)) }
{
    if i > items.len() as u64 {
        return Err(EditFault::Refused(PatchWhy::Hole));
    }
    match value {
        None => Err(EditFault::Refused(PatchWhy::UndefinedWrite)),
        Some(v) => write_item(alloc, items, i as usize, v),
    }
}

/// At the index behind the last the element is appended.
#[tactic(auto, using(crate::proofs::Items::set_items, crate::proofs::Items::push_items))]
fn write_item(
    alloc: Global,
    mut items: Vec<Val>,
    i: usize,
    value: &Val,
) -> Result<Vec<Val>, EditFault>
    requires { i ≤ length items.items }
    ensures { GivesBy (λ vs. map of_item vs.items) result (Ok (take i (map of_item items.items) ++ spec.element value.now ∷ drop (i + 1) (map of_item items.items))) }
{
    let value = value.copy(alloc)?;
    if i < items.len() {
        items[i] = value;
    } else {
        items.push(value)?;
    }
    Ok(items)
}

#[tactic(auto, using(crate::proofs::Items::remove_items))]
fn taken_out(mut items: Vec<Val>, i: u64) -> Result<Vec<Val>, EditFault>
    ensures { GivesBy (λ vs. map of_item vs.items) result (spec.take_out (pos i) (map of_item items.items)) }
{
    if i >= items.len() as u64 {
        return Err(EditFault::Refused(PatchWhy::NoPath));
    }
    let _ = items.remove(i as usize);
    Ok(items)
}

#[tactic(auto, using(crate::proofs::Items::append_items))]
fn appended(alloc: Global, mut items: Vec<Val>, value: &Val) -> Result<Vec<Val>, EditFault>
    ensures { GivesBy (λ vs. map of_item vs.items) result (Ok (map of_item items.items ++ spec.element value.now ∷ [])) }
{
    items.push(value.copy(alloc)?)?;
    Ok(items)
}

/// The list cut to the length that the value is.
fn cut_to(items: Vec<Val>, value: &Val) -> Result<Vec<Val>, EditFault>
    ensures { GivesBy (λ vs. map of_item vs.items) result (spec.cut_to (map of_item items.items) value.now) }
{
    match &value.node {
        ValNode::Prim(key) => cut_at(items, key),
        ValNode::Obj(_) | ValNode::List(_) | ValNode::Map(_) | ValNode::Set(_) => {
            Err(EditFault::Refused(PatchWhy::BadKey))
        }
    }
}

fn cut_at(items: Vec<Val>, key: &Key) -> Result<Vec<Val>, EditFault>
    ensures { GivesBy (λ vs. map of_item vs.items) result (spec.cut_to (map of_item items.items) (prim key.now)) }
{
    match key {
        Key::Int(n) => match n.index() {
            Some(i) => cut(items, i),
            None => Err(EditFault::Refused(PatchWhy::BadKey)),
        },
        Key::Null | Key::Bool(_) | Key::Text(_) => Err(EditFault::Refused(PatchWhy::BadKey)),
    }
}

#[tactic(auto, using(crate::proofs::Items::take_items))]
fn cut(mut items: Vec<Val>, i: u64) -> Result<Vec<Val>, EditFault>
    ensures { GivesBy (λ vs. map of_item vs.items) result (spec.cut_to (map of_item items.items) (prim (key_of.Int (pos i)))) }
{
    if i > items.len() as u64 {
        return Err(EditFault::Refused(PatchWhy::Hole));
    }
    items.truncate(i as usize);
    Ok(items)
}
