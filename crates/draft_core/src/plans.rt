//! Which change a refusing call makes.
ghost use Rattle.node_store.specs.Paged.{states};
ghost use Rattle.std.specs.Prelude.{◌≡◌, MatchOption, true, false, length};
ghost use Rattle.value_model.specs.declared.key.Key.TheVariants as key_model;
ghost use Rattle.value_model.specs.declared.kind.Kind.TheVariants as kind;
ghost use Rattle.run_heap.specs.Answers.{Answers};
ghost use Rattle.run_heap.specs.Operations as spec;
ghost use Rattle.run_heap.specs.Operations.{Rows, is_hole, rows_of};
ghost use Rattle.draft_slots.specs.Looks.{looked, IsLook, kind_in};
ghost use Rattle.draft_core.specs.Plans.{put_plan, remove_plan, index_of};

use draft_slots::{Change, Look};
use node_store::{Kind, Store};
use run_heap::{DraftFault, Rv};
use std::alloc::Global;
use value_model::{Key, Safe, Text};

/// The change that sets an entry of a container.
pub fn plan_put<'a>(
    alloc: Global,
    store: &Store,
    look: &Look,
    of: &Rv,
    key: &Key,
    value: Rv,
) -> Result<Change<'a>, DraftFault>
    requires { IsLook (states store.now) look.now }
    ensures { Answers result (put_plan key.now value (spec.is_frozen of.now) (kind_in (looked (states store.now) look.now)) (rows_of (looked (states store.now) look.now))) }
{
    match look.kind(store) {
        Kind::Obj => match key {
            Key::Text(text) => plan_member(alloc, of, key, text, value),
            _ => Err(DraftFault::TypeMismatch),
        },
        Kind::List => match key {
            Key::Int(at) => plan_element(of, *at, look.count(store), value),
            _ => Err(DraftFault::TypeMismatch),
        },
        _ => Err(DraftFault::TypeMismatch),
    }
}

fn plan_member<'a>(
    alloc: Global,
    of: &Rv,
    key: &Key,
    text: &Text,
    value: Rv,
) -> Result<Change<'a>, DraftFault>
    requires { key.now ≡ key_model.Text text.now }
    ensures { (t : Rows) → Answers result (put_plan key.now value (spec.is_frozen of.now) kind.Obj t) }
{
    if of.is_frozen() {
        return Err(DraftFault::Frozen);
    }
    if text.is_reserved() {
        return Err(DraftFault::ReservedKey);
    }
    if text.is_long() {
        return Err(DraftFault::KeyTooLong);
    }
    if value.is_undefined() {
        return Err(DraftFault::UndefinedWrite);
    }
    Ok(Change::Set(key.copy(alloc)?, value))
}

fn plan_element<'a>(of: &Rv, at: Safe, len: usize, value: Rv) -> Result<Change<'a>, DraftFault>
    ensures { (t : Rows) → length t ≡ len → Answers result (put_plan (key_model.Int at) value (spec.is_frozen of.now) kind.List t) }
{
    let frozen = of.is_frozen();
    if frozen {
        return Err(DraftFault::Frozen);
    }
    let Some(i) = index_in(at, len) else {
        return Err(DraftFault::Hole);
    };
    if value.is_undefined() {
        return Err(DraftFault::UndefinedWrite);
    }
    Ok(Change::Element(i, value))
}

/// The index in a list, or the one just behind its end.
fn index_in(at: Safe, len: usize) -> Option<usize>
    ensures { MatchOption result ((t : Rows) → length t ≡ len → is_hole at t ≡ true) (λ i. (index_of at ≡ i) × ((t : Rows) → length t ≡ len → is_hole at t ≡ false)) }
{
    match at.index() {
        Some(i) => {
            if i <= len as u64 {
                Some(i as usize)
            } else {
                None
            }
        }
        None => None,
    }
}

/// Whether an object's entry may be removed.
pub fn plan_remove(store: &Store, look: &Look, of: &Rv, key: &Key) -> Result<(), DraftFault>
    requires { IsLook (states store.now) look.now }
    ensures { result ≡ remove_plan key.now (spec.is_frozen of.now) (kind_in (looked (states store.now) look.now)) }
{
    let Key::Text(text) = key else {
        return Err(DraftFault::TypeMismatch);
    };
    match look.kind(store) {
        Kind::Obj => {}
        _ => return Err(DraftFault::TypeMismatch),
    }
    if of.is_frozen() {
        return Err(DraftFault::Frozen);
    }
    if text.is_reserved() {
        return Err(DraftFault::ReservedKey);
    }
    Ok(())
}
