//! Patches applied to the root draft of a flat state.
ghost use Rattle.node_store.specs.Paged.{states};
ghost use Rattle.std.specs.Prelude.{◌≡◌, ◌∷◌, [], Some, None, MatchOption, IsTrue, OnOk, false};
ghost use Rattle.value_model.specs.declared.op.Op.TheVariants as op;
ghost use Rattle.patch_meaning.specs.Applying.{in_object};
ghost use Rattle.host_machine.specs.Flat.{is_integer, is_text_key, is_flat_path, is_flat_patch, are_flat};
ghost use Rattle.host_engine.specs.Drafts.{IsFlatScope, entries_in, root_in};
ghost use Rattle.host_engine.specs.Edits.{Edits, EditsState, EditsAll, MayStop, is_number, stop_of};
ghost use Rattle.host_engine.specs.Kept.{number_of};

use crate::fields::number_of_key;
use draft_core::{DraftFault, Rv, Scope, Store};
use plain_values::{Key, Patch, PatchWhy, Safe, Val, ValNode};
use std::alloc::Global;

/// Why an edit was not made.
#[derive(Clone, Copy, Debug, Drop, PartialEq, Eq)]
pub enum EditFault {
    Refused(PatchWhy),
    Memory,
}

/// Why a list of patches was not applied: the position of the patch, and why.
#[derive(Clone, Copy, Debug, Drop, PartialEq, Eq)]
pub enum EditStop {
    At { at: u64, why: PatchWhy },
    Memory,
}

/// Applies the patches to the root draft one after another. It is then marked where one of them changed it when it was applied.
pub fn edit_all(
    alloc: Global,
    store: &Store,
    scope: &mut Scope,
    patches: &[Patch],
) -> Result<(), EditStop>
    requires scope { IsFlatScope (states store.now) scope.old }
    requires patches { IsTrue (are_flat patches.now) }
    ensures edits { EditsAll (root_in (states store.now) scope.old) (root_in (states store.now) scope.new) patches.now result }
    ensures scope { OnOk result (IsFlatScope (states store.now) scope.new) }
{
    for (i, patch) in patches.iter().enumerate() {
        match edit(alloc, store, scope, patch) {
            Ok(()) => {}
            Err(EditFault::Refused(why)) => return Err(EditStop::At { at: i as u64, why }),
            Err(EditFault::Memory) => return Err(EditStop::Memory),
        }
    }
    Ok(())
}

/// Applies one patch.
fn edit(alloc: Global, store: &Store, scope: &mut Scope, patch: &Patch) -> Result<(), EditFault>
    requires scope { IsFlatScope (states store.now) scope.old }
    requires patch { IsTrue (is_flat_patch patch.now) }
    ensures edits { EditsState (root_in (states store.now) scope.old) (root_in (states store.now) scope.new) patch.now.op patch.now.value patch.now.path result }
    ensures scope { OnOk result (IsFlatScope (states store.now) scope.new) }
{
    let Some(key) = step_in(patch) else {
        unreachable!()
    };
    match number_in(patch) {
        Some(number) => set_entry(alloc, store, scope, key, number),
        None => unset_entry(alloc, store, scope, key),
    }
}

/// The one step of the path.
fn step_in(patch: &Patch) -> Option<&Key>
    ensures { MatchOption result (is_flat_path patch.now.path ≡ false) (λ k. patch.now.path ≡ k.now ∷ []) }
{
    let steps = patch.path.as_slice();
    if steps.len() == 1 {
        Some(&steps[0])
    } else {
        None
    }
}

/// The integer that the patch sets.
fn number_in(patch: &Patch) -> Option<Safe>
    ensures { MatchOption result (is_number patch.now.value ≡ false) (λ n. patch.now.value ≡ Some (number_of n)) }
{
    match &patch.value {
        Some(value) => integer_in(value),
        None => None,
    }
}

/// The integer that a value is.
fn integer_in(value: &Val) -> Option<Safe>
    ensures { MatchOption result (is_integer value.now ≡ false) (λ n. value.now ≡ number_of n) }
{
    match &value.node {
        ValNode::Prim(key) => number_of_key(key),
        _ => None,
    }
}

fn set_entry(
    alloc: Global,
    store: &Store,
    scope: &mut Scope,
    key: &Key,
    number: Safe,
) -> Result<(), EditFault>
    requires scope { IsFlatScope (states store.now) scope.old }
    requires text { IsTrue (is_text_key key.now) }
    ensures edits { Edits (root_in (states store.now) scope.old) (root_in (states store.now) scope.new) (in_object op.Add key.now (Some (number_of number)) (entries_in (root_in (states store.now) scope.old))) result }
    ensures scope { OnOk result (IsFlatScope (states store.now) scope.new) }
{
    let root = scope.root();
    match scope.put(alloc, store, &root, key, Rv::Prim(Key::Int(number))) {
        Ok(()) => Ok(()),
        Err(fault) => Err(stopped(fault)),
    }
}

fn unset_entry(alloc: Global, store: &Store, scope: &mut Scope, key: &Key) -> Result<(), EditFault>
    requires scope { IsFlatScope (states store.now) scope.old }
    requires text { IsTrue (is_text_key key.now) }
    ensures edits { Edits (root_in (states store.now) scope.old) (root_in (states store.now) scope.new) (in_object op.Remove key.now None (entries_in (root_in (states store.now) scope.old))) result }
    ensures scope { OnOk result (IsFlatScope (states store.now) scope.new) }
{
    let root = scope.root();
    match scope.remove(alloc, store, &root, key) {
        Ok(()) => Ok(()),
        Err(fault) => Err(stopped(fault)),
    }
}

/// The refusal of a patch by that of the root draft.
fn stopped(fault: DraftFault) -> EditFault
    requires { MayStop fault }
    ensures { result ≡ stop_of fault }
{
    match fault {
        DraftFault::ReservedKey => EditFault::Refused(PatchWhy::ReservedKey),
        DraftFault::KeyTooLong => EditFault::Refused(PatchWhy::KeyTooLong),
        DraftFault::Memory => EditFault::Memory,
        _ => unreachable!(),
    }
}
