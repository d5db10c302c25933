//! The refusals of the calls, in their order.
ghost use Rattle.node_store.specs.Paged.{states};
ghost use Rattle.std.specs.Prelude.{◌≡◌, [], ◌∷◌, false};
ghost use Rattle.run_heap.specs.Heap.{is_foreign};
ghost use Rattle.run_heap.specs.Operations as spec;
ghost use Rattle.run_heap.specs.Sound.{Owned};
ghost use Rattle.draft_map_set_spec.specs.MapSet as meaning;
ghost use Rattle.draft_core.specs.Seen.{heap, Stands};
ghost use Rattle.draft_map_set.specs.Checks.{checked, taken, kind_causes, read_causes, write_causes, entry_causes, setting_causes, adding_causes};

use draft_core::{DraftFault, Kind, Rv, Scope, Store};

/// The containers that a call takes.
#[derive(Clone, Copy, Drop)]
pub(crate) enum Takes {
    Maps,
    Sets,
    Both,
}

impl Takes {
    fn kind(self, kind: Kind) -> bool
        ensures { result ≡ taken self kind }
    {
        match self {
            Takes::Maps => kind.is_map(),
            Takes::Sets => kind.is_set(),
            Takes::Both => kind.is_map() | kind.is_set(),
        }
    }
}

/// Of a call that reads: `Revoked`, `TypeMismatch`.
pub(crate) fn check_read(
    scope: &Scope,
    store: &Store,
    of: &Rv,
    takes: Takes,
) -> Result<(), DraftFault>
    requires stands { Stands (states store.now) scope.now }
    requires owned { Owned (heap (states store.now) scope.now) of.now }
    ensures { result ≡ checked (read_causes (taken takes) (heap (states store.now) scope.now) of.now []) }
{
    if !scope.owns(of) {
        return Err(DraftFault::Revoked);
    }
    check_kind(scope, store, of, takes)
}

/// Of a call that reads by a key.
pub(crate) fn check_read_by(
    scope: &Scope,
    store: &Store,
    of: &Rv,
    key: &Rv,
    takes: Takes,
) -> Result<(), DraftFault>
    requires stands { Stands (states store.now) scope.now }
    requires owned { Owned (heap (states store.now) scope.now) of.now }
    ensures { result ≡ checked (read_causes (taken takes) (heap (states store.now) scope.now) of.now (key.now ∷ [])) }
{
    if !scope.owns(key) {
        return Err(DraftFault::Revoked);
    }
    check_read(scope, store, of, takes)
}

/// Of a call that writes: `Revoked`, `TypeMismatch`, `Frozen`.
pub(crate) fn check_write(
    scope: &Scope,
    store: &Store,
    of: &Rv,
    takes: Takes,
) -> Result<(), DraftFault>
    requires stands { Stands (states store.now) scope.now }
    requires owned { Owned (heap (states store.now) scope.now) of.now }
    ensures { result ≡ checked (write_causes (taken takes) (heap (states store.now) scope.now) of.now []) }
{
    check_read(scope, store, of, takes)?;
    if of.is_frozen() {
        return Err(DraftFault::Frozen);
    }
    Ok(())
}

/// Of a call that writes by a key.
pub(crate) fn check_write_by(
    scope: &Scope,
    store: &Store,
    of: &Rv,
    key: &Rv,
    takes: Takes,
) -> Result<(), DraftFault>
    requires stands { Stands (states store.now) scope.now }
    requires owned { Owned (heap (states store.now) scope.now) of.now }
    ensures { result ≡ checked (write_causes (taken takes) (heap (states store.now) scope.now) of.now (key.now ∷ [])) }
{
    if !scope.owns(key) {
        return Err(DraftFault::Revoked);
    }
    check_write(scope, store, of, takes)
}

/// Of `set_add`: `Revoked`, `TypeMismatch`, `Frozen`, `KeyTooLong`.
pub(crate) fn check_adding(
    scope: &Scope,
    store: &Store,
    of: &Rv,
    member: &Rv,
) -> Result<(), DraftFault>
    requires stands { Stands (states store.now) scope.now }
    requires owned { Owned (heap (states store.now) scope.now) of.now }
    ensures { result ≡ checked (adding_causes (heap (states store.now) scope.now) of.now member.now) }
{
    check_write_by(scope, store, of, member, Takes::Sets)?;
    if is_long(member) {
        return Err(DraftFault::KeyTooLong);
    }
    Ok(())
}

/// Of `map_set`: `Revoked`, `TypeMismatch`, `Frozen`, `KeyTooLong`, `UndefinedWrite`.
pub(crate) fn check_setting(
    scope: &Scope,
    store: &Store,
    of: &Rv,
    key: &Rv,
    value: &Rv,
) -> Result<(), DraftFault>
    requires stands { Stands (states store.now) scope.now }
    requires owned { Owned (heap (states store.now) scope.now) of.now }
    ensures { result ≡ checked (setting_causes (heap (states store.now) scope.now) of.now key.now value.now) }
{
    if !scope.owns(value) {
        return Err(DraftFault::Revoked);
    }
    check_write_by(scope, store, of, key, Takes::Maps)?;
    check_entry(key, value)
}

/// `KeyTooLong`, `UndefinedWrite`.
fn check_entry(key: &Rv, value: &Rv) -> Result<(), DraftFault>
    ensures { result ≡ checked (entry_causes key.now value.now) }
{
    if is_long(key) {
        return Err(DraftFault::KeyTooLong);
    }
    if value.is_undefined() {
        return Err(DraftFault::UndefinedWrite);
    }
    Ok(())
}

/// `TypeMismatch`.
fn check_kind(scope: &Scope, store: &Store, of: &Rv, takes: Takes) -> Result<(), DraftFault>
    requires stands { Stands (states store.now) scope.now }
    requires owned { Owned (heap (states store.now) scope.now) of.now }
    requires ours { is_foreign (heap (states store.now) scope.now) of.now ≡ false }
    ensures { result ≡ checked (kind_causes (taken takes) (heap (states store.now) scope.now) of.now) }
{
    match scope.kind_of(store, of) {
        Some(kind) => {
            if takes.kind(kind) {
                Ok(())
            } else {
                Err(DraftFault::TypeMismatch)
            }
        }
        None => Err(DraftFault::TypeMismatch),
    }
}

fn is_long(v: &Rv) -> bool
    ensures { result ≡ meaning.is_long v.now }
{
    match v {
        Rv::Prim(key) => key.is_long(),
        _ => false,
    }
}
