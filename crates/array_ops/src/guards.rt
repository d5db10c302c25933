//! What is asked before a list's elements are looked at.
ghost use Rattle.node_store.specs.Paged.{states};
ghost use Rattle.std.specs.Prelude.{◌≡◌, ◌<◌, ◌^◌, ◌↔◌, IsTrue, IfOk, MatchResult, List, Some};
ghost use Rattle.numbered.specs.Tree.{Tree};
ghost use Rattle.value_model.specs.declared.kind.Kind.TheVariants as kind;
ghost use Rattle.std.specs.List.{list_any};
ghost use Rattle.run_heap.specs.Operations as spec;
ghost use Rattle.run_heap.specs.Sound.{Owned};
ghost use Rattle.draft_core.specs.Seen.{heap, Stands};
ghost use Rattle.array_ops_spec.specs.Guards.{IsListed, IsReadable, IsUnlisted, IsWritable, readable as may_read, writable as may_write};

use draft_core::{DraftFault, Kind, Rv, Scope, Store};

/// The length of a list that is to be read, or why it can't be: `Revoked`, `TypeMismatch`.
pub(crate) fn readable(
    scope: &Scope,
    store: &Store,
    of: &Rv,
    others: &[Rv],
) -> Result<usize, DraftFault>
    requires stands { Stands (states store.now) scope.now }
    requires owned { Owned (heap (states store.now) scope.now) of.now }
    ensures answer { MatchResult result (λ n. IsReadable (heap (states store.now) scope.now) of.now others.now n) (λ e. may_read (heap (states store.now) scope.now) of.now others.now ≡ Err e) }
    ensures small { IfOk result (λ n. n < 2 ^ 63) }
{
    listed(scope, store, of, others)?;
    Ok(scope.count(store, of))
}

/// The length of a list that is to be written, or why it can't be: `Revoked`, `TypeMismatch`, `Frozen`.
pub(crate) fn writable(
    scope: &Scope,
    store: &Store,
    of: &Rv,
    others: &[Rv],
) -> Result<usize, DraftFault>
    requires stands { Stands (states store.now) scope.now }
    requires owned { Owned (heap (states store.now) scope.now) of.now }
    ensures answer { MatchResult result (λ n. IsWritable (heap (states store.now) scope.now) of.now others.now n) (λ e. may_write (heap (states store.now) scope.now) of.now others.now ≡ Err e) }
    ensures small { IfOk result (λ n. n < 2 ^ 63) }
{
    listed(scope, store, of, others)?;
    if of.is_frozen() {
        return Err(DraftFault::Frozen);
    }
    Ok(scope.count(store, of))
}

/// Whether the argument is a list, and no argument one of another scope.
fn listed(scope: &Scope, store: &Store, of: &Rv, others: &[Rv]) -> Result<(), DraftFault>
    requires stands { Stands (states store.now) scope.now }
    requires owned { Owned (heap (states store.now) scope.now) of.now }
    ensures { MatchResult result (λ _. IsListed (heap (states store.now) scope.now) of.now others.now) (λ e. IsUnlisted (heap (states store.now) scope.now) of.now others.now e) }
{
    if !scope.owns(of) || any_foreign(scope, others) {
        return Err(DraftFault::Revoked);
    }
    if is_list(scope.kind_of(store, of)) {
        Ok(())
    } else {
        Err(DraftFault::TypeMismatch)
    }
}

/// Whether one of the values is a reference of another scope.
fn any_foreign(scope: &Scope, values: &[Rv]) -> bool
    ensures { (ts : List Tree) → result ≡ spec.any_foreign (heap ts scope.now) values.now }
{
    for value in values {
        if !scope.owns(value) {
            return true;
        }
    }
    false
}

/// Whether one of the values is undefined.
pub(crate) fn any_undefined(values: &[Rv]) -> bool
    ensures { result ≡ list_any spec.is_undefined values.now }
{
    for value in values {
        if value.is_undefined() {
            return true;
        }
    }
    false
}

fn is_list(found: Option<Kind>) -> bool
    ensures { IsTrue result ↔ (found ≡ Some kind.List) }
{
    match found {
        Some(Kind::List) => true,
        _ => false,
    }
}
