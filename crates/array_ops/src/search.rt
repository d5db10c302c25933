//! Calls that look for a value in a list.
ghost use Rattle.node_store.specs.Paged.{states};
ghost use Rattle.std.specs.Prelude.{◌≡◌, ◌<◌, ◌^◌, [], ◌∷◌, length, IfSome};
ghost use Rattle.std.specs.List.{position};
ghost use Rattle.run_heap.specs.Operations.{table_of};
ghost use Rattle.run_heap.specs.Sound.{IsContainer, Owned};
ghost use Rattle.run_heap.specs.Values.{same};
ghost use Rattle.draft_core.specs.Seen.{heap, Stands};
ghost use Rattle.array_ops_spec.specs.Calls as spec;
ghost use Rattle.array_ops_spec.specs.Guards.{elements_of};

use crate::guards::readable;
use draft_core::{DraftFault, Rv, Scope, Store};
use std::alloc::Global;
use std::slice;

/// The index of the first element that is the same as the item, or -1 where there is none. `TypeMismatch` for another operand.
/// `Revoked` where an operand is a reference of another scope. It takes no memory.
pub fn index_of(
    _alloc: Global,
    scope: &mut Scope,
    store: &Store,
    of: &Rv,
    item: &Rv,
) -> Result<i64, DraftFault>
    requires stands { Stands (states store.now) scope.old }
    requires owned { Owned (heap (states store.now) scope.old) of.now }
    ensures answer { result ≡ spec.index_of item.now (heap (states store.now) scope.old) of.now }
    ensures same { scope.new ≡ scope.old }
{
    let len = readable(scope, store, of, slice::from_ref(item))?;
    match find(scope, store, of, item, len) {
        Some(i) => Ok(i as i64),
        None => Ok(-1),
    }
}

/// Whether an element is the same as the item. `TypeMismatch` for another operand.
/// `Revoked` where an operand is a reference of another scope. It takes no memory.
pub fn includes(
    _alloc: Global,
    scope: &mut Scope,
    store: &Store,
    of: &Rv,
    item: &Rv,
) -> Result<bool, DraftFault>
    requires stands { Stands (states store.now) scope.old }
    requires owned { Owned (heap (states store.now) scope.old) of.now }
    ensures answer { result ≡ spec.includes item.now (heap (states store.now) scope.old) of.now }
    ensures same { scope.new ≡ scope.old }
{
    let len = readable(scope, store, of, slice::from_ref(item))?;
    Ok(find(scope, store, of, item, len).is_some())
}

/// The index of the first of a list's elements that is the same as the item.
fn find(scope: &Scope, store: &Store, of: &Rv, item: &Rv, len: usize) -> Option<usize>
    requires stands { Stands (states store.now) scope.now }
    requires container { IsContainer (heap (states store.now) scope.now) of.now }
    requires long { len ≡ length (table_of (heap (states store.now) scope.now) of.now) }
    ensures index { result ≡ position (λ x. same x item.now) (elements_of (heap (states store.now) scope.now) of.now) }
    ensures below { IfSome result (λ i. i < len) }
{
    for i in 0..len {
        if scope.same_at(store, of, i, item) {
            return Some(i);
        }
    }
    None
}
