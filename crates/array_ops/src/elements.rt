//! The elements of a list.
ghost use Rattle.node_store.specs.Paged.{states};
ghost use Rattle.std.specs.Prelude.{◌≡◌, ◌≤◌, IfOk, length, slice_get, slice_range};
ghost use Rattle.run_heap.specs.Operations.{or_undefined, table_of};
ghost use Rattle.run_heap.specs.Sound.{AllStored, Fits, IsContainer};
ghost use Rattle.draft_core.specs.Seen.{heap, Stands};
ghost use Rattle.array_ops_spec.specs.Guards.{elements_of};

use draft_core::{Rv, Scope, Store};
use std::alloc::{AllocError, Global};

/// The element at an index, or `Undefined` past the end.
pub(crate) fn element(
    alloc: Global,
    scope: &mut Scope,
    store: &Store,
    of: &Rv,
    i: usize,
) -> Result<Rv, AllocError>
    requires stands { Stands (states store.now) scope.old }
    requires container { IsContainer (heap (states store.now) scope.old) of.now }
    ensures value { IfOk result (λ v. v ≡ or_undefined (slice_get (elements_of (heap (states store.now) scope.old) of.now) i)) }
    ensures fits { IfOk result (λ v. Fits (heap (states store.now) scope.old) v) }
    ensures same { scope.new ≡ scope.old }
{
    if i < scope.count(store, of) {
        scope.entry_at(alloc, store, of, i)
    } else {
        Ok(Rv::Undefined)
    }
}

/// The elements from an index up to another.
pub(crate) fn elements(
    alloc: Global,
    scope: &mut Scope,
    store: &Store,
    of: &Rv,
    from: usize,
    to: usize,
) -> Result<Vec<Rv>, AllocError>
    requires stands { Stands (states store.now) scope.old }
    requires container { IsContainer (heap (states store.now) scope.old) of.now }
    requires in_range { to ≤ length (table_of (heap (states store.now) scope.old) of.now) }
    ensures values { IfOk result (λ v. v.items ≡ slice_range (elements_of (heap (states store.now) scope.old) of.now) from to) }
    ensures stored { IfOk result (λ v. AllStored (heap (states store.now) scope.old) v.items) }
    ensures same { scope.new ≡ scope.old }
{
    let mut out = Vec::new(alloc);
    for i in from..to {
        out.push(scope.entry_at(alloc, store, of, i)?)?;
    }
    Ok(out)
}
