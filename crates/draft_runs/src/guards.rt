//! What a call's conditions ask, found out by what the calls on one value answer.
ghost use Rattle.node_store.specs.Paged.{states};
ghost use Rattle.std.specs.Prelude.{◌≡◌, ◌≢◌, ◌<◌, IfOk, IfSome, IsTrue, Some};
ghost use Rattle.value_model.specs.Limits.{is_long_key};
ghost use Rattle.value_model.specs.declared.kind.Kind.TheVariants as kind_model;
ghost use Rattle.run_heap.specs.Operations as spec;
ghost use Rattle.run_heap.specs.Sound as sound;
ghost use Rattle.run_heap.specs.Sound.{AllOwned, AllStored, IsContainer, IsObject, IsStored, Owned};
ghost use Rattle.draft_core.specs.Seen.{heap, Stands};
ghost use Rattle.draft_runs.specs.Asked.{IsEntry, IsKeyed, IsKeyedObject, HasItems, MaySet};

use crate::run::Run;
use crate::words::Operand;
use run_heap::Rv;
use std::alloc::{AllocError, Global};
use value_model::{Key, Kind};

impl Run {
    /// The kind of a container of this scope; None for any other value.
    pub(crate) fn container(&self, v: &Rv) -> Option<Kind>
        requires stands { Stands (states self.now.store) self.now.scope }
        requires owned { Owned (heap (states self.now.store) self.now.scope) v.now }
        ensures container { IfSome result (λ k. IsContainer (heap (states self.now.store) self.now.scope) v.now) }
        ensures kind { IfSome result (λ k. spec.kind_of (heap (states self.now.store) self.now.scope) v.now ≡ Some k) }
    {
        if !self.scope.owns(v) {
            return None;
        }
        self.scope.kind_of(&self.store, v)
    }

    /// The kind of an object of this scope; None for any other value.
    pub(crate) fn object(&self, v: &Rv) -> Option<Kind>
        requires stands { Stands (states self.now.store) self.now.scope }
        requires owned { Owned (heap (states self.now.store) self.now.scope) v.now }
        ensures object { IfSome result (λ k. IsObject (heap (states self.now.store) self.now.scope) v.now) }
        ensures kind { IfSome result (λ k. spec.kind_of (heap (states self.now.store) self.now.scope) v.now ≡ Some k) }
    {
        match v {
            Rv::Obj(_) => self.container(v),
            _ => None,
        }
    }

    /// Whether the value is an object, a Map or a Set, frozen or not.
    pub(crate) fn is_keyed(&self, v: &Rv) -> bool
        requires stands { Stands (states self.now.store) self.now.scope }
        requires owned { Owned (heap (states self.now.store) self.now.scope) v.now }
        ensures { IsTrue result → IsKeyed (heap (states self.now.store) self.now.scope) v.now }
    {
        match self.container(v) {
            Some(kind) => !kind.is_list(),
            None => false,
        }
    }

    /// Whether the value is a container that has the i-th entry.
    pub(crate) fn has_entry(&self, v: &Rv, i: usize) -> bool
        requires stands { Stands (states self.now.store) self.now.scope }
        requires owned { Owned (heap (states self.now.store) self.now.scope) v.now }
        ensures { IsTrue result → IsEntry (heap (states self.now.store) self.now.scope) v.now i }
    {
        match self.container(v) {
            Some(_) => i < self.scope.count(&self.store, v),
            None => false,
        }
    }

    /// Whether the value is an object, a Map or a Set that may be written.
    pub(crate) fn is_keyed_object(&self, v: &Rv) -> bool
        requires stands { Stands (states self.now.store) self.now.scope }
        requires owned { Owned (heap (states self.now.store) self.now.scope) v.now }
        ensures { IsTrue result → IsKeyedObject (heap (states self.now.store) self.now.scope) v.now }
    {
        match self.object(v) {
            Some(kind) => !kind.is_list(),
            None => false,
        }
    }

    /// Whether the value is a list that may be written, and has these items.
    pub(crate) fn may_splice(&self, v: &Rv, from: usize, to: usize) -> bool
        requires stands { Stands (states self.now.store) self.now.scope }
        requires owned { Owned (heap (states self.now.store) self.now.scope) v.now }
        ensures { IsTrue result → HasItems (heap (states self.now.store) self.now.scope) v.now from to }
    {
        match self.object(v) {
            Some(kind) => { kind.is_list() && from <= to && to <= self.scope.count(&self.store, v) }
            None => false,
        }
    }

    /// Whether a value may be set at a key of an object.
    pub(crate) fn may_set(&self, of: &Rv, key: &Key, value: &Rv) -> bool
        requires stands { Stands (states self.now.store) self.now.scope }
        requires owned { Owned (heap (states self.now.store) self.now.scope) of.now }
        requires value { Owned (heap (states self.now.store) self.now.scope) value.now }
        ensures { IsTrue result → MaySet (heap (states self.now.store) self.now.scope) of.now key.now value.now }
    {
        match self.object(of) {
            Some(kind) => {
                !kind.is_list() && self.is_stored(value) && may_stand(kind, key, value)
            }
            None => false,
        }
    }

    /// Whether the value is one that an object may hold.
    pub(crate) fn is_stored(&self, v: &Rv) -> bool
        requires { Owned (heap (states self.now.store) self.now.scope) v.now }
        ensures { IsTrue result → IsStored (heap (states self.now.store) self.now.scope) v.now }
    {
        match v {
            Rv::Undefined => false,
            _ => self.scope.owns(v),
        }
    }

    /// The values that operands are, None where an object may not hold one.
    pub(crate) fn stored(
        &self,
        alloc: Global,
        operands: &[Operand],
    ) -> Result<Option<Vec<Rv>>, AllocError>
        requires { AllOwned (heap (states self.now.store) self.now.scope) self.now.values.items }
        ensures { IfOk result (λ o. IfSome o (λ vs. AllStored (heap (states self.now.store) self.now.scope) vs.items)) }
    {
        let mut out = Vec::new(alloc);
        for operand in operands {
            let v = self.value(alloc, operand)?;
            if !self.is_stored(&v) {
                return Ok(None);
            }
            out.push(v)?;
        }
        Ok(Some(out))
    }
}

/// Whether a value may be set at a key in an object of a kind.
pub(crate) fn may_stand(kind: Kind, key: &Key, value: &Rv) -> bool
    ensures { result ≡ sound.may_stand kind key.now value.now }
{
    match kind {
        Kind::Obj => is_name(key),
        Kind::List => matches!(key, Key::Null),
        Kind::Map => !key.is_long(),
        Kind::Set => is_member(key, value),
    }
}

/// Whether the key may be one of an object.
fn is_name(key: &Key) -> bool
    ensures { (v : _) → result ≡ sound.may_stand kind_model.Obj key.now v }
{
    match key {
        Key::Text(text) => !text.is_reserved() && !text.is_long(),
        _ => false,
    }
}

/// Whether the value may stand in a Set under the key.
fn is_member(key: &Key, value: &Rv) -> bool
    ensures { result ≡ sound.may_stand kind_model.Set key.now value.now }
{
    match value {
        Rv::Prim(member) => key.compare(member).is_eq() && !key.is_long(),
        _ => false,
    }
}
