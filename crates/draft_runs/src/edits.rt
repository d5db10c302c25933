//! Calls that write one object, and have conditions where others have refusals: a call that may not be made is answered by
//! `not called`.
ghost use Rattle.node_store.specs.Paged.{states};
ghost use Rattle.run_heap.specs.Sound.{AllOwned};
ghost use Rattle.draft_core.specs.Seen.{heap, Stands};

use crate::run::Run;
use crate::words::Operand;
use std::alloc::{AllocError, Global};
use value_model::Key;

impl Run {
    /// Calls `splice_at` on a list: `done`.
    pub fn splice_at(
        &mut self,
        alloc: Global,
        of: &Operand,
        from: usize,
        to: usize,
        items: &[Operand],
    ) -> Result<&'static str, AllocError>
        requires stands { Stands (states self.old.store) self.old.scope }
        requires owned { AllOwned (heap (states self.old.store) self.old.scope) self.old.values.items }
        ensures stands { Stands (states self.new.store) self.new.scope }
        ensures owned { AllOwned (heap (states self.new.store) self.new.scope) self.new.values.items }
    {
        let of = self.value(alloc, of)?;
        let Some(items) = self.stored(alloc, items)? else {
            return Ok("not called");
        };
        if !self.may_splice(&of, from, to) {
            return Ok("not called");
        }
        self.scope
            .splice_at(alloc, &self.store, &of, from, to, &items)?;
        Ok("done")
    }

    /// Calls `set_key` with a value: `done`.
    pub fn set_key(
        &mut self,
        alloc: Global,
        of: &Operand,
        key: &Key,
        value: &Operand,
    ) -> Result<&'static str, AllocError>
        requires stands { Stands (states self.old.store) self.old.scope }
        requires owned { AllOwned (heap (states self.old.store) self.old.scope) self.old.values.items }
        ensures stands { Stands (states self.new.store) self.new.scope }
        ensures owned { AllOwned (heap (states self.new.store) self.new.scope) self.new.values.items }
    {
        let of = self.value(alloc, of)?;
        let value = self.value(alloc, value)?;
        if !self.may_set(&of, key, &value) {
            return Ok("not called");
        }
        self.scope
            .set_key(alloc, &self.store, &of, key, Some(value))?;
        Ok("done")
    }

    /// Calls `set_key` without a value: `done`.
    pub fn unset_key(
        &mut self,
        alloc: Global,
        of: &Operand,
        key: &Key,
    ) -> Result<&'static str, AllocError>
        requires stands { Stands (states self.old.store) self.old.scope }
        requires owned { AllOwned (heap (states self.old.store) self.old.scope) self.old.values.items }
        ensures stands { Stands (states self.new.store) self.new.scope }
        ensures owned { AllOwned (heap (states self.new.store) self.new.scope) self.new.values.items }
    {
        let of = self.value(alloc, of)?;
        if !self.is_keyed_object(&of) {
            return Ok("not called");
        }
        self.scope.set_key(alloc, &self.store, &of, key, None)?;
        Ok("done")
    }

    /// Calls `empty` on an object: `done`.
    pub fn empty(&mut self, alloc: Global, of: &Operand) -> Result<&'static str, AllocError>
        requires stands { Stands (states self.old.store) self.old.scope }
        requires owned { AllOwned (heap (states self.old.store) self.old.scope) self.old.values.items }
        ensures stands { Stands (states self.new.store) self.new.scope }
        ensures owned { AllOwned (heap (states self.new.store) self.new.scope) self.new.values.items }
    {
        let of = self.value(alloc, of)?;
        match self.object(&of) {
            Some(_) => {
                self.scope.empty(alloc, &self.store, &of)?;
                Ok("done")
            }
            None => Ok("not called"),
        }
    }
}
