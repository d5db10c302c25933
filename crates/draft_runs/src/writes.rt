//! Calls that write one object.
ghost use Rattle.node_store.specs.Paged.{states};
ghost use Rattle.run_heap.specs.Sound.{AllOwned};
ghost use Rattle.draft_core.specs.Seen.{heap, Stands};

use crate::run::Run;
use crate::texts::name_of;
use crate::words::Operand;
use std::alloc::{AllocError, Global};
use value_model::Key;

impl Run {
    /// Calls `put`: `done`, or the refusal.
    pub fn put(
        &mut self,
        alloc: Global,
        of: &Operand,
        key: &Key,
        value: &Operand,
    ) -> Result<&'static str, AllocError>
        requires stands { Stands (states self.old.store) self.old.scope }
        requires owned { AllOwned (heap (states self.old.store) self.old.scope) self.old.values.items }
        ensures stands { Stands (states self.new.store) self.new.scope }
        ensures owned { AllOwned (heap (states self.new.store) self.new.scope) self.new.values.items }
    {
        let of = self.value(alloc, of)?;
        let value = self.value(alloc, value)?;
        match self.scope.put(alloc, &self.store, &of, key, value) {
            Ok(()) => Ok("done"),
            Err(fault) => Ok(name_of(fault)),
        }
    }

    /// Calls `remove`: `done`, or the refusal.
    pub fn remove(
        &mut self,
        alloc: Global,
        of: &Operand,
        key: &Key,
    ) -> Result<&'static str, AllocError>
        requires stands { Stands (states self.old.store) self.old.scope }
        requires owned { AllOwned (heap (states self.old.store) self.old.scope) self.old.values.items }
        ensures stands { Stands (states self.new.store) self.new.scope }
        ensures owned { AllOwned (heap (states self.new.store) self.new.scope) self.new.values.items }
    {
        let of = self.value(alloc, of)?;
        match self.scope.remove(alloc, &self.store, &of, key) {
            Ok(()) => Ok("done"),
            Err(fault) => Ok(name_of(fault)),
        }
    }
}
