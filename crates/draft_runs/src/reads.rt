//! Calls that read.
ghost use Rattle.node_store.specs.Paged.{states};
ghost use Rattle.run_heap.specs.Sound.{AllOwned};
ghost use Rattle.draft_core.specs.Seen.{heap, Stands};

use crate::run::Run;
use crate::texts::name_of;
use crate::words::Operand;
use std::alloc::{AllocError, Global};
use value_model::Key;

impl Run {
    /// Calls `get`: the value, which is kept, or the refusal.
    pub fn get(&mut self, alloc: Global, of: &Operand, key: &Key) -> Result<String, AllocError>
        requires stands { Stands (states self.old.store) self.old.scope }
        requires owned { AllOwned (heap (states self.old.store) self.old.scope) self.old.values.items }
        ensures stands { Stands (states self.new.store) self.new.scope }
        ensures owned { AllOwned (heap (states self.new.store) self.new.scope) self.new.values.items }
    {
        let of = self.value(alloc, of)?;
        let answer = self.scope.get(alloc, &self.store, &of, key);
        self.keep(alloc, answer)
    }

    /// Calls `original`: the frozen container, which is kept, or the refusal.
    pub fn original(&mut self, alloc: Global, of: &Operand) -> Result<String, AllocError>
        requires stands { Stands (states self.old.store) self.old.scope }
        requires owned { AllOwned (heap (states self.old.store) self.old.scope) self.old.values.items }
        ensures stands { Stands (states self.new.store) self.new.scope }
        ensures owned { AllOwned (heap (states self.new.store) self.new.scope) self.new.values.items }
    {
        let of = self.value(alloc, of)?;
        let answer = self.scope.original(&self.store, &of);
        self.keep(alloc, answer)
    }

    /// Calls `len`: the length, or the refusal.
    pub fn len(&self, alloc: Global, of: &Operand) -> Result<String, AllocError>
        requires stands { Stands (states self.now.store) self.now.scope }
        requires owned { AllOwned (heap (states self.now.store) self.now.scope) self.now.values.items }
    {
        let of = self.value(alloc, of)?;
        match self.scope.len(&self.store, &of) {
            Ok(n) => format!(in alloc; "{n}"),
            Err(fault) => String::from_str(alloc, name_of(fault)),
        }
    }

    /// Calls `same`.
    pub fn same(&self, alloc: Global, a: &Operand, b: &Operand) -> Result<bool, AllocError>
        requires { AllOwned (heap (states self.now.store) self.now.scope) self.now.values.items }
    {
        let a = self.value(alloc, a)?;
        let b = self.value(alloc, b)?;
        Ok(self.scope.same(&a, &b))
    }

    /// Calls `owns`.
    pub fn owns(&self, alloc: Global, v: &Operand) -> Result<bool, AllocError>
        requires { AllOwned (heap (states self.now.store) self.now.scope) self.now.values.items }
    {
        let v = self.value(alloc, v)?;
        Ok(self.scope.owns(&v))
    }

    /// Calls `is_draft`.
    pub fn is_draft(&self, alloc: Global, v: &Operand) -> Result<bool, AllocError>
        requires { AllOwned (heap (states self.now.store) self.now.scope) self.now.values.items }
    {
        let v = self.value(alloc, v)?;
        Ok(self.scope.is_draft(&v))
    }

    /// Calls `any_written`.
    pub fn any_written(&self) -> bool {
        self.scope.any_written()
    }
}
