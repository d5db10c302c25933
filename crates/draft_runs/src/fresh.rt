//! Calls that make objects.
ghost use Rattle.node_store.specs.Paged.{states};
ghost use Rattle.std.specs.Prelude.{◌≡◌, None};
ghost use Rattle.value_model.specs.Limits.{value_limit};
ghost use Rattle.run_heap.specs.Sound.{AllOwned};
ghost use Rattle.draft_core.specs.Seen.{heap, Stands};

use crate::run::Run;
use crate::texts::not_called;
use crate::words::Operand;
use std::alloc::{AllocError, Global};
use value_model::Kind;
use values::Val;

impl Run {
    /// Calls `new_object`: the object, which is kept.
    pub fn new_object(&mut self, alloc: Global) -> Result<String, AllocError>
        requires stands { Stands (states self.old.store) self.old.scope }
        requires owned { AllOwned (heap (states self.old.store) self.old.scope) self.old.values.items }
        ensures stands { Stands (states self.new.store) self.new.scope }
        ensures owned { AllOwned (heap (states self.new.store) self.new.scope) self.new.values.items }
    {
        let answer = self.scope.new_object(alloc)?;
        self.keep(alloc, Ok(answer))
    }

    /// Calls `new_list`: the list, which is kept.
    pub fn new_list(&mut self, alloc: Global) -> Result<String, AllocError>
        requires stands { Stands (states self.old.store) self.old.scope }
        requires owned { AllOwned (heap (states self.old.store) self.old.scope) self.old.values.items }
        ensures stands { Stands (states self.new.store) self.new.scope }
        ensures owned { AllOwned (heap (states self.new.store) self.new.scope) self.new.values.items }
    {
        let answer = self.scope.new_list(alloc)?;
        self.keep(alloc, Ok(answer))
    }

    /// Calls `keys`: the list, which is kept, or the refusal.
    pub fn keys(&mut self, alloc: Global, of: &Operand) -> Result<String, AllocError>
        requires stands { Stands (states self.old.store) self.old.scope }
        requires owned { AllOwned (heap (states self.old.store) self.old.scope) self.old.values.items }
        ensures stands { Stands (states self.new.store) self.new.scope }
        ensures owned { AllOwned (heap (states self.new.store) self.new.scope) self.new.values.items }
    {
        let of = self.value(alloc, of)?;
        let answer = self.scope.keys(alloc, &self.store, &of);
        self.keep(alloc, answer)
    }

    /// Calls `plain_of`: the value, which is kept.
    pub fn plain(&mut self, alloc: Global, v: &Val) -> Result<String, AllocError>
        requires limit { value_limit v.now ≡ None }
        requires stands { Stands (states self.old.store) self.old.scope }
        requires owned { AllOwned (heap (states self.old.store) self.old.scope) self.old.values.items }
        ensures stands { Stands (states self.new.store) self.new.scope }
        ensures owned { AllOwned (heap (states self.new.store) self.new.scope) self.new.values.items }
    {
        let answer = self.scope.plain_of(alloc, v)?;
        self.keep(alloc, Ok(answer))
    }

    /// Calls `new_of`: the object, which is kept.
    pub fn new_of(&mut self, alloc: Global, kind: Kind) -> Result<String, AllocError>
        requires stands { Stands (states self.old.store) self.old.scope }
        requires owned { AllOwned (heap (states self.old.store) self.old.scope) self.old.values.items }
        ensures stands { Stands (states self.new.store) self.new.scope }
        ensures owned { AllOwned (heap (states self.new.store) self.new.scope) self.new.values.items }
    {
        let answer = self.scope.new_of(alloc, kind)?;
        self.keep(alloc, Ok(answer))
    }

    /// Calls `list_of`: the list, which is kept, or `not called` where a list may not hold one of the values.
    pub fn list_of(&mut self, alloc: Global, items: &[Operand]) -> Result<String, AllocError>
        requires stands { Stands (states self.old.store) self.old.scope }
        requires owned { AllOwned (heap (states self.old.store) self.old.scope) self.old.values.items }
        ensures stands { Stands (states self.new.store) self.new.scope }
        ensures owned { AllOwned (heap (states self.new.store) self.new.scope) self.new.values.items }
    {
        let Some(items) = self.stored(alloc, items)? else {
            return not_called(alloc);
        };
        let answer = self.scope.list_of(alloc, &self.store, &items)?;
        self.keep(alloc, Ok(answer))
    }

    /// Calls `splice_with`: the fresh list, which is kept, or `not called` where the operand is no list with these items, or a
    /// list may not hold one of the values.
    pub fn splice_with(
        &mut self,
        alloc: Global,
        of: &Operand,
        from: usize,
        to: usize,
        items: &[Operand],
        others: &[Operand],
    ) -> Result<String, AllocError>
        requires stands { Stands (states self.old.store) self.old.scope }
        requires owned { AllOwned (heap (states self.old.store) self.old.scope) self.old.values.items }
        ensures stands { Stands (states self.new.store) self.new.scope }
        ensures owned { AllOwned (heap (states self.new.store) self.new.scope) self.new.values.items }
    {
        let of = self.value(alloc, of)?;
        let Some(items) = self.stored(alloc, items)? else {
            return not_called(alloc);
        };
        let Some(others) = self.stored(alloc, others)? else {
            return not_called(alloc);
        };
        if !self.may_splice(&of, from, to) {
            return not_called(alloc);
        }
        let answer = self
            .scope
            .splice_with(alloc, &self.store, &of, from, to, &items, &others)?;
        self.keep(alloc, Ok(answer))
    }
}
