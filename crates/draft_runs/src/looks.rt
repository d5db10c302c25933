//! Calls that look at one container, and have conditions where others have refusals: a call that may not be made is answered
//! by `not called`.
ghost use Rattle.node_store.specs.Paged.{states};
ghost use Rattle.std.specs.Prelude.{◌≡◌, ◌<◌, Some};
ghost use Rattle.run_heap.specs.Operations as spec;
ghost use Rattle.run_heap.specs.Sound.{AllOwned, IsContainer};
ghost use Rattle.draft_core.specs.Seen.{heap, Stands};

use crate::run::Run;
use crate::texts::{json_of, kind_name, not_called, path_text, peek_text, source_text, yes_or_no};
use crate::words::Operand;
use run_heap::Rv;
use std::alloc::{AllocError, Global};
use value_model::{Key, Kind};

impl Run {
    /// Calls `kind_of` on what is no reference of another scope: the name of the kind, or `none`.
    pub fn kind(&self, alloc: Global, v: &Operand) -> Result<&'static str, AllocError>
        requires stands { Stands (states self.now.store) self.now.scope }
        requires owned { AllOwned (heap (states self.now.store) self.now.scope) self.now.values.items }
    {
        let v = self.value(alloc, v)?;
        if !self.scope.owns(&v) {
            return Ok("not called");
        }
        match self.scope.kind_of(&self.store, &v) {
            Some(kind) => Ok(kind_name(kind)),
            None => Ok("none"),
        }
    }

    /// Calls `count` on a container.
    pub fn count(&self, alloc: Global, of: &Operand) -> Result<String, AllocError>
        requires stands { Stands (states self.now.store) self.now.scope }
        requires owned { AllOwned (heap (states self.now.store) self.now.scope) self.now.values.items }
    {
        let of = self.value(alloc, of)?;
        match self.container(&of) {
            Some(_) => {
                let n = self.scope.count(&self.store, &of);
                format!(in alloc; "{n}")
            }
            None => not_called(alloc),
        }
    }

    /// Calls `find` on an object, a Map or a Set: the index, or `none`.
    pub fn find(&self, alloc: Global, of: &Operand, key: &Key) -> Result<String, AllocError>
        requires stands { Stands (states self.now.store) self.now.scope }
        requires owned { AllOwned (heap (states self.now.store) self.now.scope) self.now.values.items }
    {
        let of = self.value(alloc, of)?;
        if !self.is_keyed(&of) {
            return not_called(alloc);
        }
        match self.scope.find(&self.store, &of, key) {
            Some(i) => format!(in alloc; "{i}"),
            None => String::from_str(alloc, "none"),
        }
    }

    /// Calls `key_at` on an object, a Map or a Set that has the entry.
    pub fn key_at(&self, alloc: Global, of: &Operand, i: usize) -> Result<String, AllocError>
        requires stands { Stands (states self.now.store) self.now.scope }
        requires owned { AllOwned (heap (states self.now.store) self.now.scope) self.now.values.items }
    {
        let of = self.value(alloc, of)?;
        if !self.is_keyed(&of) {
            return not_called(alloc);
        }
        if !self.has_entry(&of, i) {
            return not_called(alloc);
        }
        json_of(alloc, self.scope.key_at(&self.store, &of, i))
    }

    /// Calls `entry_at` on a container that has the entry: the value, which is kept.
    pub fn entry_at(&mut self, alloc: Global, of: &Operand, i: usize) -> Result<String, AllocError>
        requires stands { Stands (states self.old.store) self.old.scope }
        requires owned { AllOwned (heap (states self.old.store) self.old.scope) self.old.values.items }
        ensures stands { Stands (states self.new.store) self.new.scope }
        ensures owned { AllOwned (heap (states self.new.store) self.new.scope) self.new.values.items }
    {
        let of = self.value(alloc, of)?;
        if !self.has_entry(&of, i) {
            return not_called(alloc);
        }
        let answer = self.scope.entry_at(alloc, &self.store, &of, i)?;
        self.keep(alloc, Ok(answer))
    }

    /// Calls `peek` on a container that has the entry: the value as it is kept.
    pub fn peek(&self, alloc: Global, of: &Operand, i: usize) -> Result<String, AllocError>
        requires stands { Stands (states self.now.store) self.now.scope }
        requires owned { AllOwned (heap (states self.now.store) self.now.scope) self.now.values.items }
    {
        let of = self.value(alloc, of)?;
        if !self.has_entry(&of, i) {
            return not_called(alloc);
        }
        peek_text(alloc, &self.scope.peek(&self.store, &of, i))
    }

    /// Calls `same_at` on a container that has the entry.
    pub fn same_at(
        &self,
        alloc: Global,
        of: &Operand,
        i: usize,
        item: &Operand,
    ) -> Result<&'static str, AllocError>
        requires stands { Stands (states self.now.store) self.now.scope }
        requires owned { AllOwned (heap (states self.now.store) self.now.scope) self.now.values.items }
    {
        let of = self.value(alloc, of)?;
        let item = self.value(alloc, item)?;
        if !self.has_entry(&of, i) {
            return Ok("not called");
        }
        Ok(yes_or_no(self.scope.same_at(&self.store, &of, i, &item)))
    }

    /// Calls `written` on a container.
    pub fn written(&self, alloc: Global, of: &Operand) -> Result<&'static str, AllocError>
        requires stands { Stands (states self.now.store) self.now.scope }
        requires owned { AllOwned (heap (states self.now.store) self.now.scope) self.now.values.items }
    {
        let of = self.value(alloc, of)?;
        match self.container(&of) {
            Some(_) => Ok(yes_or_no(self.scope.written(&of))),
            None => Ok("not called"),
        }
    }

    /// Calls `source` on a container: the number of the node behind `#`, or `none`.
    pub fn source(&self, alloc: Global, of: &Operand) -> Result<String, AllocError>
        requires stands { Stands (states self.now.store) self.now.scope }
        requires owned { AllOwned (heap (states self.now.store) self.now.scope) self.now.values.items }
    {
        let of = self.value(alloc, of)?;
        match self.container(&of) {
            Some(_) => source_text(alloc, self.scope.source(&self.store, &of)),
            None => not_called(alloc),
        }
    }

    /// Calls `place_of`: the path as JSON, or `none`.
    pub fn place_of(&self, alloc: Global, of: &Operand) -> Result<String, AllocError>
        requires stands { Stands (states self.now.store) self.now.scope }
        requires owned { AllOwned (heap (states self.now.store) self.now.scope) self.now.values.items }
    {
        let of = self.value(alloc, of)?;
        match self.scope.place_of(alloc, &self.store, &of)? {
            Some(path) => path_text(alloc, &path),
            None => String::from_str(alloc, "none"),
        }
    }

    /// Calls `slot` on a reference.
    pub fn slot(&self, alloc: Global, of: &Operand) -> Result<String, AllocError>
        requires { AllOwned (heap (states self.now.store) self.now.scope) self.now.values.items }
    {
        match self.value(alloc, of)? {
            Rv::Obj(object) => {
                let slot = object.slot();
                format!(in alloc; "{slot}")
            }
            _ => not_called(alloc),
        }
    }

    /// The content of an object or a frozen node: its kind, whether it is written, its source and its entries.
    pub fn show(&self, alloc: Global, of: &Operand) -> Result<String, AllocError>
        requires stands { Stands (states self.now.store) self.now.scope }
        requires owned { AllOwned (heap (states self.now.store) self.now.scope) self.now.values.items }
    {
        let of = self.value(alloc, of)?;
        let Some(kind) = self.container(&of) else {
            return not_called(alloc);
        };
        let name = kind_name(kind);
        let mark = if self.scope.written(&of) {
            "written"
        } else {
            "unwritten"
        };
        let source = source_text(alloc, self.scope.source(&self.store, &of))?;
        let entries = self.entries(alloc, &of, kind)?;
        format!(in alloc; "{name} {mark} {source} [{entries}]")
    }

    /// The entries of a container, each with its key where there are keys.
    fn entries(&self, alloc: Global, of: &Rv, kind: Kind) -> Result<String, AllocError>
        requires stands { Stands (states self.now.store) self.now.scope }
        requires container { IsContainer (heap (states self.now.store) self.now.scope) of.now }
        requires kind { spec.kind_of (heap (states self.now.store) self.now.scope) of.now ≡ Some kind }
    {
        let mut out = String::new(alloc);
        for i in 0..self.scope.count(&self.store, of) {
            if i > 0 {
                out.push_str(", ")?;
            }
            out.push_str(self.entry(alloc, of, kind, i)?.as_str())?;
        }
        Ok(out)
    }

    /// An entry of a container.
    fn entry(&self, alloc: Global, of: &Rv, kind: Kind, i: usize) -> Result<String, AllocError>
        requires stands { Stands (states self.now.store) self.now.scope }
        requires container { IsContainer (heap (states self.now.store) self.now.scope) of.now }
        requires kind { spec.kind_of (heap (states self.now.store) self.now.scope) of.now ≡ Some kind }
        requires in_range { i < spec.count (heap (states self.now.store) self.now.scope) of.now }
    {
        let value = peek_text(alloc, &self.scope.peek(&self.store, of, i))?;
        if kind.is_list() {
            return Ok(value);
        }
        let key = json_of(alloc, self.scope.key_at(&self.store, of, i))?;
        format!(in alloc; "{key}: {value}")
    }
}
