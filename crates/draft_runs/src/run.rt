ghost use Rattle.node_store.specs.Paged.{states};
ghost use Rattle.std.specs.Prelude.{◌≤◌, IfOk, length};
ghost use Rattle.run_heap.specs.Sound.{Fits, Owned, AllOwned};
ghost use Rattle.draft_core.specs.Seen.{heap, Stands};

use crate::fault::WordFault;
use crate::texts::{name_of, text_of};
use crate::words::{Operand, state_of};
use draft_core::{Scope, ScopeMint};
use node_store::{Cell, Cells, Keys, Kind, Node, NodeId, Store};
use run_heap::{DraftFault, ObjRef, Rv};
use std::alloc::{AllocError, Global};
use values::Val;

/// One run's objects, and the values that calls answered, which later calls name by their numbers. The root has number 0.
#[derive(Drop)]
pub struct Run {
    pub store: Store,
    pub scope: Scope,
    pub values: Vec<Rv>,
    /// The number of another scope.
    pub other: u64,
}

impl Run {
    /// The beginning of a run on a state.
    pub fn new(alloc: Global, store: Store, root: NodeId) -> Result<Run, AllocError>
        requires { root ≤ length (states store) }
        ensures stands { IfOk result (λ r. Stands (states r.store) r.scope) }
        ensures owned { IfOk result (λ r. AllOwned (heap (states r.store) r.scope) r.values.items) }
    {
        let mut mint = ScopeMint::new();
        let other = Scope::begin(alloc, mint.take(), &store, root)?;
        let scope = Scope::begin(alloc, mint.take(), &store, root)?;
        let mut values = Vec::new(alloc);
        values.push(scope.root())?;
        Ok(Run {
            store,
            scope,
            values,
            other: scope_of(&other),
        })
    }

    /// The beginning of a run on the state that a text is as JSON.
    pub fn of_state(alloc: Global, text: &str) -> Result<Run, WordFault>
        ensures stands { IfOk result (λ r. Stands (states r.store) r.scope) }
        ensures owned { IfOk result (λ r. AllOwned (heap (states r.store) r.scope) r.values.items) }
    {
        let v = state_of(alloc, text)?;
        let mut store = Store::new(alloc)?;
        let root = store.load(alloc, &v)?;
        Ok(Run::new(alloc, store, root)?)
    }

    /// The beginning of a run on a list that holds one empty object twice.
    pub fn of_twins(alloc: Global) -> Result<Run, WordFault>
        ensures stands { IfOk result (λ r. Stands (states r.store) r.scope) }
        ensures owned { IfOk result (λ r. AllOwned (heap (states r.store) r.scope) r.values.items) }
    {
        let mut store = Store::new(alloc)?;
        let child = store.load(alloc, &Val::empty_object(alloc))?;
        let mut cells = Vec::new(alloc);
        cells.push(Cell::Node(child))?;
        cells.push(Cell::Node(child))?;
        let node = Node {
            kind: Kind::List,
            keys: Keys::from_vec(Vec::new(alloc)),
            cells: Cells::from_vec(cells),
        };
        let root = store.add(alloc, node)?;
        Ok(Run::new(alloc, store, root)?)
    }

    /// The value that an operand is; `Undefined` for a number that no answer has.
    pub fn value(&self, alloc: Global, operand: &Operand) -> Result<Rv, AllocError>
        requires { AllOwned (heap (states self.now.store) self.now.scope) self.now.values.items }
        ensures { IfOk result (λ v. Owned (heap (states self.now.store) self.now.scope) v) }
    {
        match operand {
            Operand::Answer(i) => self.answer(alloc, *i),
            Operand::Undefined => Ok(Rv::Undefined),
            Operand::Prim(key) => Ok(Rv::Prim(key.copy(alloc)?)),
        }
    }

    /// An earlier answer; `Undefined` where there is none.
    fn answer(&self, alloc: Global, i: usize) -> Result<Rv, AllocError>
        requires { AllOwned (heap (states self.now.store) self.now.scope) self.now.values.items }
        ensures { IfOk result (λ v. Owned (heap (states self.now.store) self.now.scope) v) }
    {
        if i < self.values.len() {
            self.values[i].copy(alloc)
        } else {
            Ok(Rv::Undefined)
        }
    }

    /// Keeps an answer, and says it.
    pub fn keep(
        &mut self,
        alloc: Global,
        answer: Result<Rv, DraftFault>,
    ) -> Result<String, AllocError>
        requires stands { Stands (states self.old.store) self.old.scope }
        requires owned { AllOwned (heap (states self.old.store) self.old.scope) self.old.values.items }
        requires fits { IfOk answer (λ v. Fits (heap (states self.old.store) self.old.scope) v) }
        ensures stands { Stands (states self.new.store) self.new.scope }
        ensures owned { AllOwned (heap (states self.new.store) self.new.scope) self.new.values.items }
    {
        match answer {
            Ok(v) => {
                let text = text_of(alloc, &v)?;
                self.values.push(v)?;
                Ok(text)
            }
            Err(fault) => String::from_str(alloc, name_of(fault)),
        }
    }

    /// Keeps a reference of another scope, and says it.
    pub fn foreign(&mut self, alloc: Global) -> Result<String, AllocError>
        requires stands { Stands (states self.old.store) self.old.scope }
        requires owned { AllOwned (heap (states self.old.store) self.old.scope) self.old.values.items }
        ensures stands { Stands (states self.new.store) self.new.scope }
        ensures owned { AllOwned (heap (states self.new.store) self.new.scope) self.new.values.items }
    {
        self.values.push(Rv::Obj(ObjRef {
            scope: self.other,
            slot: 0,
        }))?;
        String::from_str(alloc, "foreign")
    }
}

/// The number of a scope.
fn scope_of(scope: &Scope) -> u64 {
    match scope.root() {
        Rv::Obj(root) => root.scope,
        _ => 0,
    }
}
