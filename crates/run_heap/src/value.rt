ghost use Rattle.std.specs.Prelude.{◌≡◌, IfOk};
ghost use Rattle.run_heap.specs.Operations as operations;
ghost use Rattle.run_heap.specs.Values as spec;

use node_store::NodeId;
use std::alloc::{AllocError, Global};
use value_model::Key;

/// A reference to an object of a run: the number of the run's scope, and the object's name in it.
#[derive(Clone, Copy, Debug, Drop, PartialEq, Eq)]
pub struct ObjRef {
    pub scope: u64,
    pub slot: u64,
}

impl ObjRef {
    /// The object's name. Two references of one scope name the same object exactly where their names are equal.
    pub fn slot(&self) -> u64
        ensures { result ≡ self.now.slot }
    {
        self.slot
    }
}

/// A value of a run.
#[derive(Debug, Drop)]
pub enum Rv {
    Undefined,
    Prim(Key),
    /// An object of a run, which may be edited there.
    Obj(ObjRef),
    /// A container of a frozen state, which may only be read.
    Frozen(NodeId),
}

/// How the containers inside a node are given out.
#[derive(Clone, Copy, Debug, Drop)]
pub enum Given {
    /// As frozen nodes.
    Frozen,
    /// As objects, of which the first has this reference and the others the next names, a container before what is in it.
    From(ObjRef),
}

impl Rv {
    /// The same value.
    pub fn copy(&self, alloc: Global) -> Result<Rv, AllocError>
        ensures { IfOk result (λ v. v ≡ self.now) }
    {
        match self {
            Rv::Undefined => Ok(Rv::Undefined),
            Rv::Prim(key) => Ok(Rv::Prim(key.copy(alloc)?)),
            Rv::Obj(object) => Ok(Rv::Obj(*object)),
            Rv::Frozen(id) => Ok(Rv::Frozen(*id)),
        }
    }

    /// Whether it is `Undefined`.
    pub fn is_undefined(&self) -> bool
        ensures { result ≡ operations.is_undefined self.now }
    {
        match self {
            Rv::Undefined => true,
            Rv::Prim(_) | Rv::Obj(_) | Rv::Frozen(_) => false,
        }
    }

    /// Whether it is a container of a frozen state.
    pub fn is_frozen(&self) -> bool
        ensures { result ≡ operations.is_frozen self.now }
    {
        match self {
            Rv::Frozen(_) => true,
            Rv::Undefined | Rv::Prim(_) | Rv::Obj(_) => false,
        }
    }

    /// Whether two values are the same: primitives by value, objects by identity, frozen containers by number, `Undefined`
    /// with `Undefined`, and values of different kinds never.
    pub fn same(&self, other: &Rv) -> bool
        ensures { result ≡ spec.same self.now other.now }
    {
        match (self, other) {
            (Rv::Undefined, Rv::Undefined) => true,
            (Rv::Prim(a), Rv::Prim(b)) => a.compare(b).is_eq(),
            (Rv::Obj(a), Rv::Obj(b)) => (a.scope == b.scope) & (a.slot == b.slot),
            (Rv::Frozen(a), Rv::Frozen(b)) => a.get() == b.get(),
            _ => false,
        }
    }
}
