ghost use Rattle.std.specs.Prelude.{◌≡◌, IfOk};

use crate::val::Val;
use std::alloc::{AllocError, Global};
use std::marker::Model;
use value_model::{Key, Op};

/// The steps from a value to a place inside it.
///
/// A contract sees it as the list of its keys.
#[derive(Drop)]
pub struct Path {
    keys: Vec<Key>,
}

impl Model for Path {
    ghost use Rattle.std.specs.Prelude.{List};
    ghost use Rattle.value_model.specs.declared.key.Key.{Key};

    ghost Value = { List Key };

    ghost view = { λ p. p.keys.items };
}

impl Path {
    /// The path of these steps. It takes no memory.
    pub fn from_vec(keys: Vec<Key>) -> Path
        ensures { result ≡ keys.items }
    {
        Path { keys }
    }

    /// The steps. It takes no memory.
    pub fn into_vec(self) -> Vec<Key>
        ensures { result.items ≡ self }
    {
        self.keys
    }

    /// The steps, to be read.
    pub fn as_slice(&self) -> &[Key]
        ensures { result.now ≡ self.now }
    {
        self.keys.as_slice()
    }
}

/// A change at one place, in the form of Immer 10.
#[derive(Drop)]
pub struct Patch {
    /// What is done.
    pub op: Op,
    /// The steps to the place, from the whole value on; none where the whole value is replaced.
    pub path: Path,
    /// The value that is set or inserted, in a Set the member that is added or removed; None for another removal.
    pub value: Option<Val>,
}

/// Changes, to be made one after another.
///
/// A contract sees it as the list of the patches.
#[derive(Drop)]
pub struct Patches {
    list: Vec<Patch>,
}

impl Model for Patches {
    ghost use Rattle.std.specs.Prelude.{List};
    ghost use Rattle.values.specs.declared.patch.Patch.{Patch};

    ghost Value = { List Patch };

    ghost use Rattle.std.specs.Coded.{codes};
    ghost use Rattle.values.specs.contracts.patch.Patch as patch;

    ghost coded = { Prim.hlevel (codes, patch.the_row.coded) };

    ghost view = { λ p. p.list.items };
}

impl Patches {
    /// These patches. It takes no memory.
    pub fn from_vec(list: Vec<Patch>) -> Patches
        ensures { result ≡ list.items }
    {
        Patches { list }
    }

    /// The patches. It takes no memory.
    pub fn into_vec(self) -> Vec<Patch>
        ensures { result.items ≡ self }
    {
        self.list
    }

    /// The patches, to be read.
    pub fn as_slice(&self) -> &[Patch]
        ensures { result.now ≡ self.now }
    {
        self.list.as_slice()
    }
}

/// The patches of a change, there and back.
#[derive(Drop)]
pub struct Pair {
    /// From the old state to the new one.
    pub forward: Patches,
    /// From the new state to the old one.
    pub inverse: Patches,
}
