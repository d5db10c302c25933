ghost use Rattle.std.specs.Prelude.{◌≡◌};

use std::marker::Model;
use value_model::Op;
use values::{Text, Val};

/// The steps of a JSON Pointer (RFC 6901), its reference tokens with `~1` and `~0` read.
///
/// A contract sees it as the list of the steps, each its bytes.
#[derive(Drop)]
pub struct Steps {
    list: Vec<Text>,
}

impl Model for Steps {
    ghost use Rattle.std.specs.Prelude.{List, ℕ};

    ghost Value = { List (List ℕ) };

    ghost view = { λ s. s.list.items };
}

impl Steps {
    /// These steps. It takes no memory.
    pub fn from_vec(list: Vec<Text>) -> Steps
        ensures { result ≡ list.items }
    {
        Steps { list }
    }

    /// The steps. It takes no memory.
    pub fn into_vec(self) -> Vec<Text>
        ensures { result.items ≡ self }
    {
        self.list
    }

    /// The steps, to be read.
    pub fn as_slice(&self) -> &[Text]
        ensures { result.now ≡ self.now }
    {
        self.list.as_slice()
    }
}

/// An operation of a JSON Patch (RFC 6902): `add`, `remove` or `replace`.
#[derive(Drop)]
pub struct Pointer {
    /// What is done.
    pub op: Op,
    /// The steps to the place, from the whole value on; none where the whole value is meant.
    pub steps: Steps,
    /// The value that is added or put in place; None for a removal that has none.
    pub value: Option<Val>,
}

/// Operations of a JSON Patch, to be made one after another.
///
/// A contract sees it as the list of the operations.
#[derive(Drop)]
pub struct Pointers {
    list: Vec<Pointer>,
}

impl Model for Pointers {
    ghost use Rattle.std.specs.Prelude.{List};
    ghost use Rattle.plain_values.specs.declared.pointer.Pointer.{Pointer};

    ghost Value = { List Pointer };

    ghost use Rattle.std.specs.Coded.{codes};
    ghost use Rattle.plain_values.specs.contracts.pointer.Pointer as pointer;

    ghost coded = { Prim.hlevel (codes, pointer.the_row.coded) };

    ghost view = { λ p. p.list.items };
}

impl Pointers {
    /// These operations. It takes no memory.
    pub fn from_vec(list: Vec<Pointer>) -> Pointers
        ensures { result ≡ list.items }
    {
        Pointers { list }
    }

    /// The operations. It takes no memory.
    pub fn into_vec(self) -> Vec<Pointer>
        ensures { result.items ≡ self }
    {
        self.list
    }

    /// The operations, to be read.
    pub fn as_slice(&self) -> &[Pointer]
        ensures { result.now ≡ self.now }
    {
        self.list.as_slice()
    }
}
