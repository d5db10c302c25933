ghost use Rattle.std.specs.Prelude.{◌≡◌, [], map};
ghost use Rattle.value_model.specs.Plain.{prim, node, none};
ghost use Rattle.value_model.specs.declared.kind.Kind.TheVariants as kind;

use std::alloc::Global;
use std::marker::Model;
use value_model::{Key, Text};

/// A value. The keys of an object, a Map and a Set ascend strictly.
///
/// A contract sees it as a `Plain`.
#[cycle(val)]
#[derive(Drop)]
pub struct Val {
    /// The primitive, or the container with all that is in it.
    pub node: ValNode,
}

/// What a value is: a primitive, or a container.
#[cycle(val)]
#[derive(Drop)]
pub enum ValNode {
    /// A primitive: null, a boolean, an integer or a text.
    Prim(Key),
    /// An object, by its entries.
    Obj(Vec<Field>),
    /// A list, by its elements.
    List(Vec<Val>),
    /// A Map, by its entries.
    Map(Vec<Entry>),
    /// A Set, by its members, which are primitives.
    Set(Vec<Key>),
}

/// An entry of an object.
#[cycle(val)]
#[derive(Drop)]
pub struct Field {
    /// Its name, of at most 2^20 bytes.
    pub key: Text,
    /// What stands under the name.
    pub value: Val,
}

/// An entry of a Map.
#[cycle(val)]
#[derive(Drop)]
pub struct Entry {
    /// Its key, a primitive.
    pub key: Key,
    /// What stands under the key.
    pub value: Val,
}

impl Model for Val {
    ghost use Rattle.value_model.specs.Plain.{Plain, values};
    ghost use Rattle.value_model.specs.Code.{coded_plain};

    ghost Value = { Plain };

    ghost coded = { coded_plain };

    ghost use Rattle.values.specs.Seen.{plain_of, Ascends};

    ghost view = { λ v. plain_of v.node };

    ghost invariant = { λ v. Ascends v.node };

    ghost size = { values };

    ghost use Rattle.values.specs.Falls.{falls};
    ghost use Rattle.std.proofs.Common.{arith};

    ghost size_decreases = { λ a h. omega (arith, falls a.node) };
}

impl Val {
    /// The value of a primitive.
    pub fn primitive(key: Key) -> Val
        ensures { result ≡ prim key }
    {
        Val {
            node: ValNode::Prim(key),
        }
    }

    /// The object without fields.
    pub fn empty_object(alloc: Global) -> Val
        ensures { result ≡ node kind.Obj none }
    {
        Val {
            node: ValNode::Obj(Vec::new(alloc)),
        }
    }
}
