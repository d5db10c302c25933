ghost use Rattle.std.specs.Prelude.{◌≡◌};

use crate::value::Rv;
use node_store::NodeId;
use std::marker::Model;
use value_model::{Key, Kind};

/// The entries of an object: in a list each value under the key null, in a Set each member under itself.
///
/// A contract sees them as a list of pairs.
#[derive(Drop)]
pub struct Table {
    pub entries: Vec<(Key, Rv)>,
}

impl Model for Table {
    ghost use Rattle.std.specs.Prelude.{List};
    ghost use Rattle.value_model.specs.declared.key.Key.{Key};
    ghost use Rattle.run_heap.specs.declared.value.Rv.{Rv};

    ghost Value = { List (Key × Rv) };

    ghost view = { λ t. t.entries.items };
}

impl Table {
    /// These entries. It takes no memory.
    pub fn from_vec(entries: Vec<(Key, Rv)>) -> Table
        ensures { result ≡ entries.items }
    {
        Table { entries }
    }

    /// The entries, to be read.
    pub fn as_slice(&self) -> &[(Key, Rv)]
        ensures { result.now ≡ self.now }
    {
        self.entries.as_slice()
    }
}

/// What an object of a run holds.
#[derive(Drop)]
pub struct Content {
    pub kind: Kind,
    pub table: Table,
    /// The frozen container that the object was opened on.
    pub source: Option<NodeId>,
    /// Whether a write left it different.
    pub written: bool,
}
