ghost use Rattle.std.specs.Prelude.{◌≡◌};

use page_tables::Cell;
use std::marker::Model;
use value_model::{Key, Kind};

/// The keys of a node.
///
/// A contract sees them as a list.
#[derive(Drop)]
pub struct Keys {
    keys: Vec<Key>,
}

impl Model for Keys {
    ghost use Rattle.std.specs.Prelude.{List};
    ghost use Rattle.value_model.specs.declared.key.Key.{Key};

    ghost Value = { List Key };

    ghost view = { λ k. k.keys.items };
}

impl Keys {
    /// These keys. It takes no memory.
    pub fn from_vec(keys: Vec<Key>) -> Keys
        ensures { result ≡ keys.items }
    {
        Keys { keys }
    }

    /// The keys as a vector. It takes no memory.
    pub fn into_vec(self) -> Vec<Key>
        ensures { result.items ≡ self }
    {
        self.keys
    }

    /// The keys, to be read.
    pub fn as_slice(&self) -> &[Key]
        ensures { result.now ≡ self.now }
    {
        self.keys.as_slice()
    }
}

/// The cells of a node.
///
/// A contract sees them as a list.
#[derive(Drop)]
pub struct Cells {
    cells: Vec<Cell>,
}

impl Model for Cells {
    ghost use Rattle.std.specs.Prelude.{List};
    ghost use Rattle.page_tables.specs.declared.cell.Cell.{Cell};

    ghost Value = { List Cell };

    ghost view = { λ c. c.cells.items };
}

impl Cells {
    /// These cells. It takes no memory.
    pub fn from_vec(cells: Vec<Cell>) -> Cells
        ensures { result ≡ cells.items }
    {
        Cells { cells }
    }

    /// The cells as a vector. It takes no memory.
    pub fn into_vec(self) -> Vec<Cell>
        ensures { result.items ≡ self }
    {
        self.cells
    }

    /// The cells, to be read.
    pub fn as_slice(&self) -> &[Cell]
        ensures { result.now ≡ self.now }
    {
        self.cells.as_slice()
    }
}

/// A container whose children are named by number.
///
/// A list has no keys. Otherwise the keys ascend strictly and are as many as the cells; an object's keys are texts, and in
/// a Set each cell is its key.
#[derive(Drop)]
pub struct Node {
    /// What the container is.
    pub kind: Kind,
    /// The keys of its entries; none in a list.
    pub keys: Keys,
    /// What stands at its entries, in their order.
    pub cells: Cells,
    /// The keys fit the kind and the cells.
    pub ghost fits: { IsTrue (is_node kind keys cells) },
}

ghost use Rattle.std.specs.Prelude.{IsTrue};
ghost use Rattle.node_store.specs.Nodes.{is_node};
