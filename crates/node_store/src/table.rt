ghost use Rattle.std.specs.Prelude.{◌≡◌, ◌∷◌, [], ◌++◌, map, IfOk, IsTrue};
ghost use Rattle.node_store.specs.Nodes.{is_node};

use crate::node::{Cells, Keys, Node};
use page_tables::Cell;
use std::alloc::{AllocError, Global};
use std::marker::Model;
use value_model::{Key, Kind};

/// The entries of a container that is being loaded.
///
/// A contract sees them as a list of pairs.
#[derive(Drop)]
pub struct Table {
    keys: Vec<Key>,
    cells: Vec<Cell>,
}

impl Model for Table {
    ghost use Rattle.std.specs.Prelude.{◌≡◌, List, length};
    ghost use Rattle.std.specs.List.{zip};
    ghost use Rattle.value_model.specs.declared.key.Key.{Key};
    ghost use Rattle.page_tables.specs.declared.cell.Cell.{Cell};

    ghost Value = { List (Key × Cell) };

    ghost view = { λ t. zip t.keys.items t.cells.items };

    ghost invariant = { λ t. length t.keys.items ≡ length t.cells.items };
}

impl Table {
    /// No entries, and room for some.
    pub fn with_capacity(alloc: Global, n: usize) -> Result<Table, AllocError>
        ensures { IfOk result (λ t. t ≡ []) }
    {
        Ok(Table {
            keys: Vec::with_capacity(alloc, n)?,
            cells: Vec::with_capacity(alloc, n)?,
        })
    }

    /// These entries and one more.
    pub fn push(self, key: Key, cell: Cell) -> Result<Table, AllocError>
        ensures { IfOk result (λ t. t ≡ self ++ (key, cell) ∷ []) }
    {
        let Table {
            mut keys,
            mut cells,
        } = self;
        keys.push(key)?;
        cells.push(cell)?;
        Ok(Table { keys, cells })
    }

    /// The entries as a node.
    pub fn into_node(self, kind: Kind) -> Node
        requires { IsTrue (is_node kind (map (λ r. r.0) self) (map (λ r. r.1) self)) }
        ensures kind { result.kind ≡ kind }
        ensures keys { result.keys ≡ map (λ r. r.0) self }
        ensures cells { result.cells ≡ map (λ r. r.1) self }
    {
        let Table { keys, cells } = self;
        let keys = Keys::from_vec(keys);
        let cells = Cells::from_vec(cells);
        Node { kind, keys, cells }
    }
}
