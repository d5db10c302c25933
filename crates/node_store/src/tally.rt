//! What a node that is to be added measures: sums over its keys and cells, each by the kept measures of its children.
ghost use Rattle.std.specs.Prelude.{◌≡◌, ◌+◌, ◌≤◌, ◌^◌, IfOk};
ghost use Rattle.value_model.specs.Plain as plain_value;
ghost use Rattle.numbered.specs.Store.{IsStore};
ghost use Rattle.numbered.specs.Tree as tree;
ghost use Rattle.numbered.specs.Tree.{plain, child_weight};
ghost use Rattle.node_store.specs.Kept.{sums};
ghost use Rattle.node_store.specs.Nodes.{cell_tree, CellBelow, CellsBelow};
ghost use Rattle.node_store.specs.Paged.{states};
ghost use Rattle.node_store.specs.Sums as spec;
ghost use Rattle.node_store.specs.Sums.{key_sum, IsLight, IsMeasured};

use crate::held::Measures;
use crate::store::Store;
use page_tables::Cell;
use std::alloc::{AllocError, Global};
use value_model::{Key, Kind};
use values::key_weight;

/// What the keys of a node weigh: nothing in a list or a Set.
fn keys_weight(kind: Kind, keys: &[Key]) -> u64
    requires { spec.keys_weight kind keys.now ≤ 2 ^ 20 }
    ensures { result ≡ spec.keys_weight kind keys.now }
{
    match kind {
        Kind::Obj | Kind::Map => sum_of_keys(keys),
        Kind::List | Kind::Set => 0,
    }
}

fn sum_of_keys(keys: &[Key]) -> u64
    requires { key_sum keys.now ≤ 2 ^ 20 }
    ensures { result ≡ key_sum keys.now }
{
    let mut total = 0;
    for key in keys {
        total += key_weight(key);
    }
    total
}

impl Store {
    /// What a table measures.
    pub(crate) fn measure(&self, kind: Kind, keys: &[Key], cells: &[Cell]) -> Measures
        requires store { IsStore (states self.now) }
        requires below { CellsBelow (states self.now) cells.now }
        requires light { IsLight (states self.now) kind keys.now cells.now }
        ensures { IsMeasured (states self.now) kind keys.now cells.now result }
    {
        let keys = keys_weight(kind, keys);
        Measures {
            own: 1 + keys + self.own_weights(cells),
            weight: 1 + keys + self.cell_weights(cells),
            values: 1 + self.cell_values(cells),
            depth: 1 + self.deepest_cell(cells),
            containers: 1 + self.cell_containers(cells),
        }
    }

    /// What the cells weigh in the node's own weight: a container 1.
    fn own_weights(&self, cells: &[Cell]) -> u64
        requires store { IsStore (states self.now) }
        requires below { CellsBelow (states self.now) cells.now }
        requires small { spec.own_weights (states self.now) cells.now ≤ 2 ^ 20 }
        ensures { result ≡ spec.own_weights (states self.now) cells.now }
    {
        let mut total = 0;
        for cell in cells {
            total += self.own_weight_of(cell);
        }
        total
    }

    fn own_weight_of(&self, cell: &Cell) -> u64
        requires store { IsStore (states self.now) }
        requires below { CellBelow (states self.now) cell.now }
        requires small { child_weight (cell_tree (states self.now) cell.now) ≤ 2 ^ 20 }
        ensures { result ≡ child_weight (cell_tree (states self.now) cell.now) }
    {
        match cell {
            Cell::Prim(key) => key_weight(key),
            Cell::Node(_) => 1,
        }
    }

    fn cell_weights(&self, cells: &[Cell]) -> u64
        requires below { CellsBelow (states self.now) cells.now }
        requires small { spec.cell_weights (states self.now) cells.now ≤ 2 ^ 20 }
        ensures { result ≡ spec.cell_weights (states self.now) cells.now }
    {
        let mut total = 0;
        for cell in cells {
            total += self.weight_of(cell);
        }
        total
    }

    fn weight_of(&self, cell: &Cell) -> u64
        requires below { CellBelow (states self.now) cell.now }
        requires small { plain_value.weight (plain (cell_tree (states self.now) cell.now)) ≤ 2 ^ 20 }
        ensures { result ≡ plain_value.weight (plain (cell_tree (states self.now) cell.now)) }
    {
        match cell {
            Cell::Prim(key) => key_weight(key),
            Cell::Node(id) => self.weight(*id),
        }
    }

    fn cell_values(&self, cells: &[Cell]) -> u64
        requires below { CellsBelow (states self.now) cells.now }
        requires small { spec.cell_values (states self.now) cells.now ≤ 2 ^ 20 }
        ensures { result ≡ spec.cell_values (states self.now) cells.now }
    {
        let mut total = 0;
        for cell in cells {
            total += self.values_of(cell);
        }
        total
    }

    fn values_of(&self, cell: &Cell) -> u64
        requires { CellBelow (states self.now) cell.now }
        ensures { result ≡ plain_value.values (plain (cell_tree (states self.now) cell.now)) }
    {
        match cell {
            Cell::Prim(_) => 1,
            Cell::Node(id) => self.values(*id),
        }
    }

    fn deepest_cell(&self, cells: &[Cell]) -> u64
        requires { CellsBelow (states self.now) cells.now }
        ensures { result ≡ spec.deepest_cell (states self.now) cells.now }
    {
        let mut most = 0;
        for cell in cells {
            most = self.depth_of(cell).max(most);
        }
        most
    }

    fn depth_of(&self, cell: &Cell) -> u64
        requires { CellBelow (states self.now) cell.now }
        ensures { result ≡ plain_value.depth (plain (cell_tree (states self.now) cell.now)) }
    {
        match cell {
            Cell::Prim(_) => 0,
            Cell::Node(id) => self.depth(*id),
        }
    }

    fn cell_containers(&self, cells: &[Cell]) -> u64
        requires below { CellsBelow (states self.now) cells.now }
        requires small { spec.cell_containers (states self.now) cells.now ≤ 2 ^ 20 }
        ensures { result ≡ spec.cell_containers (states self.now) cells.now }
    {
        let mut total = 0;
        for cell in cells {
            total += self.containers_of(cell);
        }
        total
    }

    fn containers_of(&self, cell: &Cell) -> u64
        requires { CellBelow (states self.now) cell.now }
        ensures { result ≡ tree.containers (cell_tree (states self.now) cell.now) }
    {
        match cell {
            Cell::Prim(_) => 0,
            Cell::Node(id) => self.containers(*id),
        }
    }

    /// For each cell, how many containers stand in the cells before it.
    pub(crate) fn sums(&self, alloc: Global, cells: &[Cell]) -> Result<Vec<u32>, AllocError>
        requires below { CellsBelow (states self.now) cells.now }
        requires small { spec.cell_containers (states self.now) cells.now ≤ 2 ^ 20 }
        ensures { IfOk result (λ v. v.items ≡ sums (states self.now) 0 cells.now) }
    {
        let mut out = Vec::with_capacity(alloc, cells.len())?;
        let mut total: u64 = 0;
        for cell in cells {
            out.push(total as u32)?;
            total += self.containers_of(cell);
        }
        Ok(out)
    }
}
