//! Keeping a change of a flat root: the root draft is frozen as a node of the store, with the patches there and back.
ghost use Rattle.node_store.specs.Paged.{states};
ghost use Rattle.std.specs.Prelude.{◌≡◌, ◌≤◌, ◌<◌, ◌^◌, List, length, map, IfOk, IsTrue};
ghost use Rattle.std.specs.FinMap.Entries.{is_sorted};
ghost use Rattle.value_model.specs.Order.{key_cmp};
ghost use Rattle.numbered.specs.Tree.{Tree};
ghost use Rattle.node_store.specs.Added.{state_of as node_state};
ghost use Rattle.node_store.specs.Nodes.{CellsBelow};
ghost use Rattle.host_machine.specs.Flat.{is_integer, is_flat_table};
ghost use Rattle.host_machine.specs.Machine.{is_heavy as is_heavy_of};
ghost use Rattle.host_engine.specs.Drafts.{plain_of, plain_rows};
ghost use Rattle.host_engine.specs.Kept.{IsFlatState, of_field, table_at};
ghost use Rattle.host_engine.specs.Frozen.{frozen, key_of, cell_of, leaf_cell, Changes, Pairs, Plans, between_tables};

use crate::fields::{Field, fields_at, fields_of, object_weight};
use crate::pairs::{differences, patches_weight};
use draft_core::{Rv, Table};
use node_store::{Cell, Cells, Keys, Node, NodeId, Store, StoreFault};
use plain_values::{Key, Kind, Pair};
use std::alloc::{AllocError, Global};

/// What a state may weigh.
const MAX_WEIGHT: u64 = 1 << 20;

/// What the patches of a change may weigh, there and back together.
const MAX_PATCHES: u64 = 1 << 22;

/// A change that is kept: the number of the new state, and the patches to it and back.
#[derive(Drop)]
pub struct Change {
    pub root: NodeId,
    pub pair: Pair,
}

/// Why a change was not kept, of several limits the first.
#[derive(Clone, Copy, Debug, Drop, PartialEq, Eq)]
pub enum ChangeStop {
    /// The state weighs too much.
    TooBig,
    /// No number or no room is left for the new state.
    Full,
    /// The patches weigh too much.
    PatchesTooBig,
    Memory,
}

impl From<AllocError> for ChangeStop {
    ghost use Rattle.host_engine.specs.declared.change.ChangeStop.TheVariants.{Memory};

    ghost from_gives = { λ _ e. e ≡ Memory };

    fn from(_: AllocError) -> Self {
        ChangeStop::Memory
    }
}

/// A change that is to be kept.
#[derive(Drop)]
pub struct Plan {
    pub node: Node,
    pub pair: Pair,
}

/// Keeps the state with this table, that of the root draft, under the next number. Where that is refused, or memory runs out, the
/// store is as before.
pub fn keep(
    store: &mut Store,
    alloc: Global,
    root: NodeId,
    table: Table,
) -> Result<Change, ChangeStop>
    requires state { IsFlatState (states store.old) root }
    requires sorted { IsTrue (is_sorted key_cmp (plain_rows table)) }
    requires flat { IsTrue (is_flat_table (plain_rows table)) }
    ensures change { Changes (states store.old) (states store.new) (table_at (states store.old) root) (plain_rows table) result }
    ensures few { length (states store.old) < 2 ^ 21 }
{
    let _few = store.len();
    let Plan { node, pair } = plan_change(store, alloc, root, table)?;
    let mark = store.mark();
    let root = match store.add(alloc, node) {
        Ok(root) => root,
        Err(StoreFault::Full) => return Err(ChangeStop::Full),
        Err(StoreFault::Memory) => return Err(ChangeStop::Memory),
    };
    if is_heavy(&pair) {
        store.cut_to(mark);
        return Err(ChangeStop::PatchesTooBig);
    }
    Ok(Change { root, pair })
}

/// The node of the table, which takes its keys over, and the patches to it from the state under the number and back.
fn plan_change(store: &Store, alloc: Global, root: NodeId, table: Table) -> Result<Plan, ChangeStop>
    requires state { IsFlatState (states store.now) root }
    requires sorted { IsTrue (is_sorted key_cmp (plain_rows table)) }
    requires flat { IsTrue (is_flat_table (plain_rows table)) }
    ensures { Plans (table_at (states store.now) root) (plain_rows table) result }
{
    let Table { entries } = table;
    let pair = pair_to(store, alloc, root, &entries)?;
    let node = node_of(alloc, entries)?;
    Ok(Plan { node, pair })
}

/// The patches from the state under the number to the one with these entries and back, where that isn't too heavy.
fn pair_to(
    store: &Store,
    alloc: Global,
    root: NodeId,
    rows: &[(Key, Rv)],
) -> Result<Pair, ChangeStop>
    requires state { IsFlatState (states store.now) root }
    requires sorted { IsTrue (is_sorted key_cmp (plain_rows rows.now)) }
    requires flat { IsTrue (is_flat_table (plain_rows rows.now)) }
    ensures { Pairs (table_at (states store.now) root) (plain_rows rows.now) result }
{
    let _in_order = store.len();
    let new = fields_of(alloc, rows)?;
    if object_weight(&new) > MAX_WEIGHT {
        return Err(ChangeStop::TooBig);
    }
    let old = fields_at(alloc, store, root)?;
    Ok(pair_of(alloc, &old, &new)?)
}

/// The object with these entries as a node.
fn node_of(alloc: Global, rows: Vec<(Key, Rv)>) -> Result<Node, AllocError>
    requires sorted { IsTrue (is_sorted key_cmp (plain_rows rows.items)) }
    requires flat { IsTrue (is_flat_table (plain_rows rows.items)) }
    ensures state { IfOk result (λ n. (ts : List Tree) → node_state ts n ≡ frozen ts (plain_rows rows.items)) }
    ensures below { IfOk result (λ n. (ts : List Tree) → CellsBelow ts n.cells) }
{
    let Parts { keys, cells } = parts_of(alloc, rows)?;
    Ok(Node {
        kind: Kind::Obj,
        keys: Keys::from_vec(keys),
        cells: Cells::from_vec(cells),
    })
}

/// The keys and the cells of a node.
#[derive(Drop)]
struct Parts {
    keys: Vec<Key>,
    cells: Vec<Cell>,
}

fn parts_of(alloc: Global, rows: Vec<(Key, Rv)>) -> Result<Parts, AllocError>
    requires { IsTrue (is_flat_table (plain_rows rows.items)) }
    ensures keys { IfOk result (λ p. p.keys.items ≡ map key_of (plain_rows rows.items)) }
    ensures cells { IfOk result (λ p. p.cells.items ≡ map cell_of (plain_rows rows.items)) }
{
    let mut keys = Vec::with_capacity(alloc, rows.len())?;
    let mut cells = Vec::with_capacity(alloc, rows.len())?;
    for (key, value) in rows {
        keys.push(key)?;
        cells.push(cell_from(value))?;
    }
    Ok(Parts { keys, cells })
}

/// A primitive as a cell.
fn cell_from(value: Rv) -> Cell
    requires { IsTrue (is_integer (plain_of value)) }
    ensures { result ≡ leaf_cell (plain_of value) }
{
    match value {
        Rv::Prim(key) => Cell::Prim(key),
        _ => unreachable!(),
    }
}

/// The patches from the old entries to the new ones and back.
fn pair_of(alloc: Global, old: &[Field], new: &[Field]) -> Result<Pair, AllocError>
    requires old_sorted { IsTrue (is_sorted key_cmp (map of_field old.now)) }
    requires new_sorted { IsTrue (is_sorted key_cmp (map of_field new.now)) }
    ensures { IfOk result (λ p. p ≡ between_tables (map of_field old.now) (map of_field new.now)) }
{
    Ok(Pair {
        forward: differences(alloc, old, new)?,
        inverse: differences(alloc, new, old)?,
    })
}

fn is_heavy(pair: &Pair) -> bool
    ensures { result ≡ is_heavy_of pair.now }
{
    let forward = patches_weight(&pair.forward);
    let inverse = patches_weight(&pair.inverse);
    forward.saturating_add(inverse) > MAX_PATCHES
}
