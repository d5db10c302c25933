//! What a path leads to in a numbered state that the store keeps.
ghost use Rattle.node_store.specs.Paged.{states};
ghost use Rattle.std.specs.Prelude.{◌≡◌, ◌<◌, ℕ, pos, IfSome, IfOk, MatchOption, option_map, ◌∷◌};
ghost use Rattle.value_model.specs.declared.key.Key.TheVariants as key;
ghost use Rattle.numbered.specs.Store.{IsNumber, IsStore, tree_at};
ghost use Rattle.value_model.specs.Places.{at};
ghost use Rattle.numbered.specs.Tree.{plain};
ghost use Rattle.host_machine.specs.Machine.{number_if};
ghost use Rattle.node_store.specs.Nodes.{CellBelow, cell_tree};
ghost use Rattle.host_machine.specs.Paths.{subtree, subtree_at};
ghost use Rattle.host_engine.specs.Places.{IsEntry, IsNoIndex, IsNoStep};

use node_store::{Cell, NodeId, Store};
use plain_values::{Key, Kind, Path, Safe, Val};
use std::alloc::{AllocError, Global};

/// The value at a path of a state, None exactly where nothing stands there. The only error is want of memory.
pub fn value_at(
    store: &Store,
    alloc: Global,
    root: NodeId,
    path: &Path,
) -> Result<Option<Val>, AllocError>
    requires { IsNumber (states store.now) root }
    ensures { IfOk result (λ v. v ≡ at path.now (plain (tree_at (states store.now) root))) }
{
    let _in_order = store.len();
    match path.as_slice().split_first() {
        Some((first, rest)) => value_below(store, alloc, root, first, rest),
        None => Ok(Some(store.unfold(alloc, root)?)),
    }
}

fn value_below(
    store: &Store,
    alloc: Global,
    root: NodeId,
    first: &Key,
    rest: &[Key],
) -> Result<Option<Val>, AllocError>
    requires store { IsStore (states store.now) }
    requires number { IsNumber (states store.now) root }
    ensures { IfOk result (λ v. v ≡ option_map plain (subtree_at (first.now ∷ rest.now) (tree_at (states store.now) root))) }
{
    match cell_at(store, root, first, rest) {
        Some(cell) => Ok(Some(value_of(store, alloc, cell)?)),
        None => Ok(None),
    }
}

fn value_of(store: &Store, alloc: Global, cell: &Cell) -> Result<Val, AllocError>
    requires { CellBelow (states store.now) cell.now }
    ensures { IfOk result (λ v. v ≡ plain (cell_tree (states store.now) cell.now)) }
{
    match cell {
        Cell::Prim(key) => Ok(Val::primitive(key.copy(alloc)?)),
        Cell::Node(id) => store.unfold(alloc, *id),
    }
}

/// The number of the container at a path of a state, None within where a primitive stands there.
pub fn number_at(store: &Store, root: NodeId, path: &Path) -> Option<Option<u64>>
    requires { IsNumber (states store.now) root }
    ensures { result ≡ option_map number_if (subtree_at path.now (tree_at (states store.now) root)) }
{
    let _in_order = store.len();
    match path.as_slice().split_first() {
        Some((first, rest)) => number_below(store, root, first, rest),
        None => Some(Some(root.get())),
    }
}

fn number_below(store: &Store, root: NodeId, first: &Key, rest: &[Key]) -> Option<Option<u64>>
    requires store { IsStore (states store.now) }
    requires number { IsNumber (states store.now) root }
    ensures { result ≡ option_map number_if (subtree_at (first.now ∷ rest.now) (tree_at (states store.now) root)) }
{
    match cell_at(store, root, first, rest) {
        Some(cell) => Some(number_of(store, cell)),
        None => None,
    }
}

fn number_of(store: &Store, cell: &Cell) -> Option<u64>
    requires store { IsStore (states store.now) }
    requires below { CellBelow (states store.now) cell.now }
    ensures { result ≡ number_if (cell_tree (states store.now) cell.now) }
{
    match cell {
        Cell::Prim(_) => None,
        Cell::Node(id) => Some(id.get()),
    }
}

/// The cell to which a path below a node leads, None exactly where nothing stands there.
fn cell_at<'a>(store: &'a Store, root: NodeId, first: &Key, rest: &[Key]) -> Option<&'a Cell>
    requires store { IsStore (states store.now) }
    requires number { IsNumber (states store.now) root }
    ensures tree { option_map (λ c. cell_tree (states store.now) c.now) result ≡ subtree_at (first.now ∷ rest.now) (tree_at (states store.now) root) }
    ensures below { IfSome result (λ c. CellBelow (states store.now) c.now) }
{
    let mut cell = match child(store, root, first) {
        Some(cell) => cell,
        None => return None,
    };
    for step in rest {
        cell = match next(store, cell, step) {
            Some(cell) => cell,
            None => return None,
        };
    }
    Some(cell)
}

/// The cell to which a step leads.
fn next<'a>(store: &'a Store, cell: &Cell, step: &Key) -> Option<&'a Cell>
    requires store { IsStore (states store.now) }
    requires below { CellBelow (states store.now) cell.now }
    ensures tree { option_map (λ c. cell_tree (states store.now) c.now) result ≡ subtree step.now (cell_tree (states store.now) cell.now) }
    ensures below { IfSome result (λ c. CellBelow (states store.now) c.now) }
{
    match cell {
        Cell::Prim(_) => None,
        Cell::Node(id) => child(store, *id, step),
    }
}

/// The cell to which a step below a node leads.
fn child<'a>(store: &'a Store, id: NodeId, step: &Key) -> Option<&'a Cell>
    requires store { IsStore (states store.now) }
    requires number { IsNumber (states store.now) id }
    ensures tree { option_map (λ c. cell_tree (states store.now) c.now) result ≡ subtree step.now (tree_at (states store.now) id) }
    ensures below { IfSome result (λ c. CellBelow (states store.now) c.now) }
{
    match entry_at(store, id, step) {
        Some(i) => Some(store.cell(id, i)),
        None => None,
    }
}

/// The index of the entry to which a step leads, None exactly where there is none.
fn entry_at(store: &Store, id: NodeId, step: &Key) -> Option<usize>
    requires store { IsStore (states store.now) }
    requires number { IsNumber (states store.now) id }
    ensures { IsEntry (tree_at (states store.now) id) step.now result }
{
    match store.kind(id) {
        Kind::List => index_in(step, store.count(id)),
        Kind::Set => None,
        Kind::Obj => store.find(id, step),
        Kind::Map => store.find(id, step),
    }
}

/// The index that a step into a list of so many elements is.
fn index_in(step: &Key, count: usize) -> Option<usize>
    ensures { MatchOption result (IsNoStep step.now count) (λ i. (i < count) × (step.now ≡ key.Int (pos i))) }
{
    match step {
        Key::Int(number) => index_below(*number, count),
        _ => None,
    }
}

fn index_below(number: Safe, count: usize) -> Option<usize>
    ensures { MatchOption result (IsNoIndex number count) (λ i. (i < count) × (number ≡ pos i)) }
{
    match number.index() {
        Some(i) => {
            if i < count as u64 {
                Some(i as usize)
            } else {
                None
            }
        }
        None => None,
    }
}
