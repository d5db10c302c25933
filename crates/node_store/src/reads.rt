//! Reading a node: all of these take no memory.
ghost use Rattle.std.specs.Prelude.{◌≡◌, ◌≢◌, ℕ, ◌+◌, ◌-◌, ◌<◌, ◌≤◌, ◌^◌, Some, MatchOption, length, slice_get};
ghost use Rattle.value_model.specs.Plain as plain_value;
ghost use Rattle.value_model.specs.declared.kind.Kind.TheVariants as kind;
ghost use Rattle.numbered.specs.Tree as tree;
ghost use Rattle.numbered.specs.Tree.{plain, branches_of, children};
ghost use Rattle.numbered.specs.Store.{IsNumber, tree_at};
ghost use Rattle.node_store.specs.Nodes.{kind_of, keys_of, cells_of, cell_tree, CellBelow};
ghost use Rattle.node_store.specs.Paged.{states};

use crate::store::Store;
use page_tables::{Cell, NodeId, last_at_most};
use std::cmp::Ordering;
use value_model::{Key, Kind};

/// A place in a state: the node that it lies in, and how many container places come before it there.
#[derive(Drop)]
struct Spot {
    id: NodeId,
    left: u64,
}

impl Store {
    /// What kind of container the node is.
    pub fn kind(&self, id: NodeId) -> Kind
        requires { id ≤ length (states self.now) }
        ensures { result ≡ kind_of (tree_at (states self.now) id) }
    {
        self.held(id).node.kind
    }

    /// How many entries the node has.
    pub fn count(&self, id: NodeId) -> usize
        requires { id ≤ length (states self.now) }
        ensures { result ≡ length (cells_of (tree_at (states self.now) id)) }
    {
        self.held(id).count as usize
    }

    /// The key of an entry; in a Set the member itself.
    pub fn key(&self, id: NodeId, i: usize) -> &Key
        requires number { id ≤ length (states self.now) }
        requires in_range { i < length (cells_of (tree_at (states self.now) id)) }
        requires keyed { kind_of (tree_at (states self.now) id) ≢ kind.List }
        ensures { slice_get (keys_of (tree_at (states self.now) id)) i ≡ Some result.now }
    {
        self.row(id, i).key()
    }

    /// What stands at an entry.
    pub fn cell(&self, id: NodeId, i: usize) -> &Cell
        requires number { id ≤ length (states self.now) }
        requires in_range { i < length (cells_of (tree_at (states self.now) id)) }
        ensures value { slice_get (cells_of (tree_at (states self.now) id)) i ≡ Some result.now }
        ensures child { slice_get (children (branches_of (tree_at (states self.now) id))) i ≡ Some (cell_tree (states self.now) result.now) }
        ensures below { CellBelow (states self.now) result.now }
    {
        self.row(id, i).cell()
    }

    /// The index of the entry with this key, or None exactly where no entry has it. In a list no entry has a key.
    pub fn find(&self, id: NodeId, key: &Key) -> Option<usize>
        requires { id ≤ length (states self.now) }
        ensures { MatchOption result ((i : ℕ) → slice_get (keys_of (tree_at (states self.now) id)) i ≢ Some key.now) (λ i. slice_get (keys_of (tree_at (states self.now) id)) i ≡ Some key.now) }
    {
        match self.kind(id) {
            Kind::List => None,
            Kind::Obj | Kind::Map | Kind::Set => self.search(id, key),
        }
    }

    /// The same where the entries have keys, which ascend: a binary search.
    fn search(&self, id: NodeId, key: &Key) -> Option<usize>
        requires number { id ≤ length (states self.now) }
        requires keyed { kind_of (tree_at (states self.now) id) ≢ kind.List }
        ensures { MatchOption result ((i : ℕ) → slice_get (keys_of (tree_at (states self.now) id)) i ≢ Some key.now) (λ i. slice_get (keys_of (tree_at (states self.now) id)) i ≡ Some key.now) }
    {
        let mut low = 0;
        let mut high = self.size(id);
        while low < high {
            let mid = low + (high - low) / 2;
            match self.key(id, mid).compare(key) {
                Ordering::Equal => return Some(mid),
                Ordering::Less => low = mid + 1,
                Ordering::Greater => high = mid,
            }
        }
        None
    }

    /// What the node's value weighs, at most 2^20.
    pub fn weight(&self, id: NodeId) -> u64
        requires { id ≤ length (states self.now) }
        ensures value { result ≡ plain_value.weight (plain (tree_at (states self.now) id)) }
        ensures small { result ≤ 2 ^ 20 }
    {
        self.held(id).weight as u64
    }

    /// How many values the node's value has, itself counted.
    pub fn values(&self, id: NodeId) -> u64
        requires { id ≤ length (states self.now) }
        ensures value { result ≡ plain_value.values (plain (tree_at (states self.now) id)) }
        ensures small { result ≤ 2 ^ 20 }
    {
        self.held(id).values as u64
    }

    /// How many containers nest in the node's value, itself counted.
    pub fn depth(&self, id: NodeId) -> u64
        requires { id ≤ length (states self.now) }
        ensures value { result ≡ plain_value.depth (plain (tree_at (states self.now) id)) }
        ensures small { result ≤ 32 }
    {
        self.held(id).depth as u64
    }

    /// How many container places the node's state has, its own counted.
    pub fn containers(&self, id: NodeId) -> u64
        requires { id ≤ length (states self.now) }
        ensures value { result ≡ tree.containers (tree_at (states self.now) id) }
        ensures small { result ≤ 2 ^ 20 }
    {
        self.held(id).containers as u64
    }

    /// How many container places stand in the entries before the i-th.
    pub fn before(&self, id: NodeId, i: usize) -> u64
        requires number { id ≤ length (states self.now) }
        requires in_range { i < length (cells_of (tree_at (states self.now) id)) }
        ensures { result ≡ tree.before i (branches_of (tree_at (states self.now) id)) }
    {
        let held = self.held(id);
        let j = last_at_most(&held.starts, i as u64);
        let mut total = held.before[j] as u64;
        for k in held.starts[j] as usize..i {
            total += self.places_at(id, k);
        }
        total
    }

    /// How many container places stand in an entry.
    fn places_at(&self, id: NodeId, i: usize) -> u64
        requires number { id ≤ length (states self.now) }
        requires in_range { i < length (cells_of (tree_at (states self.now) id)) }
        ensures more { tree.before (i + 1) (branches_of (tree_at (states self.now) id)) ≡ tree.before i (branches_of (tree_at (states self.now) id)) + result }
        ensures small { result ≤ 2 ^ 20 }
    {
        match self.cell(id, i) {
            Cell::Prim(_) => 0,
            Cell::Node(child) => self.containers(*child),
        }
    }

    /// The entry in which the n-th of the container places below the node lies.
    pub fn entry_at(&self, id: NodeId, n: u64) -> usize
        requires number { id ≤ length (states self.now) }
        requires inside { n < tree.containers_in (branches_of (tree_at (states self.now) id)) }
        ensures in_range { result < length (cells_of (tree_at (states self.now) id)) }
        ensures from { tree.before result (branches_of (tree_at (states self.now) id)) ≤ n }
        ensures to { n < tree.before (result + 1) (branches_of (tree_at (states self.now) id)) }
    {
        let held = self.held(id);
        let j = last_at_most(&held.before, n);
        let mut i = held.starts[j] as usize;
        let mut end = held.before[j] as u64 + self.places_at(id, i);
        while end <= n {
            i += 1;
            end += self.places_at(id, i);
        }
        i
    }

    /// The node of the n-th container place of a state, in pre-order: place 0 is the state itself.
    pub fn locate(&self, root: NodeId, n: u64) -> NodeId
        requires number { root ≤ length (states self.now) }
        requires inside { n < tree.containers (tree_at (states self.now) root) }
        ensures number { IsNumber (states self.now) result }
        ensures place { tree.place n (tree_at (states self.now) root) ≡ Some (tree_at (states self.now) result) }
    {
        let mut id = root;
        let mut left = n;
        while left > 0 {
            let spot = self.step(id, left - 1);
            id = spot.id;
            left = spot.left;
        }
        id
    }

    /// The child in which the n-th of the container places below the node lies.
    fn step(&self, id: NodeId, n: u64) -> Spot
        requires number { id ≤ length (states self.now) }
        requires inside { n < tree.containers_in (branches_of (tree_at (states self.now) id)) }
        ensures number { IsNumber (states self.now) result.id }
        ensures less { result.left ≤ n }
        ensures inside { result.left < tree.containers (tree_at (states self.now) result.id) }
        ensures place { tree.place_in n (branches_of (tree_at (states self.now) id)) ≡ tree.place result.left (tree_at (states self.now) result.id) }
    {
        let i = self.entry_at(id, n);
        let left = n - self.before(id, i);
        match self.cell(id, i) {
            Cell::Node(child) => Spot { id: *child, left },
            Cell::Prim(_) => unreachable!(),
        }
    }
}
