ghost use Rattle.std.specs.Prelude.{◌≡◌, ◌≤◌, MatchOption, IfOk};

use std::alloc::{AllocError, Global};
use std::marker::Model;
use value_model::Key;

/// The number of a node, from 1 on.
///
/// A contract sees it as the number.
#[derive(Clone, Copy, Debug, Drop, PartialEq, Eq, PartialOrd, Ord)]
pub struct NodeId {
    number: u64,
}

impl Model for NodeId {
    ghost use Rattle.std.specs.Prelude.{ℕ, ◌≤◌};

    ghost Value = { ℕ };

    ghost view = { λ id. id.number };

    ghost invariant = { λ id. 1 ≤ id.number };

    ghost inverse = { λ n. record { number = n } };
}

impl NodeId {
    /// The number as that of a node; None exactly for 0.
    pub fn of(number: u64) -> Option<NodeId>
        ensures { MatchOption result (number ≡ 0) (λ id. (id ≡ number) × (1 ≤ id)) }
    {
        if number == 0 {
            None
        } else {
            Some(NodeId { number })
        }
    }

    /// The number of the n-th node, counted from 1.
    pub fn nth(number: u64) -> NodeId
        requires { 1 ≤ number }
        ensures { result ≡ number }
    {
        NodeId { number }
    }

    /// The number.
    pub fn get(&self) -> u64
        ensures value { result ≡ self.now }
        ensures from_one { 1 ≤ self.now }
    {
        self.number
    }
}

/// What stands at an entry of a node: a primitive, or another node.
#[derive(Debug, Drop)]
pub enum Cell {
    /// The primitive itself.
    Prim(Key),
    /// A container, by its number.
    Node(NodeId),
}

impl Cell {
    /// The same cell.
    pub fn copy(&self, alloc: Global) -> Result<Cell, AllocError>
        ensures { IfOk result (λ c. c ≡ self.now) }
    {
        match self {
            Cell::Prim(key) => Ok(Cell::Prim(key.copy(alloc)?)),
            Cell::Node(id) => Ok(Cell::Node(*id)),
        }
    }
}
