ghost use Rattle.std.specs.Prelude.{◌≡◌, ◌<◌, ◌++◌, ◌∷◌, [], length, drop, slice_get, option_map, MatchOption, OnOk, OnErr};

use crate::packed::Packed;
use std::alloc::{AllocError, Global};
use std::marker::Model;

/// A list of packed pairs.
///
/// A contract sees it as the list of the pairs.
#[derive(Drop)]
pub struct Pairs {
    rows: Vec<Row>,
}

/// What stands at one place of the list.
#[derive(Drop)]
struct Row {
    pair: Packed,
}

impl Model for Pairs {
    ghost use Rattle.std.specs.Prelude.{List, map};
    ghost use Rattle.values.specs.declared.patch.Pair.{Pair};

    ghost Value = { List Pair };

    ghost use Rattle.std.specs.Coded.{codes};
    ghost use Rattle.values.specs.contracts.patch.Pair as pair;

    ghost coded = { Prim.hlevel (codes, pair.the_row.coded) };

    ghost view = { λ p. map (λ r. r.pair) p.rows.items };
}

impl Pairs {
    /// No pairs. It takes no memory.
    pub fn new(alloc: Global) -> Pairs
        ensures { result ≡ [] }
    {
        Pairs {
            rows: Vec::new(alloc),
        }
    }

    /// How many pairs there are. It takes no memory.
    pub fn len(&self) -> usize
        ensures { result ≡ length self.now }
    {
        self.rows.len()
    }

    /// The pair at a place, or None exactly past the end. It takes no memory.
    pub fn get(&self, i: usize) -> Option<&Packed>
        ensures { option_map (λ p. p.now) result ≡ slice_get self.now i }
    {
        match self.rows.get(i) {
            Some(row) => Some(&row.pair),
            None => None,
        }
    }

    /// Adds a pair at the end; after want of memory the list is as before.
    pub fn push(&mut self, pair: Packed) -> Result<(), AllocError>
        ensures ok { OnOk result (self.new ≡ self.old ++ pair ∷ []) }
        ensures err { OnErr result (self.new ≡ self.old) }
    {
        self.rows.push(Row { pair })?;
        Ok(())
    }

    /// Takes the last pair, or None exactly where there is none. It takes no memory.
    pub fn pop(&mut self) -> Option<Packed>
        ensures { MatchOption result ((self.old ≡ []) × (self.new ≡ [])) (λ p. self.old ≡ self.new ++ p ∷ []) }
    {
        match self.rows.pop() {
            Some(Row { pair }) => Some(pair),
            None => None,
        }
    }

    /// Drops the first pair. It takes no memory.
    pub fn drop_first(&mut self)
        requires { 0 < length self.old }
        ensures { self.new ≡ drop 1 self.old }
    {
        let _ = self.rows.remove(0);
    }

    /// Drops all pairs. It takes no memory.
    pub fn clear(&mut self)
        ensures { self.new ≡ [] }
    {
        self.rows.clear();
    }
}
