//! The places of declarations among those of a reducer.

use crate::first::keep_first;
use std::alloc::{AllocError, Global};
use std::collections::BTreeMap;

/// The place of each declaration, by the number of its token, and how many there are.
#[derive(Drop)]
pub(crate) struct Places {
    pub numbers: BTreeMap<usize, usize>,
    pub count: usize,
}

impl Places {
    ghost use Rattle.std.specs.Prelude.{◌≡◌, ℕ, IfOk, length};
    ghost use Rattle.script_names.specs.Slots.{declarations, place};
    ghost use Rattle.js_slots.specs.Numbers.{place_in};

    /// The declarations among these names, which belong to themselves.
    pub(crate) fn of(alloc: Global, found: &[(usize, usize)]) -> Result<Places, AllocError>
        ensures places { IfOk result (λ p. (d : ℕ) → place_in p d ≡ place (declarations found.now) d) }
        ensures count { IfOk result (λ p. p.count ≡ length (declarations found.now)) }
    {
        let mut numbers = BTreeMap::new(alloc);
        let mut count = 0;
        for n in found {
            let token = n.0;
            if token != n.1 {
                continue;
            }
            keep_first(&mut numbers, token, count)?;
            count += 1;
        }
        Ok(Places { numbers, count })
    }

    /// How many declarations stand before this one.
    pub(crate) fn place(&self, declaration: usize) -> usize
        ensures { result ≡ place_in self.now declaration }
    {
        match self.numbers.get(&declaration) {
            Some(number) => *number,
            None => self.count,
        }
    }
}
