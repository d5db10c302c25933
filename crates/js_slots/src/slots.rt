//! The number of the variable that each name of a reducer stands for.

use crate::first::keep_first;
use crate::places::Places;
use std::alloc::{AllocError, Global};
use std::collections::BTreeMap;

/// The numbers of variables by the numbers of the tokens of their names.
#[derive(Drop)]
pub struct Slots {
    /// For each token that is such a name, the number of its variable, from 0 below `count`.
    pub numbers: BTreeMap<usize, usize>,
    /// How many variables the reducer has.
    pub count: usize,
}

impl Slots {
    ghost use Rattle.std.specs.Prelude.{◌≡◌, ℕ, IfOk, length};
    ghost use Rattle.script_names.specs.Slots.{declarations, slots};
    ghost use Rattle.js_slots.specs.Numbers.{number_in, slot_at};

    /// The numbers of the variables of a reducer whose names belong to these declarations.
    pub fn of(alloc: Global, found: &[(usize, usize)]) -> Result<Slots, AllocError>
        ensures slots { IfOk result (λ s. (token : ℕ) → number_in s token ≡ slot_at (slots found.now) token) }
        ensures count { IfOk result (λ s. s.count ≡ length (declarations found.now)) }
    {
        let places = Places::of(alloc, found)?;
        let mut numbers = BTreeMap::new(alloc);
        for n in found {
            keep_first(&mut numbers, n.0, places.place(n.1))?;
        }
        let count = places.count;
        Ok(Slots { numbers, count })
    }

    /// The number of the variable that the name of this token stands for; `None` where the token is no such name.
    pub fn slot(&self, token: usize) -> Option<usize>
        ensures { result ≡ number_in self.now token }
    {
        self.numbers.get(&token).copied()
    }
}
