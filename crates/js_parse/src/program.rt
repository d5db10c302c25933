//! Programs.

ghost use Rattle.std.specs.Prelude.{◌≡◌, ℕ, List};
ghost use Rattle.script_tree.specs.View.{program_of};
ghost use Rattle.script_names.specs.Names.{reducer_named};
ghost use Rattle.js_names.specs.Index.{number_in};

use js_names::Names;
use js_slots::Slots;
use script_tree::Reducer;
use sqlite_items::Items;

/// A program: its reducers, and the declaration that each of their names belongs to.
#[derive(Drop)]
pub struct Program {
    /// The reducers, in the text's order.
    pub reducers: Items<Reducer>,
    /// For each reducer the declaration that each of its names belongs to, and the reducers by their names.
    pub names: Names,
    /// For each reducer the numbers of its variables.
    pub slots: Items<Slots>,
    /// The index has each reducer under its name.
    pub ghost indexed: { (x : List ℕ) → number_in names.index x ≡ reducer_named x (program_of reducers) },
}

/// The number of a reducer among the reducers of a program.
#[derive(Clone, Copy, Debug, Drop, PartialEq, Eq)]
pub struct ReducerId {
    /// From 0, below the number of reducers.
    pub number: usize,
}

impl Program {
    ghost use Rattle.std.specs.Prelude.{option_map};

    /// The reducer of this name; `None` exactly where no reducer has it. Nothing is allocated.
    pub fn find(&self, name: &str) -> Option<ReducerId>
        ensures { option_map (λ id. id.number) result ≡ reducer_named name.now (program_of self.now.reducers) }
    {
        match self.names.index.find(name.as_bytes()) {
            Some(number) => Some(ReducerId { number }),
            None => None,
        }
    }
}
