//! Reducers by their names.

use std::alloc::{AllocError, Global};
use std::collections::BTreeMap;

/// The numbers of reducers by their names.
#[derive(Drop)]
pub struct Index {
    numbers: BTreeMap<Vec<u8>, usize>,
}

impl Index {
    ghost use Rattle.std.specs.Prelude.{◌≡◌, ℕ, List, if◌then◌else◌, None, Some, OnOk};
    ghost use Rattle.std.specs.Str.{bytes_eq};
    ghost use Rattle.js_names.specs.Index.{number_in};

    /// No reducer.
    pub(crate) fn new(alloc: Global) -> Index
        ensures { (x : List ℕ) → number_in result x ≡ None }
    {
        Index {
            numbers: BTreeMap::new(alloc),
        }
    }

    /// The number of the reducer of this name; `None` where no reducer has it.
    pub fn find(&self, name: &[u8]) -> Option<usize>
        ensures { result ≡ number_in self.now name.now }
    {
        self.numbers.get(name).copied()
    }

    /// A reducer of this name and number.
    pub(crate) fn add(
        &mut self,
        alloc: Global,
        name: &[u8],
        number: usize,
    ) -> Result<(), AllocError>
        ensures { OnOk result ((x : List ℕ) → number_in self.new x ≡ (if bytes_eq name.now x then Some number else number_in self.old x)) }
    {
        self.numbers.insert(Vec::from_slice(alloc, name)?, number)?;
        Ok(())
    }
}
