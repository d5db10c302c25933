//! What each entry of a view adds.
ghost use Rattle.std.specs.Prelude.{◌≡◌, ◌≤◌, ◌^◌, map, IsTrue, OnOk};
ghost use Rattle.std.specs.FinMap.Entries.{put, is_sorted};
ghost use Rattle.value_model.specs.Order.{key_cmp};
ghost use Rattle.value_model.specs.Search.{IsPlace};
ghost use Rattle.guards_views_spec.specs.Views as spec;
ghost use Rattle.derived_views.specs.Seen.{of_weight, placed, without};

use std::alloc::AllocError;
use std::marker::Model;
use values::Key;

/// What one entry adds.
#[derive(Drop)]
pub(crate) struct Weight {
    pub(crate) key: Key,
    pub(crate) weight: u64,
}

/// What the entries of a container add, under their steps. The steps ascend, and the sum is at most 2^20.
///
/// A contract sees it as a list of steps and numbers.
#[derive(Drop)]
pub struct Weights {
    entries: Vec<Weight>,
    total: u64,
}

impl Model for Weights {
    ghost use Rattle.std.specs.Prelude.{ℕ, List};
    ghost use Rattle.value_model.specs.declared.key.Key.{Key};
    ghost use Rattle.std.specs.Coded.{coded_ℕ, coded_list, coded×};
    ghost use Rattle.value_model.specs.Code.{coded_key};

    ghost Value = { List (Key × ℕ) };

    ghost coded = { coded_list (coded× coded_key coded_ℕ) };

    ghost use Rattle.derived_views.specs.Seen.{of_weights, IsKept};

    ghost view = { λ w. of_weights w.entries.items };

    ghost invariant = { λ w. IsKept w.entries.items w.total };
}

impl Weights {
    /// The weights of these entries.
    pub(crate) fn of(entries: Vec<Weight>) -> Weights
        requires sorted { IsTrue (is_sorted key_cmp (map of_weight entries.items)) }
        requires small { spec.total (map of_weight entries.items) ≤ 2 ^ 20 }
        ensures { result ≡ map of_weight entries.items }
    {
        let total = sum(&entries);
        Weights { entries, total }
    }

    /// The entries.
    pub(crate) fn into_entries(self) -> Vec<Weight>
        ensures entries { map of_weight result.items ≡ self }
        ensures sorted { IsTrue (is_sorted key_cmp (map of_weight result.items)) }
    {
        self.entries
    }

    /// Their sum. It takes no memory.
    pub fn total(&self) -> u64
        ensures sum { result ≡ spec.total self.now }
        ensures small { result ≤ 2 ^ 20 }
    {
        self.total
    }
}

fn sum(entries: &[Weight]) -> u64
    requires { spec.total (map of_weight entries.now) ≤ 2 ^ 20 }
    ensures { result ≡ spec.total (map of_weight entries.now) }
{
    let mut total = 0;
    for e in entries {
        total += e.weight;
    }
    total
}

fn place(entries: &[Weight], key: &Key) -> Result<usize, usize>
    requires { IsTrue (is_sorted key_cmp (map of_weight entries.now)) }
    ensures { IsPlace placed key.now entries.now result }
{
    entries.binary_search_by(|e| e.key.compare(key))
}

/// Sets what an entry adds.
pub(crate) fn put_weight(entries: &mut Vec<Weight>, key: Key, weight: u64) -> Result<(), AllocError>
    requires { IsTrue (is_sorted key_cmp (map of_weight entries.old.items)) }
    ensures { OnOk result (map of_weight entries.new.items ≡ put key_cmp key weight (map of_weight entries.old.items)) }
{
    match place(entries, &key) {
        Ok(at) => {
            entries[at] = Weight { key, weight };
            Ok(())
        }
        Err(at) => Ok(entries.insert(at, Weight { key, weight })?),
    }
}

/// Takes an entry out.
pub(crate) fn remove_weight(entries: &mut Vec<Weight>, key: &Key)
    requires { IsTrue (is_sorted key_cmp (map of_weight entries.old.items)) }
    ensures { map of_weight entries.new.items ≡ without key.now (map of_weight entries.old.items) }
{
    match place(entries, key) {
        Ok(at) => {
            let _ = entries.remove(at);
        }
        Err(_) => {}
    }
}
