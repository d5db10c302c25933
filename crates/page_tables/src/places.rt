//! Entries by their index.
ghost use Rattle.std.specs.Prelude.{◌≡◌, ◌<◌, ◌+◌, ◌-◌, ◌≤◌, ◌^◌, length, get_or, slice_index, IfOk};
ghost use Rattle.page_tables.specs.Pages as spec;
ghost use Rattle.page_tables.specs.Pages.{page, paged, table, AllBelow};

use crate::pages::Pages;
use crate::row::Row;
use std::alloc::{AllocError, Global};

/// The last index at which the sums are at most n.
pub fn last_at_most(sums: &[u32], n: u64) -> usize
    requires some { 0 < length sums.now }
    requires start { slice_index sums.now 0 ≤ n }
    ensures in_range { result < length sums.now }
    ensures here { slice_index sums.now result ≤ n }
    ensures next { result + 1 < length sums.now → n < slice_index sums.now (result + 1) }
{
    let mut low = 0;
    let mut high = sums.len();
    while high - low > 1 {
        let mid = low + (high - low) / 2;
        if sums[mid] as u64 <= n {
            low = mid;
        } else {
            high = mid;
        }
    }
    low
}

impl Pages {
    /// For each page of a table, how many entries come before it.
    pub fn starts(&self, alloc: Global, names: &[u32]) -> Result<Vec<u32>, AllocError>
        requires names { AllBelow (length self.now) names.now }
        requires small { length (table self.now names.now) < 2 ^ 32 }
        ensures { IfOk result (λ v. v.items ≡ spec.starts 0 (paged self.now names.now)) }
    {
        let mut out = Vec::with_capacity(alloc, names.len())?;
        let mut total: u64 = 0;
        for number in names {
            out.push(total as u32)?;
            total += self.page(*number).len() as u64;
        }
        Ok(out)
    }

    /// The entry of a table at an index; `starts` says how many entries come before each of its pages.
    pub fn row(&self, names: &[u32], starts: &[u32], i: usize) -> &Row
        requires names { AllBelow (length self.now) names.now }
        requires starts { starts.now ≡ spec.starts 0 (paged self.now names.now) }
        requires in_range { i < length (table self.now names.now) }
        ensures { (d : _) → result.now ≡ get_or (table self.now names.now) i d }
    {
        let j = last_at_most(starts, i as u64);
        let rows = self.page(names[j]);
        &rows[i - starts[j] as usize]
    }
}
