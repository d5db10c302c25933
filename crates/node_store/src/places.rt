//! Where the pages of a table begin, in entries and in container places.
ghost use Rattle.std.specs.Prelude.{◌≡◌, ◌<◌, ◌^◌, length, map, IfOk};
ghost use Rattle.page_tables.specs.Pages.{paged, table, AllBelow, starts as starts_of};
ghost use Rattle.node_store.specs.Kept.{picked};

use page_tables::Pages;
use std::alloc::{AllocError, Global};

/// For each page of a table, how many entries and how many container places come before it.
#[derive(Drop)]
pub struct Seats {
    /// How many entries.
    pub starts: Vec<u32>,
    /// How many container places.
    pub before: Vec<u32>,
}

/// The seats of the pages with these names; the sums say how many container places come before each entry.
pub fn seat(
    alloc: Global,
    pages: &Pages,
    names: &Vec<u32>,
    sums: &Vec<u32>,
) -> Result<Seats, AllocError>
    requires names { AllBelow (length pages.now) names.now.items }
    requires small { length (table pages.now names.now.items) < 2 ^ 32 }
    requires inside { AllBelow (length sums.now.items) (starts_of 0 (paged pages.now names.now.items)) }
    ensures starts { IfOk result (λ s. s.starts.items ≡ starts_of 0 (paged pages.now names.now.items)) }
    ensures before { IfOk result (λ s. s.before.items ≡ picked sums.now.items (starts_of 0 (paged pages.now names.now.items))) }
{
    let starts = pages.starts(alloc, names)?;
    let before = pick(alloc, sums, &starts)?;
    Ok(Seats { starts, before })
}

/// The numbers at these places.
fn pick(alloc: Global, numbers: &Vec<u32>, places: &Vec<u32>) -> Result<Vec<u32>, AllocError>
    requires { AllBelow (length numbers.now.items) places.now.items }
    ensures { IfOk result (λ v. v.items ≡ picked numbers.now.items places.now.items) }
{
    let mut out = Vec::with_capacity(alloc, places.len())?;
    for place in places {
        out.push(numbers[*place as usize])?;
    }
    Ok(out)
}
