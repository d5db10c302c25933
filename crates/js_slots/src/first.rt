//! Numbers beside tokens.

ghost use Rattle.std.specs.Prelude.{◌≡◌, ◌==◌, ℕ, if◌then◌else◌, Some, None, OnOk};
ghost use Rattle.std.specs.Ordering.{nat_cmp};
ghost use Rattle.std.specs.BTreeMap.{get};
ghost use Rattle.js_slots.specs.First.{or_first};

use std::alloc::AllocError;
use std::collections::BTreeMap;

/// The number stands beside the token, unless one does already.
pub(crate) fn keep_first(
    numbers: &mut BTreeMap<usize, usize>,
    token: usize,
    number: usize,
) -> Result<(), AllocError>
    ensures { OnOk result ((q : ℕ) → get nat_cmp numbers.new q ≡ or_first (get nat_cmp numbers.old q) (if token == q then Some number else None)) }
{
    if numbers.get(&token).is_some() {
        return Ok(());
    }
    numbers.insert(token, number)?;
    Ok(())
}
