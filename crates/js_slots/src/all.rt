//! The slots of all reducers.

ghost use Rattle.std.specs.Prelude.{IfOk};
ghost use Rattle.js_slots.specs.Numbers.{HaveSlots};

use crate::slots::Slots;
use sqlite_items::Items;
use std::alloc::{AllocError, Global};

/// The numbers of the variables of each reducer, where these are the declarations that their names belong to.
pub fn number(alloc: Global, found: &[Items<(usize, usize)>]) -> Result<Items<Slots>, AllocError>
    ensures { IfOk result (λ all. HaveSlots found.now all) }
{
    let mut all = Vec::new(alloc);
    for names in found {
        all.push(Slots::of(alloc, names.as_slice())?)?;
    }
    Ok(Items::from_vec(all))
}
