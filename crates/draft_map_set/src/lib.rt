//! The Maps and Sets of one run: the calls of ECMA-262's Map and Set on keys and members that are primitives. Walks go in the
//! ascending order of the keys, never in the order of insertion.
//!
//! Where several refusals hold, the first in the order of `DraftFault` is answered; after a refusal all is as before. Each look-up
//! is a binary search, and a call costs at worst the container's length.
#![tactic(auto)]

mod checks;
mod entries;
mod maps;
mod members;
mod sets;

pub use maps::{map_clear, map_delete, map_get, map_has, map_set, new_map};
pub use members::{member_keys, size};
pub use sets::{new_set, set_add, set_clear, set_delete, set_has};
