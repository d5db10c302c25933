//! Plain values: JSON's (RFC 8259) with ECMA-262's Map and Set, their patches, and what they measure.
#![tactic(auto)]

mod copies;
mod measures;
mod patch;
mod val;

pub use measures::{capped, depth, key_weight, values, weight};
pub use patch::{Pair, Patch, Patches, Path};
pub use val::{Entry, Field, Val, ValNode};
pub use value_model::{Key, Kind, Limit, Op, PatchWhy, Safe, Text, TextFault};
