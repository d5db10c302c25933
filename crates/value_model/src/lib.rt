//! The words of plain values: integers, texts, keys, and the definition of what a value is.
//!
//! The definitions stand in `specs/`: `Plain` (a value as a tree), `Order` (the order of keys), `Places` (what stands
//! at a path), `Limits` (which values are accepted).
#![tactic(auto)]

mod key;
mod kind;
mod laws;
mod limit;
mod op;
mod patch_why;
mod safe;
mod text;

pub use key::Key;
pub use kind::Kind;
pub use laws::{law_keys_are_told_apart, law_same_entries, law_set_key, law_unset_key};
pub use limit::Limit;
pub use op::Op;
pub use patch_why::PatchWhy;
pub use safe::{MAX_SAFE, Safe};
pub use text::{Text, TextFault};
