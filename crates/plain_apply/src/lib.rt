//! Patches applied to plain values, in the form of Immer 10's applyPatches.
//!
//! The definition stands in `patch_meaning`; `apply_plain` is its plain program.
#![tactic(auto)]

mod apply;
mod edits;
mod fault;
mod lists;
mod steps;
mod tables;

pub use apply::apply_plain;
pub use fault::ApplyFault;
