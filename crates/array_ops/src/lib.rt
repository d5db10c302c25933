//! The calls on lists of a run: the methods of ECMA-262's Array.
//!
//! Each call answers what `array_ops_spec` says of the heap that the scope stands for, and leaves the heap that it says. After a
//! refusal the heap is as before. An element that is answered is a draft where the list is one, as `Scope::get` gives it.
#![tactic(auto)]

mod elements;
mod ends;
mod guards;
mod indexes;
mod ranges;
mod search;

pub use ends::{pop, push, shift, unshift};
pub use ranges::{reverse, set_length, slice, splice};
pub use search::{includes, index_of};
