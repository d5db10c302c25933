//! The objects of one run: values of a run, the heap that names its objects, and what each call makes of it.
//!
//! The definitions stand in `specs/`: `Heap` (objects, their contents, the deep copy of a state), `Values` (which values and
//! tables are the same), `Operations` (what a call answers and leaves), `Answers` (how code answers that), `Places` (the paths of
//! drafts), `Sound` (what holds of every heap of a run), `Foreign` (references of other scopes), `Examples` (worked rows).
#![tactic(auto)]

mod content;
mod fault;
mod value;

pub use content::{Content, Table};
pub use fault::DraftFault;
pub use value::{Given, ObjRef, Rv};
