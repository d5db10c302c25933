//! The byte spelling of plain values and of patch lists.
//!
//! The definitions stand in `specs/`: `Spelling` (the one spelling of each value, patch list and pair, and which of them
//! have one), `Reading` (what stands at the front of bytes, as a function on lists), `Formats` (the two agree, and no
//! spelling begins another), `Numbers` (the bytes of a number that was read are those bytes).
#![tactic(auto)]
