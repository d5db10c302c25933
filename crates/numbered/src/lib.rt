//! Numbered states and their loading: definitions alone.
//!
//! The definitions stand in `specs/`: `Tree` (a plain value in which every container carries a number), `Loading` (how a
//! value's containers get their numbers), `Store` (the states that a store's numbers stand for), `Examples` (worked rows).
#![tactic(auto)]
