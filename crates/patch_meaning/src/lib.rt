//! What patches do to plain values: definitions alone, in `specs/Applying`.
#![tactic(auto)]
