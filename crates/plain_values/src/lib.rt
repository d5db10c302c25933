//! What the layers of the host hand to one another: values, commands and replies.
#![tactic(auto)]

mod cause;
mod command;
mod pointer;
mod refusal;
mod reply;

pub use cause::Cause;
pub use command::{Command, Word};
pub use pointer::{Pointer, Pointers, Steps};
pub use refusal::Refusal;
pub use reply::Reply;
pub use values::{
    Entry, Field, Key, Kind, Limit, Op, Pair, Patch, PatchWhy, Patches, Path, Safe, Text,
    TextFault, Val, ValNode, capped, depth, key_weight, values, weight,
};
