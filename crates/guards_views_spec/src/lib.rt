//! The words of rules and their definitions: shapes and what meets them (`specs/Shapes`), how rules are read from a value
//! (`Reading`), views (`Views`) and grants (`Grants`).
#![tactic(auto)]

use value_model::{Safe, Text};
use values::Path;

/// What a primitive may be; `Any` is met by containers too.
#[derive(Clone, Copy, Debug, Drop, PartialEq, Eq)]
pub enum Simple {
    /// Every value.
    Any,
    /// Null.
    Null,
    /// False or true.
    Bool,
    /// An integer.
    Int,
    /// A text.
    Text,
}

/// What an entry adds to a view.
#[derive(Debug, Drop)]
pub enum Weigh {
    /// 1.
    Count,
    /// What its value weighs.
    Weight,
    /// 1 where its value is an object in which this name is true, else 0.
    True(Text),
    /// 1 where its value is an object in which this name is an integer between the two, both of them included, else 0.
    Int(Text, Safe, Safe),
}

/// A view as the rules have it.
#[derive(Drop)]
pub struct ViewRule {
    /// Its name.
    pub name: Text,
    /// Where its container stands.
    pub path: Path,
    /// What each entry of the container adds.
    pub weigh: Weigh,
}

/// A rule of a grant: it speaks of its place and of all places inside it.
#[derive(Drop)]
pub struct GrantRule {
    /// Its name.
    pub rule: Text,
    /// Whether writing is allowed there.
    pub allow: bool,
    /// The place.
    pub path: Path,
}
