ghost use Rattle.std.specs.Prelude.{◌≡◌, IfOk};
ghost use Rattle.value_model.specs.Limits.{is_long_key};
ghost use Rattle.value_model.specs.Order.{key_cmp, rank as rank_of};

use crate::safe::Safe;
use crate::text::Text;
use std::alloc::{AllocError, Global};
use std::cmp::Ordering;

/// A primitive value, which is also what a key, a member of a Set or a step of a path is.
#[derive(Debug, Drop)]
pub enum Key {
    /// Null.
    Null,
    /// False or true.
    Bool(bool),
    /// An integer of magnitude at most 2^53 - 1.
    Int(Safe),
    /// A text of at most 2^20 bytes.
    Text(Text),
}

impl Key {
    /// The order of keys: null, false, true, integers by value, texts by their bytes.
    pub fn compare(&self, other: &Key) -> Ordering
        ensures { result ≡ key_cmp self.now other.now }
    {
        match (self, other) {
            (Key::Int(a), Key::Int(b)) => a.get().cmp(&b.get()),
            (Key::Text(a), Key::Text(b)) => a.as_str().as_bytes().cmp(b.as_str().as_bytes()),
            _ => self.rank().cmp(&other.rank()),
        }
    }

    /// The same key.
    pub fn copy(&self, alloc: Global) -> Result<Key, AllocError>
        ensures { IfOk result (λ k. k ≡ self.now) }
    {
        match self {
            Key::Null => Ok(Key::Null),
            Key::Bool(b) => Ok(Key::Bool(*b)),
            Key::Int(n) => Ok(Key::Int(*n)),
            Key::Text(text) => Ok(Key::Text(text.copy(alloc)?)),
        }
    }

    /// Whether it is a text of more than 1,024 bytes, which no table takes as a key.
    pub fn is_long(&self) -> bool
        ensures { result ≡ is_long_key self.now }
    {
        match self {
            Key::Text(text) => text.is_long(),
            _ => false,
        }
    }

    fn rank(&self) -> u8
        ensures { result ≡ rank_of self.now }
    {
        match self {
            Key::Null => 0,
            Key::Bool(false) => 1,
            Key::Bool(true) => 2,
            Key::Int(_) => 3,
            Key::Text(_) => 4,
        }
    }
}
