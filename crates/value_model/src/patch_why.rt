use thiserror::Error;

/// Why a patch can't be applied.
#[derive(Clone, Copy, Debug, Drop, PartialEq, Eq, Error)]
pub enum PatchWhy {
    /// The path is empty, or a step before the last leads to no container, or a list has no element to remove at the index.
    #[error("nothing stands where the path leads")]
    NoPath,
    /// The last step is of the wrong kind for the container, or the value is: a container for a Set, no integer from 0 for a list's length.
    #[error("a step or a value is of the wrong kind")]
    BadKey,
    /// A Set has nothing that could be replaced.
    #[error("nothing in a Set can be replaced")]
    SetReplace,
    /// An index of a list that is negative or past its end, or a length past its end.
    #[error("an index or a length is not within its list")]
    Hole,
    /// A patch has no value that needs one: one that writes, one that removes a member of a Set, the last one that replaces the root.
    #[error("a patch that writes has no value")]
    UndefinedWrite,
    /// A step in an object is `__proto__`, `constructor` or `prototype`.
    #[error("a key of an object is reserved")]
    ReservedKey,
    /// The key that is written is a text of more than 1,024 bytes.
    #[error("a key has more than 1,024 bytes")]
    KeyTooLong,
}
