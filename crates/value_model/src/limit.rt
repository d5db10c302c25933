use thiserror::Error;

/// The limit of plain values that a value is past, first in this order.
#[derive(Clone, Copy, Debug, Drop, PartialEq, Eq, Error)]
pub enum Limit {
    /// A state is a primitive.
    #[error("the state is a primitive")]
    NotContainer,
    /// More than 32 containers nest.
    #[error("more than 32 containers nest")]
    TooDeep,
    /// The weight is above 2^20.
    #[error("the weight is above 2^20")]
    TooBig,
    /// A key of an object or a Map, or a member of a Set, is a text of more than 1,024 bytes.
    #[error("a key has more than 1,024 bytes")]
    KeyTooLong,
    /// A key of an object is `__proto__`, `constructor` or `prototype`.
    #[error("a key of an object is reserved")]
    ReservedKey,
}
