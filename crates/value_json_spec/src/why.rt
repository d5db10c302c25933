use thiserror::Error;
use value_model::Limit;

/// Why a text is no value, no path or no list of patches.
#[derive(Clone, Copy, Debug, Drop, PartialEq, Eq, Error)]
pub enum JsonWhy {
    /// The bytes are no JSON text (RFC 8259) that nests at most 127 deep, or a number in it is past a double's range (`1e400`).
    #[error("the bytes are no JSON text")]
    NotJson,
    /// A number has a fraction, an exponent, a minus before a zero, or a magnitude above 2^53 - 1.
    #[error("a number is no integer of magnitude at most 2^53 - 1")]
    NotSafeInteger,
    /// A text, or a member's name, has more than 2^20 bytes.
    #[error("a text has more than 1,048,576 bytes")]
    TextTooLong,
    /// The only member of an object is named `$map`, `$set` or `$obj` and its value isn't of that form.
    #[error("an object whose only member is a tag has not the tag's form")]
    BadTag,
    /// Two keys of a Map, or two members of a Set, are equal.
    #[error("a Map or a Set has a key twice")]
    DuplicateKey,
    /// The JSON text isn't of the form of a list of patches.
    #[error("the text is no list of patches")]
    NotPatches,
    /// The JSON text isn't of the form of a path.
    #[error("the text is no path")]
    NotPath,
    /// The value is past this limit, the first of those that it is past.
    #[error(transparent)]
    Limit(Limit),
}
