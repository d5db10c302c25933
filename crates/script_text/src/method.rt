//! The methods of lists, Maps and Sets.

ghost use Rattle.std.specs.Prelude.{◌≡◌};
ghost use Rattle.script_text.specs.Methods.{method_word, arity, first_method, named_method};

/// A method of the language.
#[derive(Clone, Copy, Debug, Drop, PartialEq, Eq)]
pub enum Method {
    /// `push`
    Push,
    /// `pop`
    Pop,
    /// `shift`
    Shift,
    /// `unshift`
    Unshift,
    /// `splice`
    Splice,
    /// `reverse`
    Reverse,
    /// `slice`
    Slice,
    /// `indexOf`
    IndexOf,
    /// `includes`
    Includes,
    /// `get`
    Get,
    /// `has`
    Has,
    /// `set`
    Set,
    /// `add`
    Add,
    /// `clear`
    Clear,
    /// `delete`, the one whose word is no name.
    Delete,
}

/// How many arguments a method takes.
#[derive(Clone, Copy, Debug, Drop, PartialEq, Eq)]
pub enum Arity {
    /// No argument.
    Nothing,
    /// One.
    Single,
    /// Two.
    Double,
    /// At most two.
    UpToTwo,
    /// One or more.
    OneOrMore,
}

/// Every method whose word may be a name.
pub const METHODS: [Method; 14] = [
    Method::Push,
    Method::Pop,
    Method::Shift,
    Method::Unshift,
    Method::Splice,
    Method::Reverse,
    Method::Slice,
    Method::IndexOf,
    Method::Includes,
    Method::Get,
    Method::Has,
    Method::Set,
    Method::Add,
    Method::Clear,
];

impl Method {
    /// How the method is written.
    pub fn text(self) -> &'static str
        ensures { result.now ≡ method_word self }
    {
        match self {
            Method::Push => "push",
            Method::Pop => "pop",
            Method::Shift => "shift",
            Method::Unshift => "unshift",
            Method::Splice => "splice",
            Method::Reverse => "reverse",
            Method::Slice => "slice",
            Method::IndexOf => "indexOf",
            Method::Includes => "includes",
            Method::Get => "get",
            Method::Has => "has",
            Method::Set => "set",
            Method::Add => "add",
            Method::Clear => "clear",
            Method::Delete => "delete",
        }
    }

    /// How many arguments it takes.
    pub fn arity(self) -> Arity
        ensures { result ≡ arity self }
    {
        match self {
            Method::Pop | Method::Shift | Method::Reverse | Method::Clear => Arity::Nothing,
            Method::IndexOf
            | Method::Includes
            | Method::Get
            | Method::Has
            | Method::Add
            | Method::Delete => Arity::Single,
            Method::Set => Arity::Double,
            Method::Slice => Arity::UpToTwo,
            Method::Push | Method::Unshift | Method::Splice => Arity::OneOrMore,
        }
    }
}

/// The method that these bytes of a name write; `None` where they write none.
#[tactic(auto, unfolding(crate::specs::Methods::named_method))]
pub fn method_of(bytes: &[u8]) -> Option<Method>
    ensures { result ≡ named_method bytes.now }
{
    first_method(&METHODS, bytes)
}

fn first_method(methods: &[Method], bytes: &[u8]) -> Option<Method>
    ensures { result ≡ first_method methods.now bytes.now }
{
    for method in methods {
        if method.text().as_bytes() == bytes {
            return Some(*method);
        }
    }
    None
}
