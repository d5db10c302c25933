//! The words that are no names.

ghost use Rattle.std.specs.Prelude.{◌≡◌, ◌==◌};
ghost use Rattle.script_text.specs.Words.{word, word_code, first_word, reserved_of};

/// A word that is no name.
#[derive(Clone, Copy, Debug, Drop, PartialEq, Eq)]
pub enum Reserved {
    /// `break`
    Break,
    /// `case`
    Case,
    /// `catch`
    Catch,
    /// `class`
    Class,
    /// `const`
    Const,
    /// `continue`
    Continue,
    /// `debugger`
    Debugger,
    /// `default`
    Default,
    /// `delete`
    Delete,
    /// `do`
    Do,
    /// `else`
    Else,
    /// `enum`
    Enum,
    /// `export`
    Export,
    /// `extends`
    Extends,
    /// `false`
    False,
    /// `finally`
    Finally,
    /// `for`
    For,
    /// `function`
    Function,
    /// `if`
    If,
    /// `import`
    Import,
    /// `in`
    In,
    /// `instanceof`
    Instanceof,
    /// `let`
    Let,
    /// `new`
    New,
    /// `null`
    Null,
    /// `of`
    Of,
    /// `return`
    Return,
    /// `static`
    Static,
    /// `super`
    Super,
    /// `switch`
    Switch,
    /// `this`
    This,
    /// `throw`
    Throw,
    /// `true`
    True,
    /// `try`
    Try,
    /// `typeof`
    Typeof,
    /// `undefined`
    Undefined,
    /// `var`
    Var,
    /// `void`
    Void,
    /// `while`
    While,
    /// `with`
    With,
    /// `yield`
    Yield,
    /// `await`
    Await,
    /// `original`
    Original,
    /// `current`
    Current,
    /// `isDraft`
    IsDraft,
    /// `Object`
    Object,
    /// `Array`
    Array,
    /// `Map`
    Map,
    /// `Set`
    Set,
    /// `Error`
    Error,
}

/// Every word that is no name.
pub const RESERVED: [Reserved; 50] = [
    Reserved::Break,
    Reserved::Case,
    Reserved::Catch,
    Reserved::Class,
    Reserved::Const,
    Reserved::Continue,
    Reserved::Debugger,
    Reserved::Default,
    Reserved::Delete,
    Reserved::Do,
    Reserved::Else,
    Reserved::Enum,
    Reserved::Export,
    Reserved::Extends,
    Reserved::False,
    Reserved::Finally,
    Reserved::For,
    Reserved::Function,
    Reserved::If,
    Reserved::Import,
    Reserved::In,
    Reserved::Instanceof,
    Reserved::Let,
    Reserved::New,
    Reserved::Null,
    Reserved::Of,
    Reserved::Return,
    Reserved::Static,
    Reserved::Super,
    Reserved::Switch,
    Reserved::This,
    Reserved::Throw,
    Reserved::True,
    Reserved::Try,
    Reserved::Typeof,
    Reserved::Undefined,
    Reserved::Var,
    Reserved::Void,
    Reserved::While,
    Reserved::With,
    Reserved::Yield,
    Reserved::Await,
    Reserved::Original,
    Reserved::Current,
    Reserved::IsDraft,
    Reserved::Object,
    Reserved::Array,
    Reserved::Map,
    Reserved::Set,
    Reserved::Error,
];

impl Reserved {
    /// Whether both are the same word.
    pub fn same(self, other: Reserved) -> bool
        ensures { result ≡ (word_code self == word_code other) }
    {
        self as u8 == other as u8
    }

    /// How the word is written.
    pub fn text(self) -> &'static str
        ensures { result.now ≡ word self }
    {
        match self {
            Reserved::Break => "break",
            Reserved::Case => "case",
            Reserved::Catch => "catch",
            Reserved::Class => "class",
            Reserved::Const => "const",
            Reserved::Continue => "continue",
            Reserved::Debugger => "debugger",
            Reserved::Default => "default",
            Reserved::Delete => "delete",
            Reserved::Do => "do",
            Reserved::Else => "else",
            Reserved::Enum => "enum",
            Reserved::Export => "export",
            Reserved::Extends => "extends",
            Reserved::False => "false",
            Reserved::Finally => "finally",
            Reserved::For => "for",
            Reserved::Function => "function",
            Reserved::If => "if",
            Reserved::Import => "import",
            Reserved::In => "in",
            Reserved::Instanceof => "instanceof",
            Reserved::Let => "let",
            Reserved::New => "new",
            Reserved::Null => "null",
            Reserved::Of => "of",
            Reserved::Return => "return",
            Reserved::Static => "static",
            Reserved::Super => "super",
            Reserved::Switch => "switch",
            Reserved::This => "this",
            Reserved::Throw => "throw",
            Reserved::True => "true",
            Reserved::Try => "try",
            Reserved::Typeof => "typeof",
            Reserved::Undefined => "undefined",
            Reserved::Var => "var",
            Reserved::Void => "void",
            Reserved::While => "while",
            Reserved::With => "with",
            Reserved::Yield => "yield",
            Reserved::Await => "await",
            Reserved::Original => "original",
            Reserved::Current => "current",
            Reserved::IsDraft => "isDraft",
            Reserved::Object => "Object",
            Reserved::Array => "Array",
            Reserved::Map => "Map",
            Reserved::Set => "Set",
            Reserved::Error => "Error",
        }
    }
}

/// The word that these bytes are; `None` where they are no word that is reserved.
#[tactic(auto, unfolding(crate::specs::Words::reserved_of))]
pub fn reserved_of(bytes: &[u8]) -> Option<Reserved>
    ensures { result ≡ reserved_of bytes.now }
{
    first_word(&RESERVED, bytes)
}

fn first_word(words: &[Reserved], bytes: &[u8]) -> Option<Reserved>
    ensures { result ≡ first_word words.now bytes.now }
{
    for word in words {
        if word.text().as_bytes() == bytes {
            return Some(*word);
        }
    }
    None
}
