//! The signs of a script.

ghost use Rattle.std.specs.Prelude.{◌≡◌, ◌<◌, ◌≤◌, length, IfSome};
ghost use Rattle.script_text.specs.Signs.{spelling, first_sign, sign_at};

/// A sign of the language.
#[derive(Clone, Copy, Debug, Drop, PartialEq, Eq)]
pub enum Sign {
    /// `===`
    Same,
    /// `!==`
    NotSame,
    /// `<=`
    AtMost,
    /// `>=`
    AtLeast,
    /// `&&`
    And,
    /// `||`
    Or,
    /// `+=`
    PlusAssign,
    /// `-=`
    MinusAssign,
    /// `*=`
    StarAssign,
    /// `%=`
    PercentAssign,
    /// `...`
    Ellipsis,
    /// `(`
    OpenRound,
    /// `)`
    CloseRound,
    /// `{`
    OpenBrace,
    /// `}`
    CloseBrace,
    /// `[`
    OpenSquare,
    /// `]`
    CloseSquare,
    /// `,`
    Comma,
    /// `;`
    Semicolon,
    /// `:`
    Colon,
    /// `.`
    Dot,
    /// `?`
    Question,
    /// `=`
    Assign,
    /// `<`
    Less,
    /// `>`
    Greater,
    /// `+`
    Plus,
    /// `-`
    Minus,
    /// `*`
    Star,
    /// `%`
    Percent,
    /// `!`
    Not,
}

/// Every sign, a longer one before each that it begins with.
pub const SIGNS: [Sign; 30] = [
    Sign::Same,
    Sign::NotSame,
    Sign::AtMost,
    Sign::AtLeast,
    Sign::And,
    Sign::Or,
    Sign::PlusAssign,
    Sign::MinusAssign,
    Sign::StarAssign,
    Sign::PercentAssign,
    Sign::Ellipsis,
    Sign::OpenRound,
    Sign::CloseRound,
    Sign::OpenBrace,
    Sign::CloseBrace,
    Sign::OpenSquare,
    Sign::CloseSquare,
    Sign::Comma,
    Sign::Semicolon,
    Sign::Colon,
    Sign::Dot,
    Sign::Question,
    Sign::Assign,
    Sign::Less,
    Sign::Greater,
    Sign::Plus,
    Sign::Minus,
    Sign::Star,
    Sign::Percent,
    Sign::Not,
];

impl Sign {
    /// How the sign is written.
    pub fn text(self) -> &'static str
        ensures { result.now ≡ spelling self }
    {
        match self {
            Sign::Same => "===",
            Sign::NotSame => "!==",
            Sign::AtMost => "<=",
            Sign::AtLeast => ">=",
            Sign::And => "&&",
            Sign::Or => "||",
            Sign::PlusAssign => "+=",
            Sign::MinusAssign => "-=",
            Sign::StarAssign => "*=",
            Sign::PercentAssign => "%=",
            Sign::Ellipsis => "...",
            Sign::OpenRound => "(",
            Sign::CloseRound => ")",
            Sign::OpenBrace => "{",
            Sign::CloseBrace => "}",
            Sign::OpenSquare => "[",
            Sign::CloseSquare => "]",
            Sign::Comma => ",",
            Sign::Semicolon => ";",
            Sign::Colon => ":",
            Sign::Dot => ".",
            Sign::Question => "?",
            Sign::Assign => "=",
            Sign::Less => "<",
            Sign::Greater => ">",
            Sign::Plus => "+",
            Sign::Minus => "-",
            Sign::Star => "*",
            Sign::Percent => "%",
            Sign::Not => "!",
        }
    }
}

/// The longest sign that the bytes begin with; `None` where they begin with no sign.
#[tactic(auto, unfolding(crate::specs::Signs::sign_at))]
pub fn sign_at(bytes: &[u8]) -> Option<Sign>
    ensures is { result ≡ sign_at bytes.now }
    ensures within { IfSome result (λ s. (0 < length (spelling s)) × (length (spelling s) ≤ length bytes.now)) }
{
    first_sign(&SIGNS, bytes)
}

fn first_sign(signs: &[Sign], bytes: &[u8]) -> Option<Sign>
    ensures is { result ≡ first_sign signs.now bytes.now }
    ensures within { IfSome result (λ s. (0 < length (spelling s)) × (length (spelling s) ≤ length bytes.now)) }
{
    for sign in signs {
        if bytes.starts_with(sign.text().as_bytes()) {
            return Some(*sign);
        }
    }
    None
}
