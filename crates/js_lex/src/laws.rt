//! Laws of the tokens of a source, each the contract of a function that does nothing.
ghost use Rattle.std.specs.Prelude.{◌≡◌, ℕ, List, Ok, length};
ghost use Rattle.script_text.specs.Lexical.{tokens_of};
ghost use Rattle.script_text.specs.declared.token.Token.{Token};
ghost use Rattle.js_lex.specs.Places.{AscendWithin, ArePieces};

/// The tokens of a source stand in it one behind the other: each has a byte at least, the next begins at its end or later, and
/// the last ends at the source's end or before.
pub fn law_spans_ascend()
    ensures { (source : List ℕ) (tokens : List Token) → tokens_of source ≡ Ok tokens → AscendWithin 0 (length source) tokens }
{}

/// Each token of a source is what its bytes spell: the piece that stands at its first place, up to its last.
pub fn law_tokens_are_pieces()
    ensures { (source : List ℕ) (tokens : List Token) → tokens_of source ≡ Ok tokens → ArePieces source tokens }
{}
