//! The program that the tokens of a script spell.
#![tactic(auto)]

ghost use Rattle.std.specs.Prelude.{ℕ};
ghost use Rattle.script_grammar.specs.Tokens.{Toks};
ghost use Rattle.script_parser.specs.Exact.{Exact};

/// The rules of the parser are exact in both directions, for every limit of levels: what they read is the program
/// that the tokens spell, every program is read, and they stop exactly at the first token that is not to be there.
pub fn parser_is_exact()
    ensures { (d : ℕ) (ts : Toks) → Exact d ts }
{}
