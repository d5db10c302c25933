//! Cutting a source into tokens.

ghost use Rattle.std.specs.Prelude.{◌≡◌, ◌≢◌, ◌≤◌, MatchResult, Ok, Err, length};
ghost use Rattle.std.specs.Str.Lossy.{utf8_valid_len};
ghost use Rattle.script_text.specs.Lexical.{tokens_of, tokens_from, fault_at as spec_fault_at, checked, place as spec_place};
ghost use Rattle.script_text.specs.declared.token.LexFault.TheVariants as fault;

use crate::piece::piece_at;
use script_text::{Cause, LexFault, Piece, Token};
use std::alloc::Global;
use std::marker::Model;

/// The tokens of a source in its order, which contracts see as a list.
#[derive(Debug, Drop)]
pub struct Tokens {
    tokens: Vec<Token>,
}

impl Model for Tokens {
    ghost use Rattle.std.specs.Prelude.{List};
    ghost use Rattle.script_text.specs.declared.token.Token.{Token};

    ghost Value = { List Token };

    ghost view = { λ t. t.tokens.items };
}

impl Tokens {
    /// These tokens. It takes no memory.
    pub fn from_vec(tokens: Vec<Token>) -> Tokens
        ensures { result ≡ tokens.items }
    {
        Tokens { tokens }
    }

    /// The tokens. It takes no memory.
    pub fn into_vec(self) -> Vec<Token>
        ensures { result.items ≡ self }
    {
        self.tokens
    }

    /// The tokens, to be read.
    pub fn as_slice(&self) -> &[Token]
        ensures { result.now ≡ self.now }
    {
        self.tokens.as_slice()
    }
}

/// The tokens of the source, each as long as it can be; white space and comments are between them. Otherwise the
/// first fault in the source with its offset in bytes: `Character` where no token begins, and at the first byte that
/// begins no whole character of UTF-8; `Text`, `Number` and `Comment` where one begins that is not well formed, with
/// a value past its limit (2^20 bytes, 2^53 - 1) or not closed.
#[tactic(auto, unfolding(script_text::specs::Lexical::tokens_of))]
pub fn lex(alloc: Global, bytes: &[u8]) -> Result<Tokens, LexFault>
    ensures { MatchResult result (λ ts. tokens_of bytes.now ≡ Ok ts) (λ f. f ≢ fault.Memory → tokens_of bytes.now ≡ Err f) }
{
    let valid = valid_len(bytes);
    match scan(alloc, bytes) {
        Ok(tokens) => {
            if valid == bytes.len() {
                Ok(tokens)
            } else {
                Err(LexFault::Character(valid))
            }
        }
        Err(LexFault::Memory) => Err(LexFault::Memory),
        Err(fault) => {
            if valid < place(&fault) {
                Err(LexFault::Character(valid))
            } else {
                Err(fault)
            }
        }
    }
}

/// The offset of the first byte that begins no whole character, or the length.
#[tactic(auto, using(crate::proofs::Turns::all_valid))]
fn valid_len(bytes: &[u8]) -> usize
    ensures { result ≡ utf8_valid_len bytes.now }
{
    match std::str::from_utf8(bytes) {
        Ok(_) => bytes.len(),
        Err(error) => error.valid_up_to(),
    }
}

fn place(fault: &LexFault) -> usize
    ensures { result ≡ spec_place fault.now }
{
    match fault {
        LexFault::Character(at) => *at,
        LexFault::Text(at) => *at,
        LexFault::Number(at) => *at,
        LexFault::Comment(at) => *at,
        LexFault::Memory => 0,
    }
}

fn fault_at(cause: Cause, at: usize) -> LexFault
    ensures { result ≡ spec_fault_at cause at }
{
    match cause {
        Cause::Character => LexFault::Character(at),
        Cause::Text => LexFault::Text(at),
        Cause::Number => LexFault::Number(at),
        Cause::Comment => LexFault::Comment(at),
    }
}

#[tactic(auto, using(crate::proofs::Turns::scan_start, crate::proofs::Turns::scan_blank, crate::proofs::Turns::scan_token, crate::proofs::Turns::scan_wrong, crate::proofs::Turns::scan_end))]
fn scan(alloc: Global, bytes: &[u8]) -> Result<Tokens, LexFault>
    ensures { MatchResult result (λ ts. tokens_from 0 0 bytes.now ≡ Ok ts) (λ f. f ≢ fault.Memory → tokens_from 0 0 bytes.now ≡ Err f) }
{
    let mut tokens = Vec::new(alloc);
    let mut at = 0;
    while at < bytes.len() {
        match piece_at(&bytes[at..]) {
            Piece::Blank(len) => at += len,
            Piece::Token(kind, len) => {
                let end = at + len;
                tokens.push(Token {
                    kind,
                    start: at,
                    end,
                })?;
                at = end;
            }
            Piece::Wrong(cause) => return Err(fault_at(cause, at)),
        }
    }
    Ok(Tokens { tokens })
}
