//! What stands at one place of a source.

ghost use Rattle.std.specs.Prelude.{◌≡◌, ◌+◌, ◌≤◌, ◌<◌, length, IfSome, drop};
ghost use Rattle.std.specs.List.{prefix_len};
ghost use Rattle.script_text.specs.Lexical.{is_blank, begins_word, in_word, is_quote, in_line, comment_end as spec_comment_end, integer_of as spec_integer_of, number as spec_number, word as spec_word, piece_at as spec_piece_at};
ghost use Rattle.script_text.specs.Texts.{text_in};
ghost use Rattle.script_text.specs.declared.token.Inside.TheVariants.{Plain};
ghost use Rattle.script_text.specs.Lexical;
ghost use Rattle.script_text.specs.Signs;
ghost use Rattle.js_lex.specs.Steps.{IsWithin};

use crate::text::text_end;
use script_text::{Cause, Kind, Piece, reserved_of, sign_at};

/// The largest integer.
const LARGEST: u64 = 9_007_199_254_740_991;

fn is_blank(byte: u8) -> bool
    ensures { result ≡ is_blank byte }
{
    matches!(byte, b' ' | b'\t' | b'\n' | b'\r')
}

fn begins_word(byte: u8) -> bool
    ensures { result ≡ begins_word byte }
{
    byte.is_ascii_alphabetic() || byte == b'_' || byte == b'$'
}

fn in_word(byte: u8) -> bool
    ensures { result ≡ in_word byte }
{
    byte.is_ascii_alphanumeric() || byte == b'_' || byte == b'$'
}

fn is_quote(byte: u8) -> bool
    ensures { result ≡ is_quote byte }
{
    byte == b'\'' || byte == b'"'
}

/// How many bytes from the front on are word characters.
fn word_len(bytes: &[u8]) -> usize
    ensures len { result ≡ prefix_len in_word bytes.now }
    ensures within { result ≤ length bytes.now }
{
    let mut len = 0;
    while len < bytes.len() && in_word(bytes[len]) {
        len += 1;
    }
    len
}

/// How many bytes from the front on stand before the line's end.
fn line_len(bytes: &[u8]) -> usize
    ensures len { result ≡ prefix_len in_line bytes.now }
    ensures within { result ≤ length bytes.now }
{
    let mut len = 0;
    while len < bytes.len() && bytes[len] != b'\n' {
        len += 1;
    }
    len
}

/// The place behind the first `*/` from a place on.
#[tactic(auto, using(crate::proofs::Pieces::comment_at, crate::proofs::Pieces::comment_on, crate::proofs::Pieces::comment_none))]
fn comment_end(bytes: &[u8], from: usize) -> Option<usize>
    requires { from ≤ length bytes.now }
    ensures end { result ≡ spec_comment_end from (drop from bytes.now) }
    ensures within { IfSome result (λ end. (from ≤ end) × (end ≤ length bytes.now)) }
{
    for at in from..bytes.len() {
        if bytes[at..].starts_with(b"*/") {
            return Some(at + 2);
        }
    }
    None
}

/// The integer that a run of word characters is; `None` where it is none within the limit.
#[tactic(auto, using(crate::proofs::Pieces::decimal_at, crate::proofs::Pieces::decimal_stops, crate::proofs::Pieces::decimal_end, crate::proofs::Pieces::decimal_long))]
fn integer_of(run: &[u8]) -> Option<u64>
    ensures { result ≡ spec_integer_of run.now }
{
    if run.len() > 1 && run[0] == b'0' {
        return None;
    }
    let mut value: u64 = 0;
    for byte in run {
        if !byte.is_ascii_digit() {
            return None;
        }
        value = value * 10 + (*byte - b'0') as u64;
        if value > LARGEST {
            return None;
        }
    }
    Some(value)
}

fn number(run: &[u8]) -> Piece
    requires { 0 < length run.now }
    ensures is { result ≡ spec_number run.now }
    ensures within { IsWithin (length run.now) result }
{
    match integer_of(run) {
        Some(value) => Piece::Token(Kind::Integer(value), run.len()),
        None => Piece::Wrong(Cause::Number),
    }
}

fn word(run: &[u8]) -> Piece
    requires { 0 < length run.now }
    ensures is { result ≡ spec_word run.now }
    ensures within { IsWithin (length run.now) result }
{
    let kind = match reserved_of(run) {
        Some(word) => Kind::Reserved(word),
        None => Kind::Name,
    };
    Piece::Token(kind, run.len())
}

fn comment(bytes: &[u8]) -> Piece
    requires { 2 ≤ length bytes.now }
    ensures is { result ≡ Lexical.comment (spec_comment_end 2 (drop 2 bytes.now)) }
    ensures within { IsWithin (length bytes.now) result }
{
    match comment_end(bytes, 2) {
        Some(end) => Piece::Blank(end),
        None => Piece::Wrong(Cause::Comment),
    }
}

#[tactic(auto, using(crate::proofs::Pieces::text_none, crate::proofs::Pieces::text_some))]
fn text(quote: u8, rest: &[u8]) -> Piece
    ensures is { result ≡ Lexical.text (text_in quote Plain rest.now) }
    ensures within { IsWithin (length rest.now + 1) result }
{
    match text_end(quote, rest) {
        Some(end) => Piece::Token(Kind::Text, end + 1),
        None => Piece::Wrong(Cause::Text),
    }
}

fn sign(bytes: &[u8]) -> Piece
    ensures is { result ≡ Lexical.sign_piece bytes.now (Signs.sign_at bytes.now) }
    ensures within { IsWithin (length bytes.now) result }
{
    match sign_at(bytes) {
        Some(sign) => Piece::Token(Kind::Sign(sign), sign.text().len()),
        None => Piece::Wrong(Cause::Character),
    }
}

/// What stands at the front of these bytes.
#[tactic(auto, using(crate::proofs::Pieces::piece_is, crate::proofs::Pieces::word_some, crate::proofs::Pieces::line_some, crate::proofs::Pieces::behind_first))]
pub(crate) fn piece_at(bytes: &[u8]) -> Piece
    requires { 0 < length bytes.now }
    ensures is { result ≡ spec_piece_at bytes.now }
    ensures within { IsWithin (length bytes.now) result }
{
    let first = bytes[0];
    if is_blank(first) {
        return Piece::Blank(1);
    }
    if bytes.starts_with(b"//") {
        return Piece::Blank(line_len(bytes));
    }
    if bytes.starts_with(b"/*") {
        return comment(bytes);
    }
    if begins_word(first) {
        return word(&bytes[..word_len(bytes)]);
    }
    if first.is_ascii_digit() {
        return number(&bytes[..word_len(bytes)]);
    }
    if is_quote(first) {
        return text(first, &bytes[1..]);
    }
    sign(bytes)
}
