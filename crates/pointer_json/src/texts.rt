//! The text of a JSON Pointer (RFC 6901).
ghost use Rattle.std.specs.Prelude.{◌≡◌, ◌≤◌, ◌<◌, ◌∷◌, ◌++◌, length, IfOk, string_bytes};
ghost use Rattle.serde_json.specs.Find.{unescape};
ghost use Rattle.host_protocol_spec.specs.PointerTexts as spec;
ghost use Rattle.host_protocol_spec.specs.Pointers.{texts_from};
ghost use Rattle.value_json.specs.Gives.{Gives, GivesBy};
ghost use Rattle.value_json_spec.specs.Reading.{text_from};

use plain_values::{Steps, Text};
use std::alloc::{AllocError, Global};
use value_json::{JsonFault, text_in};

// ---- reading

/// Whether a text is a pointer: it is empty, or begins with `/` and has each `~` before `0` or `1`.
pub(crate) fn is_pointer(text: &str) -> bool
    ensures { result ≡ spec.is_pointer text.now }
{
    match text.as_bytes().split_first() {
        Some((first, rest)) => *first == b'/' && is_escaped(rest),
        None => true,
    }
}

/// Whether each `~` stands before `0` or `1`.
fn is_escaped(bytes: &[u8]) -> bool
    ensures { result ≡ spec.is_escaped bytes.now }
{
    let mut rest = bytes;
    while let Some((first, more)) = rest.split_first() {
        if *first == b'~' && !is_escape(more) {
            return false;
        }
        rest = more;
    }
    true
}

fn is_escape(bytes: &[u8]) -> bool
    ensures { result ≡ spec.is_escape bytes.now }
{
    match bytes.first() {
        Some(first) => *first == b'0' || *first == b'1',
        None => false,
    }
}

/// The steps of a pointer; `TextTooLong` at the first that is too long for a text, or memory. Another text has none.
#[tactic(auto, using(value_json::proofs::Passed::passed_map))]
pub(crate) fn steps_in(alloc: Global, text: &str) -> Result<Steps, JsonFault>
    ensures { Gives result (texts_from (spec.steps_of text.now)) }
{
    match text.strip_prefix('/') {
        Some(rest) => Ok(Steps::from_vec(parts_in(alloc, rest)?)),
        None => Ok(Steps::from_vec(Vec::new(alloc))),
    }
}

/// The parts between `/`.
fn parts_in(alloc: Global, text: &str) -> Result<Vec<Text>, JsonFault>
    ensures { GivesBy (λ ts. ts.items) result (texts_from (spec.parts_of text.now)) }
{
    let mut out = Vec::new(alloc);
    let mut rest = text;
    while let Some((part, more)) = rest.split_once('/') {
        out.push(step_in(alloc, part)?)?;
        rest = more;
    }
    out.push(step_in(alloc, rest)?)?;
    Ok(out)
}

/// The step that a part spells.
fn step_in(alloc: Global, part: &str) -> Result<Text, JsonFault>
    ensures { Gives result (text_from (unescape part.now)) }
{
    let step = unescaped(alloc, part)?;
    text_in(alloc, step.as_str())
}

/// The text with `~1` read as `/`, and `~0` as `~`.
fn unescaped(alloc: Global, part: &str) -> Result<String, AllocError>
    ensures { IfOk result (λ s. string_bytes s ≡ unescape part.now) }
{
    let mut out = String::new(alloc);
    let mut rest = part;
    while let Some((plain, behind)) = rest.split_once('~') {
        let (read, more) = escape_in(behind);
        out.push_str(plain)?;
        out.push_str(read)?;
        rest = more;
    }
    out.push_str(rest)?;
    Ok(out)
}

/// What a `~` before this text spells, and the text behind that.
fn escape_in(behind: &str) -> (&str, &str)
    ensures value { unescape (126 ∷ behind.now) ≡ result.0.now ++ unescape result.1.now }
    ensures rest { length result.1.now ≤ length behind.now }
{
    if let Some(more) = behind.strip_prefix('1') {
        ("/", more)
    } else if let Some(more) = behind.strip_prefix('0') {
        ("~", more)
    } else {
        ("~", behind)
    }
}

// ---- printing

/// The pointer of these steps.
pub(crate) fn pointer_text(alloc: Global, steps: &[Text]) -> Result<String, AllocError>
    ensures { IfOk result (λ s. string_bytes s ≡ spec.pointer_text steps.now) }
{
    let mut out = String::new(alloc);
    for step in steps {
        let step = escaped(alloc, step.as_str())?;
        out.push_str("/")?;
        out.push_str(step.as_str())?;
    }
    Ok(out)
}

/// The text with `~` spelled `~0`, and `/` spelled `~1`.
fn escaped(alloc: Global, step: &str) -> Result<String, AllocError>
    ensures { IfOk result (λ s. string_bytes s ≡ spec.escaped step.now) }
{
    let plain = replaced(alloc, step, '~', "~0")?;
    replaced(alloc, plain.as_str(), '/', "~1")
}

/// The text with another in place of each such ASCII character.
fn replaced(alloc: Global, text: &str, sign: char, by: &str) -> Result<String, AllocError>
    requires { sign < 128 }
    ensures { IfOk result (λ s. string_bytes s ≡ spec.replaced sign by.now text.now) }
{
    let mut out = String::new(alloc);
    let mut rest = text;
    while let Some((part, more)) = rest.split_once(sign) {
        out.push_str(part)?;
        out.push_str(by)?;
        rest = more;
    }
    out.push_str(rest)?;
    Ok(out)
}
