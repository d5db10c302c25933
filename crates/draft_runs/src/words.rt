//! Words of a call: operands, keys, values and states.
ghost use Rattle.std.specs.Prelude.{◌≡◌, IfOk, None};
ghost use Rattle.value_model.specs.Limits.{value_limit, state_limit};

use crate::fault::WordFault;
use std::alloc::Global;
use value_checks::{check_state, check_value};
use value_json::read_value;
use value_model::{Key, Kind};
use values::{Val, ValNode};

/// A value that a call is handed.
#[derive(Drop)]
pub enum Operand {
    /// The answer with a number: the root is 0, and each later answer has the next number.
    Answer(usize),
    Undefined,
    Prim(Key),
}

/// The operand that a word is: `$3` is the answer 3, `undefined` itself, anything else a primitive as JSON.
pub fn operand_of(alloc: Global, word: &str) -> Result<Operand, WordFault> {
    if let Some(number) = word.strip_prefix("$") {
        return match number.parse::<usize>() {
            Ok(n) => Ok(Operand::Answer(n)),
            Err(_) => Err(WordFault::Unexpected),
        };
    }
    if word == "undefined" {
        return Ok(Operand::Undefined);
    }
    Ok(Operand::Prim(key_of(alloc, word)?))
}

/// The primitive that a word is as JSON, `Unexpected` where it is none.
pub fn key_of(alloc: Global, word: &str) -> Result<Key, WordFault> {
    let v = read_value(alloc, word.as_bytes())?;
    match v.node {
        ValNode::Prim(key) => Ok(key),
        _ => Err(WordFault::Unexpected),
    }
}

/// The kind that a word names: `object`, `list`, `map` or `set`.
pub fn kind_of(word: &str) -> Result<Kind, WordFault> {
    match word {
        "object" => Ok(Kind::Obj),
        "list" => Ok(Kind::List),
        "map" => Ok(Kind::Map),
        "set" => Ok(Kind::Set),
        _ => Err(WordFault::Unexpected),
    }
}

/// The value that a text is as JSON, `Unexpected` where it is none or past a limit of values.
pub fn value_of(alloc: Global, text: &str) -> Result<Val, WordFault>
    ensures { IfOk result (λ v. value_limit v ≡ None) }
{
    let v = read_value(alloc, text.as_bytes())?;
    match check_value(&v) {
        Ok(()) => Ok(v),
        Err(_) => Err(WordFault::Unexpected),
    }
}

/// The state that a text is as JSON, `Unexpected` where it is none.
pub fn state_of(alloc: Global, text: &str) -> Result<Val, WordFault>
    ensures { IfOk result (λ v. state_limit v ≡ None) }
{
    let v = read_value(alloc, text.as_bytes())?;
    match check_state(&v) {
        Ok(()) => Ok(v),
        Err(_) => Err(WordFault::Unexpected),
    }
}
