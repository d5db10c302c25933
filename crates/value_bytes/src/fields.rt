ghost use Rattle.std.specs.Prelude.{◌≡◌, Some, None, cond};
ghost use Rattle.std.specs.Int.{w32, w64};
ghost use Rattle.value_bytes_spec.specs.Reading.{number_at, text_at, int_at, text_key_at, key_at, kind_at};
ghost use Rattle.value_bytes_spec.specs.Spelling.{is_text};
ghost use Rattle.value_bytes.specs.Gives.{Gives};

use crate::stop::Stop;
use std::alloc::Global;
use values::{Key, Kind, Safe, Text, TextFault};

/// The number in the first four bytes, and the bytes behind them.
pub(crate) fn count_of(bytes: &[u8]) -> Result<(u32, &[u8]), Stop>
    ensures { Gives (λ x. (x.0, x.1.now)) result (number_at w32 bytes.now) }
{
    if bytes.len() < 4 {
        return Err(Stop::NoSpelling);
    }
    let (front, rest) = bytes.split_at(4);
    let number = u32::from_be_bytes([front[0], front[1], front[2], front[3]]);
    Ok((number, rest))
}

#[tactic(auto, unfolding(value_bytes_spec::specs::Reading::int_at))]
fn int_of(bytes: &[u8]) -> Result<(Key, &[u8]), Stop>
    ensures { Gives (λ x. (x.0, x.1.now)) result (int_at bytes.now) }
{
    if bytes.len() < 8 {
        return Err(Stop::NoSpelling);
    }
    let (front, rest) = bytes.split_at(8);
    let number = i64::from_be_bytes([
        front[0], front[1], front[2], front[3], front[4], front[5], front[6], front[7],
    ]);
    match Safe::of(number) {
        Some(safe) => Ok((Key::Int(safe), rest)),
        None => Err(Stop::NoSpelling),
    }
}

/// The text at the front: a length, and that many bytes of UTF-8.
#[tactic(auto, unfolding(value_bytes_spec::specs::Reading::text_at))]
pub(crate) fn text_of(alloc: Global, bytes: &[u8]) -> Result<(Text, &[u8]), Stop>
    ensures { Gives (λ x. (x.0, x.1.now)) result (text_at bytes.now) }
{
    let (length, rest) = count_of(bytes)?;
    let length = length as usize;
    if rest.len() < length {
        return Err(Stop::NoSpelling);
    }
    let (front, rest) = rest.split_at(length);
    let text = checked_text(alloc, front)?;
    Ok((text, rest))
}

#[tactic(auto, unfolding(value_bytes_spec::specs::Reading::text_key_at))]
fn text_key_of(alloc: Global, bytes: &[u8]) -> Result<(Key, &[u8]), Stop>
    ensures { Gives (λ x. (x.0, x.1.now)) result (text_key_at bytes.now) }
{
    let (text, rest) = text_of(alloc, bytes)?;
    Ok((Key::Text(text), rest))
}

/// The primitive at the front.
#[tactic(auto, unfolding(value_bytes_spec::specs::Reading::key_at))]
pub(crate) fn key_of(alloc: Global, bytes: &[u8]) -> Result<(Key, &[u8]), Stop>
    ensures { Gives (λ x. (x.0, x.1.now)) result (key_at bytes.now) }
{
    match bytes {
        [0, rest @ ..] => Ok((Key::Null, rest)),
        [1, rest @ ..] => Ok((Key::Bool(false), rest)),
        [2, rest @ ..] => Ok((Key::Bool(true), rest)),
        [3, rest @ ..] => int_of(rest),
        [4, rest @ ..] => text_key_of(alloc, rest),
        _ => Err(Stop::NoSpelling),
    }
}

/// The kind of container that a first byte names.
#[tactic(auto, unfolding(value_bytes_spec::specs::Reading::kind_at))]
pub(crate) fn kind_of(byte: u8) -> Option<Kind>
    ensures { result ≡ kind_at byte }
{
    match byte {
        5 => Some(Kind::Obj),
        6 => Some(Kind::List),
        7 => Some(Kind::Map),
        8 => Some(Kind::Set),
        _ => None,
    }
}

fn checked_text(alloc: Global, bytes: &[u8]) -> Result<Text, Stop>
    ensures { Gives (λ s. s) result (cond (is_text bytes.now) (Some bytes.now) None) }
{
    let Ok(text) = str::from_utf8(bytes) else {
        return Err(Stop::NoSpelling);
    };
    match Text::of(alloc, text) {
        Ok(text) => Ok(text),
        Err(TextFault::TooLong) => Err(Stop::NoSpelling),
        Err(TextFault::Memory) => Err(Stop::Memory),
    }
}
