//! Texts between quotes.

ghost use Rattle.std.specs.Prelude.{◌≡◌};
ghost use Rattle.script_text.specs.Texts.{escaped as spec_escaped, hex_digit as spec_hex_digit, text_step as spec_text_step, HexWithin};
ghost use Rattle.script_text.specs.TextSteps.{step_of, NextWithin};
ghost use Rattle.script_text.specs.declared.token.Inside.TheVariants.{Hex};

use crate::token::Inside;

/// What one byte of a text does.
#[derive(Clone, Copy, Debug, Drop)]
pub enum TextStep {
    /// It closes the text.
    Closed,
    /// It cannot stand there.
    Refused,
    /// It gives this byte of the value, and stands before a character or its end.
    Byte(u8),
    /// It goes on in an escape, and gives nothing yet.
    Escape(Inside),
    /// It ends an escape, which gives this character.
    Character(char),
}

/// What a byte does in a text that this quote closes.
pub fn text_step(quote: u8, state: Inside, byte: u8) -> TextStep
    requires { HexWithin state }
    ensures step { step_of result ≡ spec_text_step quote state byte }
    ensures within { NextWithin result }
{
    match state {
        Inside::Plain => {
            if byte == quote {
                TextStep::Closed
            } else {
                match byte {
                    b'\\' => TextStep::Escape(Inside::Escape),
                    b'\n' | b'\r' => TextStep::Refused,
                    _ => TextStep::Byte(byte),
                }
            }
        }
        Inside::Escape => escaped(byte),
        Inside::Hex(left, value) => hex_digit(left, value, byte),
    }
}

fn escaped(byte: u8) -> TextStep
    ensures step { step_of result ≡ spec_escaped byte }
    ensures within { NextWithin result }
{
    match byte {
        b'n' => TextStep::Byte(b'\n'),
        b'r' => TextStep::Byte(b'\r'),
        b't' => TextStep::Byte(b'\t'),
        b'\\' | b'\'' | b'"' => TextStep::Byte(byte),
        b'u' => TextStep::Escape(Inside::Hex(4, 0)),
        _ => TextStep::Refused,
    }
}

fn hex_digit(left: u32, value: u32, byte: u8) -> TextStep
    requires { HexWithin (Hex left value) }
    ensures step { step_of result ≡ spec_hex_digit left value byte }
    ensures within { NextWithin result }
{
    let Some(digit) = (byte as char).to_digit(16) else {
        return TextStep::Refused;
    };
    let value = value * 16 + digit;
    if left > 1 {
        return TextStep::Escape(Inside::Hex(left - 1, value));
    }
    match char::from_u32(value) {
        Some(character) => TextStep::Character(character),
        None => TextStep::Refused,
    }
}
