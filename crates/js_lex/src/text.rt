//! Texts between quotes.

ghost use Rattle.std.specs.Prelude.{◌≡◌, ◌≤◌, length, IfSome};
ghost use Rattle.script_text.specs.Texts.{text_in};
ghost use Rattle.script_text.specs.TextSteps.{step_of, NextWithin as TextNextWithin};
ghost use Rattle.script_text.specs.declared.token.Inside.TheVariants.{Plain};
ghost use Rattle.js_lex.specs.Steps.{counted_step, NextWithin, span};

use script_text::{Inside, TextStep, text_step};

/// The most bytes that the value of a text has.
const LONGEST: usize = 1_048_576;

/// What one byte of a text does.
enum Step {
    Closed,
    Refused,
    /// The byte adds so many bytes to the value.
    Adds(usize, Inside),
}

/// What the step adds.
fn counted(step: TextStep) -> Step
    requires { TextNextWithin step }
    ensures step { result ≡ counted_step (step_of step) }
    ensures within { NextWithin result }
{
    match step {
        TextStep::Closed => Step::Closed,
        TextStep::Refused => Step::Refused,
        TextStep::Byte(_) => Step::Adds(1, Inside::Plain),
        TextStep::Escape(next) => Step::Adds(0, next),
        TextStep::Character(character) => Step::Adds(character.len_utf8(), Inside::Plain),
    }
}

/// How many bytes behind its opening quote a text has, the closing one included; `None` where it is not
/// well formed or its value too long.
#[tactic(auto, using(crate::proofs::Spans::at_end, crate::proofs::Spans::at_closed, crate::proofs::Spans::at_refused, crate::proofs::Spans::at_adds, crate::proofs::Spans::at_long))]
pub(crate) fn text_end(quote: u8, bytes: &[u8]) -> Option<usize>
    ensures end { result ≡ span 0 0 (text_in quote Plain bytes.now) }
    ensures within { IfSome result (λ end. end ≤ length bytes.now) }
{
    let mut state = Inside::Plain;
    let mut value = 0;
    for (at, byte) in bytes.iter().enumerate() {
        match counted(text_step(quote, state, *byte)) {
            Step::Closed => return Some(at + 1),
            Step::Refused => return None,
            Step::Adds(added, next) => {
                value += added;
                state = next;
            }
        }
        if value > LONGEST {
            return None;
        }
    }
    None
}
