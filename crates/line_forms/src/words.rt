//! The word of a command line.
ghost use Rattle.std.specs.Prelude.{◌≡◌};
ghost use Rattle.serde_json.specs.View.{view};
ghost use Rattle.host_protocol_spec.specs.Forms as spec;

use plain_values::Word;
use serde_json::Value;

/// The word under `do`; None where another text, no text or nothing is there.
pub fn word_in(value: &Value) -> Option<Word>
    ensures { result ≡ spec.word_in (view value.now) }
{
    word_of(value.get("do")?.as_str()?)
}

fn word_of(text: &str) -> Option<Word>
    ensures { result ≡ spec.word_of text.now }
{
    if text == "dispatch" {
        Some(Word::Dispatch)
    } else if text == "apply" {
        Some(Word::Apply)
    } else if text == "undo" {
        Some(Word::Undo)
    } else if text == "redo" {
        Some(Word::Redo)
    } else if text == "begin" {
        Some(Word::Begin)
    } else if text == "edit" {
        Some(Word::Edit)
    } else if text == "finish" {
        Some(Word::Finish)
    } else if text == "drop" {
        Some(Word::Drop)
    } else if text == "state" {
        Some(Word::State)
    } else if text == "node" {
        Some(Word::Node)
    } else if text == "stat" {
        Some(Word::Stat)
    } else if text == "renew" {
        Some(Word::Renew)
    } else if text == "view" {
        Some(Word::View)
    } else if text == "pointer" {
        Some(Word::Pointer)
    } else {
        None
    }
}
