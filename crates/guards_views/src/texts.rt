//! The words of rules.
ghost use Rattle.std.specs.Prelude.{◌≡◌};
ghost use Rattle.guards_views_spec.specs.Reading as spec;
ghost use Rattle.guards_views.specs.Reads.{Reads};

use crate::fault::RulesFault;
use crate::parts::text;
use shapes::Simple;
use values::Val;

fn simple_word(word: &str) -> Option<Simple>
    ensures { result ≡ spec.simple_word word.now }
{
    if word == "any" {
        Some(Simple::Any)
    } else if word == "null" {
        Some(Simple::Null)
    } else if word == "bool" {
        Some(Simple::Bool)
    } else if word == "int" {
        Some(Simple::Int)
    } else if word == "text" {
        Some(Simple::Text)
    } else {
        None
    }
}

/// One of the five words.
pub(crate) fn simple(v: &Val) -> Result<Simple, RulesFault>
    ensures { Reads result (spec.simple_of v.now) }
{
    match text(v) {
        Some(word) => match simple_word(word.as_str()) {
            Some(simple) => Ok(simple),
            None => Err(RulesFault::NotRules),
        },
        None => Err(RulesFault::NotRules),
    }
}
