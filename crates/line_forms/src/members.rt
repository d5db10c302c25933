//! The members of a command line, by its word.
ghost use Rattle.std.specs.Prelude.{◌≡◌, ◌<◌, option_map, is_some};
ghost use Rattle.serde_json.specs.Find.{as_str};
ghost use Rattle.serde_json.specs.View.{view};
ghost use Rattle.host_protocol_spec.specs.Forms as spec;
ghost use Rattle.value_json_spec.specs.Patches as form;

use plain_values::Word;
use pointer_json::is_pointer_list;
use serde_json::Value;
use value_json::{is_patch_list, is_path};

/// The greatest number of a session.
const MAX_SESSION: u64 = (1 << 53) - 1;

/// Whether a line with this word has exactly its members, each in its form; `line` is the word of none.
pub fn has_form(word: Word, value: &Value) -> bool
    ensures { result ≡ spec.has_form word (view value.now) }
{
    match word {
        Word::Dispatch => is_dispatch(value),
        Word::Apply => is_apply(value),
        Word::Begin => is_begin(value),
        Word::Edit => is_edit(value),
        Word::Finish => is_finish(value),
        Word::Drop => is_drop(value),
        Word::State | Word::Node => is_reading(value),
        Word::View => is_view(value),
        Word::Pointer => is_pointer(value),
        Word::Undo | Word::Redo | Word::Stat | Word::Renew => has_members(value, 1),
        Word::Line => false,
    }
}

fn is_dispatch(value: &Value) -> bool
    ensures { result ≡ spec.is_dispatch (view value.now) }
{
    has_members_with(value, 2, value.get("action")) && has_string(value.get("reducer"))
}

fn is_apply(value: &Value) -> bool
    ensures { result ≡ spec.is_apply (view value.now) }
{
    has_members(value, 2) && has_patches(value.get("patches"))
}

fn is_begin(value: &Value) -> bool
    ensures { result ≡ spec.is_begin (view value.now) }
{
    has_members_with(value, 1, value.get("grant")) && may_have_string(value.get("grant"))
}

fn is_edit(value: &Value) -> bool
    ensures { result ≡ spec.is_edit (view value.now) }
{
    has_members_with(value, 3, value.get("action"))
        && has_session(value.get("session"))
        && has_string(value.get("reducer"))
}

fn is_finish(value: &Value) -> bool
    ensures { result ≡ spec.is_finish (view value.now) }
{
    has_members_with(value, 2, value.get("how"))
        && has_session(value.get("session"))
        && may_have_how(value.get("how"))
}

fn is_drop(value: &Value) -> bool
    ensures { result ≡ spec.is_drop (view value.now) }
{
    has_members(value, 2) && has_session(value.get("session"))
}

fn is_reading(value: &Value) -> bool
    ensures { result ≡ spec.is_reading (view value.now) }
{
    has_members_with(value, 1, value.get("path")) && may_have_path(value.get("path"))
}

fn is_view(value: &Value) -> bool
    ensures { result ≡ spec.is_view (view value.now) }
{
    has_members(value, 2) && has_string(value.get("name"))
}

fn is_pointer(value: &Value) -> bool
    ensures { result ≡ spec.is_pointer (view value.now) }
{
    has_members(value, 2) && has_pointers(value.get("patches"))
}

/// An object of exactly so many members.
fn has_members(value: &Value, count: usize) -> bool
    ensures { result ≡ form.has_members count (view value.now) }
{
    match value.as_object() {
        Some(members) => members.len() == count,
        None => false,
    }
}

/// An object of so many members, and one more where that one is there.
fn has_members_with(value: &Value, count: usize, more: Option<&Value>) -> bool
    requires { count < 4 }
    ensures { result ≡ spec.has_members_with count (option_map (λ v. view v.now) more.entry) (view value.now) }
{
    match more {
        Some(_) => has_members(value, count + 1),
        None => has_members(value, count),
    }
}

fn has_string(value: Option<&Value>) -> bool
    ensures { result ≡ spec.has spec.is_string (option_map (λ v. view v.now) value.entry) }
{
    match value {
        Some(value) => value.as_str().is_some(),
        None => false,
    }
}

fn may_have_string(value: Option<&Value>) -> bool
    ensures { result ≡ spec.may_have spec.is_string (option_map (λ v. view v.now) value.entry) }
{
    match value {
        Some(value) => value.as_str().is_some(),
        None => true,
    }
}

fn has_session(value: Option<&Value>) -> bool
    ensures { result ≡ spec.has spec.is_session (option_map (λ v. view v.now) value.entry) }
{
    match value {
        Some(value) => is_session(value),
        None => false,
    }
}

fn is_session(value: &Value) -> bool
    ensures { result ≡ spec.is_session (view value.now) }
{
    match value.as_u64() {
        Some(number) => number <= MAX_SESSION,
        None => false,
    }
}

fn has_patches(value: Option<&Value>) -> bool
    ensures { result ≡ spec.has spec.is_patch_list (option_map (λ v. view v.now) value.entry) }
{
    match value {
        Some(value) => is_patch_list(value),
        None => false,
    }
}

fn has_pointers(value: Option<&Value>) -> bool
    ensures { result ≡ spec.has spec.is_pointer_list (option_map (λ v. view v.now) value.entry) }
{
    match value {
        Some(value) => is_pointer_list(value),
        None => false,
    }
}

fn may_have_how(value: Option<&Value>) -> bool
    ensures { result ≡ spec.may_have spec.is_how (option_map (λ v. view v.now) value.entry) }
{
    match value {
        Some(value) => is_how(value),
        None => true,
    }
}

fn is_how(value: &Value) -> bool
    ensures { result ≡ spec.is_how (view value.now) }
{
    is_this_text(value, "exact") || is_this_text(value, "replay")
}

/// Whether the data is this text.
pub fn is_this_text(value: &Value, text: &str) -> bool
    ensures { result ≡ spec.is_text text.now (as_str (view value.now)) }
{
    match value.as_str() {
        Some(s) => s == text,
        None => false,
    }
}

fn may_have_path(value: Option<&Value>) -> bool
    ensures { result ≡ spec.may_have form.is_path (option_map (λ v. view v.now) value.entry) }
{
    match value {
        Some(value) => is_path(value),
        None => true,
    }
}
