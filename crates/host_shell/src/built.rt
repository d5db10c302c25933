//! The forms of lines that the host runs so far. The patches of `apply` are each of one entry of a flat object.
ghost use Rattle.std.specs.Prelude.{◌≡◌, option_map, option_and_then, is_some};
ghost use Rattle.serde_json.specs.Find.{as_array, as_number, as_str};
ghost use Rattle.serde_json.specs.View.{view, items_view};
ghost use Rattle.host_protocol_spec.specs.Forms.{text_in};
ghost use Rattle.stream_run.specs.Built as spec;

use plain_values::{Op, Word};
use serde_json::Value;
use value_json::op_in;

/// The one test of what is run: whether the host runs lines with this word and these members.
pub fn is_built_form(word: Word, json: &Value) -> bool
    ensures { result ≡ spec.is_built_form word (view json.now) }
{
    match word {
        Word::Apply => are_flat_if(json.get("patches")),
        Word::State | Word::Node | Word::Stat => true,
        _ => false,
    }
}

/// Whether a member is an array of flat patches.
fn are_flat_if(value: Option<&Value>) -> bool
    ensures { result ≡ spec.are_flat_if (option_and_then as_array (option_map (λ v. view v.now) value.entry)) }
{
    match value {
        Some(value) => are_flat(value),
        None => false,
    }
}

fn are_flat(value: &Value) -> bool
    ensures { result ≡ spec.are_flat_if (as_array (view value.now)) }
{
    match value.as_array() {
        Some(items) => are_flat_items(items.as_slice()),
        None => false,
    }
}

fn are_flat_items(items: &[Value]) -> bool
    ensures { result ≡ spec.are_flat_items (items_view items.now) }
{
    for item in items {
        if !is_flat_patch(item) {
            return false;
        }
    }
    true
}

fn is_flat_patch(value: &Value) -> bool
    ensures { result ≡ spec.is_flat_patch_data (view value.now) }
{
    has_name_path(value) && has_flat_value(op_in(value), value.get("value"))
}

fn has_name_path(value: &Value) -> bool
    ensures { result ≡ spec.has_name_path (view value.now) }
{
    match value.get("path") {
        Some(path) => is_one_text(path),
        None => false,
    }
}

fn is_one_text(path: &Value) -> bool
    ensures { result ≡ is_some (text_in (option_and_then spec.only_item (as_array (view path.now)))) }
{
    match only_item(path) {
        Some(step) => step.as_str().is_some(),
        None => false,
    }
}

fn only_item(value: &Value) -> Option<&Value>
    ensures { option_map (λ v. view v.now) result ≡ option_and_then spec.only_item (as_array (view value.now)) }
{
    let items = value.as_array()?.as_slice();
    if items.len() == 1 {
        Some(&items[0])
    } else {
        None
    }
}

fn has_flat_value(op: Option<Op>, value: Option<&Value>) -> bool
    ensures { result ≡ spec.has_flat_value op (option_map (λ v. view v.now) value.entry) }
{
    match op {
        Some(Op::Remove) => value.is_none(),
        Some(_) => is_number(value),
        None => false,
    }
}

fn is_number(value: Option<&Value>) -> bool
    ensures { result ≡ is_some (option_and_then as_number (option_map (λ v. view v.now) value.entry)) }
{
    match value {
        Some(value) => value.as_number().is_some(),
        None => false,
    }
}
