ghost use Rattle.std.specs.Prelude.{◌≡◌, map, option_map, IsTrue, slice_get};
ghost use Rattle.std.specs.FinMap.Entries.{find, is_sorted};
ghost use Rattle.value_model.specs.Order.{key_cmp};
ghost use Rattle.value_model.specs.Places as spec;
ghost use Rattle.value_model.specs.Search.{IsPlace};
ghost use Rattle.value_model.specs.declared.key.Key.TheVariants as key_of;
ghost use Rattle.value_model.specs.declared.kind.Kind.TheVariants as kind;
ghost use Rattle.values.specs.Seen.{of_field, of_entry, of_item, of_member};

use std::cmp::Ordering;
use values::{Entry, Field, Key, Path, Text, Val, ValNode};

/// What stands at a path, None exactly where nothing does. A step is a text in an object, an integer from 0 below the
/// length in a list, any key in a Map; a Set and a primitive have no places.
pub fn at<'a>(v: &'a Val, path: &Path) -> Option<&'a Val>
    ensures { option_map (λ w. w.now) result ≡ spec.at path.now v.now }
{
    let mut here = v;
    for step in path.as_slice() {
        match child(here, step) {
            Some(next) => here = next,
            None => return None,
        }
    }
    Some(here)
}

/// The child at a step, None exactly where there is none.
pub fn child<'a>(v: &'a Val, step: &Key) -> Option<&'a Val>
    ensures { option_map (λ w. w.now) result ≡ spec.child step.now v.now }
{
    match &v.node {
        ValNode::Prim(_) | ValNode::Set(_) => None,
        ValNode::List(items) => item_at(items, step),
        ValNode::Obj(fields) => field_at(fields, step),
        ValNode::Map(entries) => entry_at(entries, step),
    }
}

fn item_at<'a>(items: &'a [Val], step: &Key) -> Option<&'a Val>
    ensures { option_map (λ w. w.now) result ≡ spec.child_at kind.List step.now (map of_item items.now) }
{
    match step {
        Key::Int(n) => match n.index() {
            Some(i) => item(items, i),
            None => None,
        },
        _ => None,
    }
}

fn item<'a>(items: &'a [Val], i: u64) -> Option<&'a Val>
    ensures { option_map (λ w. w.now) result ≡ slice_get (map (λ e. e.1) (map of_item items.now)) i }
{
    if i >= items.len() as u64 {
        return None;
    }
    Some(&items[i as usize])
}

fn field_at<'a>(fields: &'a [Field], step: &Key) -> Option<&'a Val>
    requires { IsTrue (is_sorted key_cmp (map of_field fields.now)) }
    ensures { option_map (λ w. w.now) result ≡ find key_cmp step.now (map of_field fields.now) }
{
    match step {
        Key::Text(name) => match field_place(fields, name) {
            Ok(i) => Some(&fields[i].value),
            Err(_) => None,
        },
        _ => None,
    }
}

fn entry_at<'a>(entries: &'a [Entry], step: &Key) -> Option<&'a Val>
    requires { IsTrue (is_sorted key_cmp (map of_entry entries.now)) }
    ensures { option_map (λ w. w.now) result ≡ find key_cmp step.now (map of_entry entries.now) }
{
    match entry_place(entries, step) {
        Ok(i) => Some(&entries[i].value),
        Err(_) => None,
    }
}

/// Where an object's key is, or where it would go.
pub fn field_place(fields: &[Field], name: &Text) -> Result<usize, usize>
    requires { IsTrue (is_sorted key_cmp (map of_field fields.now)) }
    ensures { IsPlace of_field (key_of.Text name.now) fields.now result }
{
    fields.binary_search_by(|f| compare_texts(&f.key, name))
}

/// Where a Map's key is, or where it would go.
pub fn entry_place(entries: &[Entry], key: &Key) -> Result<usize, usize>
    requires { IsTrue (is_sorted key_cmp (map of_entry entries.now)) }
    ensures { IsPlace of_entry key.now entries.now result }
{
    entries.binary_search_by(|e| e.key.compare(key))
}

/// Where a Set's member is, or where it would go.
pub fn member_place(members: &[Key], key: &Key) -> Result<usize, usize>
    requires { IsTrue (is_sorted key_cmp (map of_member members.now)) }
    ensures { IsPlace of_member key.now members.now result }
{
    members.binary_search_by(|k| k.compare(key))
}

fn compare_texts(a: &Text, b: &Text) -> Ordering
    ensures { result ≡ key_cmp (key_of.Text a.now) (key_of.Text b.now) }
{
    a.as_str().as_bytes().cmp(b.as_str().as_bytes())
}
