//! Looking up names.
ghost use Rattle.std.specs.Prelude.{◌≡◌, ◌<◌, map, option_map, is_some, IfSome, IsTrue};
ghost use Rattle.std.specs.FinMap.Entries.{find, is_sorted};
ghost use Rattle.value_model.specs.Order.{key_cmp};
ghost use Rattle.value_model.specs.Search.{IsPlace};
ghost use Rattle.value_model.specs.declared.key.Key.TheVariants as key_of;
ghost use Rattle.values.specs.Seen.{of_field};
ghost use Rattle.guards_views_spec.specs.Reading.{share_name};
ghost use Rattle.guards_views_spec.specs.Shapes as spec;
ghost use Rattle.shapes.specs.Seen.{of_names, placed, NamesAscend};

use crate::shape::{Named, Shape};
use std::cmp::Ordering;
use value_checks::field_place;
use values::{Field, Text};

/// The order of names.
pub(crate) fn compare(a: &Text, b: &Text) -> Ordering
    ensures { result ≡ key_cmp (key_of.Text a.now) (key_of.Text b.now) }
{
    a.as_str().as_bytes().cmp(b.as_str().as_bytes())
}

fn place(names: &[Named], name: &Text) -> Result<usize, usize>
    requires { NamesAscend names.now }
    ensures { IsPlace placed (key_of.Text name.now) names.now result }
{
    names.binary_search_by(|n| compare(&n.name, name))
}

/// The shape of a name; None exactly where the name isn't there.
fn find_name<'a>(names: &'a [Named], name: &Text) -> Option<&'a Shape>
    requires { NamesAscend names.now }
    ensures found { option_map (λ s. spec.broken s.now) result ≡ find key_cmp (key_of.Text name.now) (spec.checks (of_names names.now)) }
    ensures smaller { IfSome result (λ s. spec.shapes s.now < spec.shapes_named (of_names names.now)) }
{
    match place(names, name) {
        Ok(i) => Some(&names[i].shape),
        Err(_) => None,
    }
}

/// The shape that is asked of the value under a name; None exactly where the name isn't allowed.
pub(crate) fn asked<'a>(must: &'a [Named], may: &'a [Named], name: &Text) -> Option<&'a Shape>
    requires must { NamesAscend must.now }
    requires may { NamesAscend may.now }
    ensures found { option_map (λ s. spec.broken s.now) result ≡ spec.asked (spec.checks (of_names must.now)) (spec.checks (of_names may.now)) (key_of.Text name.now) }
    ensures smaller { IfSome result (λ s. spec.shapes s.now < spec.shapes (spec.object (of_names must.now) (of_names may.now))) }
{
    match find_name(must, name) {
        Some(shape) => Some(shape),
        None => find_name(may, name),
    }
}

/// Whether some name of the first stands in the second too. It takes no memory.
pub fn has_any(names: &[Named], others: &[Named]) -> bool
    requires { NamesAscend others.now }
    ensures { result ≡ share_name (of_names names.now) (spec.checks (of_names others.now)) }
{
    for n in names {
        if has_name(others, &n.name) {
            return true;
        }
    }
    false
}

fn has_name(names: &[Named], name: &Text) -> bool
    requires { NamesAscend names.now }
    ensures { result ≡ is_some (find key_cmp (key_of.Text name.now) (spec.checks (of_names names.now))) }
{
    find_name(names, name).is_some()
}

fn has_field(fields: &[Field], name: &Text) -> bool
    requires { IsTrue (is_sorted key_cmp (map of_field fields.now)) }
    ensures { result ≡ spec.has_key (key_of.Text name.now) (map of_field fields.now) }
{
    match field_place(fields, name) {
        Ok(_) => true,
        Err(_) => false,
    }
}

/// The first required name that no field has.
pub(crate) fn first_missing<'a>(must: &'a [Named], fields: &[Field]) -> Option<&'a Text>
    requires { IsTrue (is_sorted key_cmp (map of_field fields.now)) }
    ensures { option_map (λ t. key_of.Text t.now) result ≡ spec.first_missing (spec.checks (of_names must.now)) (map of_field fields.now) }
{
    for n in must {
        if !has_field(fields, &n.name) {
            return Some(&n.name);
        }
    }
    None
}
