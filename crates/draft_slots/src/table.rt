//! The entries of one object. Keys ascend wherever an entry is found by its key.
ghost use Rattle.std.specs.Prelude.{◌≡◌, ◌<◌, ◌≤◌, ◌&&◌, [], not, IsTrue, IfOk, map, length, slice_set};
ghost use Rattle.std.specs.FinMap.Entries.{put, is_sorted};
ghost use Rattle.std.specs.Ordering.{is_eq};
ghost use Rattle.value_model.specs.declared.key.Key.TheVariants as key;
ghost use Rattle.value_model.specs.declared.kind.Kind.TheVariants as kind;
ghost use Rattle.value_model.specs.Order.{key_cmp};
ghost use Rattle.value_model.specs.Search.{IsPlace};
ghost use Rattle.run_heap.specs.Operations as spec;
ghost use Rattle.run_heap.specs.Operations.{item};
ghost use Rattle.run_heap.specs.Sound.{all_stand};
ghost use Rattle.run_heap.specs.Values.{same, same_tables};
ghost use Rattle.draft_slots.specs.Tables.{keyed, KeyAt, Leaves};

use run_heap::{Rv, Table};
use std::alloc::{AllocError, Global};
use value_model::Key;

/// Where the key is, or where it would go.
fn place(entries: &[(Key, Rv)], key: &Key) -> Result<usize, usize>
    requires { IsTrue (is_sorted key_cmp entries.now) }
    ensures { IsPlace keyed key.now entries.now result }
{
    entries.binary_search_by(|entry| entry.0.compare(key))
}

/// The index of the entry with a key.
pub fn position(entries: &[(Key, Rv)], key: &Key) -> Option<usize>
    requires { IsTrue (is_sorted key_cmp entries.now) }
    ensures { result ≡ spec.position key.now entries.now }
{
    match place(entries, key) {
        Ok(at) => Some(at),
        Err(_) => None,
    }
}

/// Sets the entry of a key, and answers whether the table differs.
pub fn set_key(table: &mut Table, key: Key, value: Rv) -> Result<bool, AllocError>
    requires { IsTrue (is_sorted key_cmp table.old) }
    ensures { Leaves result table.old table.new (put key_cmp key value table.old) }
{
    match place(table.as_slice(), &key) {
        Ok(at) => Ok(set_entry(table, at, (key, value))),
        Err(at) => {
            table.entries.insert(at, (key, value))?;
            Ok(true)
        }
    }
}

/// Puts an entry in the place of one with its key, and answers whether the table differs.
fn set_entry(table: &mut Table, at: usize, entry: (Key, Rv)) -> bool
    requires in_range { at < length table.old }
    requires same_key { KeyAt entry.0 at table.old }
    ensures table { table.new ≡ slice_set table.old at entry }
    ensures differs { result ≡ not (same_tables table.old (slice_set table.old at entry)) }
{
    let differs = !table.entries[at].1.same(&entry.1);
    table.entries[at] = entry;
    differs
}

/// Removes the entry of a key, and answers whether there was one.
pub fn unset_key(table: &mut Table, key: &Key) -> bool
    requires { IsTrue (is_sorted key_cmp table.old) }
    ensures table { table.new ≡ spec.without key.now table.old }
    ensures differs { result ≡ not (same_tables table.old (spec.without key.now table.old)) }
{
    match place(table.as_slice(), key) {
        Ok(at) => {
            table.entries.remove(at);
            true
        }
        Err(_) => false,
    }
}

/// Removes every entry, and answers whether there was one.
pub fn clear(table: &mut Table) -> bool
    ensures table { table.new ≡ [] }
    ensures differs { result ≡ not (same_tables table.old []) }
{
    let differs = !table.entries.is_empty();
    table.entries.clear();
    differs
}

/// Sets the element of a list at an index, or adds one at its end, and answers whether the list differs.
pub fn set_element(table: &mut Table, at: usize, value: Rv) -> Result<bool, AllocError>
    requires in_range { at ≤ length table.old }
    requires list { IsTrue (all_stand kind.List table.old) }
    ensures { Leaves result table.old table.new (spec.set_element at value table.old) }
{
    if at == table.entries.len() {
        table.entries.push((Key::Null, value))?;
        return Ok(true);
    }
    Ok(set_entry(table, at, (Key::Null, value)))
}

/// Replaces the elements of a list from `from` up to `to`, and answers whether the list differs.
pub fn splice(
    alloc: Global,
    table: &mut Table,
    from: usize,
    to: usize,
    items: &[Rv],
) -> Result<bool, AllocError>
    requires ordered { from ≤ to }
    requires in_range { to ≤ length table.old }
    ensures { Leaves result table.old table.new (spec.spliced from to items.now table.old) }
{
    let differs = !are_items(&table.entries[from..to], items);
    let fresh = copy_items(alloc, items)?;
    table.entries.splice(from..to, fresh)?;
    Ok(differs)
}

/// Whether the entries are these elements of a list.
fn are_items(entries: &[(Key, Rv)], items: &[Rv]) -> bool
    ensures { result ≡ same_tables entries.now (map item items.now) }
{
    if entries.len() != items.len() {
        return false;
    }
    for (i, value) in items.iter().enumerate() {
        if !is_item(&entries[i], value) {
            return false;
        }
    }
    true
}

fn is_item(entry: &(Key, Rv), value: &Rv) -> bool
    ensures { result ≡ (is_eq (key_cmp entry.now.0 key.Null) && same entry.now.1 value.now) }
{
    entry.0.compare(&Key::Null).is_eq() & entry.1.same(value)
}

/// The values as elements of a list.
fn copy_items(alloc: Global, items: &[Rv]) -> Result<Vec<(Key, Rv)>, AllocError>
    ensures { IfOk result (λ v. v.items ≡ map item items.now) }
{
    let mut out = Vec::with_capacity(alloc, items.len())?;
    for value in items {
        out.push((Key::Null, value.copy(alloc)?))?;
    }
    Ok(out)
}
