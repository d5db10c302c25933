//! The entries of a flat state and of a flat draft.
ghost use Rattle.node_store.specs.Paged.{states};
ghost use Rattle.std.specs.Prelude.{◌≡◌, ◌<◌, ◌≤◌, ◌+◌, ◌^◌, map, min, length, false, IsTrue, IfOk, MatchOption, Some, slice_get};
ghost use Rattle.value_model.specs.Plain.{prim, entries, weights, weight};
ghost use Rattle.value_model.specs.declared.key.Key.TheVariants as key;
ghost use Rattle.value_model.specs.declared.kind.Kind.TheVariants as kind;
ghost use Rattle.numbered.specs.Store.{tree_at};
ghost use Rattle.node_store.specs.Nodes.{cells_of};
ghost use Rattle.host_machine.specs.Flat.{is_integer, is_flat_table};
ghost use Rattle.host_engine.specs.Drafts.{plain_of, plain_cell, plain_rows};
ghost use Rattle.host_engine.specs.Kept.{IsFlatState, of_field, number_of, state_of, table_at};

use draft_core::{Cell, NodeId, Rv, Store};
use plain_values::{Key, Safe, capped, key_weight};
use std::alloc::{AllocError, Global};

/// An integer under its key.
#[derive(Drop)]
pub struct Field<'a> {
    pub key: &'a Key,
    pub number: Safe,
}

/// The entries of the flat state under a number, in the order of their keys. No text is copied.
pub fn fields_at<'a>(
    alloc: Global,
    store: &'a Store,
    root: NodeId,
) -> Result<Vec<Field<'a>>, AllocError>
    requires { IsFlatState (states store.now) root }
    ensures { IfOk result (λ w. map of_field w.items ≡ table_at (states store.now) root) }
{
    let count = store.count(root);
    let mut out = Vec::with_capacity(alloc, count)?;
    for i in 0..count {
        out.push_reserved(field_at(store, root, i));
    }
    Ok(out)
}

fn field_at<'a>(store: &'a Store, root: NodeId, i: usize) -> Field<'a>
    requires state { IsFlatState (states store.now) root }
    requires in_range { i < length (cells_of (tree_at (states store.now) root)) }
    ensures { slice_get (table_at (states store.now) root) i ≡ Some (of_field result) }
{
    let key = store.key(root, i);
    let Some(number) = integer_of_cell(store.cell(root, i)) else {
        unreachable!()
    };
    Field { key, number }
}

/// The entries of a flat draft, in the order of their keys. No text is copied.
pub fn fields_of<'a>(alloc: Global, rows: &'a [(Key, Rv)]) -> Result<Vec<Field<'a>>, AllocError>
    requires { IsTrue (is_flat_table (plain_rows rows.now)) }
    ensures { IfOk result (λ w. map of_field w.items ≡ plain_rows rows.now) }
{
    let mut out = Vec::with_capacity(alloc, rows.len())?;
    for row in rows {
        let Some(number) = integer_of_value(&row.1) else {
            unreachable!()
        };
        out.push_reserved(Field {
            key: &row.0,
            number,
        });
    }
    Ok(out)
}

fn integer_of_value(value: &Rv) -> Option<Safe>
    ensures { MatchOption result (is_integer (plain_of value.now) ≡ false) (λ n. plain_of value.now ≡ number_of n) }
{
    match value {
        Rv::Prim(key) => number_of_key(key),
        _ => None,
    }
}

fn integer_of_cell(cell: &Cell) -> Option<Safe>
    ensures { MatchOption result (is_integer (plain_cell cell.now) ≡ false) (λ n. plain_cell cell.now ≡ number_of n) }
{
    match cell {
        Cell::Prim(key) => number_of_key(key),
        Cell::Node(_) => None,
    }
}

/// The integer that a primitive is.
pub fn number_of_key(primitive: &Key) -> Option<Safe>
    ensures { MatchOption result (is_integer (prim primitive.now) ≡ false) (λ n. primitive.now ≡ key.Int n) }
{
    match primitive {
        Key::Int(number) => Some(*number),
        _ => None,
    }
}

/// What the object of these entries weighs, or 2^63 where that is more.
pub fn object_weight(fields: &[Field]) -> u64
    ensures { result ≡ min (weight (state_of (map of_field fields.now))) (2 ^ 63) }
{
    capped(fields_weight(fields), 1)
}

fn fields_weight(fields: &[Field]) -> u64
    ensures { result ≡ min (weights kind.Obj (entries (map of_field fields.now))) (2 ^ 63) }
{
    let mut total: u64 = 0;
    for f in fields {
        total = capped(total, capped(key_weight(f.key), 1));
    }
    total
}
