//! Edits of the entries of one page.
ghost use Rattle.std.specs.Prelude.{◌≡◌, ◌≤◌, ◌++◌, length, take, drop, IfOk};
ghost use Rattle.page_tables.specs.Edits as spec;
ghost use Rattle.page_tables.specs.Edits.{upto, front, back, added, placed, edited};

use crate::row::{Edit, Row};
use std::alloc::{AllocError, Global};
use std::cmp::Ordering;
use value_model::Key;

/// Whether an edit's key is at most this one.
fn is_upto(key: &Key, edit: &Edit) -> bool
    ensures { result ≡ upto key.now edit.now }
{
    edit.key.compare(key).is_le()
}

/// How many edits at the front have keys up to this one.
pub fn count_upto(key: &Key, edits: &[Edit]) -> usize
    ensures within { result ≤ length edits.now }
    ensures front { take result edits.now ≡ front key.now edits.now }
    ensures back { drop result edits.now ≡ back key.now edits.now }
{
    for i in 0..edits.len() {
        if !is_upto(key, &edits[i]) {
            return i;
        }
    }
    edits.len()
}

/// Appends what an edit leaves at its key.
fn put_edit(alloc: Global, out: Vec<Row>, edit: &Edit) -> Result<Vec<Row>, AllocError>
    ensures { IfOk result (λ v. v.items ≡ out.items ++ spec.row_of edit.now) }
{
    let mut out = out;
    match &edit.cell {
        Some(cell) => {
            let key = edit.key.copy(alloc)?;
            let cell = cell.copy(alloc)?;
            out.push(Row::new(key, cell))?;
            Ok(out)
        }
        None => Ok(out),
    }
}

/// Appends what edits leave at their keys.
pub fn put_edits(alloc: Global, out: Vec<Row>, edits: &[Edit]) -> Result<Vec<Row>, AllocError>
    ensures { IfOk result (λ v. v.items ≡ out.items ++ added edits.now) }
{
    let mut all = out;
    for edit in edits {
        all = put_edit(alloc, all, edit)?;
    }
    Ok(all)
}

/// Whether one of the edits has this key.
fn is_replaced(key: &Key, edits: &[Edit]) -> bool
    ensures { result ≡ spec.replaced key.now edits.now }
{
    for edit in edits {
        if edit.key.compare(key).is_eq() {
            return true;
        }
    }
    false
}

/// Appends the edits up to an entry's key, and the entry if none of them has its key.
fn put_row(alloc: Global, out: Vec<Row>, row: &Row, edits: &[Edit]) -> Result<Vec<Row>, AllocError>
    ensures { IfOk result (λ v. v.items ≡ out.items ++ placed row.now edits.now) }
{
    let mut all = put_edits(alloc, out, edits)?;
    if is_replaced(row.key(), edits) {
        Ok(all)
    } else {
        all.push(row.copy(alloc)?)?;
        Ok(all)
    }
}

/// The entries after edits.
pub fn edit_rows(alloc: Global, rows: &[Row], edits: &[Edit]) -> Result<Vec<Row>, AllocError>
    ensures { IfOk result (λ v. v.items ≡ edited rows.now edits.now) }
{
    let mut out = Vec::new(alloc);
    let mut at = 0;
    for row in rows {
        let count = count_upto(row.key(), &edits[at..]);
        out = put_row(alloc, out, row, &edits[at..at + count])?;
        at += count;
    }
    put_edits(alloc, out, &edits[at..])
}
