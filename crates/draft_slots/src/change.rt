//! A change of one object.
ghost use Rattle.std.specs.Prelude.{◌≡◌, IfOk, OnErr, OnOk};
ghost use Rattle.run_heap.specs.Heap.{rewritten};
ghost use Rattle.draft_slots.specs.Looks.{changed, MayChange};
ghost use Rattle.draft_slots.specs.Tables.{Leaves};

use crate::table::{clear, set_element, set_key, splice, unset_key};
use run_heap::{Content, Rv, Table};
use std::alloc::{AllocError, Global};
use value_model::Key;

/// What becomes of an object's table.
#[derive(Drop)]
pub enum Change<'a> {
    /// The entry of a key has this value.
    Set(Key, Rv),
    /// There is no entry of the key.
    Unset(&'a Key),
    /// The element of a list at an index is this one; at the length it is added.
    Element(usize, Rv),
    /// The elements of a list from the first index up to the second are these.
    Splice(usize, usize, &'a [Rv]),
    /// There is no entry.
    Clear,
}

/// Makes the change, and sets the object's mark where its table differs. After want of memory the object is as before.
pub fn rewrite(alloc: Global, content: &mut Content, change: Change) -> Result<(), AllocError>
    requires { MayChange change content.old.table }
    ensures ok { OnOk result (content.new ≡ rewritten (changed change.entry content.old.table) content.old) }
    ensures err { OnErr result (content.new ≡ content.old) }
{
    let differs = change_table(alloc, &mut content.table, change)?;
    content.written = content.written | differs;
    Ok(())
}

fn change_table(alloc: Global, table: &mut Table, change: Change) -> Result<bool, AllocError>
    requires { MayChange change table.old }
    ensures { Leaves result table.old table.new (changed change.entry table.old) }
{
    match change {
        Change::Set(key, value) => set_key(table, key, value),
        Change::Unset(key) => Ok(unset_key(table, key)),
        Change::Element(at, value) => set_element(table, at, value),
        Change::Splice(from, to, items) => splice(alloc, table, from, to, items),
        Change::Clear => Ok(clear(table)),
    }
}
