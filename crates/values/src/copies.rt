ghost use Rattle.std.specs.Prelude.{◌≡◌, IfOk};
ghost use Rattle.values.specs.Seen.{of_fields, of_entries, of_items};

use crate::val::{Entry, Field, Val, ValNode};
use std::alloc::{AllocError, Global};
use value_model::Key;

impl Val {
    /// The same value.
    pub fn copy(&self, alloc: Global) -> Result<Val, AllocError>
        ensures { IfOk result (λ w. w ≡ self.now) }
    {
        copy(alloc, self)
    }
}

#[cycle(copy)]
fn copy(alloc: Global, v: &Val) -> Result<Val, AllocError>
    ensures { IfOk result (λ w. w ≡ v.now) }
{
    match &v.node {
        ValNode::Prim(k) => Ok(Val {
            node: ValNode::Prim(k.copy(alloc)?),
        }),
        ValNode::Obj(fields) => Ok(Val {
            node: ValNode::Obj(copy_fields(alloc, fields)?),
        }),
        ValNode::List(items) => Ok(Val {
            node: ValNode::List(copy_items(alloc, items)?),
        }),
        ValNode::Map(entries) => Ok(Val {
            node: ValNode::Map(copy_entries(alloc, entries)?),
        }),
        ValNode::Set(members) => Ok(Val {
            node: ValNode::Set(copy_members(alloc, members)?),
        }),
    }
}

#[cycle(copy)]
fn copy_fields(alloc: Global, fields: &Vec<Field>) -> Result<Vec<Field>, AllocError>
    ensures { IfOk result (λ w. w.items ≡ fields.now.items) }
{
    let mut out = Vec::new(alloc);
    for f in fields {
        let key = f.key.copy(alloc)?;
        let value = copy(alloc, &f.value)?;
        out.push(Field { key, value })?;
    }
    Ok(out)
}

#[cycle(copy)]
fn copy_items(alloc: Global, items: &Vec<Val>) -> Result<Vec<Val>, AllocError>
    ensures { IfOk result (λ w. w.items ≡ items.now.items) }
{
    let mut out = Vec::new(alloc);
    for v in items {
        out.push(copy(alloc, v)?)?;
    }
    Ok(out)
}

#[cycle(copy)]
fn copy_entries(alloc: Global, entries: &Vec<Entry>) -> Result<Vec<Entry>, AllocError>
    ensures { IfOk result (λ w. w.items ≡ entries.now.items) }
{
    let mut out = Vec::new(alloc);
    for e in entries {
        let key = e.key.copy(alloc)?;
        let value = copy(alloc, &e.value)?;
        out.push(Entry { key, value })?;
    }
    Ok(out)
}

fn copy_members(alloc: Global, members: &Vec<Key>) -> Result<Vec<Key>, AllocError>
    ensures { IfOk result (λ w. w.items ≡ members.now.items) }
{
    let mut out = Vec::new(alloc);
    for k in members {
        out.push(k.copy(alloc)?)?;
    }
    Ok(out)
}
