ghost use Rattle.std.specs.Prelude.{◌≡◌, ◌<◌, ◌^◌, ◌++◌, length, IsTrue, OnOk};
ghost use Rattle.std.specs.Int.{w32, to_be_bytes};
ghost use Rattle.value_model.specs.Plain.{weight, weights};
ghost use Rattle.value_model.specs.Well.{well, all_well};
ghost use Rattle.value_model.specs.declared.kind.Kind.TheVariants as kind;
ghost use Rattle.values.specs.Seen.{of_fields, of_entries, of_items, of_members};
ghost use Rattle.value_bytes_spec.specs.Spelling.{text_bytes, key_bytes, value_bytes, entries_bytes, is_text, is_word, all_words, all_words_in};

use std::alloc::AllocError;
use values::{Entry, Field, Key, Text, Val, ValNode};

/// Appends a count of four bytes.
pub(crate) fn put_count(out: &mut Vec<u8>, count: usize) -> Result<(), AllocError>
    requires { count < 2 ^ 32 }
    ensures { OnOk result (out.new.items ≡ out.old.items ++ to_be_bytes w32 count) }
{
    out.extend_from_slice(&(count as u32).to_be_bytes())
}

fn put_text(out: &mut Vec<u8>, text: &Text) -> Result<(), AllocError>
    ensures bytes { OnOk result (out.new.items ≡ out.old.items ++ text_bytes text.now) }
    ensures word { IsTrue (is_text text.now) }
{
    let letters = text.as_str();
    put_count(out, letters.len())?;
    out.extend_from_slice(letters.as_bytes())
}

/// Appends a primitive.
pub(crate) fn put_key(out: &mut Vec<u8>, key: &Key) -> Result<(), AllocError>
    ensures bytes { OnOk result (out.new.items ≡ out.old.items ++ key_bytes key.now) }
    ensures word { OnOk result (IsTrue (is_word key.now)) }
{
    match key {
        Key::Null => out.push(0)?,
        Key::Bool(false) => out.push(1)?,
        Key::Bool(true) => out.push(2)?,
        Key::Int(n) => {
            out.push(3)?;
            out.extend_from_slice(&n.get().to_be_bytes())?;
        }
        Key::Text(text) => {
            out.push(4)?;
            put_text(out, text)?;
        }
    }
    Ok(())
}

/// Appends a value. A caller learns besides that each of its levels is in order, and its primitives within their limits.
#[cycle(writing)]
pub(crate) fn put_nested(out: &mut Vec<u8>, v: &Val) -> Result<(), AllocError>
    requires { weight v.now < 2 ^ 32 }
    ensures bytes { OnOk result (out.new.items ≡ out.old.items ++ value_bytes v.now) }
    ensures well { OnOk result (IsTrue (well v.now)) }
    ensures words { OnOk result (IsTrue (all_words v.now)) }
{
    match &v.node {
        ValNode::Prim(key) => put_key(out, key),
        ValNode::Obj(fields) => {
            out.push(5)?;
            put_count(out, fields.len())?;
            put_fields(out, fields)
        }
        ValNode::List(items) => {
            out.push(6)?;
            put_count(out, items.len())?;
            put_items(out, items)
        }
        ValNode::Map(entries) => {
            out.push(7)?;
            put_count(out, entries.len())?;
            put_entries(out, entries)
        }
        ValNode::Set(members) => {
            out.push(8)?;
            put_count(out, members.len())?;
            put_members(out, members)
        }
    }
}

#[cycle(writing)]
fn put_fields(out: &mut Vec<u8>, fields: &[Field]) -> Result<(), AllocError>
    requires { weights kind.Obj (of_fields fields.now) < 2 ^ 32 }
    ensures bytes { OnOk result (out.new.items ≡ out.old.items ++ entries_bytes kind.Obj (of_fields fields.now)) }
    ensures well { OnOk result (IsTrue (all_well (of_fields fields.now))) }
    ensures words { OnOk result (IsTrue (all_words_in (of_fields fields.now))) }
{
    for f in fields {
        put_text(out, &f.key)?;
        put_nested(out, &f.value)?;
    }
    Ok(())
}

#[cycle(writing)]
fn put_items(out: &mut Vec<u8>, items: &[Val]) -> Result<(), AllocError>
    requires { weights kind.List (of_items items.now) < 2 ^ 32 }
    ensures bytes { OnOk result (out.new.items ≡ out.old.items ++ entries_bytes kind.List (of_items items.now)) }
    ensures well { OnOk result (IsTrue (all_well (of_items items.now))) }
    ensures words { OnOk result (IsTrue (all_words_in (of_items items.now))) }
{
    for v in items {
        put_nested(out, v)?;
    }
    Ok(())
}

#[cycle(writing)]
fn put_entries(out: &mut Vec<u8>, entries: &[Entry]) -> Result<(), AllocError>
    requires { weights kind.Map (of_entries entries.now) < 2 ^ 32 }
    ensures bytes { OnOk result (out.new.items ≡ out.old.items ++ entries_bytes kind.Map (of_entries entries.now)) }
    ensures well { OnOk result (IsTrue (all_well (of_entries entries.now))) }
    ensures words { OnOk result (IsTrue (all_words_in (of_entries entries.now))) }
{
    for e in entries {
        put_key(out, &e.key)?;
        put_nested(out, &e.value)?;
    }
    Ok(())
}

fn put_members(out: &mut Vec<u8>, members: &[Key]) -> Result<(), AllocError>
    ensures bytes { OnOk result (out.new.items ≡ out.old.items ++ entries_bytes kind.Set (of_members members.now)) }
    ensures well { OnOk result (IsTrue (all_well (of_members members.now))) }
    ensures words { OnOk result (IsTrue (all_words_in (of_members members.now))) }
{
    for k in members {
        put_key(out, k)?;
    }
    Ok(())
}
