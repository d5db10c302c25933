//! Printing: operations sent to a serializer, part by part.
ghost use Rattle.std.specs.Prelude.{◌≡◌, IfOk, OnOk, map, string_bytes};
ghost use Rattle.serde_json.specs.Data.{array, string};
ghost use Rattle.serde_json.specs.Events.{SendsValue};
ghost use Rattle.serde_json.specs.View.{items_of};
ghost use Rattle.host_protocol_spec.specs.Pointers.{operation_data};
ghost use Rattle.pointer_json.specs.Spelled.{spelled_data};
ghost use Rattle.value_json.specs.Sent.{SendsPlace};
ghost use Rattle.value_json_spec.specs.Patches.{op_text as op_text_of};

use crate::texts::pointer_text;
use plain_values::{Op, Pointer, Pointers};
use serde::{Described, Serialize, Serializer};
use std::alloc::{AllocError, Global};
use value_json::Printed;

/// An operation with its path's text.
#[derive(Drop)]
pub struct Spelled<'a> {
    pub(crate) pointer: &'a Pointer,
    pub(crate) path: String,
}

/// Operations with their paths' texts, to be printed.
#[derive(Drop)]
pub struct PrintedPointers<'a> {
    pub(crate) list: Vec<Spelled<'a>>,
}

impl PrintedPointers<'_> {
    /// These operations. The only error is want of memory.
    pub fn of(alloc: Global, pointers: &Pointers) -> Result<PrintedPointers<'_>, AllocError>
        ensures { IfOk result (λ p. map spelled_data p.list.items ≡ map operation_data pointers.now) }
    {
        let mut list = Vec::with_capacity(alloc, pointers.as_slice().len())?;
        for pointer in pointers.as_slice() {
            list.push(with_path(alloc, pointer)?)?;
        }
        Ok(PrintedPointers { list })
    }
}

fn with_path(alloc: Global, pointer: &Pointer) -> Result<Spelled<'_>, AllocError>
    ensures { IfOk result (λ s. spelled_data s ≡ operation_data pointer.now) }
{
    let path = pointer_text(alloc, pointer.steps.as_slice())?;
    Ok(Spelled { pointer, path })
}

impl Described for PrintedPointers<'_> {
    ghost writes = { λ p. SendsValue (array (items_of (map spelled_data p.list.items))) };
}

impl Serialize for PrintedPointers<'_> {
    fn serialize<S: Serializer>(&self, out: &mut S) -> Result<(), S::Error> {
        send_list(self.list.as_slice(), out)
    }
}

fn send_list<S: Serializer>(list: &[Spelled<'_>], out: &mut S) -> Result<(), S::Error>
    ensures { OnOk result (SendsValue (array (items_of (map spelled_data list.now))) (S.written out.old) (S.written out.new)) }
{
    out.begin_seq(Some(list.len()))?;
    for spelled in list {
        send_operation(spelled, out)?;
    }
    out.end_seq()
}

fn send_operation<S: Serializer>(spelled: &Spelled<'_>, out: &mut S) -> Result<(), S::Error>
    ensures { OnOk result (SendsValue (spelled_data spelled.now) (S.written out.old) (S.written out.new)) }
{
    match &spelled.pointer.value {
        None => {
            send_place(spelled, 2, out)?;
            out.end_map()
        }
        Some(value) => {
            send_place(spelled, 3, out)?;
            out.key("value")?;
            Printed { value }.serialize(out)?;
            out.end_map()
        }
    }
}

/// The begin of an operation of so many members, with its first two, `op` and `path`.
fn send_place<S: Serializer>(
    spelled: &Spelled<'_>,
    members: usize,
    out: &mut S,
) -> Result<(), S::Error>
    ensures { OnOk result (SendsPlace members (op_text_of spelled.now.pointer.now.op) (string (string_bytes spelled.now.path)) (S.written out.old) (S.written out.new)) }
{
    out.begin_map(Some(members))?;
    out.key("op")?;
    out.str(op_text(spelled.pointer.op))?;
    out.key("path")?;
    out.str(spelled.path.as_str())
}

fn op_text(op: Op) -> &'static str
    ensures { result.now ≡ op_text_of op }
{
    match op {
        Op::Add => "add",
        Op::Replace => "replace",
        Op::Remove => "remove",
    }
}
