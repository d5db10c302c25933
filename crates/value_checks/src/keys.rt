ghost use Rattle.std.specs.Prelude.{◌≡◌, IsTrue};
ghost use Rattle.value_model.specs.Limits as spec;
ghost use Rattle.value_model.specs.Well.{well, all_well};
ghost use Rattle.value_model.specs.declared.kind.Kind.TheVariants as kind;
ghost use Rattle.values.specs.Seen.{of_fields, of_entries, of_items, of_members};

use values::{Entry, Field, Key, Text, Val, ValNode};

/// What is wrong with some key inside a value.
#[derive(Clone, Copy, Debug, Drop)]
pub(crate) struct KeyFaults {
    /// A key of an object or a Map, or a member of a Set, is a text of more than 1,024 bytes.
    pub(crate) long: bool,
    /// A key of an object is reserved.
    pub(crate) reserved: bool,
}

/// What is wrong with the keys of a value. A caller learns besides that each of its levels is in order.
#[cycle(keys)]
#[tactic(auto, using(value_model::proofs::Steps::list_of_entries, values::proofs::Fits::fields_fit, values::proofs::Fits::items_fit, values::proofs::Fits::entries_fit, values::proofs::Fits::members_fit))]
pub(crate) fn key_faults(v: &Val) -> KeyFaults
    ensures long { result.long ≡ spec.has_long_key v.now }
    ensures reserved { result.reserved ≡ spec.has_reserved_key v.now }
    ensures well { IsTrue (well v.now) }
{
    match &v.node {
        ValNode::Prim(_) => KeyFaults {
            long: false,
            reserved: false,
        },
        ValNode::Obj(fields) => in_fields(fields),
        ValNode::List(items) => in_items(items),
        ValNode::Map(entries) => in_entries(entries),
        ValNode::Set(members) => in_members(members),
    }
}

#[cycle(keys)]
fn in_fields(fields: &[Field]) -> KeyFaults
    ensures long { result.long ≡ spec.any_long_key (of_fields fields.now) }
    ensures reserved { result.reserved ≡ spec.any_reserved_key kind.Obj (of_fields fields.now) }
    ensures well { IsTrue (all_well (of_fields fields.now)) }
{
    let mut long = false;
    let mut reserved = false;
    for f in fields {
        let inside = key_faults(&f.value);
        long = long | f.key.is_long() | inside.long;
        reserved = reserved | f.key.is_reserved() | inside.reserved;
    }
    KeyFaults { long, reserved }
}

#[cycle(keys)]
fn in_items(items: &[Val]) -> KeyFaults
    ensures long { result.long ≡ spec.any_long_key (of_items items.now) }
    ensures reserved { result.reserved ≡ spec.any_reserved_key kind.List (of_items items.now) }
    ensures well { IsTrue (all_well (of_items items.now)) }
{
    let mut long = false;
    let mut reserved = false;
    for v in items {
        let inside = key_faults(v);
        long = long | inside.long;
        reserved = reserved | inside.reserved;
    }
    KeyFaults { long, reserved }
}

#[cycle(keys)]
fn in_entries(entries: &[Entry]) -> KeyFaults
    ensures long { result.long ≡ spec.any_long_key (of_entries entries.now) }
    ensures reserved { result.reserved ≡ spec.any_reserved_key kind.Map (of_entries entries.now) }
    ensures well { IsTrue (all_well (of_entries entries.now)) }
{
    let mut long = false;
    let mut reserved = false;
    for e in entries {
        let inside = key_faults(&e.value);
        long = long | e.key.is_long() | inside.long;
        reserved = reserved | inside.reserved;
    }
    KeyFaults { long, reserved }
}

fn in_members(members: &[Key]) -> KeyFaults
    ensures long { result.long ≡ spec.any_long_key (of_members members.now) }
    ensures reserved { result.reserved ≡ spec.any_reserved_key kind.Set (of_members members.now) }
    ensures well { IsTrue (all_well (of_members members.now)) }
{
    let mut long = false;
    for k in members {
        long = long | k.is_long();
    }
    KeyFaults {
        long,
        reserved: false,
    }
}
