//! Values sent to a serializer, part by part, so that they are printed without a tree of JSON data.
ghost use Rattle.std.specs.Prelude.{◌≡◌, OnOk, IsTrue, map, codes};
ghost use Rattle.std.specs.FinMap.Entries.{is_sorted};
ghost use Rattle.serde.specs.Event.{Logs, map_begins, field_key};
ghost use Rattle.serde.specs.declared.name.Case.TheVariants.{AsIs};
ghost use Rattle.serde_json.specs.Data.{number, array, object};
ghost use Rattle.serde_json.specs.Events.{SendsValue};
ghost use Rattle.serde_json.specs.Find.{of_integer};
ghost use Rattle.value_json.specs.Sent.{Opens};
ghost use Rattle.value_json.specs.Sound.{is_sound, is_sound_key, all_sound};
ghost use Rattle.value_model.specs.Order.{key_cmp};
ghost use Rattle.value_json_spec.specs.Printing as spec;
ghost use Rattle.value_json_spec.specs.Printing.{key_data, val_data};
ghost use Rattle.values.specs.Seen.{of_field, of_fields, of_entries, of_items, of_members};

use serde::{Described, Serialize, Serializer};
use values::{Entry, Field, Key, Val, ValNode};

/// A value in its JSON form, to be printed.
#[derive(Drop)]
pub struct Printed<'a> {
    pub value: &'a Val,
}

impl Described for Printed<'_> {
    ghost writes = { λ p old new. SendsValue (val_data p.value.now) old new × IsTrue (is_sound p.value.now) };
}

impl Serialize for Printed<'_> {
    fn serialize<S: Serializer>(&self, out: &mut S) -> Result<(), S::Error> {
        send(self.value, out)
    }
}

/// A primitive, to be printed.
#[derive(Drop)]
pub struct PrintedKey<'a> {
    pub key: &'a Key,
}

impl Described for PrintedKey<'_> {
    ghost writes = { λ p. SendsValue (key_data p.key.now) };
}

impl Serialize for PrintedKey<'_> {
    fn serialize<S: Serializer>(&self, out: &mut S) -> Result<(), S::Error> {
        send_key(self.key, out)
    }
}

/// Sends a primitive. A caller learns besides that it is sound.
pub(crate) fn send_key<S: Serializer>(key: &Key, out: &mut S) -> Result<(), S::Error>
    ensures json { OnOk result (SendsValue (key_data key.now) (S.written out.old) (S.written out.new)) }
    ensures sound { OnOk result (IsTrue (is_sound_key key.now)) }
{
    match key {
        Key::Null => out.unit(),
        Key::Bool(b) => out.bool(*b),
        Key::Int(n) => send_integer(n.get(), out),
        Key::Text(text) => out.str(text.as_str()),
    }
}

fn send_integer<S: Serializer>(n: i64, out: &mut S) -> Result<(), S::Error>
    ensures { OnOk result (SendsValue (number (of_integer n)) (S.written out.old) (S.written out.new)) }
{
    if n < 0 { out.i64(n) } else { out.u64(n as u64) }
}

/// Sends a value. A caller learns besides that it is sound.
#[cycle(send)]
#[tactic(auto, using(value_model::proofs::Steps::list_of_entries, values::proofs::Fits::fields_fit, values::proofs::Fits::items_fit, values::proofs::Fits::entries_fit, values::proofs::Fits::members_fit))]
fn send<S: Serializer>(v: &Val, out: &mut S) -> Result<(), S::Error>
    ensures json { OnOk result (SendsValue (val_data v.now) (S.written out.old) (S.written out.new)) }
    ensures sound { OnOk result (IsTrue (is_sound v.now)) }
{
    match &v.node {
        ValNode::Prim(key) => send_key(key, out),
        ValNode::Obj(fields) => send_object(fields, out),
        ValNode::List(items) => send_items(items, out),
        ValNode::Map(entries) => {
            open(out, "$map")?;
            send_pairs(entries, out)?;
            out.end_map()
        }
        ValNode::Set(members) => {
            open(out, "$set")?;
            send_members(members, out)?;
            out.end_map()
        }
    }
}

/// The begin of an object of one member, with the member's name.
fn open<S: Serializer>(out: &mut S, name: &str) -> Result<(), S::Error>
    ensures { OnOk result (Opens name.now (S.written out.old) (S.written out.new)) }
{
    out.begin_map(Some(1))?;
    out.key(name)
}

/// Sends an object, inside `$obj` where it would read as a tag.
#[cycle(send)]
fn send_object<S: Serializer>(fields: &[Field], out: &mut S) -> Result<(), S::Error>
    ensures json { OnOk result (SendsValue (spec.object_data (spec.fields_data (of_fields fields.now))) (S.written out.old) (S.written out.new)) }
    ensures sound { OnOk result (IsTrue (all_sound (of_fields fields.now))) }
{
    if is_tagged(fields) {
        open(out, "$obj")?;
        send_fields(fields, out)?;
        out.end_map()
    } else {
        send_fields(fields, out)
    }
}

#[cycle(send)]
fn send_fields<S: Serializer>(fields: &[Field], out: &mut S) -> Result<(), S::Error>
    ensures json { OnOk result (SendsValue (object (spec.fields_data (of_fields fields.now))) (S.written out.old) (S.written out.new)) }
    ensures sound { OnOk result (IsTrue (all_sound (of_fields fields.now))) }
{
    out.begin_map(Some(fields.len()))?;
    for f in fields {
        out.key(f.key.as_str())?;
        send(&f.value, out)?;
    }
    out.end_map()
}

#[cycle(send)]
fn send_items<S: Serializer>(items: &[Val], out: &mut S) -> Result<(), S::Error>
    ensures json { OnOk result (SendsValue (array (spec.elements_data (of_items items.now))) (S.written out.old) (S.written out.new)) }
    ensures sound { OnOk result (IsTrue (all_sound (of_items items.now))) }
{
    out.begin_seq(Some(items.len()))?;
    for v in items {
        send(v, out)?;
    }
    out.end_seq()
}

#[cycle(send)]
fn send_pairs<S: Serializer>(entries: &[Entry], out: &mut S) -> Result<(), S::Error>
    ensures json { OnOk result (SendsValue (array (spec.pairs_data (of_entries entries.now))) (S.written out.old) (S.written out.new)) }
    ensures sound { OnOk result (IsTrue (all_sound (of_entries entries.now))) }
{
    out.begin_seq(Some(entries.len()))?;
    for e in entries {
        send_pair(e, out)?;
    }
    out.end_seq()
}

#[cycle(send)]
fn send_pair<S: Serializer>(e: &Entry, out: &mut S) -> Result<(), S::Error>
    ensures json { OnOk result (SendsValue (spec.pair_data e.now.key (val_data e.now.value)) (S.written out.old) (S.written out.new)) }
    ensures key { OnOk result (IsTrue (is_sound_key e.now.key)) }
    ensures value { OnOk result (IsTrue (is_sound e.now.value)) }
{
    out.begin_seq(Some(2))?;
    send_key(&e.key, out)?;
    send(&e.value, out)?;
    out.end_seq()
}

fn send_members<S: Serializer>(members: &[Key], out: &mut S) -> Result<(), S::Error>
    ensures json { OnOk result (SendsValue (array (spec.keys_data (of_members members.now))) (S.written out.old) (S.written out.new)) }
    ensures sound { OnOk result (IsTrue (all_sound (of_members members.now))) }
{
    out.begin_seq(Some(members.len()))?;
    for k in members {
        send_key(k, out)?;
    }
    out.end_seq()
}

/// Whether there is one field, and its name is a tag.
fn is_tagged(fields: &[Field]) -> bool
    ensures { result ≡ spec.is_tagged (spec.fields_data (of_fields fields.now)) }
{
    fields.len() == 1 && is_tag(fields[0].key.as_str())
}

fn is_tag(name: &str) -> bool
    ensures { result ≡ spec.is_tag name.now }
{
    name == "$map" || name == "$set" || name == "$obj"
}
