//! Members of the objects that replies are, sent to a serializer.
ghost use Rattle.std.specs.Prelude.{◌≡◌, OnOk, codes};
ghost use Rattle.serde.specs.Event.{Logs, Then, field_key};
ghost use Rattle.serde.specs.declared.name.Case.TheVariants.{AsIs};
ghost use Rattle.serde_json.specs.Data.{no_members};
ghost use Rattle.serde_json.specs.Events.{SendsMembers};
ghost use Rattle.host_protocol.specs.Spelled.{spelled_or_null};
ghost use Rattle.host_protocol_spec.specs.Replies as spec;
ghost use Rattle.plain_values.specs.declared.command.Word.TheVariants as word;
ghost use Rattle.value_json.specs.Sent.{SendsMember};
ghost use Rattle.value_json_spec.specs.Patches.{patches_data};

use plain_values::{Pair, Text, Word};
use pointer_json::PrintedPointers;
use serde::{Serialize, Serializer};
use value_json::PrintedPatches;

/// A member of an object: its name, and its value as that is sent.
pub(crate) fn member<T: Serialize, S: Serializer>(
    name: &str,
    value: &T,
    out: &mut S,
) -> Result<(), S::Error>
    ensures { OnOk result (Then (λ old new. Logs old new (field_key name.now AsIs)) (T.writes value.now) (S.written out.old) (S.written out.new)) }
{
    out.key(name)?;
    value.serialize(out)
}

/// A member that is a count, or null.
pub(crate) fn count_member<S: Serializer>(
    name: &str,
    count: Option<u64>,
    out: &mut S,
) -> Result<(), S::Error>
    ensures { OnOk result (SendsMember name.now (spec.count_or_null count) (S.written out.old) (S.written out.new)) }
{
    match count {
        Some(count) => member(name, &count, out),
        None => member(name, &(), out),
    }
}

/// A member that is a text, or null.
pub(crate) fn text_member<S: Serializer>(
    name: &str,
    text: &Option<Text>,
    out: &mut S,
) -> Result<(), S::Error>
    ensures { OnOk result (SendsMember name.now (spec.text_or_null text.now) (S.written out.old) (S.written out.new)) }
{
    match text {
        Some(text) => member(name, &text.as_str(), out),
        None => member(name, &(), out),
    }
}

/// A member that is a list of operations, or null.
pub(crate) fn pointers_member<S: Serializer>(
    name: &str,
    list: &Option<PrintedPointers<'_>>,
    out: &mut S,
) -> Result<(), S::Error>
    ensures { OnOk result (SendsMember name.now (spelled_or_null list.now) (S.written out.old) (S.written out.new)) }
{
    match list {
        Some(list) => member(name, list, out),
        None => member(name, &(), out),
    }
}

/// Where the state is after a change, and the session that ended.
#[derive(Clone, Copy, Drop)]
pub(crate) struct Place {
    pub(crate) root: u64,
    pub(crate) seq: u64,
    pub(crate) session: Option<u64>,
}

/// The members of a change from its lists on, and the end of the object.
pub(crate) fn send_lists<S: Serializer>(
    word: &Word,
    pair: &Pair,
    place: Place,
    out: &mut S,
) -> Result<(), S::Error>
    ensures { OnOk result (SendsMembers (spec.lists_members (patches_data pair.now.inverse) word.now (patches_data pair.now.forward) (spec.place_members place.root place.seq place.session)) (S.written out.old) (S.written out.new)) }
{
    let inverse = PrintedPatches {
        patches: &pair.inverse,
    };
    let forward = PrintedPatches {
        patches: &pair.forward,
    };
    member("inverse", &inverse, out)?;
    member("ok", &word.name(), out)?;
    member("patches", &forward, out)?;
    send_place(place, out)
}

/// The members of a change by operations, and the end of the object.
pub(crate) fn send_pointers<S: Serializer>(
    inverse: &Option<PrintedPointers<'_>>,
    patches: &Option<PrintedPointers<'_>>,
    place: Place,
    out: &mut S,
) -> Result<(), S::Error>
    ensures { OnOk result (SendsMembers (spec.lists_members (spelled_or_null inverse.now) word.Pointer (spelled_or_null patches.now) (spec.place_members place.root place.seq place.session)) (S.written out.old) (S.written out.new)) }
{
    pointers_member("inverse", inverse, out)?;
    member("ok", &Word::Pointer.name(), out)?;
    pointers_member("patches", patches, out)?;
    send_place(place, out)
}

fn send_place<S: Serializer>(place: Place, out: &mut S) -> Result<(), S::Error>
    ensures { OnOk result (SendsMembers (spec.place_members place.root place.seq place.session) (S.written out.old) (S.written out.new)) }
{
    member("root", &place.root, out)?;
    member("seq", &place.seq, out)?;
    send_session(place.session, out)
}

/// The session, where there is one, and the end of the object.
fn send_session<S: Serializer>(session: Option<u64>, out: &mut S) -> Result<(), S::Error>
    ensures { OnOk result (SendsMembers (spec.with_count (codes "session") session no_members) (S.written out.old) (S.written out.new)) }
{
    match session {
        Some(session) => {
            member("session", &session, out)?;
            out.end_map()
        }
        None => out.end_map(),
    }
}
