//! Replies as lines.
ghost use Rattle.std.specs.Prelude.{◌≡◌, IfOk, OnOk, None, codes, string_bytes};
ghost use Rattle.serde_json.specs.Data.{object, member};
ghost use Rattle.serde_json.specs.Events.{SendsValue};
ghost use Rattle.host_protocol.specs.Spelled.{line_data, spelled_or_null};
ghost use Rattle.host_protocol_spec.specs.Replies as spec;
ghost use Rattle.host_protocol_spec.specs.Replies.{reply_data, reply_line};
ghost use Rattle.value_json_spec.specs.Patches.{patches_data};
ghost use Rattle.plain_values.specs.declared.command.Word.TheVariants as word;
ghost use Rattle.plain_values.specs.declared.reply.Reply.TheVariants as reply;

use crate::members::{Place, count_member, member, send_lists, send_pointers, text_member};
use crate::refused::send_refusal;
use plain_values::{Pair, Pointers, Reply, Text, Val, Word};
use pointer_json::PrintedPointers;
use serde::{Described, Serialize, Serializer};
use std::alloc::{AllocError, Global};
use value_json::Printed;

/// A reply as its line, to be printed: `pointer` with its lists of operations as they are spelled.
#[derive(Drop)]
struct Line<'a> {
    reply: &'a Reply,
    patches: Option<PrintedPointers<'a>>,
    inverse: Option<PrintedPointers<'a>>,
}

impl Described for Line<'_> {
    ghost writes = { λ l. SendsValue (line_data l) };
}

impl Serialize for Line<'_> {
    fn serialize<S: Serializer>(&self, out: &mut S) -> Result<(), S::Error> {
        send_line(self, out)
    }
}

/// The line of a reply, without its LF: a compact JSON object with ascending names. The only error is want of memory.
pub fn write_reply(alloc: Global, reply: &Reply) -> Result<String, AllocError>
    ensures { IfOk result (λ s. string_bytes s ≡ reply_line reply.now) }
{
    let line = line_of(alloc, reply)?;
    match serde_json::to_string(alloc, &line) {
        Ok(text) => Ok(text),
        Err(_) => Err(AllocError),
    }
}

#[tactic(auto, unfolding(host_protocol_spec::specs::Replies::reply_data))]
fn line_of(alloc: Global, reply: &Reply) -> Result<Line<'_>, AllocError>
    ensures { IfOk result (λ l. line_data l ≡ reply_data reply.now) }
{
    match reply {
        Reply::Pointed {
            patches,
            inverse,
            ..
        } => {
            let patches = spelled(alloc, patches)?;
            let inverse = spelled(alloc, inverse)?;
            Ok(Line {
                reply,
                patches,
                inverse,
            })
        }
        _ => Ok(Line {
            reply,
            patches: None,
            inverse: None,
        }),
    }
}

#[tactic(auto, unfolding(host_protocol_spec::specs::Pointers::pointers_data))]
fn spelled(
    alloc: Global,
    list: &Option<Pointers>,
) -> Result<Option<PrintedPointers<'_>>, AllocError>
    ensures { IfOk result (λ p. spelled_or_null p ≡ spec.pointers_or_null list.now) }
{
    match list {
        Some(list) => {
            let list = PrintedPointers::of(alloc, list)?;
            Ok(Some(list))
        }
        None => Ok(None),
    }
}

#[tactic(auto, unfolding(host_protocol_spec::specs::Replies::reply_data))]
fn send_line<S: Serializer>(line: &Line<'_>, out: &mut S) -> Result<(), S::Error>
    ensures { OnOk result (SendsValue (line_data line.now) (S.written out.old) (S.written out.new)) }
{
    match line.reply {
        Reply::Changed {
            word,
            pair,
            root,
            seq,
            session,
        } => {
            let place = Place {
                root: *root,
                seq: *seq,
                session: *session,
            };
            send_changed(word, pair, place, out)
        }
        Reply::Moved {
            word,
            by,
            pair,
            root,
            seq,
        } => send_moved(word, by, pair, now_at(*root, *seq), out),
        Reply::Pointed { root, seq, .. } => {
            send_pointed(&line.inverse, &line.patches, now_at(*root, *seq), out)
        }
        Reply::Session { word, session } => send_session(word, *session, out),
        Reply::State { value } => send_state(value, out),
        Reply::Node { node } => send_node(*node, out),
        Reply::Stat {
            nodes,
            redo,
            seq,
            sessions,
            undo,
            used,
        } => {
            let counts = Counts {
                nodes: *nodes,
                redo: *redo,
                seq: *seq,
                sessions: *sessions,
                undo: *undo,
                used: *used,
            };
            send_stat(counts, out)
        }
        Reply::Renew { root } => send_renew(*root, out),
        Reply::View { total } => send_view(*total, out),
        Reply::No {
            word,
            session,
            at,
            why,
        } => send_refusal(word, *session, *at, why, out),
    }
}

/// Where the state is, and no session.
fn now_at(root: u64, seq: u64) -> Place
    ensures root { result.root ≡ root }
    ensures seq { result.seq ≡ seq }
    ensures session { result.session ≡ None }
{
    Place {
        root,
        seq,
        session: None,
    }
}

fn send_changed<S: Serializer>(
    word: &Word,
    pair: &Pair,
    place: Place,
    out: &mut S,
) -> Result<(), S::Error>
    ensures { OnOk result (SendsValue (object (spec.lists_members (patches_data pair.now.inverse) word.now (patches_data pair.now.forward) (spec.place_members place.root place.seq place.session))) (S.written out.old) (S.written out.new)) }
{
    let len = if place.session.is_some() { 6 } else { 5 };
    out.begin_map(Some(len))?;
    send_lists(word, pair, place, out)
}

fn send_moved<S: Serializer>(
    word: &Word,
    by: &Option<Text>,
    pair: &Pair,
    place: Place,
    out: &mut S,
) -> Result<(), S::Error>
    requires { place.session ≡ None }
    ensures { OnOk result (SendsValue (object (member (codes "by") (spec.text_or_null by.now) (spec.lists_members (patches_data pair.now.inverse) word.now (patches_data pair.now.forward) (spec.place_members place.root place.seq place.session)))) (S.written out.old) (S.written out.new)) }
{
    out.begin_map(Some(6))?;
    text_member("by", by, out)?;
    send_lists(word, pair, place, out)
}

fn send_pointed<S: Serializer>(
    inverse: &Option<PrintedPointers<'_>>,
    patches: &Option<PrintedPointers<'_>>,
    place: Place,
    out: &mut S,
) -> Result<(), S::Error>
    requires { place.session ≡ None }
    ensures { OnOk result (SendsValue (object (spec.lists_members (spelled_or_null inverse.now) word.Pointer (spelled_or_null patches.now) (spec.place_members place.root place.seq place.session))) (S.written out.old) (S.written out.new)) }
{
    out.begin_map(Some(5))?;
    send_pointers(inverse, patches, place, out)
}

#[tactic(auto, unfolding(host_protocol_spec::specs::Replies::reply_data))]
fn send_session<S: Serializer>(word: &Word, session: u64, out: &mut S) -> Result<(), S::Error>
    ensures { OnOk result (SendsValue (reply_data (reply.Session word.now session)) (S.written out.old) (S.written out.new)) }
{
    out.begin_map(Some(2))?;
    member("ok", &word.name(), out)?;
    member("session", &session, out)?;
    out.end_map()
}

#[tactic(auto, unfolding(host_protocol_spec::specs::Replies::reply_data))]
fn send_state<S: Serializer>(value: &Val, out: &mut S) -> Result<(), S::Error>
    ensures { OnOk result (SendsValue (reply_data (reply.State value.now)) (S.written out.old) (S.written out.new)) }
{
    out.begin_map(Some(2))?;
    member("ok", &Word::State.name(), out)?;
    member("value", &Printed { value }, out)?;
    out.end_map()
}

#[tactic(auto, unfolding(host_protocol_spec::specs::Replies::reply_data))]
fn send_node<S: Serializer>(node: Option<u64>, out: &mut S) -> Result<(), S::Error>
    ensures { OnOk result (SendsValue (reply_data (reply.Node node)) (S.written out.old) (S.written out.new)) }
{
    out.begin_map(Some(2))?;
    count_member("node", node, out)?;
    member("ok", &Word::Node.name(), out)?;
    out.end_map()
}

#[tactic(auto, unfolding(host_protocol_spec::specs::Replies::reply_data))]
fn send_renew<S: Serializer>(root: u64, out: &mut S) -> Result<(), S::Error>
    ensures { OnOk result (SendsValue (reply_data (reply.Renew root)) (S.written out.old) (S.written out.new)) }
{
    out.begin_map(Some(2))?;
    member("ok", &Word::Renew.name(), out)?;
    member("root", &root, out)?;
    out.end_map()
}

#[tactic(auto, unfolding(host_protocol_spec::specs::Replies::reply_data))]
fn send_view<S: Serializer>(total: u64, out: &mut S) -> Result<(), S::Error>
    ensures { OnOk result (SendsValue (reply_data (reply.View total)) (S.written out.old) (S.written out.new)) }
{
    out.begin_map(Some(2))?;
    member("ok", &Word::View.name(), out)?;
    member("total", &total, out)?;
    out.end_map()
}

/// The numbers that a host tells of itself.
#[derive(Clone, Copy, Drop)]
struct Counts {
    nodes: u64,
    redo: u64,
    seq: u64,
    sessions: u64,
    undo: u64,
    used: u64,
}

fn send_stat<S: Serializer>(c: Counts, out: &mut S) -> Result<(), S::Error>
    ensures { OnOk result (SendsValue (object (spec.counts_members c.nodes c.redo c.seq c.sessions c.undo c.used)) (S.written out.old) (S.written out.new)) }
{
    out.begin_map(Some(7))?;
    member("nodes", &c.nodes, out)?;
    member("ok", &Word::Stat.name(), out)?;
    member("redo", &c.redo, out)?;
    member("seq", &c.seq, out)?;
    member("sessions", &c.sessions, out)?;
    member("undo", &c.undo, out)?;
    member("used", &c.used, out)?;
    out.end_map()
}
