//! Refusals, sent to a serializer.
ghost use Rattle.std.specs.Prelude.{◌≡◌, ◌≤◌, OnOk, codes};
ghost use Rattle.serde_json.specs.Data.{object};
ghost use Rattle.serde_json.specs.Events.{SendsMembers, SendsValue};
ghost use Rattle.host_protocol.specs.Lengths.{count_len as count_len_of, told_len as told_len_of};
ghost use Rattle.host_protocol_spec.specs.Replies as spec;

use crate::members::member;
use plain_values::{Refusal, Word};
use serde::Serializer;
use value_json::{PrintedKey, PrintedPath};

/// The object of a refusal.
pub(crate) fn send_refusal<S: Serializer>(
    word: &Word,
    session: Option<u64>,
    at: Option<u64>,
    why: &Refusal,
    out: &mut S,
) -> Result<(), S::Error>
    ensures { OnOk result (SendsValue (object (spec.with_count (codes "at") at (spec.no_members_of word.now session why.now))) (S.written out.old) (S.written out.new)) }
{
    let len = 2 + told_len(why) + count_len(at) + count_len(session);
    out.begin_map(Some(len))?;
    send_from_at(word, session, at, why, out)
}

fn told_len(why: &Refusal) -> usize
    ensures value { result ≡ told_len_of why.now }
    ensures few { result ≤ 2 }
{
    match why {
        Refusal::Named(_) => 0,
        Refusal::Thrown(_) | Refusal::SessionsOpen(_) | Refusal::Guard { .. } => 1,
        Refusal::Stale { .. } | Refusal::Denied { .. } => 2,
    }
}

fn count_len(count: Option<u64>) -> usize
    ensures value { result ≡ count_len_of count }
    ensures few { result ≤ 1 }
{
    match count {
        Some(_) => 1,
        None => 0,
    }
}

/// The members from `at` on, and the end of the object.
fn send_from_at<S: Serializer>(
    word: &Word,
    session: Option<u64>,
    at: Option<u64>,
    why: &Refusal,
    out: &mut S,
) -> Result<(), S::Error>
    ensures { OnOk result (SendsMembers (spec.with_count (codes "at") at (spec.no_members_of word.now session why.now)) (S.written out.old) (S.written out.new)) }
{
    match at {
        Some(at) => {
            member("at", &at, out)?;
            send_from_no(word, session, why, out)
        }
        None => send_from_no(word, session, why, out),
    }
}

fn send_from_no<S: Serializer>(
    word: &Word,
    session: Option<u64>,
    why: &Refusal,
    out: &mut S,
) -> Result<(), S::Error>
    ensures { OnOk result (SendsMembers (spec.no_members_of word.now session why.now) (S.written out.old) (S.written out.new)) }
{
    member("no", &word.name(), out)?;
    send_told(session, why, out)
}

/// What the refusal tells, with the session in its place, and the end of the object.
fn send_told<S: Serializer>(
    session: Option<u64>,
    why: &Refusal,
    out: &mut S,
) -> Result<(), S::Error>
    ensures { OnOk result (SendsMembers (spec.told_before why.now (spec.with_count (codes "session") session (spec.told_behind why.now (spec.why_members why.now)))) (S.written out.old) (S.written out.new)) }
{
    match why {
        Refusal::Stale { opened, now } => {
            member("now", now, out)?;
            member("opened", opened, out)?;
            send_session(session, why, out)
        }
        Refusal::Guard { path } => {
            member("path", &PrintedPath { path }, out)?;
            send_session(session, why, out)
        }
        Refusal::Denied { rule, place } => {
            member("place", &PrintedPath { path: place }, out)?;
            member("rule", &rule.as_str(), out)?;
            send_session(session, why, out)
        }
        Refusal::Named(_) | Refusal::Thrown(_) | Refusal::SessionsOpen(_) => {
            send_session(session, why, out)
        }
    }
}

fn send_session<S: Serializer>(
    session: Option<u64>,
    why: &Refusal,
    out: &mut S,
) -> Result<(), S::Error>
    ensures { OnOk result (SendsMembers (spec.with_count (codes "session") session (spec.told_behind why.now (spec.why_members why.now))) (S.written out.old) (S.written out.new)) }
{
    match session {
        Some(session) => {
            member("session", &session, out)?;
            send_behind(why, out)
        }
        None => send_behind(why, out),
    }
}

fn send_behind<S: Serializer>(why: &Refusal, out: &mut S) -> Result<(), S::Error>
    ensures { OnOk result (SendsMembers (spec.told_behind why.now (spec.why_members why.now)) (S.written out.old) (S.written out.new)) }
{
    match why {
        Refusal::SessionsOpen(sessions) => {
            member("sessions", sessions, out)?;
            send_why(why, out)
        }
        Refusal::Thrown(value) => {
            member("value", &PrintedKey { key: value }, out)?;
            send_why(why, out)
        }
        Refusal::Named(_)
        | Refusal::Stale { .. }
        | Refusal::Guard { .. }
        | Refusal::Denied { .. } => send_why(why, out),
    }
}

fn send_why<S: Serializer>(why: &Refusal, out: &mut S) -> Result<(), S::Error>
    ensures { OnOk result (SendsMembers (spec.why_members why.now) (S.written out.old) (S.written out.new)) }
{
    member("why", &why.name(), out)?;
    out.end_map()
}
