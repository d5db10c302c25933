//! Replies in words. `-` stands for what is absent.
//!
//! `changed WORD ROOT SEQ SESSION | PATCHES | INVERSE`, `moved WORD ROOT SEQ BY | PATCHES | INVERSE`,
//! `pointed ROOT SEQ | POINTERS | INVERSE`, `session WORD SESSION`, `state VALUE`, `node NUMBER`,
//! `stat NODES REDO SEQ SESSIONS UNDO USED`, `renew ROOT`, `view TOTAL`, and `no WORD SESSION AT WHY`, where WHY is
//! the name of a cause, or `Thrown VALUE`, `Stale OPENED NOW`, `SessionsOpen N`, `Guard PATH` or `Denied RULE PATH`.
use anyhow::{Context, bail};
use host_protocol::read_command;
use plain_values::{Cause, Command, Key, Pair, Pointers, Refusal, Reply, Text, ValNode, Word};
use std::alloc::Global;
use value_json::{read_patches, read_path, read_value};

/// The words of commands, and that of a line.
const WORDS: [Word; 15] = [
    Word::Dispatch,
    Word::Apply,
    Word::Undo,
    Word::Redo,
    Word::Begin,
    Word::Edit,
    Word::Finish,
    Word::Drop,
    Word::State,
    Word::Node,
    Word::Stat,
    Word::Renew,
    Word::View,
    Word::Pointer,
    Word::Line,
];

/// The causes that tell no more than their name.
const CAUSES: [Cause; 42] = [
    Cause::LineTooLong,
    Cause::NotJson,
    Cause::NotCommand,
    Cause::NotYet,
    Cause::NotSafeInteger,
    Cause::TextTooLong,
    Cause::BadTag,
    Cause::DuplicateKey,
    Cause::NotContainer,
    Cause::TooDeep,
    Cause::TooBig,
    Cause::KeyTooLong,
    Cause::ReservedKey,
    Cause::NoPath,
    Cause::BadKey,
    Cause::SetReplace,
    Cause::Hole,
    Cause::UndefinedWrite,
    Cause::NotPointer,
    Cause::BadIndex,
    Cause::NoTarget,
    Cause::UnknownReducer,
    Cause::TypeMismatch,
    Cause::Frozen,
    Cause::NotADraft,
    Cause::NotInteger,
    Cause::OutOfRange,
    Cause::Cycle,
    Cause::Budget,
    Cause::ReturnAndModify,
    Cause::NotAState,
    Cause::Full,
    Cause::PatchesTooBig,
    Cause::HistoryFull,
    Cause::NothingToUndo,
    Cause::NothingToRedo,
    Cause::TooMany,
    Cause::UnknownGrant,
    Cause::UnknownSession,
    Cause::Revoked,
    Cause::ReturnInSession,
    Cause::UnknownView,
];

fn word_of(name: &str) -> anyhow::Result<Word> {
    for word in WORDS {
        if word.name() == name {
            return Ok(word);
        }
    }
    bail!("a word")
}

fn cause_of(name: &str) -> anyhow::Result<Cause> {
    for cause in CAUSES {
        if cause.name() == name {
            return Ok(cause);
        }
    }
    bail!("a cause")
}

/// The first word of a text, and what follows the space behind it.
fn cut(text: &str) -> (&str, &str) {
    match text.split_once(' ') {
        Some(parts) => parts,
        None => (text, ""),
    }
}

fn number(text: &str) -> anyhow::Result<u64> {
    Ok(text.parse::<u64>()?)
}

fn optional(text: &str) -> anyhow::Result<Option<u64>> {
    if text == "-" {
        return Ok(None);
    }
    Ok(Some(number(text)?))
}

/// The reply of these words.
pub fn reply_of(alloc: Global, text: &str) -> anyhow::Result<Reply> {
    let (kind, rest) = cut(text);
    if kind == "changed" {
        return changed(alloc, rest);
    }
    if kind == "moved" {
        return moved(alloc, rest);
    }
    if kind == "pointed" {
        return pointed(alloc, rest);
    }
    if kind == "no" {
        return refused(alloc, rest);
    }
    if kind == "state" {
        let value = read_value(alloc, rest.as_bytes())?;
        return Ok(Reply::State { value });
    }
    counted(kind, rest)
}

/// A reply of numbers alone.
fn counted(kind: &str, rest: &str) -> anyhow::Result<Reply> {
    if kind == "node" {
        let node = optional(rest)?;
        return Ok(Reply::Node { node });
    }
    if kind == "renew" {
        let root = number(rest)?;
        return Ok(Reply::Renew { root });
    }
    if kind == "view" {
        let total = number(rest)?;
        return Ok(Reply::View { total });
    }
    if kind == "session" {
        let (word, session) = cut(rest);
        let word = word_of(word)?;
        let session = number(session)?;
        return Ok(Reply::Session { word, session });
    }
    stat(rest)
}

fn stat(rest: &str) -> anyhow::Result<Reply> {
    let (nodes, rest) = cut(rest);
    let (redo, rest) = cut(rest);
    let (seq, rest) = cut(rest);
    let (sessions, rest) = cut(rest);
    let (undo, used) = cut(rest);
    Ok(Reply::Stat {
        nodes: number(nodes)?,
        redo: number(redo)?,
        seq: number(seq)?,
        sessions: number(sessions)?,
        undo: number(undo)?,
        used: number(used)?,
    })
}

fn pair_of(alloc: Global, forward: &str, inverse: &str) -> anyhow::Result<Pair> {
    let forward = read_patches(alloc, forward.trim().as_bytes())?;
    let inverse = read_patches(alloc, inverse.trim().as_bytes())?;
    Ok(Pair { forward, inverse })
}

fn changed(alloc: Global, text: &str) -> anyhow::Result<Reply> {
    let (head, lists) = text.split_once(" | ").context("lists")?;
    let (forward, inverse) = lists.split_once(" | ").context("two lists")?;
    let pair = pair_of(alloc, forward, inverse)?;
    let (word, rest) = cut(head);
    let (root, rest) = cut(rest);
    let (seq, session) = cut(rest);
    Ok(Reply::Changed {
        word: word_of(word)?,
        pair,
        root: number(root)?,
        seq: number(seq)?,
        session: optional(session)?,
    })
}

fn moved(alloc: Global, text: &str) -> anyhow::Result<Reply> {
    let (head, lists) = text.split_once(" | ").context("lists")?;
    let (forward, inverse) = lists.split_once(" | ").context("two lists")?;
    let pair = pair_of(alloc, forward, inverse)?;
    let (word, rest) = cut(head);
    let (root, rest) = cut(rest);
    let (seq, by) = cut(rest);
    Ok(Reply::Moved {
        word: word_of(word)?,
        by: if by == "-" {
            None
        } else {
            Some(Text::of(alloc, by)?)
        },
        pair,
        root: number(root)?,
        seq: number(seq)?,
    })
}

/// The operations of a JSON array of them, as a command line has it; none where `-` stands there.
fn pointers_of(alloc: Global, text: &str) -> anyhow::Result<Option<Pointers>> {
    let text = text.trim();
    if text == "-" {
        return Ok(None);
    }
    let line = format!(in alloc; "{{\"do\":\"pointer\",\"patches\":{text}}}")?;
    match read_command(alloc, line.as_bytes())? {
        Command::Pointer { patches } => Ok(Some(patches)),
        _ => bail!("operations"),
    }
}

fn pointed(alloc: Global, text: &str) -> anyhow::Result<Reply> {
    let (head, lists) = text.split_once(" | ").context("lists")?;
    let (patches, inverse) = lists.split_once(" | ").context("two lists")?;
    let patches = pointers_of(alloc, patches)?;
    let inverse = pointers_of(alloc, inverse)?;
    let (root, seq) = cut(head);
    Ok(Reply::Pointed {
        patches,
        inverse,
        root: number(root)?,
        seq: number(seq)?,
    })
}

fn key_of(alloc: Global, text: &str) -> anyhow::Result<Key> {
    match read_value(alloc, text.as_bytes())?.node {
        ValNode::Prim(key) => Ok(key),
        _ => bail!("a primitive"),
    }
}

fn why_of(alloc: Global, text: &str) -> anyhow::Result<Refusal> {
    let (name, rest) = cut(text);
    if name == "Thrown" {
        return Ok(Refusal::Thrown(key_of(alloc, rest)?));
    }
    if name == "Stale" {
        let (opened, now) = cut(rest);
        let opened = number(opened)?;
        let now = number(now)?;
        return Ok(Refusal::Stale { opened, now });
    }
    if name == "SessionsOpen" {
        return Ok(Refusal::SessionsOpen(number(rest)?));
    }
    if name == "Guard" {
        let path = read_path(alloc, rest.as_bytes())?;
        return Ok(Refusal::Guard { path });
    }
    if name == "Denied" {
        let (rule, place) = cut(rest);
        let rule = Text::of(alloc, rule)?;
        let place = read_path(alloc, place.as_bytes())?;
        return Ok(Refusal::Denied { rule, place });
    }
    Ok(Refusal::Named(cause_of(name)?))
}

fn refused(alloc: Global, text: &str) -> anyhow::Result<Reply> {
    let (word, rest) = cut(text);
    let (session, rest) = cut(rest);
    let (at, why) = cut(rest);
    let why = why_of(alloc, why)?;
    Ok(Reply::No {
        word: word_of(word)?,
        session: optional(session)?,
        at: optional(at)?,
        why,
    })
}
