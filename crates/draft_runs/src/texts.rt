//! What answers look like.
use draft_core::Peek;
use node_store::{Cell, NodeId};
use run_heap::{DraftFault, Rv};
use std::alloc::{AllocError, Global};
use value_json::write_value;
use value_model::{Key, Kind};
use values::{Path, Val};

/// A key's JSON.
pub fn json_of(alloc: Global, key: &Key) -> Result<String, AllocError> {
    let text = write_value(alloc, &Val::primitive(key.copy(alloc)?))?;
    String::from_str(alloc, text.as_str())
}

/// A value as a text: a primitive's JSON, an object's name behind `@`, a frozen node's number behind `#`.
pub fn text_of(alloc: Global, v: &Rv) -> Result<String, AllocError> {
    match v {
        Rv::Undefined => String::from_str(alloc, "undefined"),
        Rv::Prim(key) => json_of(alloc, key),
        Rv::Obj(object) => {
            let slot = object.slot;
            format!(in alloc; "@{slot}")
        }
        Rv::Frozen(id) => {
            let number = id.get();
            format!(in alloc; "#{number}")
        }
    }
}

/// The name of a refusal.
pub fn name_of(fault: DraftFault) -> &'static str {
    match fault {
        DraftFault::Revoked => "Revoked",
        DraftFault::TypeMismatch => "TypeMismatch",
        DraftFault::Frozen => "Frozen",
        DraftFault::ReservedKey => "ReservedKey",
        DraftFault::KeyTooLong => "KeyTooLong",
        DraftFault::Hole => "Hole",
        DraftFault::UndefinedWrite => "UndefinedWrite",
        DraftFault::NotADraft => "NotADraft",
        DraftFault::BadKey => "BadKey",
        DraftFault::Memory => "Memory",
    }
}

/// The answer to a call that may not be made.
pub(crate) fn not_called(alloc: Global) -> Result<String, AllocError> {
    String::from_str(alloc, "not called")
}

/// `true` or `false`.
pub(crate) fn yes_or_no(answer: bool) -> &'static str {
    if answer { "true" } else { "false" }
}

/// The name of a kind.
pub(crate) fn kind_name(kind: Kind) -> &'static str {
    match kind {
        Kind::Obj => "object",
        Kind::List => "list",
        Kind::Map => "map",
        Kind::Set => "set",
    }
}

/// A value as it is kept: of an object with a table of its own as `text_of`, of a node its primitive, or the node in it.
pub(crate) fn peek_text(alloc: Global, peek: &Peek) -> Result<String, AllocError> {
    match peek {
        Peek::Read(v) => text_of(alloc, v),
        Peek::Untouched(cell) => cell_text(alloc, cell),
    }
}

fn cell_text(alloc: Global, cell: &Cell) -> Result<String, AllocError> {
    match cell {
        Cell::Prim(key) => json_of(alloc, key),
        Cell::Node(id) => {
            let number = id.get();
            format!(in alloc; "node #{number}")
        }
    }
}

/// The number of a node behind `#`, or `none`.
pub(crate) fn source_text(alloc: Global, source: Option<NodeId>) -> Result<String, AllocError> {
    match source {
        Some(id) => {
            let number = id.get();
            format!(in alloc; "#{number}")
        }
        None => String::from_str(alloc, "none"),
    }
}

/// A path as JSON.
pub(crate) fn path_text(alloc: Global, path: &Path) -> Result<String, AllocError> {
    let mut out = String::from_str(alloc, "[")?;
    for (i, step) in path.as_slice().iter().enumerate() {
        if i > 0 {
            out.push(',')?;
        }
        out.push_str(json_of(alloc, step)?.as_str())?;
    }
    out.push(']')?;
    Ok(out)
}
