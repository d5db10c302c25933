//! Commands in words: the word, and its members as JSON.
use plain_values::{Command, Key, Op, Path, Pointer, Pointers, Text, Val, ValNode};
use std::alloc::Global;
use value_json::{write_patches, write_value};

/// A command in words.
pub fn command_text(alloc: Global, command: &Command) -> anyhow::Result<String> {
    let word = command.word().name();
    let members = members_text(alloc, command)?;
    if members.is_empty() {
        return Ok(String::from_str(alloc, word)?);
    }
    Ok(format!(in alloc; "{word} {members}")?)
}

fn members_text(alloc: Global, command: &Command) -> anyhow::Result<String> {
    match command {
        Command::Dispatch { reducer, action } => run_text(alloc, reducer, action),
        Command::Apply { patches } => {
            let text = write_patches(alloc, patches)?;
            Ok(String::from_str(alloc, text.as_str())?)
        }
        Command::Begin { grant: Some(grant) } => quoted(alloc, grant),
        Command::Edit {
            session,
            reducer,
            action,
        } => {
            let run = run_text(alloc, reducer, action)?;
            Ok(format!(in alloc; "{session} {run}")?)
        }
        Command::Finish { session, replay } => {
            let how = if *replay { "replay" } else { "exact" };
            Ok(format!(in alloc; "{session} {how}")?)
        }
        Command::Drop { session } => Ok(format!(in alloc; "{session}")?),
        Command::State { path } | Command::Node { path } => path_text(alloc, path),
        Command::View { name } => quoted(alloc, name),
        Command::Pointer { patches } => pointers_text(alloc, patches),
        Command::Begin { grant: None }
        | Command::Undo
        | Command::Redo
        | Command::Stat
        | Command::Renew => Ok(String::new(alloc)),
    }
}

/// A reducer's name, and its action.
fn run_text(alloc: Global, reducer: &Text, action: &Val) -> anyhow::Result<String> {
    let name = quoted(alloc, reducer)?;
    let action = write_value(alloc, action)?;
    Ok(format!(in alloc; "{name} {}", action.as_str())?)
}

/// A text as JSON.
fn quoted(alloc: Global, text: &Text) -> anyhow::Result<String> {
    let value = Val::primitive(Key::Text(text.copy(alloc)?));
    let text = write_value(alloc, &value)?;
    Ok(String::from_str(alloc, text.as_str())?)
}

/// A path as JSON.
fn path_text(alloc: Global, path: &Path) -> anyhow::Result<String> {
    let mut steps = Vec::new(alloc);
    for key in path.as_slice() {
        steps.push(Val::primitive(key.copy(alloc)?))?;
    }
    list_text(alloc, steps)
}

/// Values as a JSON array.
fn list_text(alloc: Global, values: Vec<Val>) -> anyhow::Result<String> {
    let list = Val {
        node: ValNode::List(values),
    };
    let text = write_value(alloc, &list)?;
    Ok(String::from_str(alloc, text.as_str())?)
}

/// Operations, each with its steps as a JSON array.
fn pointers_text(alloc: Global, pointers: &Pointers) -> anyhow::Result<String> {
    let mut out = String::from_str(alloc, "[")?;
    for (i, pointer) in pointers.as_slice().iter().enumerate() {
        if i > 0 {
            out.push_str(", ")?;
        }
        out.push_str(pointer_text(alloc, pointer)?.as_str())?;
    }
    out.push_str("]")?;
    Ok(out)
}

fn pointer_text(alloc: Global, pointer: &Pointer) -> anyhow::Result<String> {
    let op = op_text(pointer.op);
    let steps = steps_text(alloc, pointer)?;
    match &pointer.value {
        None => Ok(format!(in alloc; "{op} {steps}")?),
        Some(value) => {
            let value = write_value(alloc, value)?;
            Ok(format!(in alloc; "{op} {steps} {}", value.as_str())?)
        }
    }
}

fn steps_text(alloc: Global, pointer: &Pointer) -> anyhow::Result<String> {
    let mut steps = Vec::new(alloc);
    for step in pointer.steps.as_slice() {
        steps.push(Val::primitive(Key::Text(step.copy(alloc)?)))?;
    }
    list_text(alloc, steps)
}

fn op_text(op: Op) -> &'static str {
    match op {
        Op::Add => "add",
        Op::Replace => "replace",
        Op::Remove => "remove",
    }
}
