//! The command of a line of one of the forms, member by member.
ghost use Rattle.std.specs.Prelude.{◌≡◌, option_map, option_and_then};
ghost use Rattle.serde_json.specs.Find.{as_number, as_u64};
ghost use Rattle.serde_json.specs.View.{view};
ghost use Rattle.host_protocol.specs.Gives.{Gives};
ghost use Rattle.host_protocol_spec.specs.Commands as spec;
ghost use Rattle.host_protocol_spec.specs.Forms.{text_in as text_in_of};
ghost use Rattle.value_json_spec.specs.Answers.{result_map};
ghost use Rattle.plain_values.specs.declared.command.Command.TheVariants as command;

use crate::fault::LineFault;
use line_forms::is_this_text;
use plain_values::{Cause, Command, Key, Patches, Path, Pointers, Text, Val, Word};
use pointer_json::pointers_of_json;
use serde_json::Value;
use std::alloc::Global;
use value_json::{patches_of_json, path_of_json, text_in, val_of_json};

/// The command of a line with this word, or the first fault of its values.
pub fn command_by(alloc: Global, word: Word, json: &Value) -> Result<Command, LineFault>
    ensures { Gives result (spec.command_by word (view json.now)) }
{
    match word {
        Word::Dispatch => dispatch_in(alloc, json),
        Word::Apply => apply_in(alloc, json.get("patches")),
        Word::Undo => Ok(Command::Undo),
        Word::Redo => Ok(Command::Redo),
        Word::Begin => begin_in(alloc, json.get("grant")),
        Word::Edit => edit_in(alloc, json),
        Word::Finish => finish_in(json),
        Word::Drop => drop_in(json),
        Word::State => state_in(alloc, json.get("path")),
        Word::Node => node_in(alloc, json.get("path")),
        Word::Stat => Ok(Command::Stat),
        Word::Renew => Ok(Command::Renew),
        Word::View => view_in(alloc, json.get("name")),
        Word::Pointer => pointer_in(alloc, json.get("patches")),
        Word::Line => Err(LineFault::Refused(Cause::NotCommand)),
    }
}

// ---- the commands

#[tactic(auto, using(crate::proofs::Passed::passed_then, crate::proofs::Passed::passed_map))]
fn dispatch_in(alloc: Global, json: &Value) -> Result<Command, LineFault>
    ensures { Gives result (spec.dispatch_in (view json.now)) }
{
    let reducer = text_at(alloc, str_in(json.get("reducer")))?;
    let action = action_at(alloc, json.get("action"))?;
    Ok(Command::Dispatch { reducer, action })
}

#[tactic(auto, using(crate::proofs::Passed::passed_map))]
fn apply_in(alloc: Global, patches: Option<&Value>) -> Result<Command, LineFault>
    ensures { Gives result (result_map command.Apply (spec.patches_at (option_map (λ v. view v.now) patches.entry))) }
{
    let patches = patches_at(alloc, patches)?;
    Ok(Command::Apply { patches })
}

#[tactic(auto, using(crate::proofs::Passed::passed_map))]
fn begin_in(alloc: Global, grant: Option<&Value>) -> Result<Command, LineFault>
    ensures { Gives result (result_map command.Begin (spec.grant_at (option_map (λ v. view v.now) grant.entry))) }
{
    let grant = grant_at(alloc, grant)?;
    Ok(Command::Begin { grant })
}

#[tactic(auto, using(crate::proofs::Passed::passed_then))]
fn edit_in(alloc: Global, json: &Value) -> Result<Command, LineFault>
    ensures { Gives result (spec.edit_in (view json.now)) }
{
    let session = session_in(json)?;
    edit_with(alloc, json, session)
}

#[tactic(auto, using(crate::proofs::Passed::passed_then, crate::proofs::Passed::passed_map))]
fn edit_with(alloc: Global, json: &Value, session: u64) -> Result<Command, LineFault>
    ensures { Gives result (spec.edit_with (view json.now) session) }
{
    let reducer = text_at(alloc, str_in(json.get("reducer")))?;
    let action = action_at(alloc, json.get("action"))?;
    Ok(Command::Edit {
        session,
        reducer,
        action,
    })
}

#[tactic(auto, using(crate::proofs::Passed::passed_map))]
fn finish_in(json: &Value) -> Result<Command, LineFault>
    ensures { Gives result (result_map (spec.finish_with (view json.now)) (spec.session_in (view json.now))) }
{
    let session = session_in(json)?;
    let replay = is_replay(json.get("how"));
    Ok(Command::Finish { session, replay })
}

#[tactic(auto, using(crate::proofs::Passed::passed_map))]
fn drop_in(json: &Value) -> Result<Command, LineFault>
    ensures { Gives result (result_map command.Drop (spec.session_in (view json.now))) }
{
    let session = session_in(json)?;
    Ok(Command::Drop { session })
}

#[tactic(auto, using(crate::proofs::Passed::passed_map))]
fn state_in(alloc: Global, path: Option<&Value>) -> Result<Command, LineFault>
    ensures { Gives result (result_map command.State (spec.path_at (option_map (λ v. view v.now) path.entry))) }
{
    let path = path_at(alloc, path)?;
    Ok(Command::State { path })
}

#[tactic(auto, using(crate::proofs::Passed::passed_map))]
fn node_in(alloc: Global, path: Option<&Value>) -> Result<Command, LineFault>
    ensures { Gives result (result_map command.Node (spec.path_at (option_map (λ v. view v.now) path.entry))) }
{
    let path = path_at(alloc, path)?;
    Ok(Command::Node { path })
}

#[tactic(auto, using(crate::proofs::Passed::passed_map))]
fn view_in(alloc: Global, name: Option<&Value>) -> Result<Command, LineFault>
    ensures { Gives result (result_map command.View (spec.text_at (text_in_of (option_map (λ v. view v.now) name.entry)))) }
{
    let name = text_at(alloc, str_in(name))?;
    Ok(Command::View { name })
}

#[tactic(auto, using(crate::proofs::Passed::passed_map))]
fn pointer_in(alloc: Global, patches: Option<&Value>) -> Result<Command, LineFault>
    ensures { Gives result (result_map command.Pointer (spec.pointers_at (option_map (λ v. view v.now) patches.entry))) }
{
    let patches = pointers_at(alloc, patches)?;
    Ok(Command::Pointer { patches })
}

// ---- their members

/// The text that a member is.
fn str_in(value: Option<&Value>) -> Option<&str>
    ensures { option_map (λ s. s.now) result ≡ text_in_of (option_map (λ v. view v.now) value.entry) }
{
    value?.as_str()
}

fn text_at(alloc: Global, text: Option<&str>) -> Result<Text, LineFault>
    ensures { Gives result (spec.text_at (option_map (λ s. s.now) text.entry)) }
{
    match text {
        Some(text) => match text_in(alloc, text) {
            Ok(text) => Ok(text),
            Err(fault) => Err(LineFault::of_json(fault)),
        },
        None => Err(LineFault::Refused(Cause::NotCommand)),
    }
}

fn session_in(json: &Value) -> Result<u64, LineFault>
    ensures { Gives result (spec.session_in (view json.now)) }
{
    match number_in(json.get("session")) {
        Some(session) => Ok(session),
        None => Err(LineFault::Refused(Cause::NotCommand)),
    }
}

/// The number that a member is.
fn number_in(value: Option<&Value>) -> Option<u64>
    ensures { result ≡ option_and_then as_u64 (option_and_then as_number (option_map (λ v. view v.now) value.entry)) }
{
    value?.as_u64()
}

fn patches_at(alloc: Global, value: Option<&Value>) -> Result<Patches, LineFault>
    ensures { Gives result (spec.patches_at (option_map (λ v. view v.now) value.entry)) }
{
    match value {
        Some(value) => match patches_of_json(alloc, value) {
            Ok(patches) => Ok(patches),
            Err(fault) => Err(LineFault::of_json(fault)),
        },
        None => Err(LineFault::Refused(Cause::NotCommand)),
    }
}

fn pointers_at(alloc: Global, value: Option<&Value>) -> Result<Pointers, LineFault>
    ensures { Gives result (spec.pointers_at (option_map (λ v. view v.now) value.entry)) }
{
    match value {
        Some(value) => match pointers_of_json(alloc, value) {
            Ok(pointers) => Ok(pointers),
            Err(fault) => Err(LineFault::of_json(fault)),
        },
        None => Err(LineFault::Refused(Cause::NotCommand)),
    }
}

/// An action, null where it is absent.
fn action_at(alloc: Global, value: Option<&Value>) -> Result<Val, LineFault>
    ensures { Gives result (spec.action_at (option_map (λ v. view v.now) value.entry)) }
{
    match value {
        Some(value) => match val_of_json(alloc, value) {
            Ok(action) => Ok(action),
            Err(fault) => Err(LineFault::of_json(fault)),
        },
        None => Ok(Val::primitive(Key::Null)),
    }
}

#[tactic(auto, using(crate::proofs::Passed::passed_map))]
fn grant_at(alloc: Global, value: Option<&Value>) -> Result<Option<Text>, LineFault>
    ensures { Gives result (spec.grant_at (option_map (λ v. view v.now) value.entry)) }
{
    match value {
        Some(value) => {
            let grant = text_at(alloc, value.as_str())?;
            Ok(Some(grant))
        }
        None => Ok(None),
    }
}

/// A path, empty where it is absent.
fn path_at(alloc: Global, value: Option<&Value>) -> Result<Path, LineFault>
    ensures { Gives result (spec.path_at (option_map (λ v. view v.now) value.entry)) }
{
    match value {
        Some(value) => match path_of_json(alloc, value) {
            Ok(path) => Ok(path),
            Err(fault) => Err(LineFault::of_json(fault)),
        },
        None => Ok(Path::from_vec(Vec::new(alloc))),
    }
}

/// Whether a session ends by replay; exactly where the word is absent.
fn is_replay(how: Option<&Value>) -> bool
    ensures { result ≡ spec.is_replay (option_map (λ v. view v.now) how.entry) }
{
    match how {
        Some(how) => is_this_text(how, "replay"),
        None => false,
    }
}
