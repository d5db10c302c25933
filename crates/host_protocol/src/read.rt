//! Command lines: their form, and the command that they are.
ghost use Rattle.std.specs.Prelude.{◌≡◌, Some};
ghost use Rattle.serde_json.specs.View.{view};
ghost use Rattle.host_protocol.specs.Gives.{Gives, GivesBy, formed as formed_of};
ghost use Rattle.host_protocol_spec.specs.Commands as spec;
ghost use Rattle.host_protocol_spec.specs.Commands.{command_of, form_of};

use crate::commands::command_by;
use crate::fault::LineFault;
use line_forms::{has_form, word_in};
use plain_values::{Cause, Command, Word};
use serde_json::Value;
use std::alloc::Global;
use value_json::json_of_bytes;

/// How many bytes a line may have, without its LF.
const MAX_LINE: usize = 1 << 20;

/// A line of one of the forms of commands, whose values are not judged yet.
#[derive(Drop)]
pub struct FormedLine {
    /// The word under `do`.
    pub word: Word,
    /// The line's JSON data, an object of exactly the members of that word.
    pub json: Value,
}

impl FormedLine {
    /// The command of the line, or the first fault of its values, member by member: `NotSafeInteger`, `TextTooLong`, `BadTag`,
    /// `DuplicateKey`, and then the first limit that a value is past; or memory.
    pub fn command(&self, alloc: Global) -> Result<Command, LineFault>
        ensures { Gives result (spec.command_in (formed_of self.now)) }
    {
        command_by(alloc, self.word, &self.json)
    }
}

/// The form of a line. The first fault is `LineTooLong`, `NotJson`, or `NotCommand` where the text has none of the forms of
/// commands; or memory.
#[tactic(auto, unfolding(host_protocol_spec::specs::Commands::form_of))]
pub fn read_form(alloc: Global, line: &[u8]) -> Result<FormedLine, LineFault>
    ensures { GivesBy formed_of result (form_of line.now) }
{
    if is_long(line) {
        return Err(LineFault::Refused(Cause::LineTooLong));
    }
    match json_of_bytes(alloc, line) {
        Ok(json) => formed(json),
        Err(fault) => Err(LineFault::of_json(fault)),
    }
}

#[tactic(auto, unfolding(host_protocol_spec::specs::Commands::is_long_line))]
fn is_long(line: &[u8]) -> bool
    ensures { result ≡ spec.is_long_line line.now }
{
    line.len() > MAX_LINE
}

/// The data, where it has the form of the word under `do`.
fn formed(json: Value) -> Result<FormedLine, LineFault>
    ensures { GivesBy formed_of result (spec.formed_in (Some (view json))) }
{
    match word_in(&json) {
        Some(word) => formed_by(json, word),
        None => Err(LineFault::Refused(Cause::NotCommand)),
    }
}

fn formed_by(json: Value, word: Word) -> Result<FormedLine, LineFault>
    ensures { GivesBy formed_of result (spec.formed_by (view json) (Some word)) }
{
    if has_form(word, &json) {
        Ok(FormedLine { word, json })
    } else {
        Err(LineFault::Refused(Cause::NotCommand))
    }
}

/// The command that a line is: one JSON text (RFC 8259) of at most 1,048,576 bytes and of one of the forms of commands.
///
/// The first fault is that of the form, as `read_form` answers it, and else that of a value, as `FormedLine::command` does.
#[tactic(auto, using(crate::proofs::Passed::passed_then), unfolding(host_protocol_spec::specs::Commands::command_of))]
pub fn read_command(alloc: Global, line: &[u8]) -> Result<Command, LineFault>
    ensures { Gives result (command_of line.now) }
{
    let formed = read_form(alloc, line)?;
    formed.command(alloc)
}
