//! Answering one line.
ghost use Rattle.std.specs.Prelude.{◌≡◌, ◌≤◌, ◌<◌, ◌+◌, ◌*◌, ◌^◌, ℕ, List, IfOk, IfErr, IsTrue, None};
ghost use Rattle.host_machine.specs.Flat.{is_built};
ghost use Rattle.host_protocol.specs.Gives.{Gives, formed as formed_of};
ghost use Rattle.plain_values.specs.declared.command.Word.TheVariants as word;
ghost use Rattle.plain_values.specs.declared.refusal.Refusal.TheVariants as refusal;
ghost use Rattle.plain_values.specs.declared.reply.Reply.TheVariants as reply;
ghost use Rattle.stream_run.specs.Runs.{answer_to, run_command as run_command_of, run_form as run_form_of};
ghost use Rattle.host_shell.specs.Ends.{Answers, StopsFor};
ghost use Rattle.host_shell.specs.Line.{Holds};

use crate::built::is_built_form;
use crate::line::Line;
use crate::send::send;
use crate::status::Status;
use host_engine::Host;
use host_protocol::{FormedLine, LineFault, read_form};
use io_edges::Sink;
use plain_values::{Cause, Command, Refusal, Reply, Word};
use std::alloc::Global;

/// Answers a line, and skips a blank one.
pub fn answer<O: Sink>(alloc: Global, host: Host, line: &Line, out: &mut O) -> Result<Host, Status>
    requires { 2 * host.turns + line.now.size ≤ 2 ^ 49 }
    ensures answered { (text : List ℕ) → Holds line.now text → Answers host text (O.taken out.old) (O.taken out.new) result }
    ensures turns { IfOk result (λ h. 2 * h.turns ≤ 2 * host.turns + line.now.size + 1) }
    ensures later { O.faults out.old ≤ O.faults out.new }
    ensures err { IfErr result (StopsFor (O.faults out.old) (O.faults out.new)) }
{
    if line.is_blank() {
        return Ok(host);
    }
    let (host, reply) = match reply_to(alloc, host, line.kept()) {
        Ok(answered) => answered,
        Err(status) => return Err(status),
    };
    match send(alloc, &reply, out) {
        Ok(()) => Ok(host),
        Err(status) => Err(status),
    }
}

/// The reply to a line that isn't blank, and the host then.
#[tactic(auto, unfolding(stream_run::specs::Runs::answer_to))]
fn reply_to(alloc: Global, host: Host, line: &[u8]) -> Result<(Host, Reply), Status>
    requires { host.turns < 2 ^ 48 }
    ensures reply { IfOk result (λ r. (r.0.machine, r.1) ≡ answer_to host.machine line.now) }
    ensures turns { IfOk result (λ r. r.0.turns ≤ host.turns + 1) }
    ensures err { IfErr result (λ s. s ≡ Status.Memory) }
{
    match run_command(alloc, line) {
        Ok(command) => match host.turn(alloc, command) {
            Ok(answered) => Ok(answered),
            Err(_) => Err(Status::Memory),
        },
        Err(LineFault::Refused(why)) => Ok((host, no_line(why))),
        Err(LineFault::Memory) => Err(Status::Memory),
    }
}

/// The reply to a line that is no command.
fn no_line(why: Cause) -> Reply
    ensures { result ≡ reply.No word.Line None None (refusal.Named why) }
{
    Reply::No {
        word: Word::Line,
        session: None,
        at: None,
        why: Refusal::Named(why),
    }
}

/// The command of a line, where the host runs its form.
#[tactic(auto, using(host_protocol::proofs::Passed::passed_then), unfolding(stream_run::specs::Runs::run_command))]
fn run_command(alloc: Global, line: &[u8]) -> Result<Command, LineFault>
    ensures gives { Gives result (run_command_of line.now) }
    ensures built { IfOk result (λ c. IsTrue (is_built c)) }
{
    let formed = read_form(alloc, line)?;
    run_form(alloc, &formed)
}

/// The command of a form that the host runs; another is `NotYet`, whatever its values are.
fn run_form(alloc: Global, formed: &FormedLine) -> Result<Command, LineFault>
    ensures gives { Gives result (run_form_of (formed_of formed.now)) }
    ensures built { IfOk result (λ c. IsTrue (is_built c)) }
{
    if is_built_form(formed.word, &formed.json) {
        formed.command(alloc)
    } else {
        Err(LineFault::Refused(Cause::NotYet))
    }
}
