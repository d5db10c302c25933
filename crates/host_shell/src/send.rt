//! Writing replies.
ghost use Rattle.std.specs.Prelude.{◌≡◌, ◌≤◌, ◌++◌, ◌∷◌, [], OnOk, OnErr, IfErr};
ghost use Rattle.std.specs.Io.KnownBytes.{Appends};
ghost use Rattle.io_edges.specs.Causes.{HasCause};
ghost use Rattle.host_protocol_spec.specs.Replies.{reply_line};
ghost use Rattle.host_shell.specs.Ends.{StopsFor, TakesPart};

use crate::status::Status;
use host_protocol::write_reply;
use io_edges::{Failed, Sink};
use plain_values::Reply;
use std::alloc::Global;

/// Writes a reply with its LF, and hands it on.
pub fn send<O: Sink>(alloc: Global, reply: &Reply, out: &mut O) -> Result<(), Status>
    ensures whole { OnOk result (Appends (O.taken out.old) (O.taken out.new) (reply_line reply.now ++ 10 ∷ [])) }
    ensures part { OnErr result (TakesPart (O.taken out.old) (O.taken out.new) (reply_line reply.now ++ 10 ∷ [])) }
    ensures later { O.faults out.old ≤ O.faults out.new }
    ensures err { IfErr result (StopsFor (O.faults out.old) (O.faults out.new)) }
{
    let Ok(mut text) = write_reply(alloc, reply) else {
        return Err(Status::Memory);
    };
    if text.push_str("\n").is_err() {
        return Err(Status::Memory);
    }
    match write_flushed(out, text.as_bytes()) {
        Ok(()) => Ok(()),
        Err(_) => Err(Status::WriteFault),
    }
}

/// Writes all the bytes, and hands them on.
fn write_flushed<O: Sink>(out: &mut O, bytes: &[u8]) -> Result<(), Failed>
    ensures whole { OnOk result (Appends (O.taken out.old) (O.taken out.new) bytes.now) }
    ensures part { OnErr result (TakesPart (O.taken out.old) (O.taken out.new) bytes.now) }
    ensures cause { HasCause (O.faults out.old) (O.faults out.new) result }
{
    match write_all(out, bytes) {
        Ok(()) => out.flush(),
        Err(failed) => Err(failed),
    }
}

/// Writes all the bytes.
fn write_all<O: Sink>(out: &mut O, bytes: &[u8]) -> Result<(), Failed>
    ensures whole { OnOk result (Appends (O.taken out.old) (O.taken out.new) bytes.now) }
    ensures part { OnErr result (TakesPart (O.taken out.old) (O.taken out.new) bytes.now) }
    ensures cause { HasCause (O.faults out.old) (O.faults out.new) result }
{
    let mut at = 0;
    while at < bytes.len() {
        match out.write(&bytes[at..]) {
            Ok(count) => at += count,
            Err(failed) => return Err(failed),
        }
    }
    Ok(())
}
