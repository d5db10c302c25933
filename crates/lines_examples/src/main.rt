//! Worked lines: the commands that lines are, and the lines that replies are.
//!
//! Each line of the input is `command LINE`, whose command or first fault is told; or `reply` and a reply in words, as
//! `replies.rt` says, whose line is told. A line that begins with `#` is a remark, and is told as it is.
#![tactic(auto)]

mod commands;
mod replies;

use crate::commands::command_text;
use crate::replies::reply_of;
use anyhow::Context;
use host_protocol::{LineFault, read_command, write_reply};
use std::alloc::Global;
use std::io::{BufRead, BufReader, BufWriter, Write};
use std::{io, str};

/// What stands before a line that is to be read.
const COMMAND: &[u8] = b"command ";

/// The command of a line in words, or the name of its first fault.
fn command_line(alloc: Global, line: &[u8]) -> anyhow::Result<String> {
    match read_command(alloc, line) {
        Ok(command) => command_text(alloc, &command),
        Err(LineFault::Refused(cause)) => Ok(format!(in alloc; "no {}", cause.name())?),
        Err(fault) => Err(fault.into()),
    }
}

/// The line of a reply in words; a remark stays as it is.
fn reply_line(alloc: Global, text: &str) -> anyhow::Result<String> {
    if text.is_empty() || text.starts_with('#') {
        return Ok(String::from_str(alloc, text)?);
    }
    let (_, words) = text.split_once(' ').context("a reply in words")?;
    let reply = reply_of(alloc, words)?;
    Ok(write_reply(alloc, &reply)?)
}

fn answer(alloc: Global, line: &[u8]) -> anyhow::Result<String> {
    if line.starts_with(COMMAND) {
        return command_line(alloc, &line[COMMAND.len()..]);
    }
    reply_line(alloc, str::from_utf8(line)?)
}

fn main(rt: HostRuntime) -> anyhow::Result<()> {
    let alloc = rt.alloc();
    let mut out = BufWriter::new(alloc, io::writer(&rt))?;
    for line in BufReader::new(alloc, rt.reader())?.split(alloc, b'\n') {
        let text = answer(alloc, line?.as_slice())?;
        out.write_all(text.as_bytes())?;
        out.write_all(b"\n")?;
    }
    out.flush()?;
    Ok(())
}
