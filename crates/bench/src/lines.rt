//! How fast command lines are read and replies are written.
use crate::clock::micros;
use anyhow::{Context, bail};
use host_protocol::{read_command, write_reply};
use plain_values::{Command, Pair, Reply, Word};
use std::alloc::Global;
use std::time::Instant;
use value_json::read_patches;

/// The `dispatch` lines among the 5,000 lines of the generator that begins with 1.
fn dispatch_lines(alloc: Global) -> anyhow::Result<Vec<String>> {
    let mut out = Vec::new(alloc);
    let mut x = 1u64;
    for _ in 0..5000 {
        x = (x % (1 << 31) * 1_103_515_245 + 12_345) % (1 << 31);
        let action = x / 65536;
        let reducer = match action % 16 {
            0..=8 => "add",
            9..=11 => "flip",
            12 => "link",
            _ => continue,
        };
        out.push(format!(in alloc;
            "{{\"do\":\"dispatch\",\"reducer\":\"{reducer}\",\"action\":{action}}}"
        )?)?;
    }
    Ok(out)
}

/// A reply as `add` gives it: a counter is raised, and a record is pushed onto a list of this length.
fn reply(alloc: Global, number: u64) -> anyhow::Result<Reply> {
    let before = number.saturating_sub(1);
    let forward = format!(in alloc;
        "[{{\"op\":\"add\",\"path\":[\"list\",{before}],\"value\":{{\"id\":{number},\"on\":false,\"tag\":{number}}}}},{{\"op\":\"replace\",\"path\":[\"n\"],\"value\":{number}}}]"
    )?;
    let inverse = format!(in alloc;
        "[{{\"op\":\"replace\",\"path\":[\"list\",\"length\"],\"value\":{before}}},{{\"op\":\"replace\",\"path\":[\"n\"],\"value\":{before}}}]"
    )?;
    Ok(Reply::Changed {
        word: Word::Dispatch,
        pair: Pair {
            forward: read_patches(alloc, forward.as_bytes())?,
            inverse: read_patches(alloc, inverse.as_bytes())?,
        },
        root: number,
        seq: number,
        session: None,
    })
}

/// As many replies as there are lines.
fn replies(alloc: Global, count: usize) -> anyhow::Result<Vec<Reply>> {
    let mut out = Vec::with_capacity(alloc, count)?;
    for number in 0..count as u64 {
        out.push(reply(alloc, number.saturating_add(1))?)?;
    }
    Ok(out)
}

/// Reads the lines, and says how many bytes they have.
fn read_all(alloc: Global, lines: &[String]) -> anyhow::Result<u64> {
    let mut bytes = 0u64;
    for line in lines {
        match read_command(alloc, line.as_bytes()).context("a command")? {
            Command::Dispatch { .. } => bytes = bytes.saturating_add(line.len() as u64),
            _ => bail!("another command"),
        }
    }
    Ok(bytes)
}

/// Writes the replies, and says how many bytes they have.
fn write_all(alloc: Global, replies: &[Reply]) -> anyhow::Result<u64> {
    let mut bytes = 0u64;
    for reply in replies {
        bytes = bytes.saturating_add(write_reply(alloc, reply)?.len() as u64);
    }
    Ok(bytes)
}

/// Reads the lines and writes as many replies so many times, and prints how many that is in a second; with no rounds once, and
/// prints how many bytes those are.
pub(crate) fn run(rt: &HostRuntime, rounds: u32) -> anyhow::Result<()> {
    let alloc = rt.alloc();
    let lines = dispatch_lines(alloc)?;
    let replies = replies(alloc, lines.len())?;
    if rounds == 0 {
        let read = read_all(alloc, &lines)?;
        let written = write_all(alloc, &replies)?;
        println!(*rt;
            "{} lines: {read} bytes read, {written} written",
            lines.len()
        )?;
        return Ok(());
    }
    let start = Instant::now(rt)?;
    for _ in 0..rounds {
        read_all(alloc, &lines)?;
    }
    let read = micros(start.elapsed(rt)?);
    let start = Instant::now(rt)?;
    for _ in 0..rounds {
        write_all(alloc, &replies)?;
    }
    let written = micros(start.elapsed(rt)?);
    let count = (lines.len() as u64)
        .saturating_mul(u64::from(rounds))
        .saturating_mul(1_000_000);
    println!(*rt;
        "read {} lines a second, write {}",
        count / read.max(1),
        count / written.max(1)
    )?;
    Ok(())
}
