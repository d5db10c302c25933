//! How fast a value of about 1 MB is written and read as bytes.
ghost use Rattle.std.specs.Prelude.{◌≡◌, None};
ghost use Rattle.value_model.specs.Limits.{value_limit};

use crate::clock::micros;
use anyhow::Context;
use std::alloc::{AllocError, Global};
use std::time::Instant;
use value_bytes::{Bytes, put_value, take_value};
use values::Val;

/// How many records the value is a list of.
const RECORDS: u32 = 11000;

fn push_text(out: &mut Vec<u8>, text: &str) -> Result<(), AllocError> {
    let length = text.len().min(255) as u32;
    out.extend_from_slice(&length.to_be_bytes())?;
    out.extend_from_slice(&text.as_bytes()[..length as usize])
}

/// A record: a number, a name, a truth value and two tags.
fn push_record(out: &mut Vec<u8>, id: u32) -> Result<(), AllocError> {
    out.extend_from_slice(&[5, 0, 0, 0, 4])?;
    push_text(out, "id")?;
    out.push(3)?;
    out.extend_from_slice(&u64::from(id).to_be_bytes())?;
    push_text(out, "name")?;
    out.push(4)?;
    push_text(out, "a name of twenty-four by")?;
    push_text(out, "on")?;
    out.push(2)?;
    push_text(out, "tags")?;
    out.extend_from_slice(&[6, 0, 0, 0, 2, 4])?;
    push_text(out, "red")?;
    out.push(4)?;
    push_text(out, "blue")
}

/// The spelling of the value.
fn sample(alloc: Global) -> Result<Vec<u8>, AllocError> {
    let mut out = Vec::new(alloc);
    out.push(6)?;
    out.extend_from_slice(&RECORDS.to_be_bytes())?;
    for id in 0..RECORDS {
        push_record(&mut out, id)?;
    }
    Ok(out)
}

/// Writes the value so many times, and says how many bytes that were.
fn write(alloc: Global, value: &Val, rounds: u32) -> Result<u64, AllocError>
    requires { value_limit value.now ≡ None }
{
    let mut total = 0u64;
    for _ in 0..rounds {
        let mut out = Bytes::new(alloc);
        put_value(alloc, value, &mut out)?;
        total = total.saturating_add(out.len() as u64);
    }
    Ok(total)
}

/// Reads the value so many times, and says how many bytes that were.
fn read(alloc: Global, bytes: &[u8], rounds: u32) -> Result<u64, AllocError> {
    let mut total = 0u64;
    for _ in 0..rounds {
        if let Some((_, n)) = take_value(alloc, bytes)? {
            total = total.saturating_add(n as u64);
        }
    }
    Ok(total)
}

/// Writes and reads the value so many times and prints the speed both ways; with no rounds once, and prints how many bytes
/// that is.
pub(crate) fn run(rt: &HostRuntime, rounds: u32) -> anyhow::Result<()> {
    let alloc = rt.alloc();
    let bytes = sample(alloc)?;
    let (value, _) = take_value(alloc, &bytes)?.context("the value is spelled")?;
    if rounds == 0 {
        println!(*rt;
            "{} bytes written, {} read",
            write(alloc, &value, 1)?,
            read(alloc, &bytes, 1)?
        )?;
        return Ok(());
    }
    let start = Instant::now(rt)?;
    let written = write(alloc, &value, rounds)?;
    let to_write = micros(start.elapsed(rt)?);
    let start = Instant::now(rt)?;
    let taken = read(alloc, &bytes, rounds)?;
    let to_read = micros(start.elapsed(rt)?);
    println!(*rt;
        "write {} MB/s, read {} MB/s",
        written / to_write.max(1),
        taken / to_read.max(1)
    )?;
    Ok(())
}
