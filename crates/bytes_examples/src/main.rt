//! Worked examples of the byte spellings.
//!
//! First come the bytes of an object and of a change that are made here. Then each line of the input is answered: `value` or
//! `patches`, and bytes in hexadecimal digits, where `DIGITS*N` stands for them N times. A line that begins with `#` is a
//! remark.
#![tactic(auto)]

use anyhow::Context;
use std::alloc::{AllocError, Global};
use std::io::{BufRead, BufReader};
use value_bytes::{Bytes, put_value, take_patches, take_value};
use value_checks::check_value;
use values::{Val, depth, values, weight};

mod change;

/// The bytes that a line names behind its first word.
fn bytes_of(alloc: Global, text: &str) -> anyhow::Result<Vec<u8>> {
    let mut bytes = Vec::new(alloc);
    for word in text.split(' ') {
        match word.split_once('*') {
            Some((digits, times)) => {
                let piece = hex::decode(alloc, digits.as_bytes())?;
                for _ in 0..times.parse::<u32>()? {
                    bytes.extend_from_slice(&piece)?;
                }
            }
            None => bytes.extend_from_slice(&hex::decode(alloc, word.as_bytes())?)?,
        }
    }
    Ok(bytes)
}

/// Whether the value is written as these bytes, behind what is there already.
fn is_written_again(alloc: Global, value: &Val, bytes: &[u8]) -> Result<bool, AllocError> {
    let mut out = Bytes::new(alloc);
    out.append(b"front")?;
    if check_value(value).is_ok() {
        put_value(alloc, value, &mut out)?;
    }
    match out.as_slice().strip_prefix(b"front") {
        Some(spelling) => Ok(spelling == bytes),
        None => Ok(false),
    }
}

/// Whether one of the first 300 proper prefixes is taken as a value.
fn begins_with_value(alloc: Global, bytes: &[u8]) -> Result<bool, AllocError> {
    for end in 0..bytes.len().min(300) {
        if take_value(alloc, &bytes[..end])?.is_some() {
            return Ok(true);
        }
    }
    Ok(false)
}

fn begins_with_patches(alloc: Global, bytes: &[u8]) -> Result<bool, AllocError> {
    for end in 0..bytes.len().min(300) {
        if take_patches(alloc, &bytes[..end])?.is_some() {
            return Ok(true);
        }
    }
    Ok(false)
}

/// What the bytes are as a value.
fn value_line(alloc: Global, bytes: &[u8]) -> Result<String, AllocError> {
    let Some((value, n)) = take_value(alloc, bytes)? else {
        return String::from_str(alloc, "refused");
    };
    if n > bytes.len() {
        return String::from_str(alloc, "longer than the bytes");
    }
    let same = is_written_again(alloc, &value, &bytes[..n])?;
    let early = begins_with_value(alloc, &bytes[..n])?;
    format!(in alloc;
        "taken {n}: weight {}, values {}, depth {}, written again {same}, begins with a spelling {early}",
        weight(&value),
        values(&value),
        depth(&value)
    )
}

/// What the bytes are as a patch list.
fn patches_line(alloc: Global, bytes: &[u8]) -> Result<String, AllocError> {
    let Some((patches, n)) = take_patches(alloc, bytes)? else {
        return String::from_str(alloc, "refused");
    };
    if n > bytes.len() {
        return String::from_str(alloc, "longer than the bytes");
    }
    let early = begins_with_patches(alloc, &bytes[..n])?;
    format!(in alloc;
        "taken {n}: patches {}, begins with a spelling {early}",
        patches.as_slice().len()
    )
}

fn answer(alloc: Global, line: &str) -> anyhow::Result<String> {
    let (word, text) = line.split_once(' ').context("a word and bytes")?;
    let bytes = bytes_of(alloc, text)?;
    match word {
        "value" => Ok(value_line(alloc, &bytes)?),
        "patches" => Ok(patches_line(alloc, &bytes)?),
        _ => Ok(String::from_str(alloc, "unknown")?),
    }
}

fn main(rt: HostRuntime) -> anyhow::Result<()> {
    let alloc = rt.alloc();
    let mut out = Bytes::new(alloc);
    put_value(alloc, &Val::empty_object(alloc), &mut out)?;
    println!(rt; "{}", hex::encode(alloc, out.as_slice())?)?;
    change::print(&rt, alloc)?;
    for line in BufReader::new(alloc, rt.reader())?.lines(alloc) {
        let line = line?;
        if !line.is_empty() && !line.starts_with('#') {
            println!(rt; "{}", answer(alloc, line.as_str())?)?;
        }
    }
    Ok(())
}
