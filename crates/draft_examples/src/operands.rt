//! The operands of a call, one word each.
use anyhow::Context;
use draft_runs::{Operand, key_of, operand_of};
use std::alloc::Global;
use value_model::Key;

/// One operand, which is the whole text.
pub fn one(alloc: Global, text: &str) -> anyhow::Result<Operand> {
    Ok(operand_of(alloc, text)?)
}

/// Two operands.
pub fn two(alloc: Global, text: &str) -> anyhow::Result<(Operand, Operand)> {
    let (a, b) = text.split_once(' ').context("two operands")?;
    Ok((one(alloc, a)?, one(alloc, b)?))
}

/// A container and a key.
pub fn keyed(alloc: Global, text: &str) -> anyhow::Result<(Operand, Key)> {
    let (of, key) = text.split_once(' ').context("an operand and a key")?;
    Ok((one(alloc, of)?, key_of(alloc, key)?))
}

/// A container, a key and a value.
pub fn entry(alloc: Global, text: &str) -> anyhow::Result<(Operand, Key, Operand)> {
    let (of, entry) = text.split_once(' ').context("an operand and an entry")?;
    let (key, value) = entry.split_once(' ').context("a key and a value")?;
    Ok((one(alloc, of)?, key_of(alloc, key)?, one(alloc, value)?))
}

/// A container and an index.
pub fn indexed(alloc: Global, text: &str) -> anyhow::Result<(Operand, usize)> {
    let (of, i) = text.split_once(' ').context("an operand and an index")?;
    Ok((one(alloc, of)?, i.parse::<usize>()?))
}

/// Any number of operands.
pub fn all(alloc: Global, text: &str) -> anyhow::Result<Vec<Operand>> {
    let mut out = Vec::new(alloc);
    if !text.is_empty() {
        for word in text.split(' ') {
            out.push(one(alloc, word)?)?;
        }
    }
    Ok(out)
}

/// What a splice is handed: a list, two indexes, and values.
#[derive(Drop)]
pub struct Splice {
    pub of: Operand,
    pub from: usize,
    pub to: usize,
    pub items: Vec<Operand>,
}

/// A list, two indexes and any number of operands.
pub fn splice_of(alloc: Global, text: &str) -> anyhow::Result<Splice> {
    let (of, rest) = text.split_once(' ').context("a list and indexes")?;
    let (from, rest) = rest.split_once(' ').context("two indexes")?;
    let (to, items) = rest.split_once(' ').unwrap_or((rest, ""));
    Ok(Splice {
        of: one(alloc, of)?,
        from: from.parse::<usize>()?,
        to: to.parse::<usize>()?,
        items: all(alloc, items)?,
    })
}
