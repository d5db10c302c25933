ghost use Rattle.std.specs.Prelude.{◌≡◌, IfOk};

use std::alloc::{AllocError, Global};
use std::marker::Model;

/// The bytes of a write.
#[derive(Drop)]
pub struct Piece {
    bytes: Vec<u8>,
}

impl Model for Piece {
    ghost use Rattle.std.specs.Prelude.{ℕ, List};

    ghost Value = { List ℕ };

    ghost view = { λ s. s.bytes.items };
}

impl Piece {
    /// A copy of `bytes`. The only error is want of memory.
    pub fn from_slice(alloc: Global, bytes: &[u8]) -> Result<Piece, AllocError>
        ensures { IfOk result (λ piece. piece ≡ bytes.now) }
    {
        Ok(Piece {
            bytes: Vec::from_slice(alloc, bytes)?,
        })
    }

    /// The bytes.
    pub fn as_slice(&self) -> &[u8]
        ensures { result.now ≡ self.now }
    {
        self.bytes.as_slice()
    }
}

/// A call of a disk in memory, as the disk keeps it.
#[derive(Drop)]
pub enum DiskCall {
    /// A `length` or a `read`, whatever it answered, or a `sync` that failed.
    Looked,
    /// A write from a place on that was done.
    Wrote(u64, Piece),
    /// A write from a place on of so many bytes that failed.
    WriteFailed(u64, usize),
    /// A cut to a length that was done.
    CutOff(u64),
    /// A cut to a length that failed.
    CutFailed(u64),
    /// A sync that was done.
    Synced,
}
