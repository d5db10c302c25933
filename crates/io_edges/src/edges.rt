ghost use Rattle.std.specs.Prelude.{◌≡◌, ◌<◌, length, IfOk};
ghost use Rattle.std.specs.Io.{ReadsAtMost, WritesAtMost};
ghost use Rattle.std.specs.Io.KnownBytes.{Keeps, ReadConsumes, WriteAppends};
ghost use Rattle.io_edges.specs.Causes.{HasCause, CountsFaults};

use crate::traits::{Failed, Sink, Source};
use std::io::{Read, Write};
use std::marker::Model;

/// A source over any reader of std. It tells of its bytes what the reader tells, and counts each
/// error of the reader as a fault.
#[derive(Drop)]
pub struct ReadEdge<R: Read> {
    inner: R,
    faults: u64,
}

impl<R: Read> Model for ReadEdge<R> {
    ghost use Rattle.io_edges.specs.Edges.{EdgeState};

    ghost Value = { EdgeState };

    ghost view = { λ s. record { bytes = R.remaining s.inner; faults = s.faults } };
}

impl<R: Read> ReadEdge<R> {
    /// A source over `inner`, whose count of faults begins at 0.
    pub fn new(inner: R) -> ReadEdge<R>
        ensures begins { result.faults ≡ 0 }
        ensures bytes { result.bytes ≡ R.remaining inner }
    {
        ReadEdge { inner, faults: 0 }
    }
}

impl<R: Read> Source for ReadEdge<R> {
    ghost left = { λ s. s.bytes };

    ghost faults = { λ s. s.faults };

    fn read(&mut self, buf: &mut [u8]) -> Result<usize, Failed>
        ensures bound { ReadsAtMost result buf.new }
        ensures bytes { ReadConsumes self.old.bytes self.new.bytes result buf.new }
        ensures cause { HasCause self.old.faults self.new.faults result }
        ensures counts { CountsFaults self.old.faults self.new.faults result }
    {
        match self.inner.read(buf) {
            Ok(count) => Ok(count),
            Err(_) => {
                self.faults = self.faults.saturating_add(1);
                Err(Failed)
            }
        }
    }
}

/// A sink over any writer of std. It tells of its bytes what the writer tells, and counts as a
/// fault each error of the writer, and a write that takes nothing of a piece that isn't empty.
#[derive(Drop)]
pub struct WriteEdge<W: Write> {
    inner: W,
    faults: u64,
}

impl<W: Write> Model for WriteEdge<W> {
    ghost use Rattle.io_edges.specs.Edges.{EdgeState};

    ghost Value = { EdgeState };

    ghost view = { λ s. record { bytes = W.contents s.inner; faults = s.faults } };
}

impl<W: Write> WriteEdge<W> {
    /// A sink over `inner`, whose count of faults begins at 0.
    pub fn new(inner: W) -> WriteEdge<W>
        ensures begins { result.faults ≡ 0 }
        ensures bytes { result.bytes ≡ W.contents inner }
    {
        WriteEdge { inner, faults: 0 }
    }
}

impl<W: Write> Sink for WriteEdge<W> {
    ghost taken = { λ s. s.bytes };

    ghost faults = { λ s. s.faults };

    fn write(&mut self, piece: &[u8]) -> Result<usize, Failed>
        ensures bound { WritesAtMost result piece.now }
        ensures some { IfOk result (λ n. 0 < length piece.now → 0 < n) }
        ensures bytes { WriteAppends self.old.bytes self.new.bytes result piece.now }
        ensures cause { HasCause self.old.faults self.new.faults result }
        ensures counts { CountsFaults self.old.faults self.new.faults result }
    {
        match self.inner.write(piece) {
            Ok(count) => {
                if count == 0 && !piece.is_empty() {
                    self.faults = self.faults.saturating_add(1);
                    return Err(Failed);
                }
                Ok(count)
            }
            Err(_) => {
                self.faults = self.faults.saturating_add(1);
                Err(Failed)
            }
        }
    }

    fn flush(&mut self) -> Result<(), Failed>
        ensures bytes { Keeps self.old.bytes self.new.bytes }
        ensures cause { HasCause self.old.faults self.new.faults result }
        ensures counts { CountsFaults self.old.faults self.new.faults result }
    {
        match self.inner.flush() {
            Ok(()) => Ok(()),
            Err(_) => {
                self.faults = self.faults.saturating_add(1);
                Err(Failed)
            }
        }
    }
}
