ghost use Rattle.std.specs.Prelude.{◌≡◌, ◌≤◌, ◌<◌, ◌+◌, ◌^◌, [], ◌++◌, ℕ, List, length, OnOk, OnErr, false, ◌==◌, ◌&&◌};
ghost use Rattle.stream_run.specs.Lines.{is_blank as is_blank_line};
ghost use Rattle.host_shell.specs.Line.{Holds};

use std::alloc::{AllocError, Global};
use std::marker::Model;

/// How many bytes of a line are kept: one more than a line may have, so that a longer one is told.
const MAX_KEPT: usize = (1 << 20) + 1;

/// A line that has not ended yet. Of a line that is too long only a front is kept.
///
/// A contract sees it as that front, the line's length, and whether it is blank so far.
#[derive(Drop)]
pub struct Line {
    bytes: Vec<u8>,
    size: u64,
    blank: bool,
}

impl Model for Line {
    ghost use Rattle.std.specs.Prelude.{◌≡◌, ◌<◌, ◌≤◌, false, vec_len};
    ghost use Rattle.host_shell.specs.Line.{LineState};

    ghost Value = { LineState };

    ghost view = { λ l. record { kept = l.bytes.items; size = l.size; blank = l.blank } };

    ghost invariant = { λ l. (vec_len l.bytes ≤ 1048577) × (l.blank ≡ false → 0 < l.size) };
}

impl Line {
    /// A line of no bytes.
    pub fn new(alloc: Global) -> Line
        ensures line { Holds result [] }
        ensures size { result.size ≡ 0 }
    {
        Line {
            bytes: Vec::new(alloc),
            size: 0,
            blank: true,
        }
    }

    /// The bytes that are kept.
    pub fn kept(&self) -> &[u8]
        ensures { result.now ≡ self.now.kept }
    {
        self.bytes.as_slice()
    }

    /// Whether the line has no bytes.
    pub fn is_empty(&self) -> bool
        ensures { result ≡ (self.now.size == 0) }
    {
        self.size == 0
    }

    /// Whether the line is of spaces, tabs and CR alone.
    pub fn is_blank(&self) -> bool
        ensures blank { result ≡ self.now.blank }
        ensures spoken { result ≡ false → 0 < self.now.size }
    {
        self.blank
    }

    /// The line goes on by these bytes. The only error is want of memory.
    pub fn extend(&mut self, chunk: &[u8]) -> Result<(), AllocError>
        requires { self.old.size + length chunk.now < 2 ^ 64 }
        ensures line { OnOk result ((line : List ℕ) → Holds self.old line → Holds self.new (line ++ chunk.now)) }
        ensures size { OnOk result (self.new.size ≡ self.old.size + length chunk.now) }
    {
        let count = chunk.len().min(MAX_KEPT - self.bytes.len());
        self.bytes.extend_from_slice(&chunk[..count])?;
        self.size += chunk.len() as u64;
        self.blank = stays_blank(self.blank, chunk);
        Ok(())
    }

    /// The next line, of no bytes.
    pub fn clear(&mut self)
        ensures line { Holds self.new [] }
        ensures size { self.new.size ≡ 0 }
    {
        self.bytes.clear();
        self.size = 0;
        self.blank = true;
    }
}

fn stays_blank(so_far: bool, chunk: &[u8]) -> bool
    ensures { result ≡ (so_far && is_blank_line chunk.now) }
{
    so_far && is_blank(chunk)
}

#[tactic(auto, unfolding(stream_run::specs::Lines::is_blank))]
fn is_blank(bytes: &[u8]) -> bool
    ensures { result ≡ is_blank_line bytes.now }
{
    bytes.iter().all(|c| *c == 32 || *c == 9 || *c == 13)
}
