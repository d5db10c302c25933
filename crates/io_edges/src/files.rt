ghost use Rattle.std.specs.Prelude.{◌≡◌, IsErr};
ghost use Rattle.std.specs.Io.{ReadsAtMost};
ghost use Rattle.std.specs.Io.KnownBytes.{ReadConsumes};
ghost use Rattle.io_edges.specs.Causes.{HasCause, next_count};

use crate::edges::ReadEdge;
use crate::traits::{Failed, Source};
use std::io::Read;
use std::marker::Model;

/// A file that couldn't be opened or isn't named: each call raises the count of faults and fails.
/// Clauses see it as that count.
#[derive(Drop)]
pub struct NoSource {
    faults: u64,
}

impl Model for NoSource {
    ghost use Rattle.std.specs.Prelude.{ℕ};

    ghost Value = { ℕ };

    ghost view = { λ s. s.faults };
}

impl NoSource {
    /// No file, with a count of faults of 0.
    pub fn new() -> NoSource
        ensures { result ≡ 0 }
    {
        NoSource { faults: 0 }
    }
}

impl Source for NoSource {
    ghost use Rattle.std.specs.Prelude.{None};

    ghost left = { λ _. None };

    ghost faults = { λ s. s };

    fn read(&mut self, buf: &mut [u8]) -> Result<usize, Failed>
        ensures bound { ReadsAtMost result buf.new }
        ensures bytes { ReadConsumes None None result buf.new }
        ensures cause { HasCause self.old self.new result }
        ensures fails { IsErr result }
        ensures counts { self.new ≡ next_count self.old }
    {
        self.faults = self.faults.saturating_add(1);
        Err(Failed)
    }
}

/// A file to read, or none, so that a program hands in one type.
#[derive(Drop)]
pub enum FileSource<R: Read> {
    /// A file that was opened.
    Open(ReadEdge<R>),
    /// A file that couldn't be opened or isn't named.
    Missing(NoSource),
}

impl<R: Read> Source for FileSource<R> {
    ghost use Rattle.io_edges.specs.Files.{left_of, faults_of};

    ghost left = { λ s. left_of s };

    ghost faults = { λ s. faults_of s };

    fn read(&mut self, buf: &mut [u8]) -> Result<usize, Failed> {
        match self {
            FileSource::Open(file) => file.read(buf),
            FileSource::Missing(none) => none.read(buf),
        }
    }
}
