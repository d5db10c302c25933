ghost use Rattle.std.specs.Prelude.{◌≡◌, ◌<◌, ◌≤◌, ◌+◌, ◌^◌, length, IfOk, IsOk, ◌↔◌, is_some};
ghost use Rattle.std.specs.Io.{ReadsAtMost};
ghost use Rattle.io_edges.specs.Causes.{CountsFaults, HasCause};

use crate::disk::Disk;
use io_edges::Failed;
use std::fs::File;
use std::io;
use std::io::{Read, Seek, SeekFrom, Write};
use std::marker::Model;

/// A disk over a file of the system, or over none. It tells nothing of content: that a file keeps
/// the rules of a disk is trusted. Without a file each call raises the count and fails.
#[derive(Drop)]
pub struct FileDisk {
    file: Option<File>,
    faults: u64,
}

impl Model for FileDisk {
    ghost use Rattle.std.specs.Prelude.{is_some};
    ghost use Rattle.disk_model.specs.File.{FileState};

    ghost Value = { FileState };

    ghost view = { λ s. record { is_open = is_some s.file; faults = s.faults } };
}

impl FileDisk {
    /// A disk over `file`, which was opened to read and to write, or over none where it couldn't be
    /// opened or isn't named. The count of faults begins at 0.
    pub fn new(file: Option<File>) -> FileDisk
        ensures file { result.is_open ≡ is_some file }
        ensures begins { result.faults ≡ 0 }
    {
        FileDisk { file, faults: 0 }
    }
}

impl Disk for FileDisk {
    ghost use Rattle.std.specs.Prelude.{None};
    ghost use Rattle.disk_model.specs.File.{FailsIfMissing};

    ghost told = { λ _. None };

    ghost may_leave = { λ _ _. ⊥ };

    ghost moment = { λ _. 0 };

    ghost left_since = { λ _ _ _. ⊥ };

    ghost faults = { λ s. s.faults };

    ghost counts_now = { λ _ _ _ _ left. left };

    ghost only_now = { λ _ _ left. left };

    ghost reads_an_image = { λ _. tt };

    fn length(&mut self) -> Result<u64, Failed>
        ensures within { IfOk result (λ n. n < 2 ^ 63) }
        ensures cause { HasCause self.old.faults self.new.faults result }
        ensures fails { FailsIfMissing self.old self.new result }
    {
        let outcome = match &self.file {
            Some(file) => length_of(file),
            None => Err(missing()),
        };
        counted(outcome, &mut self.faults)
    }

    fn read(&mut self, at: u64, buf: &mut [u8]) -> Result<usize, Failed>
        requires { at < 2 ^ 63 }
        ensures bound { ReadsAtMost result buf.new }
        ensures cause { HasCause self.old.faults self.new.faults result }
        ensures fails { FailsIfMissing self.old self.new result }
    {
        let outcome = match &mut self.file {
            Some(file) => read_from(file, at, buf),
            None => Err(missing()),
        };
        counted(outcome, &mut self.faults)
    }

    fn write_at(&mut self, at: u64, piece: &[u8]) -> Result<(), Failed>
        requires { at + length piece.now < 2 ^ 63 }
        ensures cause { HasCause self.old.faults self.new.faults result }
        ensures fails { FailsIfMissing self.old self.new result }
    {
        let outcome = match &mut self.file {
            Some(file) => write_from(file, at, piece),
            None => Err(missing()),
        };
        counted(outcome, &mut self.faults)
    }

    fn cut(&mut self, end: u64) -> Result<(), Failed>
        requires { end < 2 ^ 63 }
        ensures cause { HasCause self.old.faults self.new.faults result }
        ensures fails { FailsIfMissing self.old self.new result }
    {
        let outcome = match &self.file {
            Some(file) => file.set_len(end),
            None => Err(missing()),
        };
        counted(outcome, &mut self.faults)
    }

    fn sync(&mut self) -> Result<(), Failed>
        ensures cause { HasCause self.old.faults self.new.faults result }
        ensures fails { FailsIfMissing self.old self.new result }
    {
        let outcome = match &self.file {
            Some(file) => file.sync_all(),
            None => Err(missing()),
        };
        counted(outcome, &mut self.faults)
    }
}

/// What the system answers where there is no file.
fn missing() -> io::Error {
    io::ErrorKind::NotFound.into()
}

/// Counts a fault at each error, and drops what the system says of it.
fn counted<T>(outcome: io::Result<T>, faults: &mut u64) -> Result<T, Failed>
    ensures answer { IsOk result ↔ IsOk outcome }
    ensures value { IfOk result (λ value. outcome ≡ Ok value) }
    ensures counts { CountsFaults faults.old faults.new result }
    ensures cause { HasCause faults.old faults.new result }
{
    match outcome {
        Ok(value) => Ok(value),
        Err(_) => {
            *faults = faults.saturating_add(1);
            Err(Failed)
        }
    }
}

/// The file's length. One of 2^63 or more, which no system gives, is an error.
fn length_of(file: &File) -> io::Result<u64>
    ensures { IfOk result (λ n. n < 2 ^ 63) }
{
    let count = file.metadata()?.len();
    if count >= 1 << 63 {
        return Err(io::ErrorKind::InvalidData.into());
    }
    Ok(count)
}

/// Fills `buf` with the bytes from `at` on, as far as there are any, in as many reads as it takes.
fn read_from(file: &mut File, at: u64, buf: &mut [u8]) -> io::Result<usize>
    ensures { ReadsAtMost result buf.new }
{
    file.seek(SeekFrom::Start(at))?;
    let mut count = 0;
    while count < buf.len() {
        let more = file.read(&mut buf[count..])?;
        if more == 0 {
            break;
        }
        count += more;
    }
    Ok(count)
}

/// Writes the whole piece from `at` on, in as many writes as it takes. One that takes nothing is
/// an error.
fn write_from(file: &mut File, at: u64, piece: &[u8]) -> io::Result<()> {
    file.seek(SeekFrom::Start(at))?;
    let mut count = 0;
    while count < piece.len() {
        let more = file.write(&piece[count..])?;
        if more == 0 {
            return Err(io::ErrorKind::WriteZero.into());
        }
        count += more;
    }
    Ok(())
}
