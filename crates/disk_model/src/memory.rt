ghost use Rattle.std.specs.Prelude.{◌≡◌, ◌<◌, ◌≤◌, ◌+◌, ◌^◌, ℕ, List, [], ◌++◌, length, take, drop, IfOk, OnOk, OnErr, IsTrue, ◌↔◌, Contains, ◌⊎◌};
ghost use Rattle.std.specs.Io.{ReadsAtMost};
ghost use Rattle.io_edges.specs.Causes.{HasCause, CountsFaults, FailsAsListed};
ghost use Rattle.disk_model.specs.Disk.{written, Torn, Cut, Follows, AddsNone, IsSettled, Elapses};

use crate::bytes::{copy_from, overwrite};
use crate::call::{DiskCall, Piece};
use crate::crash::{Crash, crash_image};
use crate::disk::Disk;
use io_edges::Failed;
use std::alloc::{AllocError, Global};
use std::marker::Model;

/// A disk in memory, of which the calls with the listed numbers fail. It keeps its first bytes and
/// all its calls, so that a crash may be tried after each of them.
///
/// A call for which memory is refused fails too. It is counted, does nothing, and is none of the
/// disk's calls, so it takes no number.
#[derive(Drop)]
pub struct MemDisk {
    alloc: Global,
    first: Vec<u8>,
    bytes: Vec<u8>,
    calls: Vec<DiskCall>,
    listed: Vec<u64>,
    faults: u64,
    refused: u64,
}

impl Model for MemDisk {
    ghost use Rattle.std.specs.Prelude.{◌≡◌};
    ghost use Rattle.disk_model.specs.Memory.{DiskState, after_calls};

    ghost Value = { DiskState };

    ghost view = { λ s. record { first = s.first.items; calls = s.calls.items; listed = s.listed.items; faults = s.faults; refused = s.refused } };

    ghost invariant = { λ s. s.bytes.items ≡ after_calls s.first.items s.calls.items };
}

impl MemDisk {
    ghost use Rattle.disk_model.specs.Memory.{after_call, bytes_of, with_call, with_failed, with_refused, KeepsCall, MayLeave, LeftSince, moment_of, told_of, IsImageOf};
    ghost use Rattle.disk_model.specs.Crash.{crashed};
    ghost use Rattle.disk_model.specs.declared.call.DiskCall.TheVariants.{Looked, Wrote, WriteFailed, CutOff, CutFailed, Synced};

    /// A disk that is settled on `bytes`, of which the calls with the numbers in `faults`, counted
    /// from 0, fail, those for which memory is refused, and no others. The only error is want of
    /// memory.
    pub fn new(alloc: Global, bytes: &[u8], faults: &[u64]) -> Result<MemDisk, AllocError>
        ensures first { IfOk result (λ disk. disk.first ≡ bytes.now) }
        ensures calls { IfOk result (λ disk. disk.calls ≡ []) }
        ensures listed { IfOk result (λ disk. disk.listed ≡ faults.now) }
        ensures begins { IfOk result (λ disk. (disk.faults ≡ 0) × (disk.refused ≡ 0)) }
        ensures told { IfOk result (λ disk. told_of disk ≡ Some bytes.now) }
        ensures settled { IfOk result (λ disk. IsSettled told_of MayLeave disk) }
    {
        Ok(MemDisk {
            alloc,
            first: Vec::from_slice(alloc, bytes)?,
            bytes: Vec::from_slice(alloc, bytes)?,
            calls: Vec::new(alloc),
            listed: Vec::from_slice(alloc, faults)?,
            faults: 0,
            refused: 0,
        })
    }

    /// The bytes as a read gives them.
    pub fn bytes(&self) -> &[u8]
        ensures { result.now ≡ bytes_of self.now }
    {
        self.bytes.as_slice()
    }

    /// How many calls failed for want of memory, at most 2^64 - 1.
    pub fn refused(&self) -> u64
        ensures { result ≡ self.now.refused }
    {
        self.refused
    }

    /// The disk that a crash of this kind leaves after the first `calls` calls, or after all calls
    /// where there were fewer. It is settled on the image, no call of it is to fail, and its calls
    /// are counted from 0. The only error is want of memory.
    pub fn after_crash(&self, alloc: Global, calls: u64, kind: Crash) -> Result<MemDisk, AllocError>
        ensures image { IfOk result (λ disk. disk.first ≡ crashed kind self.now.first (take calls self.now.calls)) }
        ensures allowed { IfOk result (λ disk. IsImageOf self.now.first (take calls self.now.calls) disk.first) }
        ensures calls { IfOk result (λ disk. disk.calls ≡ []) }
        ensures listed { IfOk result (λ disk. disk.listed ≡ []) }
        ensures begins { IfOk result (λ disk. (disk.faults ≡ 0) × (disk.refused ≡ 0)) }
        ensures settled { IfOk result (λ disk. IsSettled told_of MayLeave disk) }
    {
        let count = first_of(&self.calls, calls);
        let image = crash_image(alloc, &self.first, &self.calls[..count], kind)?;
        MemDisk::new(alloc, &image, &[])
    }

    /// Whether the next call is to fail.
    fn is_listed(&self) -> bool
        ensures { IsTrue result ↔ Contains self.now.listed (length self.now.calls) }
    {
        holds(&self.listed, self.calls.len() as u64)
    }

    /// Counts a call for which memory was refused.
    fn refuse(&mut self) -> Failed
        ensures refused { self.new ≡ with_refused self.old }
        ensures later { (self.old.faults ≤ self.new.faults) × (self.old.refused ≤ self.new.refused) }
    {
        self.faults = self.faults.saturating_add(1);
        self.refused = self.refused.saturating_add(1);
        Failed
    }

    /// Keeps a call that leaves the bytes as they were.
    fn keep(&mut self, call: DiskCall) -> Result<(), AllocError>
        requires { (bytes : List ℕ) → after_call bytes call ≡ bytes }
        ensures ok { OnOk result (self.new ≡ with_call self.old call) }
        ensures err { OnErr result (self.new ≡ self.old) }
    {
        self.calls.push(call)?;
        Ok(())
    }

    /// Keeps a call that fails because its number is listed.
    fn fail(&mut self, call: DiskCall) -> Failed
        requires { (bytes : List ℕ) → after_call bytes call ≡ bytes }
        ensures kept { (self.new ≡ with_failed self.old call) ⊎ (self.new ≡ with_refused self.old) }
        ensures later { (self.old.faults ≤ self.new.faults) × (self.old.refused ≤ self.new.refused) }
    {
        if self.keep(call).is_err() {
            return self.refuse();
        }
        self.faults = self.faults.saturating_add(1);
        Failed
    }

    /// A call that leaves the bytes as they were, and looks only where it fails.
    fn pass(&mut self, done: DiskCall) -> Result<(), Failed>
        requires { (bytes : List ℕ) → after_call bytes done ≡ bytes }
        ensures { KeepsCall self.old self.new done Looked result }
    {
        if self.is_listed() {
            return Err(self.fail(DiskCall::Looked));
        }
        if self.keep(done).is_err() {
            return Err(self.refuse());
        }
        Ok(())
    }

    /// A call that only looks.
    fn look(&mut self) -> Result<(), Failed>
        ensures same { bytes_of self.new ≡ bytes_of self.old }
        ensures images { AddsNone (MayLeave self.old) (MayLeave self.new) }
        ensures time { Elapses moment_of LeftSince MayLeave self.old self.new }
        ensures cause { HasCause self.old.faults self.new.faults result }
        ensures kept { KeepsCall self.old self.new Looked Looked result }
        ensures fails { FailsAsListed self.old.listed (length self.old.calls) self.old.refused self.new.refused result }
        ensures counts { CountsFaults self.old.faults self.new.faults result }
    {
        self.pass(DiskCall::Looked)
    }

    /// Writes over the bytes and past their end, and keeps the call.
    fn keep_write(&mut self, at: u64, piece: &[u8]) -> Result<(), AllocError>
        requires { at ≤ length (bytes_of self.old) }
        ensures ok { OnOk result (self.new ≡ with_call self.old (Wrote at piece.now)) }
        ensures err { OnErr result (self.new ≡ self.old) }
    {
        let kept = Piece::from_slice(self.alloc, piece)?;
        self.calls.reserve(1)?;
        overwrite(&mut self.bytes, at as usize, piece)?;
        self.calls.push_reserved(DiskCall::Wrote(at, kept));
        Ok(())
    }

    /// A write.
    fn put(&mut self, at: u64, piece: &[u8]) -> Result<(), Failed>
        requires { at ≤ length (bytes_of self.old) }
        ensures { KeepsCall self.old self.new (Wrote at piece.now) (WriteFailed at (length piece.now)) result }
    {
        if self.is_listed() {
            return Err(self.fail(DiskCall::WriteFailed(at, piece.len())));
        }
        if self.keep_write(at, piece).is_err() {
            return Err(self.refuse());
        }
        Ok(())
    }

    /// Cuts the bytes off, and keeps the call.
    fn keep_cut(&mut self, end: u64) -> Result<(), AllocError>
        ensures ok { OnOk result (self.new ≡ with_call self.old (CutOff end)) }
        ensures err { OnErr result (self.new ≡ self.old) }
    {
        self.calls.push(DiskCall::CutOff(end))?;
        self.bytes.truncate(end as usize);
        Ok(())
    }

    /// A cut.
    fn cut_off(&mut self, end: u64) -> Result<(), Failed>
        ensures { KeepsCall self.old self.new (CutOff end) (CutFailed end) result }
    {
        if self.is_listed() {
            return Err(self.fail(DiskCall::CutFailed(end)));
        }
        if self.keep_cut(end).is_err() {
            return Err(self.refuse());
        }
        Ok(())
    }
}

impl Disk for MemDisk {
    ghost use Rattle.disk_model.specs.Memory.{after_call, bytes_of, told_of, MayLeave, moment_of, LeftSince, KeepsCall};
    ghost use Rattle.disk_model.specs.MemoryLaws.{now_counts, now_only, reads_image};
    ghost use Rattle.disk_model.specs.declared.call.DiskCall.TheVariants.{Looked, Wrote, WriteFailed, CutOff, CutFailed, Synced};

    ghost told = { told_of };

    ghost may_leave = { MayLeave };

    ghost moment = { moment_of };

    ghost left_since = { LeftSince };

    ghost faults = { λ s. s.faults };

    ghost counts_now = { now_counts };

    ghost only_now = { now_only };

    ghost reads_an_image = { reads_image };

    fn length(&mut self) -> Result<u64, Failed>
        ensures answer { IfOk result (λ n. n ≡ length (bytes_of self.old)) }
        ensures within { IfOk result (λ n. n < 2 ^ 63) }
        ensures bytes { told_of self.new ≡ told_of self.old }
        ensures images { AddsNone (MayLeave self.old) (MayLeave self.new) }
        ensures time { Elapses moment_of LeftSince MayLeave self.old self.new }
        ensures cause { HasCause self.old.faults self.new.faults result }
        ensures kept { KeepsCall self.old self.new Looked Looked result }
        ensures fails { FailsAsListed self.old.listed (length self.old.calls) self.old.refused self.new.refused result }
        ensures counts { CountsFaults self.old.faults self.new.faults result }
    {
        self.look()?;
        Ok(self.bytes.len() as u64)
    }

    fn read(&mut self, at: u64, buf: &mut [u8]) -> Result<usize, Failed>
        requires { at < 2 ^ 63 }
        ensures bound { ReadsAtMost result buf.new }
        ensures answer { IfOk result (λ n. take n buf.new ≡ take (length buf.new) (drop at (bytes_of self.old))) }
        ensures bytes { told_of self.new ≡ told_of self.old }
        ensures images { AddsNone (MayLeave self.old) (MayLeave self.new) }
        ensures time { Elapses moment_of LeftSince MayLeave self.old self.new }
        ensures cause { HasCause self.old.faults self.new.faults result }
        ensures kept { KeepsCall self.old self.new Looked Looked result }
        ensures fails { FailsAsListed self.old.listed (length self.old.calls) self.old.refused self.new.refused result }
        ensures counts { CountsFaults self.old.faults self.new.faults result }
    {
        self.look()?;
        Ok(copy_from(&self.bytes, at as usize, buf))
    }

    fn write_at(&mut self, at: u64, piece: &[u8]) -> Result<(), Failed>
        requires begins { at ≤ length (bytes_of self.old) }
        requires within { at + length piece.now < 2 ^ 63 }
        ensures done { OnOk result (told_of self.new ≡ Some (written at piece.now (bytes_of self.old))) }
        ensures failed { OnErr result (told_of self.new ≡ told_of self.old) }
        ensures images { Follows (Torn at (length piece.now)) (MayLeave self.old) (MayLeave self.new) }
        ensures time { Elapses moment_of LeftSince MayLeave self.old self.new }
        ensures cause { HasCause self.old.faults self.new.faults result }
        ensures kept { KeepsCall self.old self.new (Wrote at piece.now) (WriteFailed at (length piece.now)) result }
        ensures fails { FailsAsListed self.old.listed (length self.old.calls) self.old.refused self.new.refused result }
        ensures counts { CountsFaults self.old.faults self.new.faults result }
    {
        self.put(at, piece)
    }

    fn cut(&mut self, end: u64) -> Result<(), Failed>
        requires ends { end ≤ length (bytes_of self.old) }
        requires within { end < 2 ^ 63 }
        ensures done { OnOk result (told_of self.new ≡ Some (take end (bytes_of self.old))) }
        ensures failed { OnErr result (told_of self.new ≡ told_of self.old) }
        ensures images { Follows (Cut end) (MayLeave self.old) (MayLeave self.new) }
        ensures time { Elapses moment_of LeftSince MayLeave self.old self.new }
        ensures cause { HasCause self.old.faults self.new.faults result }
        ensures kept { KeepsCall self.old self.new (CutOff end) (CutFailed end) result }
        ensures fails { FailsAsListed self.old.listed (length self.old.calls) self.old.refused self.new.refused result }
        ensures counts { CountsFaults self.old.faults self.new.faults result }
    {
        self.cut_off(end)
    }

    fn sync(&mut self) -> Result<(), Failed>
        ensures done { OnOk result (IsSettled told_of MayLeave self.new) }
        ensures bytes { told_of self.new ≡ told_of self.old }
        ensures images { AddsNone (MayLeave self.old) (MayLeave self.new) }
        ensures time { Elapses moment_of LeftSince MayLeave self.old self.new }
        ensures cause { HasCause self.old.faults self.new.faults result }
        ensures kept { KeepsCall self.old self.new Synced Looked result }
        ensures fails { FailsAsListed self.old.listed (length self.old.calls) self.old.refused self.new.refused result }
        ensures counts { CountsFaults self.old.faults self.new.faults result }
    {
        self.pass(DiskCall::Synced)
    }
}

/// Whether a number is listed.
fn holds(listed: &[u64], number: u64) -> bool
    ensures { IsTrue result ↔ Contains listed.now number }
{
    listed.contains(&number)
}

/// How many of the calls are among the first so many.
fn first_of(calls: &[DiskCall], count: u64) -> usize
    ensures within { result ≤ length calls.now }
    ensures same { take result calls.now ≡ take count calls.now }
{
    calls
        .len()
        .min(usize::try_from(count).unwrap_or(usize::MAX))
}
