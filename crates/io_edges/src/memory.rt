ghost use Rattle.std.specs.Prelude.{◌≡◌, ◌<◌, ◌≤◌, ◌-◌, ◌^◌, ◌+◌, [], ◌++◌, length, take, drop, min, IfOk, IsErr, ◌↔◌, Contains};
ghost use Rattle.std.specs.Io.{ReadsAtMost, WritesAtMost};
ghost use Rattle.std.specs.Io.KnownBytes.{Keeps, ReadConsumes, WriteAppends};
ghost use Rattle.io_edges.specs.Causes.{HasCause, CountsFaults, FailsAsListed, next_count};

use crate::plan::FaultPlan;
use crate::traits::{Failed, Sink, Source};
use std::alloc::{AllocError, Global};
use std::marker::Model;

/// A source over bytes in memory, of which the calls with the listed numbers fail.
#[derive(Drop)]
pub struct MemSource {
    bytes: Vec<u8>,
    at: usize,
    plan: FaultPlan,
    most: usize,
}

impl Model for MemSource {
    ghost use Rattle.std.specs.Prelude.{◌≤◌, ◌<◌, drop, vec_len};
    ghost use Rattle.io_edges.specs.Memory.{SourceState};

    ghost Value = { SourceState };

    ghost view = { λ s. record { left = drop s.at s.bytes.items; calls = s.plan.calls; listed = s.plan.listed.items; faults = s.plan.faults; most = s.most } };

    ghost invariant = { λ s. (s.at ≤ vec_len s.bytes) × (0 < s.most) };
}

impl MemSource {
    /// A source that gives `bytes`, of which the calls with the numbers in `faults`, counted from
    /// 0, and no others fail. The only error is want of memory.
    pub fn new(alloc: Global, bytes: &[u8], faults: &[u64]) -> Result<MemSource, AllocError>
        ensures left { IfOk result (λ s. s.left ≡ bytes.now) }
        ensures listed { IfOk result (λ s. s.listed ≡ faults.now) }
        ensures begins { IfOk result (λ s. (s.calls ≡ 0) × (s.faults ≡ 0)) }
        ensures whole { IfOk result (λ s. s.most ≡ 2 ^ 64 - 1) }
    {
        MemSource::in_pieces(alloc, bytes, faults, usize::MAX)
    }

    /// The same, of which a call gives at most `most` bytes.
    pub fn in_pieces(
        alloc: Global,
        bytes: &[u8],
        faults: &[u64],
        most: usize,
    ) -> Result<MemSource, AllocError>
        requires { 0 < most }
        ensures left { IfOk result (λ s. s.left ≡ bytes.now) }
        ensures listed { IfOk result (λ s. s.listed ≡ faults.now) }
        ensures begins { IfOk result (λ s. (s.calls ≡ 0) × (s.faults ≡ 0)) }
        ensures pieces { IfOk result (λ s. s.most ≡ most) }
    {
        Ok(MemSource {
            bytes: Vec::from_slice(alloc, bytes)?,
            at: 0,
            plan: FaultPlan::new(alloc, faults)?,
            most,
        })
    }
}

impl Source for MemSource {
    ghost use Rattle.std.specs.Prelude.{Some};

    ghost left = { λ s. Some s.left };

    ghost faults = { λ s. s.faults };

    fn read(&mut self, buf: &mut [u8]) -> Result<usize, Failed>
        ensures bound { ReadsAtMost result buf.new }
        ensures bytes { ReadConsumes (Some self.old.left) (Some self.new.left) result buf.new }
        ensures cause { HasCause self.old.faults self.new.faults result }
        ensures fails { IsErr result ↔ Contains self.old.listed self.old.calls }
        ensures counts { CountsFaults self.old.faults self.new.faults result }
        ensures calls { self.new.calls ≡ next_count self.old.calls }
        ensures fills { IfOk result (λ n. n ≡ min self.old.most (min (length self.old.left) (length buf.new))) }
        ensures kept { (self.new.listed ≡ self.old.listed) × (self.new.most ≡ self.old.most) }
    {
        if self.plan.begin_call().is_err() {
            return Err(Failed);
        }
        let count = copy_from(&self.bytes, self.at, self.most, buf);
        self.at += count;
        Ok(count)
    }
}

/// Copies bytes from the place `at` on: as many as there are, as there is room for, and at most
/// `most`.
fn copy_from(bytes: &[u8], at: usize, most: usize, buf: &mut [u8]) -> usize
    requires { at ≤ length bytes.now }
    ensures count { result ≡ min most (min (length bytes.now - at) (length buf.new)) }
    ensures copied { drop at bytes.now ≡ take result buf.new ++ drop (at + result) bytes.now }
    ensures end { 0 < most → result ≡ 0 → 0 < length buf.new → drop (at + result) bytes.now ≡ [] }
{
    copy_front(&bytes[at..], most, buf)
}

/// Copies as many bytes as there are, as there is room for, and at most `most`.
fn copy_front(bytes: &[u8], most: usize, buf: &mut [u8]) -> usize
    ensures count { result ≡ min most (min (length bytes.now) (length buf.new)) }
    ensures copied { take result buf.new ≡ take result bytes.now }
{
    let count = most.min(bytes.len().min(buf.len()));
    buf[..count].copy_from_slice(&bytes[..count]);
    count
}

/// A sink that keeps the bytes in memory, of which the calls with the listed numbers fail.
#[derive(Drop)]
pub struct MemSink {
    bytes: Vec<u8>,
    plan: FaultPlan,
    refused: u64,
    most: usize,
}

impl Model for MemSink {
    ghost use Rattle.std.specs.Prelude.{◌<◌};
    ghost use Rattle.io_edges.specs.Memory.{SinkState};

    ghost Value = { SinkState };

    ghost view = { λ s. record { taken = s.bytes.items; calls = s.plan.calls; listed = s.plan.listed.items; faults = s.plan.faults; refused = s.refused; most = s.most } };

    ghost invariant = { λ s. 0 < s.most };
}

impl MemSink {
    /// A sink with no bytes, of which the calls with the numbers in `faults`, counted from 0,
    /// fail, those for which memory is refused, and no others; otherwise a write takes the whole
    /// piece. The only error is want of memory.
    pub fn new(alloc: Global, faults: &[u64]) -> Result<MemSink, AllocError>
        ensures taken { IfOk result (λ s. s.taken ≡ []) }
        ensures listed { IfOk result (λ s. s.listed ≡ faults.now) }
        ensures begins { IfOk result (λ s. (s.calls ≡ 0) × (s.faults ≡ 0) × (s.refused ≡ 0)) }
        ensures whole { IfOk result (λ s. s.most ≡ 2 ^ 64 - 1) }
    {
        MemSink::in_pieces(alloc, faults, usize::MAX)
    }

    /// The same, of which a write takes at most `most` bytes.
    pub fn in_pieces(alloc: Global, faults: &[u64], most: usize) -> Result<MemSink, AllocError>
        requires { 0 < most }
        ensures taken { IfOk result (λ s. s.taken ≡ []) }
        ensures listed { IfOk result (λ s. s.listed ≡ faults.now) }
        ensures begins { IfOk result (λ s. (s.calls ≡ 0) × (s.faults ≡ 0) × (s.refused ≡ 0)) }
        ensures pieces { IfOk result (λ s. s.most ≡ most) }
    {
        Ok(MemSink {
            bytes: Vec::new(alloc),
            plan: FaultPlan::new(alloc, faults)?,
            refused: 0,
            most,
        })
    }

    /// The bytes taken so far.
    pub fn bytes(&self) -> &[u8]
        ensures { result.now ≡ self.now.taken }
    {
        self.bytes.as_slice()
    }

    /// How many calls failed for want of memory, at most 2^64 - 1. A call whose number is listed
    /// is not among them.
    pub fn refused(&self) -> u64
        ensures { result ≡ self.now.refused }
    {
        self.refused
    }
}

impl Sink for MemSink {
    ghost use Rattle.std.specs.Prelude.{Some};

    ghost taken = { λ s. Some s.taken };

    ghost faults = { λ s. s.faults };

    fn write(&mut self, piece: &[u8]) -> Result<usize, Failed>
        ensures bound { WritesAtMost result piece.now }
        ensures some { IfOk result (λ n. 0 < length piece.now → 0 < n) }
        ensures bytes { WriteAppends (Some self.old.taken) (Some self.new.taken) result piece.now }
        ensures cause { HasCause self.old.faults self.new.faults result }
        ensures fails { FailsAsListed self.old.listed self.old.calls self.old.refused self.new.refused result }
        ensures apart { Contains self.old.listed self.old.calls → self.new.refused ≡ self.old.refused }
        ensures counts { CountsFaults self.old.faults self.new.faults result }
        ensures calls { self.new.calls ≡ next_count self.old.calls }
        ensures pieces { IfOk result (λ n. n ≡ min self.old.most (length piece.now)) }
        ensures whole { self.old.most ≡ 2 ^ 64 - 1 → IfOk result (λ n. n ≡ length piece.now) }
        ensures kept { (self.new.listed ≡ self.old.listed) × (self.new.most ≡ self.old.most) }
    {
        self.plan.begin_call()?;
        let count = self.most.min(piece.len());
        if self.bytes.extend_from_slice(&piece[..count]).is_err() {
            self.refused = self.refused.saturating_add(1);
            return Err(self.plan.fail_call());
        }
        Ok(count)
    }

    fn flush(&mut self) -> Result<(), Failed>
        ensures bytes { Keeps (Some self.old.taken) (Some self.new.taken) }
        ensures cause { HasCause self.old.faults self.new.faults result }
        ensures fails { IsErr result ↔ Contains self.old.listed self.old.calls }
        ensures counts { CountsFaults self.old.faults self.new.faults result }
        ensures calls { self.new.calls ≡ next_count self.old.calls }
        ensures kept { (self.new.listed ≡ self.old.listed) × (self.new.most ≡ self.old.most) × (self.new.refused ≡ self.old.refused) }
    {
        self.plan.begin_call()
    }
}
