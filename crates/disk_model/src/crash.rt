ghost use Rattle.std.specs.Prelude.{◌≡◌, ◌≤◌, ℕ, length, IfOk, OnOk};
ghost use Rattle.disk_model.specs.Memory.{after_call, after_calls};
ghost use Rattle.disk_model.specs.Crash.{is_in, covers, are_covered, filled_from, succeeds_as_sync, synced_count, crashed};

use crate::bytes::overwrite;
use crate::call::DiskCall;
use std::alloc::{AllocError, Global};

/// What a crash does to what isn't synced.
#[derive(Clone, Copy, Debug, PartialEq, Eq)]
pub enum Crash {
    /// It is lost: what a read gave after the last sync that succeeded is left, or at the start
    /// where there was none.
    Lost,
    /// It is kept: what a read gives is left.
    Kept,
    /// What a read gives is left, with this byte at each place that a write since the last sync
    /// that succeeded covered, a failed write included.
    Filled(u8),
}

/// What a crash of this kind leaves after these calls. The only error is want of memory.
pub(crate) fn crash_image(
    alloc: Global,
    first: &[u8],
    calls: &[DiskCall],
    kind: Crash,
) -> Result<Vec<u8>, AllocError>
    ensures { IfOk result (λ image. image.items ≡ crashed kind first.now calls.now) }
{
    let synced = count_synced(calls);
    match kind {
        Crash::Lost => replay(alloc, first, &calls[..synced]),
        Crash::Kept => replay(alloc, first, calls),
        Crash::Filled(byte) => {
            let kept = replay(alloc, first, calls)?;
            fill(alloc, &kept, &calls[synced..], byte)
        }
    }
}

/// How many of the calls came up to the last sync that succeeded.
fn count_synced(calls: &[DiskCall]) -> usize
    ensures answer { result ≡ synced_count calls.now }
    ensures within { result ≤ length calls.now }
{
    let mut count = 0;
    for (i, call) in calls.iter().enumerate() {
        if is_sync(call) {
            count = i + 1;
        }
    }
    count
}

/// Whether this is a sync that succeeded.
fn is_sync(call: &DiskCall) -> bool
    ensures { result ≡ succeeds_as_sync call.now }
{
    match call {
        DiskCall::Synced => true,
        DiskCall::Looked
        | DiskCall::Wrote(_, _)
        | DiskCall::WriteFailed(_, _)
        | DiskCall::CutOff(_)
        | DiskCall::CutFailed(_) => false,
    }
}

/// What a read gives after these calls.
fn replay(alloc: Global, first: &[u8], calls: &[DiskCall]) -> Result<Vec<u8>, AllocError>
    ensures { IfOk result (λ bytes. bytes.items ≡ after_calls first.now calls.now) }
{
    let mut bytes = Vec::from_slice(alloc, first)?;
    for call in calls {
        redo(&mut bytes, call)?;
    }
    Ok(bytes)
}

/// Does a call again.
fn redo(bytes: &mut Vec<u8>, call: &DiskCall) -> Result<(), AllocError>
    ensures { OnOk result (bytes.new.items ≡ after_call bytes.old.items call.now) }
{
    match call {
        DiskCall::Wrote(at, piece) => overwrite(bytes, *at as usize, piece.as_slice()),
        DiskCall::CutOff(end) => {
            bytes.truncate(*end as usize);
            Ok(())
        }
        DiskCall::Looked
        | DiskCall::WriteFailed(_, _)
        | DiskCall::CutFailed(_)
        | DiskCall::Synced => Ok(()),
    }
}

/// The bytes, with `byte` at each place that a write among the calls covered.
fn fill(alloc: Global, bytes: &[u8], calls: &[DiskCall], byte: u8) -> Result<Vec<u8>, AllocError>
    ensures { IfOk result (λ image. image.items ≡ filled_from 0 (are_covered calls.now) byte bytes.now) }
{
    let mut image = Vec::new(alloc);
    for (i, &kept) in bytes.iter().enumerate() {
        image.push(if is_covered(calls, i) { byte } else { kept })?;
    }
    Ok(image)
}

/// Whether a write among the calls covered this place.
fn is_covered(calls: &[DiskCall], place: usize) -> bool
    ensures { result ≡ are_covered calls.now place }
{
    for call in calls {
        if is_in_range(call, place) {
            return true;
        }
    }
    false
}

/// Whether this is a write that covered the place, done or not.
fn is_in_range(call: &DiskCall, place: usize) -> bool
    ensures { result ≡ covers call.now place }
{
    match call {
        DiskCall::Wrote(at, piece) => is_within(*at as usize, piece.as_slice().len(), place),
        DiskCall::WriteFailed(at, count) => is_within(*at as usize, *count, place),
        DiskCall::Looked | DiskCall::CutOff(_) | DiskCall::CutFailed(_) | DiskCall::Synced => false,
    }
}

/// Whether the place is one of the `count` from `at` on.
fn is_within(at: usize, count: usize, place: usize) -> bool
    ensures { result ≡ is_in at count place }
{
    at <= place && place - at < count
}
