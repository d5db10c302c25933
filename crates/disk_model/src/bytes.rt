ghost use Rattle.std.specs.Prelude.{◌≡◌, ◌≤◌, length, take, drop, OnOk, OnErr};
ghost use Rattle.disk_model.specs.Disk.{written};

use std::alloc::AllocError;

/// Copies bytes from the place `at` on: as many as there is room for, fewer only at the end.
pub(crate) fn copy_from(bytes: &[u8], at: usize, buf: &mut [u8]) -> usize
    ensures bound { result ≤ length buf.new }
    ensures copied { take result buf.new ≡ take (length buf.new) (drop at bytes.now) }
{
    let at = at.min(bytes.len());
    copy_front(&bytes[at..], buf)
}

/// Copies as many bytes as there are, or as there is room for.
fn copy_front(bytes: &[u8], buf: &mut [u8]) -> usize
    ensures bound { result ≤ length buf.new }
    ensures copied { take result buf.new ≡ take (length buf.new) bytes.now }
{
    let count = bytes.len().min(buf.len());
    buf[..count].copy_from_slice(&bytes[..count]);
    count
}

/// Puts a piece over the bytes from `at` on, or from their end where that comes first, and past
/// their end.
pub(crate) fn overwrite(bytes: &mut Vec<u8>, at: usize, piece: &[u8]) -> Result<(), AllocError>
    ensures ok { OnOk result (bytes.new.items ≡ written at piece.now bytes.old.items) }
    ensures err { OnErr result (bytes.new.items ≡ bytes.old.items) }
{
    let from = at.min(bytes.len());
    let overlap = piece.len().min(bytes.len() - from);
    bytes.extend_from_slice(&piece[overlap..])?;
    bytes[from..from + overlap].copy_from_slice(&piece[..overlap]);
    Ok(())
}
