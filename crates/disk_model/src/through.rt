ghost use Rattle.std.specs.Prelude.{◌≡◌, ◌<◌, ◌≤◌, ◌+◌, ◌^◌, ℕ, List, Some, length, take, OnOk, IfSome, is_some, option_map};
ghost use Rattle.io_edges.specs.Causes.{HasCause};
ghost use Rattle.disk_model.specs.Disk.{written, Torn, TornTwice, Cut, IsSettled, LeavesOnly};

use crate::disk::Disk;
use io_edges::Failed;

/// Writes a piece from `at` on, and makes it last: after `Ok` each crash leaves the bytes with the
/// piece in them. Where the disk is settled before (a crash leaves what a read gives), a crash
/// within the call leaves any bytes in its place and the others as they were, whatever the answer.
///
/// `Failed` comes only where the disk's count of faults rose in this call.
pub fn write_through<D: Disk>(disk: &mut D, at: u64, piece: &[u8]) -> Result<(), Failed>
    requires begins { IfSome (D.told disk.old) (λ bytes. at ≤ length bytes) }
    requires within { at + length piece.now < 2 ^ 63 }
    ensures done { OnOk result (D.told disk.new ≡ option_map (written at piece.now) (D.told disk.old)) }
    ensures lasts { OnOk result (IsSettled D.told D.may_leave disk.new) }
    ensures any_moment { (bytes : List ℕ) → D.told disk.old ≡ Some bytes → IsSettled D.told D.may_leave disk.old
        → LeavesOnly D.moment D.left_since D.may_leave disk.old disk.new (Torn at (length piece.now) bytes) }
    ensures tells { is_some (D.told disk.new) ≡ is_some (D.told disk.old) }
    ensures later { D.moment disk.old ≤ D.moment disk.new }
    ensures cause { HasCause (D.faults disk.old) (D.faults disk.new) result }
{
    disk.write_at(at, piece)?;
    disk.sync()
}

/// Writes two pieces, each from a place within the bytes on, and makes them last together: after `Ok` each crash leaves the
/// bytes with both in them. Where the disk is settled before (a crash leaves what a read gives), a crash within the call
/// leaves any bytes in their places and the others as they were, whatever the answer.
///
/// `Failed` comes only where the disk's count of faults rose in this call.
pub fn write_two_through<D: Disk>(
    disk: &mut D,
    first_at: u64,
    first: &[u8],
    second_at: u64,
    second: &[u8],
) -> Result<(), Failed>
    requires begins { IfSome (D.told disk.old) (λ bytes. first_at ≤ length bytes) }
    requires second_begins { IfSome (D.told disk.old) (λ bytes. second_at ≤ length bytes) }
    requires within { first_at + length first.now < 2 ^ 63 }
    requires second_within { second_at + length second.now < 2 ^ 63 }
    ensures done { OnOk result (D.told disk.new ≡ option_map (λ bytes. written second_at second.now (written first_at first.now bytes)) (D.told disk.old)) }
    ensures lasts { OnOk result (IsSettled D.told D.may_leave disk.new) }
    ensures any_moment { (bytes : List ℕ) → D.told disk.old ≡ Some bytes → IsSettled D.told D.may_leave disk.old
        → LeavesOnly D.moment D.left_since D.may_leave disk.old disk.new (TornTwice first_at (length first.now) second_at (length second.now) bytes) }
    ensures tells { is_some (D.told disk.new) ≡ is_some (D.told disk.old) }
    ensures later { D.moment disk.old ≤ D.moment disk.new }
    ensures cause { HasCause (D.faults disk.old) (D.faults disk.new) result }
{
    disk.write_at(first_at, first)?;
    disk.write_at(second_at, second)?;
    disk.sync()
}

/// Cuts the bytes off from `end` on, and makes that last: after `Ok` each crash leaves the bytes
/// before `end`. Where the disk is settled before (a crash leaves what a read gives), a crash
/// within the call leaves an end somewhere between, whatever the answer.
///
/// `Failed` comes only where the disk's count of faults rose in this call.
pub fn cut_through<D: Disk>(disk: &mut D, end: u64) -> Result<(), Failed>
    requires ends { IfSome (D.told disk.old) (λ bytes. end ≤ length bytes) }
    requires within { end < 2 ^ 63 }
    ensures done { OnOk result (D.told disk.new ≡ option_map (take end) (D.told disk.old)) }
    ensures lasts { OnOk result (IsSettled D.told D.may_leave disk.new) }
    ensures any_moment { (bytes : List ℕ) → D.told disk.old ≡ Some bytes → IsSettled D.told D.may_leave disk.old
        → LeavesOnly D.moment D.left_since D.may_leave disk.old disk.new (Cut end bytes) }
    ensures tells { is_some (D.told disk.new) ≡ is_some (D.told disk.old) }
    ensures later { D.moment disk.old ≤ D.moment disk.new }
    ensures cause { HasCause (D.faults disk.old) (D.faults disk.new) result }
{
    disk.cut(end)?;
    disk.sync()
}
