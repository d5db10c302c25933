ghost use Rattle.std.specs.Prelude.{◌≡◌, ◌+◌, ◌<◌, ◌≤◌, ◌^◌, Some, OnOk, IfSome, length, is_some};
ghost use Rattle.io_edges.specs.Causes.{HasCause};
ghost use Rattle.disk_model.specs.Disk.{LeavesOnly};
ghost use Rattle.journal_bytes.specs.Files.{Place};
ghost use Rattle.patch_journal.specs.Journal.{Stands, IsOneOf, LeadsTo};

use disk_model::{Disk, write_through};
use io_edges::Failed;

/// Writes bytes behind the closed gate and makes them last, and then opens the gate and makes that last.
pub(crate) fn append_at<D: Disk>(disk: &mut D, gate: u64, bytes: &[u8]) -> Result<(), Failed>
    requires begins { IfSome (D.told disk.old) (λ file. length file ≡ gate + 1) }
    requires within { gate + 1 + length bytes.now < 2 ^ 63 }
    ensures any_moment { (p q : Place) → p.spot.gate ≡ gate → Stands D.told D.may_leave disk.old p → LeadsTo p bytes.now q
        → LeavesOnly D.moment D.left_since D.may_leave disk.old disk.new (IsOneOf p.history q.history) }
    ensures lasts { OnOk result ((p q : Place) → p.spot.gate ≡ gate → Stands D.told D.may_leave disk.old p → LeadsTo p bytes.now q → Stands D.told D.may_leave disk.new q) }
    ensures tells { is_some (D.told disk.new) ≡ is_some (D.told disk.old) }
    ensures later { D.moment disk.old ≤ D.moment disk.new }
    ensures cause { HasCause (D.faults disk.old) (D.faults disk.new) result }
{
    write_through(disk, gate + 1, bytes)?;
    write_through(disk, gate, &[1])?;
    Ok(())
}
