ghost use Rattle.std.specs.Prelude.{◌≡◌, ◌+◌, ◌<◌, ◌≤◌, ◌^◌, IfOk, IfErr, IfSome, length, is_some};
ghost use Rattle.io_edges.specs.Causes.{HasCause};
ghost use Rattle.disk_model.specs.Disk.{LeavesOnly};
ghost use Rattle.journal_bytes.specs.declared.change.Change.{Change as ChangeModel};
ghost use Rattle.journal_bytes.specs.History.{History, changed};
ghost use Rattle.journal_bytes.specs.Files.{placed, behind, behind_change};
ghost use Rattle.patch_journal.specs.Journal.{Stands, IsOneOf, IsReady};

use crate::journal::Journal;
use crate::write::append_at;
use disk_model::Disk;
use io_edges::Failed;
use std::marker::Model;
use value_bytes::Bytes;

/// A journal with a record that is ready to be appended.
#[derive(Drop)]
pub struct Ready {
    pub(crate) journal: Journal,
    pub(crate) bytes: Bytes,
}

impl Model for Ready {
    ghost use Rattle.std.specs.Prelude.{length, ◌<◌, ◌≤◌, ◌^◌};
    ghost use Rattle.patch_journal.specs.Journal.{ReadyState};

    ghost Value = { ReadyState };

    ghost view = { λ r. record { spot = r.journal; bytes = r.bytes } };

    ghost invariant = { λ r. (r.journal.records < 2 ^ 36) × (6 ≤ length r.bytes) × (length r.bytes < 39000000) };
}

impl Ready {
    /// Appends the record: it is written behind the closed gate and made to last, and then the gate is opened. It takes no
    /// memory.
    ///
    /// Where the disk tells its bytes, it is settled and stands, with this journal, for a history on which the change is
    /// allowed. A crash within the call leaves that history, or that with the change. `Failed` comes only where the disk's
    /// count of faults rose in this call; then there is no journal.
    pub fn append<D: Disk>(self, disk: &mut D) -> Result<Journal, Failed>
        requires { IfSome (D.told disk.old) (λ file. length file ≡ self.spot.gate + 1) }
        ensures any_moment { (h k : History) (c : ChangeModel) → Stands D.told D.may_leave disk.old (placed self.spot h) → IsReady self c → changed c h ≡ Some k
            → LeavesOnly D.moment D.left_since D.may_leave disk.old disk.new (IsOneOf h k) }
        ensures lasts { IfOk result (λ j. (h k : History) (c : ChangeModel) → Stands D.told D.may_leave disk.old (placed self.spot h) → IsReady self c → changed c h ≡ Some k
            → Stands D.told D.may_leave disk.new (placed j k)) }
        ensures spot { IfOk result (λ j. (c : ChangeModel) → IsReady self c → j ≡ behind_change self.spot c) }
        ensures counts { IfOk result (λ j. j.records ≡ self.spot.records + 1) }
        ensures tells { is_some (D.told disk.new) ≡ is_some (D.told disk.old) }
        ensures later { D.moment disk.old ≤ D.moment disk.new }
        ensures cause { HasCause (D.faults disk.old) (D.faults disk.new) result }
    {
        let Ready { journal, bytes } = self;
        append_at(disk, journal.place(), bytes.as_slice())?;
        Ok(journal.behind(bytes.len()))
    }

    /// The journal as it was before `pack`. It takes no memory.
    pub fn back(self) -> Journal
        ensures { result ≡ self.spot }
    {
        self.journal
    }
}
