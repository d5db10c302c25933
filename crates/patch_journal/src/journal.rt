ghost use Rattle.std.specs.Prelude.{◌≡◌, ◌+◌, ◌-◌, ◌<◌, ◌≤◌, ◌^◌};
ghost use Rattle.journal_bytes.specs.Files.{CanStart, behind as behind_of, area_spot};
ghost use Rattle.patch_journal.specs.Journal.{is_one as is_one_of, is_due as is_due_of, base_of};

use journal_bytes::{Format, Slots};
use std::marker::Model;

/// Where a journal's chain of records ends.
///
/// A contract sees the format of its records, how many of them there are behind the header or the present area, where the
/// closed gate stands, where the first of their gates stands, and the slots.
#[derive(Drop)]
pub struct Journal {
    pub(crate) format: Format,
    pub(crate) records: u64,
    pub(crate) gate: u64,
    pub(crate) first: u64,
    pub(crate) slots: Option<Slots>,
}

impl Model for Journal {
    ghost use Rattle.journal_bytes.specs.Files.{Spot, IsWithin};

    ghost Value = { Spot };

    ghost view = { λ j. record { format = j.format; records = j.records; gate = j.gate; first = j.first; slots = j.slots } };

    ghost invariant = { λ j. IsWithin (record { format = j.format; records = j.records; gate = j.gate; first = j.first; slots = j.slots }) };
}

impl Journal {
    /// The closed gate. It takes no memory.
    pub fn place(&self) -> u64
        ensures { result ≡ self.now.gate }
    {
        self.gate
    }

    /// How many records there are behind the header, or behind the present area. It takes no memory.
    pub fn records(&self) -> u64
        ensures { result ≡ self.now.records }
    {
        self.records
    }

    /// The slots and the area of which the present one says where it stands, or None exactly where there is no record of
    /// slots. It takes no memory.
    pub fn slots(&self) -> Option<Slots>
        ensures { result ≡ self.now.slots }
    {
        self.slots
    }

    /// Whether a checkpoint is due: the records are of format 1, or they take more than 2^20 bytes and more than the header's
    /// state, or, where there is one, than the present area. It takes no memory.
    pub fn due(&self) -> bool
        ensures { result ≡ is_due_of self.now }
    {
        let taken = self.gate - self.first;
        is_one(self.format) || (taken > 1 << 20 && taken > base(&self.slots, self.first))
    }

    /// The journal without records whose closed gate is the last byte of the present area. It takes no memory.
    ///
    /// The slots' number is at most 3, `at` at most 3 * 10^18, the start from 21 behind it to 2^62 + 2^60, and the area's
    /// length from 1 to 2^32. Every record of slots of a made file is within this.
    pub fn moved(self, slots: Slots) -> Journal
        requires { CanStart slots }
        ensures { result ≡ area_spot slots }
    {
        let gate = slots.start + slots.bytes - 1;
        Journal {
            format: slots.format,
            records: 0,
            gate,
            first: gate,
            slots: Some(slots),
        }
    }

    /// The journal behind a record of so many bytes, of which the last is its gate.
    pub(crate) fn behind(self, size: usize) -> Journal
        requires room { self.records < 2 ^ 36 }
        requires short { size < 39000000 }
        ensures { result ≡ behind_of self size }
    {
        Journal {
            format: self.format,
            records: self.records + 1,
            gate: self.gate + size as u64,
            first: self.first,
            slots: self.slots,
        }
    }
}

fn is_one(format: Format) -> bool
    ensures { result ≡ is_one_of format }
{
    match format {
        Format::One => true,
        Format::Two => false,
    }
}

/// What the records are measured by.
fn base(slots: &Option<Slots>, first: u64) -> u64
    ensures { result ≡ base_of slots.now first }
{
    match slots {
        Some(slots) => slots.bytes,
        None => first.saturating_sub(14),
    }
}
