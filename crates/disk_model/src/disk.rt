ghost use Rattle.std.specs.Prelude.{◌≡◌, ◌<◌, ◌≤◌, ◌+◌, ◌^◌, ℕ, List, Option, length, take, drop, IfOk, OnOk, IfSome, is_some, option_map};
ghost use Rattle.std.specs.Io.{ReadsAtMost};
ghost use Rattle.io_edges.specs.Causes.{HasCause};
ghost use Rattle.disk_model.specs.Disk.{written, Torn, Cut, Follows, AddsNone, IsSettled, Elapses};

use io_edges::Failed;

/// A file on a disk, as a journal sees it: what a read gives, and what a crash may leave, its
/// images. What the calls do is as POSIX has it; what a crash may leave is a rule of this project.
///
/// Between two syncs each written range, and every byte past the old end, may hold any bytes in an
/// image, and an image may end at any length between the shortest and the longest since the last
/// sync. Bytes that weren't written stay. A write or a cut that fails leaves its range as one that
/// isn't synced. What a read gives is always one of the images.
///
/// Each call that answers `Failed` raised the count of faults, or found it at its end, 2^64 - 1.
pub trait Disk {
    /// The bytes as a read gives them, where the disk tells them. Once told, they are told after
    /// each call.
    ghost told: { Self → Option (List ℕ) };

    /// The images that a crash now may leave.
    ghost may_leave: { Self → List ℕ → Type 0 };

    /// The clock, a number that doesn't fall.
    ghost moment: { Self → ℕ };

    /// The images that a crash at some moment since that one may have left, within a call or
    /// between two.
    ghost left_since: { Self → ℕ → List ℕ → Type 0 };

    /// How many calls have failed. It never falls.
    ghost faults: { Self → ℕ };

    /// How many bytes there are, below 2^63. The bytes stay, and no image is added.
    fn length(&mut self) -> Result<u64, Failed>
        ensures answer { IfOk result (λ n. IfSome (told self.old) (λ bytes. n ≡ length bytes)) }
        ensures within { IfOk result (λ n. n < 2 ^ 63) }
        ensures bytes { told self.new ≡ told self.old }
        ensures images { AddsNone (may_leave self.old) (may_leave self.new) }
        ensures time { Elapses moment left_since may_leave self.old self.new }
        ensures cause { HasCause (faults self.old) (faults self.new) result };

    /// Gives the bytes from `at` on into the front of `buf` and answers how many: as many as `buf`
    /// has room for, fewer only at the end. The bytes stay, and no image is added.
    fn read(&mut self, at: u64, buf: &mut [u8]) -> Result<usize, Failed>
        requires { at < 2 ^ 63 }
        ensures bound { ReadsAtMost result buf.new }
        ensures answer { IfOk result (λ n. IfSome (told self.old) (λ bytes. take n buf.new ≡ take (length buf.new) (drop at bytes))) }
        ensures bytes { told self.new ≡ told self.old }
        ensures images { AddsNone (may_leave self.old) (may_leave self.new) }
        ensures time { Elapses moment left_since may_leave self.old self.new }
        ensures cause { HasCause (faults self.old) (faults self.new) result };

    /// Writes over the bytes from `at` on, and past the end, as `write` of POSIX at that offset does.
    /// `at` is at most the length, where the bytes are told.
    fn write_at(&mut self, at: u64, piece: &[u8]) -> Result<(), Failed>
        requires begins { IfSome (told self.old) (λ bytes. at ≤ length bytes) }
        requires within { at + length piece.now < 2 ^ 63 }
        ensures done { OnOk result (told self.new ≡ option_map (written at piece.now) (told self.old)) }
        ensures tells { is_some (told self.new) ≡ is_some (told self.old) }
        ensures images { Follows (Torn at (length piece.now)) (may_leave self.old) (may_leave self.new) }
        ensures time { Elapses moment left_since may_leave self.old self.new }
        ensures cause { HasCause (faults self.old) (faults self.new) result };

    /// Cuts the bytes off from `end` on, as `ftruncate` of POSIX does. `end` is at most the length,
    /// where the bytes are told.
    fn cut(&mut self, end: u64) -> Result<(), Failed>
        requires ends { IfSome (told self.old) (λ bytes. end ≤ length bytes) }
        requires within { end < 2 ^ 63 }
        ensures done { OnOk result (told self.new ≡ option_map (take end) (told self.old)) }
        ensures tells { is_some (told self.new) ≡ is_some (told self.old) }
        ensures images { Follows (Cut end) (may_leave self.old) (may_leave self.new) }
        ensures time { Elapses moment left_since may_leave self.old self.new }
        ensures cause { HasCause (faults self.old) (faults self.new) result };

    /// Makes the bytes and the length last, as `fsync` of POSIX does: afterwards an image is what a
    /// read gives. The bytes stay, and no image is added; where it fails, it doesn't count as a sync.
    fn sync(&mut self) -> Result<(), Failed>
        ensures done { OnOk result (IsSettled told may_leave self.new) }
        ensures bytes { told self.new ≡ told self.old }
        ensures images { AddsNone (may_leave self.old) (may_leave self.new) }
        ensures time { Elapses moment left_since may_leave self.old self.new }
        ensures cause { HasCause (faults self.old) (faults self.new) result };

    /// This moment is one of those since an earlier one.
    ghost counts_now: { (disk : Self) (t : ℕ) (image : List ℕ) → t ≤ moment disk → may_leave disk image → left_since disk t image };

    /// Since this moment there was no other.
    ghost only_now: { (disk : Self) (image : List ℕ) → left_since disk (moment disk) image → may_leave disk image };

    /// What a read gives is one of the images.
    ghost reads_an_image: { (disk : Self) → IfSome (told disk) (may_leave disk) };
}
