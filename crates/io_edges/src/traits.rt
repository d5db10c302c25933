ghost use Rattle.std.specs.Prelude.{◌≡◌, ℕ, ◌<◌, ◌≤◌, List, Option, length, IfOk};
ghost use Rattle.std.specs.Io.{ReadsAtMost, WritesAtMost};
ghost use Rattle.std.specs.Io.KnownBytes.{Keeps, ReadConsumes, WriteAppends};
ghost use Rattle.io_edges.specs.Causes.{HasCause};

/// A call of an object that was handed in has failed. The object's count of faults rose in that
/// call; a count that stands at 2^64 - 1 stays there and counts as risen.
#[derive(Clone, Copy, Debug, PartialEq, Eq)]
pub struct Failed;

/// What bytes are read from.
pub trait Source {
    /// The bytes that are left, where the source tells them. Once told, they are told after each
    /// call.
    ghost left: { Self → Option (List ℕ) };

    /// How many calls have failed. It never falls.
    ghost faults: { Self → ℕ };

    /// Gives the next bytes into the front of `buf` and answers how many: at least one for a
    /// buffer that isn't empty, unless the input has ended; 0 then is the end.
    ///
    /// `Failed` comes only where the count of faults rose in this call, and leaves the bytes left
    /// as they were.
    fn read(&mut self, buf: &mut [u8]) -> Result<usize, Failed>
        ensures bound { ReadsAtMost result buf.new }
        ensures bytes { ReadConsumes (left self.old) (left self.new) result buf.new }
        ensures cause { HasCause (faults self.old) (faults self.new) result };
}

/// What bytes are written to.
pub trait Sink {
    /// The bytes taken so far, where the sink tells them. Once told, they are told after each
    /// call.
    ghost taken: { Self → Option (List ℕ) };

    /// How many calls have failed. It never falls.
    ghost faults: { Self → ℕ };

    /// Takes a front of `piece` and answers its length: at least one byte where the piece has
    /// one, since taking none then is a fault.
    ///
    /// `Failed` comes only where the count of faults rose in this call, and leaves the bytes taken
    /// as they were.
    fn write(&mut self, piece: &[u8]) -> Result<usize, Failed>
        ensures bound { WritesAtMost result piece.now }
        ensures some { IfOk result (λ n. 0 < length piece.now → 0 < n) }
        ensures bytes { WriteAppends (taken self.old) (taken self.new) result piece.now }
        ensures cause { HasCause (faults self.old) (faults self.new) result };

    /// Hands on what was taken. The bytes taken stay as they were, whatever the answer.
    ///
    /// `Failed` comes only where the count of faults rose in this call.
    fn flush(&mut self) -> Result<(), Failed>
        ensures bytes { Keeps (taken self.old) (taken self.new) }
        ensures cause { HasCause (faults self.old) (faults self.new) result };
}
